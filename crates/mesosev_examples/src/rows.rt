//! The example rows, one on each line: a name, ` => `, and the example to run. In streams, heads
//! and logs `|` represents CR LF and `~` LF. The steps of sessions and masters are separated by `;
//! `.

/// All example rows. The rows are one text because the proof checker takes time for each element of
/// an array, but not for a line of a text.
pub(crate) const ROWS: &str = r#"heartbeat checked => stream plain 20~{"type":"HEARTBEAT"}
nothing checked => stream plain
two records => stream plain 20~{"type":"HEARTBEAT"}147~{"type":"UPDATE","update":{"status":{"task_id":{"value":"T1"},"state":"TASK_RUNNING","agent_id":{"value":"A1"},"uuid":"AAECAwQFBgcICQoLDA0ODw=="}}}
record without data => stream plain 0~
record without data after a heartbeat => stream plain 20~{"type":"HEARTBEAT"}0~
first half of a pair alone => stream plain 34~{"type":"HEARTBEAT","x":"\ud800x"}
second half of a pair alone => stream plain 33~{"type":"HEARTBEAT","x":"\udc00"}
size line of twenty digits => stream plain 00000000000000000020~{"type":"HEARTBEAT"}
size line of twenty-one digits => stream plain 000000000000000000020~{"type":"HEARTBEAT"}
size line without a digit => stream plain x
body without data => stream chunked 0||
no body => stream chunked
body that ends inside a record => stream chunked 2|5~|0||
input that ends inside a chunk => stream chunked 5|20~
bytes after a body => stream chunked 0||XYZ
chunk line without a digit => stream chunked g
chunk line that ends by a bare line feed => stream chunked 1~
chunk size of seventeen digits => stream chunked 10000000000000000
chunk with more data than its size => stream chunked 1|2X
heartbeat at the limit => stream limit-20 20~{"type":"HEARTBEAT"}
heartbeat above the limit => stream limit-19 20~{"type":"HEARTBEAT"}
no read allowed => stream reads-0 17|20~{"type":"HEARTBEAT"}|0||
one read allowed => stream reads-1 17|20~{"type":"HEARTBEAT"}|0||
chunk line of 257 bytes => stream long-line
trailers of 4,097 bytes => stream long-trailers
body a byte a piece => pieces single 1|2|1|0|1|~|1|{|1|"|1|t|1|y|1|p|1|e|1|"|1|:|1|"|1|H|1|E|1|A|1|R|1|T|1|B|1|E|1|A|1|T|1|"|1|}|0||
record after another, a byte a piece => pieces single 17|20~{"type":"HEARTBEAT"}|97|147~{"type":"UPDATE","update":{"status":{"task_id":{"value":"T1"},"state":"TASK_RUNNING","agent_id":{"value":"A1"},"uuid":"AAECAwQFBgcICQoLDA0ODw=="}}}|0||
piece with two records => pieces whole 33|20~{"type":"HEARTBEAT"}20~{"type":"HEARTBEAT"}20~{"
heartbeat => event {"type":"HEARTBEAT"}
update of an unknown state => event {"type":"UPDATE","update":{"status":{"task_id":{"value":"T1"},"state":"TASK_PAUSED"}}}
update without a state => event {"type":"UPDATE","update":{"status":{"task_id":{"value":"T1"}}}}
event of another type => event {"type":"INVERSE_OFFERS","inverse_offers":{"inverse_offers":[]}}
offers as a bare array => event {"type":"OFFERS","offers":[{"id":{"value":"O1"},"framework_id":{"value":"F1"},"agent_id":{"value":"A1"},"hostname":"h"}]}
message given twice => event {"type":"ERROR","error":{"message":"a","message":"a"}}
unknown member given twice => event {"type":"HEARTBEAT","x":1,"x":2}
status that is null => event {"type":"FAILURE","failure":{"status":null}}
update that owes => event {"type":"UPDATE","update":{"status":{"task_id":{"value":"T1"},"state":"TASK_RUNNING","agent_id":{"value":"A1"},"uuid":"AAECAwQFBgcICQoLDA0ODw=="}}}
event of another type above the limit => short {"type":"INVERSE_OFFERS","inverse_offers":{"inverse_offers":[]}}
revive with a body => call {"type":"REVIVE","framework_id":{"value":"F1"},"revive":{}}
operation that is no launch => call {"type":"ACCEPT","framework_id":{"value":"F1"},"accept":{"offer_ids":[{"value":"O1"}],"operations":[{"type":"RESERVE","reserve":{}}]}}
thousandths => numbers 1.0005 1.0004999 5e-4 4.9e-4 -0.0 0e999 1000000000000000.0004 1000000000000000.0005 1e999 -1
resource => resource {"name":"disk","type":"SCALAR","scalar":{"value":10},"role":"*","reservations":[{"type":"DYNAMIC","role":"web","principal":"p","labels":{"labels":[{"key":"k"}]}}],"disk":{"volume":0.10},"shared":{}}
arrays as deep as the limit => nested deep
arrays as deep as the limit, as an event => nested deep-event
arrays as deep as the limit, by the byte => nested deep-bytes
arrays deeper than the limit => nested deeper
arrays deeper than the limit, by the byte => nested deeper-bytes
heartbeat written => write plain
heartbeat written in chunks of one byte => write chunks
writer that fails => write failing 20~{"type":"HEARTBEAT"}
head of a stream written => write stream-head
head of a response written => write answer-head
request written => write request {"type":"REVIVE","framework_id":{"value":"F1"}}
head of a stream => head stream HTTP/1.1 200 OK|Content-Type: application/json|Transfer-Encoding: chunked|Mesos-Stream-Id: s1||
head without a stream's id => head stream HTTP/1.1 200 OK|Content-Type: application/json|Transfer-Encoding: chunked||
head of a refusal => head stream HTTP/1.1 403 Forbidden|Content-Type: application/json|Transfer-Encoding: chunked|Mesos-Stream-Id: s1||
head of a response => head answer HTTP/1.1 202 Accepted|Content-Length: 0|Connection: close||
request => head request POST /api/v1/scheduler HTTP/1.1|Host: 127.0.0.1:5050|Content-Type: application/json|Accept: application/json|Mesos-Stream-Id: s1|Connection: close|Content-Length: 47||{"type":"REVIVE","framework_id":{"value":"F1"}}
update acknowledged => session hear SUBSCRIBED; hear UPDATE; held; make ACKNOWLEDGE; held; make ACKNOWLEDGE; held; hear UPDATE; held
offers received after others => session hear SUBSCRIBED; hear OFFER; held; hear FULL; held; hear TWO_OFFERS; held; hear {"type":"RESCIND","rescind":{"offer_id":{"value":"O1"}}}; held
updates received after others => session hear SUBSCRIBED; hear OFFER; hear UPDATE; hear LONG_UPDATE; held; hear UPDATE; held; make LONG_ACKNOWLEDGE; held
subscribed once more => session hear SUBSCRIBED; hear FULL; hear LONG_UPDATE; held; hear {"type":"SUBSCRIBED","subscribed":{"framework_id":{"value":"framework-of-a-long-identifier"}}}; held
update that requires no acknowledgement => session hear SUBSCRIBED; hear {"type":"UPDATE","update":{"status":{"task_id":{"value":"T1"},"state":"TASK_RUNNING","agent_id":{"value":"A1"}}}}; held
tasks that fit their offer => session hear SUBSCRIBED; hear PROCESSORS; held; make {"type":"ACCEPT","framework_id":{"value":"F1"},"accept":{"offer_ids":[{"value":"O1"}],"operations":[{"type":"LAUNCH","launch":{"task_infos":[{"name":"t","task_id":{"value":"T1"},"agent_id":{"value":"A1"},"resources":[{"name":"cpus","type":"SCALAR","scalar":{"value":0.6}}]},{"name":"t","task_id":{"value":"T2"},"agent_id":{"value":"A1"},"resources":[{"name":"cpus","type":"SCALAR","scalar":{"value":0.5}}]}]}}]}}; held
tasks that ask for a thousandth too much => session hear SUBSCRIBED; hear PROCESSORS; make {"type":"ACCEPT","framework_id":{"value":"F1"},"accept":{"offer_ids":[{"value":"O1"}],"operations":[{"type":"LAUNCH","launch":{"task_infos":[{"name":"t","task_id":{"value":"T1"},"agent_id":{"value":"A1"},"resources":[{"name":"cpus","type":"SCALAR","scalar":{"value":0.6}}]},{"name":"t","task_id":{"value":"T2"},"agent_id":{"value":"A1"},"resources":[{"name":"cpus","type":"SCALAR","scalar":{"value":0.501}}]}]}}]}}; held
tasks that ask for one port twice => session hear SUBSCRIBED; hear PORTS; make {"type":"ACCEPT","framework_id":{"value":"F1"},"accept":{"offer_ids":[{"value":"O1"}],"operations":[{"type":"LAUNCH","launch":{"task_infos":[{"name":"t","task_id":{"value":"T1"},"agent_id":{"value":"A1"},"resources":[{"name":"ports","type":"RANGES","ranges":{"range":[{"begin":31000,"end":31001}]}}]},{"name":"t","task_id":{"value":"T2"},"agent_id":{"value":"A1"},"resources":[{"name":"ports","type":"RANGES","ranges":{"range":[{"begin":31001,"end":31002}]}}]}]}}]}}; held
revive => session hear SUBSCRIBED; hear OFFER; make {"type":"REVIVE","framework_id":{"value":"F1"}}; held
decline => session hear SUBSCRIBED; hear OFFER; make {"type":"DECLINE","framework_id":{"value":"F1"},"decline":{"offer_ids":[{"value":"O1"}]}}; held
kill => session hear SUBSCRIBED; hear OFFER; make {"type":"KILL","framework_id":{"value":"F1"},"kill":{"task_id":{"value":"T1"}}}; held
reconcile => session hear SUBSCRIBED; hear OFFER; make {"type":"RECONCILE","framework_id":{"value":"F1"},"reconcile":{}}; held
teardown => session hear SUBSCRIBED; hear OFFER; make {"type":"TEARDOWN","framework_id":{"value":"F1"}}; held
suppress => session hear SUBSCRIBED; hear OFFER; make {"type":"SUPPRESS","framework_id":{"value":"F1"}}; held
shutdown => session hear SUBSCRIBED; hear OFFER; make {"type":"SHUTDOWN","framework_id":{"value":"F1"},"shutdown":{"executor_id":{"value":"E1"},"agent_id":{"value":"A1"}}}; held
message => session hear SUBSCRIBED; hear OFFER; make {"type":"MESSAGE","framework_id":{"value":"F1"},"message":{"agent_id":{"value":"A1"},"executor_id":{"value":"E1"},"data":"Zm9v"}}; held
revive before a stream => session make {"type":"REVIVE","framework_id":{"value":"F1"}}; held
decline before a stream => session make {"type":"DECLINE","framework_id":{"value":"F1"},"decline":{"offer_ids":[{"value":"O1"}]}}; held
kill before a stream => session make {"type":"KILL","framework_id":{"value":"F1"},"kill":{"task_id":{"value":"T1"}}}; held
reconcile before a stream => session make {"type":"RECONCILE","framework_id":{"value":"F1"},"reconcile":{}}; held
teardown before a stream => session make {"type":"TEARDOWN","framework_id":{"value":"F1"}}; held
subscribe => session make SUBSCRIBE; held
offer accepted again => master call SUBSCRIBE; held; event OFFER; held; call ACCEPT; held; call ACCEPT; held; call SUBSCRIBE; held; call ACCEPT; held; rescind O1
update sent again => master call SUBSCRIBE; held; resend 0; event UPDATE; event UPDATE; resend 0
offers made after others => master call SUBSCRIBE; event OFFER; held; event FULL; held; note OTHER_OFFER; held; note TWO_OFFERS; rescind O1; held
updates sent after others => master call SUBSCRIBE; event UPDATE; event LONG_UPDATE; note LATER_UPDATE; note UPDATE; resend 0; resend 1; resend 2; resend 3; held
acknowledgements accepted => master call SUBSCRIBE; call ACKNOWLEDGE; held; event UPDATE; event LONG_UPDATE; call ACKNOWLEDGE; held; call LONG_ACKNOWLEDGE; held; call ACKNOWLEDGE; held; resend 0
statuses sent again => master call SUBSCRIBE; event UPDATE; event LONG_UPDATE; event LATER_UPDATE; call {"type":"RECONCILE","framework_id":{"value":"F1"},"reconcile":{}}; call {"type":"RECONCILE","framework_id":{"value":"F1"},"reconcile":{"tasks":[{"task_id":{"value":"task-of-a-long-identifier"}},{"task_id":{"value":"T9"}}]}}; held
tasks launched after others => master call SUBSCRIBE; event OFFER; call ACCEPT; event FULL; held; call ACCEPT_FULL; held
calls that note nothing => master call REVIVE; held; call SUBSCRIBE; event OFFER; call REVIVE; held; call DECLINE; held; call {"type":"TEARDOWN","framework_id":{"value":"F1"}}; held; call SUBSCRIBE; event OFFER
log replayed => log replay 67~E{"type":"SUBSCRIBED","subscribed":{"framework_id":{"value":"F1"}}}
log with a call => log replay 67~E{"type":"SUBSCRIBED","subscribed":{"framework_id":{"value":"F1"}}}133~E{"type":"OFFERS","offers":{"offers":[{"id":{"value":"O1"},"framework_id":{"value":"F1"},"agent_id":{"value":"A1"},"hostname":"h"}]}}148~E{"type":"UPDATE","update":{"status":{"task_id":{"value":"T1"},"state":"TASK_RUNNING","agent_id":{"value":"A1"},"uuid":"AAECAwQFBgcICQoLDA0ODw=="}}}154~C{"type":"ACKNOWLEDGE","framework_id":{"value":"F1"},"acknowledge":{"agent_id":{"value":"A1"},"task_id":{"value":"T1"},"uuid":"AAECAwQFBgcICQoLDA0ODw=="}}
log with a disconnection => log replay 1~267~E{"type":"SUBSCRIBED","subscribed":{"framework_id":{"value":"F1"}}}133~E{"type":"OFFERS","offers":{"offers":[{"id":{"value":"O1"},"framework_id":{"value":"F1"},"agent_id":{"value":"A1"},"hostname":"h"}]}}1~B148~E{"type":"UPDATE","update":{"status":{"task_id":{"value":"T1"},"state":"TASK_RUNNING","agent_id":{"value":"A1"},"uuid":"AAECAwQFBgcICQoLDA0ODw=="}}}
log with a call that is refused => log replay 67~E{"type":"SUBSCRIBED","subscribed":{"framework_id":{"value":"F1"}}}133~E{"type":"OFFERS","offers":{"offers":[{"id":{"value":"O1"},"framework_id":{"value":"F1"},"agent_id":{"value":"A1"},"hostname":"h"}]}}90~C{"type":"DECLINE","framework_id":{"value":"F1"},"decline":{"offer_ids":[{"value":"O1"}]}}90~C{"type":"DECLINE","framework_id":{"value":"F1"},"decline":{"offer_ids":[{"value":"O1"}]}}
log with an unknown letter => log replay 1~X
log with an unknown letter after an entry => log replay 67~E{"type":"SUBSCRIBED","subscribed":{"framework_id":{"value":"F1"}}}1~X
log written again => log write 67~E{"type":"SUBSCRIBED","subscribed":{"framework_id":{"value":"F1"}}}
log with a call written again => log write 67~E{"type":"SUBSCRIBED","subscribed":{"framework_id":{"value":"F1"}}}133~E{"type":"OFFERS","offers":{"offers":[{"id":{"value":"O1"},"framework_id":{"value":"F1"},"agent_id":{"value":"A1"},"hostname":"h"}]}}148~E{"type":"UPDATE","update":{"status":{"task_id":{"value":"T1"},"state":"TASK_RUNNING","agent_id":{"value":"A1"},"uuid":"AAECAwQFBgcICQoLDA0ODw=="}}}154~C{"type":"ACKNOWLEDGE","framework_id":{"value":"F1"},"acknowledge":{"agent_id":{"value":"A1"},"task_id":{"value":"T1"},"uuid":"AAECAwQFBgcICQoLDA0ODw=="}}"#;
