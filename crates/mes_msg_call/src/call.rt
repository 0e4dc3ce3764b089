//! A call of the scheduler API. The bodies are in the crate `mes_msg_call_body`.
ghost use Rattle.std.specs.Prelude.{◌≡◌, ◌+◌, ◌≤◌, [], ◌∷◌, ◌++◌, None, Ok, Err, length, codes, IfOk, IfErr, OnOk, MatchResult};
ghost use Rattle.mes_model_schema.specs.Tree.{Members};
ghost use Rattle.mes_model_schema.specs.Tree.Tree.{string};
ghost use Rattle.mes_model_schema.specs.View.{view};
ghost use Rattle.mes_model_schema.specs.Choices.{type_name};
ghost use Rattle.mes_model_schema.specs.Fields.{values_named};
ghost use Rattle.mes_model_schema.specs.FoundRows.{IsFound};
ghost use Rattle.mes_model_schema.specs.Kinds.{Returns};
ghost use Rattle.mes_model_schema.specs.Parts.{Gives, IsFirstFault};
ghost use Rattle.mes_model_schema.specs.Paths.{Place, IsPlace};
ghost use Rattle.mes_model_schema.specs.Written.{pairs_view, Continues};
ghost use Rattle.mes_model_resource.specs.Ids.{id};
ghost use Rattle.mes_msg_call.specs.Calls.{call, call_rows, with_body, without_body};
ghost use Rattle.mes_msg_record.specs.Texts.{IsTextOf, IsFaultOf, canonical_of, Fits, IsRefusalOf};

use crate::call_text::{append_call, append_head, append_subscribe, call_reads_back};
use mes_frame::Limit;
use mes_model_resource::Id;
use mes_model_schema::back::some_reads_back;
use mes_model_schema::json::{self, Element, NoMemory, Text};
use mes_model_schema::{
    Choice, FieldFaultKind, Found, MAX_PATH_STEPS, Part, PartFault, Path, PathBuilder, copy_some,
    left_out, optional, push_optional_tree, push_type_tree, put, read_part, read_typed, required,
    type_of, type_refusal, typed_text, typed_tree,
};
use mes_msg_call_body::{Accept, Acknowledge, Decline, Kill, Reconcile, Shutdown, Subscribe};
use mes_msg_record::{EncodeFault, Message, RecordFault, canonical_bytes, read_bytes};
use std::alloc::Global;

/// A call of the scheduler API (scheduler.proto, `Call`), with the framework that sends the call.
#[derive(Debug, Drop)]
pub enum Call {
    /// SUBSCRIBE: the framework subscribes or resubscribes.
    Subscribe {
        /// The identifier of the framework, if the framework has subscribed before.
        framework_id: Option<Id>,
        /// The description of the framework.
        body: Subscribe,
    },
    /// ACCEPT: accepts offers.
    Accept {
        /// The framework that sends the call.
        framework_id: Id,
        /// The accepted offers, and the operations on their resources.
        body: Accept,
    },
    /// DECLINE: declines offers.
    Decline {
        /// The framework that sends the call.
        framework_id: Id,
        /// The declined offers.
        body: Decline,
    },
    /// REVIVE: asks for offers again, also of declined resources.
    Revive {
        /// The framework that sends the call.
        framework_id: Id,
    },
    /// KILL: kills a task.
    Kill {
        /// The framework that sends the call.
        framework_id: Id,
        /// The task to kill.
        body: Kill,
    },
    /// ACKNOWLEDGE: acknowledges a status update of a task.
    Acknowledge {
        /// The framework that sends the call.
        framework_id: Id,
        /// The status update that is acknowledged.
        body: Acknowledge,
    },
    /// RECONCILE: asks for the states of tasks.
    Reconcile {
        /// The framework that sends the call.
        framework_id: Id,
        /// The tasks whose states are asked for.
        body: Reconcile,
    },
    /// TEARDOWN: ends the framework and its tasks.
    Teardown {
        /// The framework that sends the call.
        framework_id: Id,
    },
    /// SUPPRESS: stops offers until the next REVIVE.
    Suppress {
        /// The framework that sends the call.
        framework_id: Id,
    },
    /// SHUTDOWN: ends an executor and its tasks.
    Shutdown {
        /// The framework that sends the call.
        framework_id: Id,
        /// The executor to shut down.
        body: Shutdown,
    },
    /// MESSAGE: sends bytes to an executor of the framework.
    Message {
        /// The framework that sends the call.
        framework_id: Id,
        /// The executor and the bytes.
        body: Message,
    },
}

const CALL_MEMBERS: [&str; 12] = [
    "type",
    "framework_id",
    "subscribe",
    "accept",
    "decline",
    "revive",
    "kill",
    "acknowledge",
    "reconcile",
    "suppress",
    "shutdown",
    "message",
];

impl Call {
    /// Reads the call in the bytes of a record or of a request, without building a JSON tree.
    pub fn read_record(alloc: Global, bytes: &[u8]) -> Result<Call, RecordFault>
        // On success: the bytes are a JSON text of the call.
        ensures ok { IfOk result (IsTextOf call bytes.now) }
        // If the bytes are a JSON text of call c, the result is c, or an allocation failed.
        ensures only { (c : Call) → IsTextOf call bytes.now c
            → MatchResult result (λ r. r ≡ c) (λ e. e ≡ RecordFault.NoMemory) }

        // On error: the bytes are not a JSON text or not a call, and the error is the first fault;
        // or an allocation failed.
        ensures err { IfErr result (IsFaultOf call bytes.now) }
    {
        read_bytes(alloc, bytes)
    }

    /// Reads the call that a JSON value represents.
    pub fn of_tree(alloc: Global, json: &json::Json) -> Result<Call, PartFault>
        ensures ok { IfOk result (call.Reads (view json.now)) }
        ensures only { (c : Call) → call.Reads (view json.now) c → Gives (Ok c) result }
        ensures err { IfErr result (IsFirstFault call [] (view json.now)) }
    {
        read_part(alloc, json, &Path::new())
    }

    /// Returns the canonical text of the call: without white space, members in the order of the
    /// tables, absent values, unset flags and empty lists left out. The text nests at most
    /// `MAX_NESTING` deep and has at most `limit` bytes.
    pub fn canon(&self, alloc: Global, limit: Limit) -> Result<Vec<u8>, EncodeFault>
        // On success: the canonical text, within the limit. It is read back as the same call.
        ensures text { IfOk result (λ text. text.items ≡ canonical_of call self.now) }
        ensures good { IfOk result (λ _. Fits call self.now limit) }
        ensures spells { IfOk result (λ text. IsTextOf call text.items self.now) }
        // If the call has a canonical text within the limit, the only error is a failed allocation.
        ensures only { Fits call self.now limit
            → MatchResult result (λ text. text.items ≡ canonical_of call self.now) (λ e. e
            ≡ EncodeFault.NoMemory) }

        // On error: the call nests too deep, else its text is too large, or an allocation failed.
        ensures err { IfErr result (IsRefusalOf call self.now limit) }
    {
        canonical_bytes(self, alloc, limit)
    }
}

impl Choice for Call {
    ghost use Rattle.mes_msg_call.specs.Calls.{call_members, call_rows, lawful_call_rows};
    ghost use Rattle.std.specs.Prelude.{refl};

    ghost names = { call_members };

    ghost table = { call_rows };

    ghost STEPS = { 14 };

    ghost COUNT = { 12 };

    const COUNT: usize = 12;

    ghost counted = { refl };

    ghost lawful = { lawful_call_rows };

    #[tactic(auto, using(mes_model_schema::specs::NameLaws::names_differ))]
    fn read_choice(
        alloc: Global,
        found: &[Found<'_>],
        path: &PathBuilder<'_>,
    ) -> Result<Call, PartFault> {
        let from = &found[1];
        match type_of(alloc, &found[0], path)? {
            "SUBSCRIBE" => {
                let framework_id = optional(alloc, from, "framework_id", path)?;
                let body = required(alloc, &found[2], "subscribe", path)?;
                Ok(Call::Subscribe { framework_id, body })
            }
            "ACCEPT" => {
                let (framework_id, body) = read_call(alloc, from, &found[3], "accept", path)?;
                Ok(Call::Accept { framework_id, body })
            }
            "DECLINE" => {
                let (framework_id, body) = read_call(alloc, from, &found[4], "decline", path)?;
                Ok(Call::Decline { framework_id, body })
            }
            "REVIVE" => {
                let framework_id = read_bare(alloc, from, &found[5], "revive", path)?;
                Ok(Call::Revive { framework_id })
            }
            "KILL" => {
                let (framework_id, body) = read_call(alloc, from, &found[6], "kill", path)?;
                Ok(Call::Kill { framework_id, body })
            }
            "ACKNOWLEDGE" => {
                let (framework_id, body) = read_call(alloc, from, &found[7], "acknowledge", path)?;
                Ok(Call::Acknowledge { framework_id, body })
            }
            "RECONCILE" => {
                let (framework_id, body) = read_call(alloc, from, &found[8], "reconcile", path)?;
                Ok(Call::Reconcile { framework_id, body })
            }
            "TEARDOWN" => {
                let framework_id = required(alloc, from, "framework_id", path)?;
                Ok(Call::Teardown { framework_id })
            }
            "SUPPRESS" => {
                let framework_id = read_bare(alloc, from, &found[9], "suppress", path)?;
                Ok(Call::Suppress { framework_id })
            }
            "SHUTDOWN" => {
                let (framework_id, body) = read_call(alloc, from, &found[10], "shutdown", path)?;
                Ok(Call::Shutdown { framework_id, body })
            }
            "MESSAGE" => {
                let (framework_id, body) = read_call(alloc, from, &found[11], "message", path)?;
                Ok(Call::Message { framework_id, body })
            }
            _ => Err(type_refusal(alloc, path, FieldFaultKind::LeftOut)),
        }
    }

    fn push_choice_tree(
        &self,
        members: &mut Vec<(Text, json::Json)>,
        alloc: Global,
    ) -> Result<(), NoMemory> {
        match self {
            Call::Subscribe { framework_id, body } => {
                push_type_tree(members, alloc, "SUBSCRIBE")?;
                push_optional_tree(members, alloc, "framework_id", framework_id)?;
                put(members, alloc, "subscribe", body)
            }
            Call::Accept { framework_id, body } => {
                put_call(members, alloc, "ACCEPT", framework_id, "accept", body)
            }
            Call::Decline { framework_id, body } => {
                put_call(members, alloc, "DECLINE", framework_id, "decline", body)
            }
            Call::Revive { framework_id } => put_head(members, alloc, "REVIVE", framework_id),
            Call::Kill { framework_id, body } => {
                put_call(members, alloc, "KILL", framework_id, "kill", body)
            }
            Call::Acknowledge { framework_id, body } => {
                put_call(
                    members,
                    alloc,
                    "ACKNOWLEDGE",
                    framework_id,
                    "acknowledge",
                    body,
                )
            }
            Call::Reconcile { framework_id, body } => {
                put_call(members, alloc, "RECONCILE", framework_id, "reconcile", body)
            }
            Call::Teardown { framework_id } => put_head(members, alloc, "TEARDOWN", framework_id),
            Call::Suppress { framework_id } => put_head(members, alloc, "SUPPRESS", framework_id),
            Call::Shutdown { framework_id, body } => {
                put_call(members, alloc, "SHUTDOWN", framework_id, "shutdown", body)
            }
            Call::Message { framework_id, body } => {
                put_call(members, alloc, "MESSAGE", framework_id, "message", body)
            }
        }
    }

    fn write_choice_text(&self, alloc: Global, out: &mut Vec<u8>) -> Result<u64, NoMemory> {
        match self {
            Call::Subscribe { framework_id, body } => {
                append_subscribe(alloc, framework_id, body, out)
            }
            Call::Accept { framework_id, body } => {
                append_call(alloc, "ACCEPT", framework_id, "accept", body, out)
            }
            Call::Decline { framework_id, body } => {
                append_call(alloc, "DECLINE", framework_id, "decline", body, out)
            }
            Call::Revive { framework_id } => append_head(alloc, "REVIVE", framework_id, out),
            Call::Kill { framework_id, body } => {
                append_call(alloc, "KILL", framework_id, "kill", body, out)
            }
            Call::Acknowledge { framework_id, body } => {
                append_call(alloc, "ACKNOWLEDGE", framework_id, "acknowledge", body, out)
            }
            Call::Reconcile { framework_id, body } => {
                append_call(alloc, "RECONCILE", framework_id, "reconcile", body, out)
            }
            Call::Teardown { framework_id } => append_head(alloc, "TEARDOWN", framework_id, out),
            Call::Suppress { framework_id } => append_head(alloc, "SUPPRESS", framework_id, out),
            Call::Shutdown { framework_id, body } => {
                append_call(alloc, "SHUTDOWN", framework_id, "shutdown", body, out)
            }
            Call::Message { framework_id, body } => {
                append_call(alloc, "MESSAGE", framework_id, "message", body, out)
            }
        }
    }

    fn copy_choice(&self, alloc: Global) -> Result<Call, NoMemory> {
        match self {
            Call::Subscribe { framework_id, body } => Ok(Call::Subscribe {
                framework_id: copy_some(alloc, framework_id)?,
                body: body.copy(alloc)?,
            }),
            Call::Accept { framework_id, body } => Ok(Call::Accept {
                framework_id: framework_id.copy(alloc)?,
                body: body.copy(alloc)?,
            }),
            Call::Decline { framework_id, body } => Ok(Call::Decline {
                framework_id: framework_id.copy(alloc)?,
                body: body.copy(alloc)?,
            }),
            Call::Revive { framework_id } => Ok(Call::Revive {
                framework_id: framework_id.copy(alloc)?,
            }),
            Call::Kill { framework_id, body } => Ok(Call::Kill {
                framework_id: framework_id.copy(alloc)?,
                body: body.copy(alloc)?,
            }),
            Call::Acknowledge { framework_id, body } => Ok(Call::Acknowledge {
                framework_id: framework_id.copy(alloc)?,
                body: body.copy(alloc)?,
            }),
            Call::Reconcile { framework_id, body } => Ok(Call::Reconcile {
                framework_id: framework_id.copy(alloc)?,
                body: body.copy(alloc)?,
            }),
            Call::Teardown { framework_id } => Ok(Call::Teardown {
                framework_id: framework_id.copy(alloc)?,
            }),
            Call::Suppress { framework_id } => Ok(Call::Suppress {
                framework_id: framework_id.copy(alloc)?,
            }),
            Call::Shutdown { framework_id, body } => Ok(Call::Shutdown {
                framework_id: framework_id.copy(alloc)?,
                body: body.copy(alloc)?,
            }),
            Call::Message { framework_id, body } => Ok(Call::Message {
                framework_id: framework_id.copy(alloc)?,
                body: body.copy(alloc)?,
            }),
        }
    }

    fn choice_reads_back(&self) {
        match self {
            Call::Subscribe { framework_id, body } => {
                some_reads_back(framework_id);
                body.reads_back();
            }
            Call::Accept { framework_id, body } => call_reads_back(framework_id, body),
            Call::Decline { framework_id, body } => call_reads_back(framework_id, body),
            Call::Revive { framework_id } => framework_id.reads_back(),
            Call::Kill { framework_id, body } => call_reads_back(framework_id, body),
            Call::Acknowledge { framework_id, body } => call_reads_back(framework_id, body),
            Call::Reconcile { framework_id, body } => call_reads_back(framework_id, body),
            Call::Teardown { framework_id } => framework_id.reads_back(),
            Call::Suppress { framework_id } => framework_id.reads_back(),
            Call::Shutdown { framework_id, body } => call_reads_back(framework_id, body),
            Call::Message { framework_id, body } => call_reads_back(framework_id, body),
        }
    }
}

impl Part for Call {
    ghost use Rattle.mes_msg_call.specs.Calls.{call, lawful_call};

    ghost kind = { call };

    ghost STEPS = { 14 };

    const STEPS: u32 = 14;

    ghost lawful = { lawful_call };

    #[tactic(auto, unfolding(crate::specs::Calls::call))]
    fn read_from(
        alloc: Global,
        element: &Element<'_>,
        path: &PathBuilder<'_>,
    ) -> Result<Call, PartFault> {
        read_typed::<Call, 12>(alloc, element, &CALL_MEMBERS, path)
    }

    #[tactic(auto, using(crate::specs::Calls::call_back), unfolding(crate::specs::Calls::call))]
    fn tree(&self, alloc: Global) -> Result<json::Json, NoMemory> {
        typed_tree(alloc, self)
    }

    #[tactic(auto, using(crate::specs::Calls::call_back), unfolding(crate::specs::Calls::call))]
    fn write_json(&self, alloc: Global, out: &mut Vec<u8>) -> Result<u64, NoMemory> {
        typed_text(alloc, self, out)
    }

    fn copy(&self, alloc: Global) -> Result<Call, NoMemory> {
        self.copy_choice(alloc)
    }

    #[tactic(auto, using(crate::specs::Calls::call_back))]
    fn reads_back(&self) {
        self.choice_reads_back();
    }
}

/// Reads the member `framework_id`, and the body in the required member `name`.
fn read_call<T: Part>(
    alloc: Global,
    framework: &Found<'_>,
    body: &Found<'_>,
    name: &'static str,
    path: &PathBuilder<'_>,
) -> Result<(Id, T), PartFault>
    requires framework { length path.now + 2 ≤ MAX_PATH_STEPS }
    requires body { length path.now + 1 + T.STEPS ≤ MAX_PATH_STEPS }
    requires step { IsPlace (Place.name name.now) }
    ensures { (ms : Members) → IsFound framework.now (values_named (codes "framework_id") ms)
        → IsFound body.now (values_named name.now ms)
        → Gives ((with_body name.now T.kind).read path.now ms) result }
{
    let framework_id = required(alloc, framework, "framework_id", path)?;
    let body = required(alloc, body, name, path)?;
    Ok((framework_id, body))
}

/// Reads the member `framework_id`. The unsupported member `name` must be absent or `null`.
fn read_bare(
    alloc: Global,
    framework: &Found<'_>,
    body: &Found<'_>,
    name: &'static str,
    path: &PathBuilder<'_>,
) -> Result<Id, PartFault>
    requires room { length path.now + 2 ≤ MAX_PATH_STEPS }
    requires step { IsPlace (Place.name name.now) }
    ensures ok { (ms : Members) → IsFound framework.now (values_named (codes "framework_id") ms)
        → IsFound body.now (values_named name.now ms)
        → IfOk result (λ framework_id. (without_body name.now).read path.now ms
        ≡ Ok (framework_id, None)) }
    ensures err { (ms : Members) → IsFound framework.now (values_named (codes "framework_id") ms)
        → IsFound body.now (values_named name.now ms)
        → IfErr result (λ e. Gives ((without_body name.now).read path.now ms) (Err e)) }
{
    let framework_id = required(alloc, framework, "framework_id", path)?;
    left_out(alloc, body, name, path)?;
    Ok(framework_id)
}

/// Appends the members `type` and `framework_id`.
fn put_head(
    members: &mut Vec<(Text, json::Json)>,
    alloc: Global,
    kind: &'static str,
    framework_id: &Id,
) -> Result<(), NoMemory>
    ensures members { OnOk result (pairs_view members.new.items
        ≡ pairs_view members.old.items ++ (type_name, string kind.now)
        ∷ (codes "framework_id", id.tree framework_id.now) ∷ []) }
    ensures front { IfErr result (λ _. Continues (pairs_view members.old.items)
        (pairs_view members.new.items)) }
    ensures back { OnOk result (Returns id framework_id.now) }
{
    push_type_tree(members, alloc, kind)?;
    put(members, alloc, "framework_id", framework_id)
}

/// Appends the members `type` and `framework_id`, and the member `name` with the body as its value.
fn put_call<T: Part>(
    members: &mut Vec<(Text, json::Json)>,
    alloc: Global,
    kind: &'static str,
    framework_id: &Id,
    name: &'static str,
    body: &T,
) -> Result<(), NoMemory>
    ensures members { OnOk result (pairs_view members.new.items
        ≡ pairs_view members.old.items ++ (type_name, string kind.now)
        ∷ (codes "framework_id", id.tree framework_id.now) ∷ (name.now, T.kind.tree body.now)
        ∷ []) }
    ensures front { IfErr result (λ _. Continues (pairs_view members.old.items)
        (pairs_view members.new.items)) }
    ensures framework { OnOk result (Returns id framework_id.now) }
    ensures back { OnOk result (Returns T.kind body.now) }
{
    put_head(members, alloc, kind, framework_id)?;
    put(members, alloc, name, body)
}
