//! The printed lines of the live test master.

ghost use Rattle.std.specs.Prelude.{◌≡◌, ◌≤◌, [], length, drop};
ghost use Rattle.mesosev_live.specs.Lines.{listening_line, status_name, answered_line, opened_line, ended_line, end_name, fault_happened_line, dropped_line, waiting, StoresIf, Pushes, CountsDropped, Writes};

use crate::limits::MAX_LINES;
use arrayvec::ArrayString;
use http::StatusCode;
use itoa::Buffer;
use mes_double_faults::Fault;
use mes_double_http::StreamId;
use std::alloc::Global;

/// The capacity for a line and its LF, in bytes.
pub(crate) const MAX_LINE: usize = 192;

/// The reason for which a stream ended.
#[derive(Clone, Copy, Debug, PartialEq, Eq)]
pub(crate) enum StreamEnd {
    /// The framework subscribed again.
    Replaced,
    /// The framework was torn down.
    Teardown,
    /// The framework was removed by a fault.
    Removed,
    /// The client closed the connection, or the connection failed.
    Closed,
    /// Standard input had the stream break.
    Broken,
    /// Too many bytes of the stream were not read.
    Unread,
    /// The run ended.
    Stopped,
}

impl StreamEnd {
    fn name(self) -> &'static str
        ensures name { result.now ≡ end_name self }
        ensures bound { length result.now ≤ 8 }
    {
        match self {
            StreamEnd::Replaced => "replaced",
            StreamEnd::Teardown => "teardown",
            StreamEnd::Removed => "removed",
            StreamEnd::Closed => "closed",
            StreamEnd::Broken => "broken",
            StreamEnd::Unread => "unread",
            StreamEnd::Stopped => "stopped",
        }
    }
}

/// Returns the first line: the port on which the master listens.
pub(crate) fn listening_line(port: u16) -> ArrayString<MAX_LINE>
    ensures { result.bytes ≡ listening_line port }
{
    let mut line = ArrayString::new();
    line.push_str("listening on 127.0.0.1:");
    line.push_str(Buffer::new().format(port));
    line.push_str("\n");
    line
}

/// Returns the line of a request: the status of the response, and the type of the call, each `-`
/// without one.
pub(crate) fn answered_line(status: Option<StatusCode>, name: &str) -> ArrayString<MAX_LINE>
    requires { length name.now ≤ 11 }
    ensures { result.bytes ≡ answered_line status name.now }
{
    let mut digits = Buffer::new();
    let status = status_name(status, &mut digits);
    let mut line = ArrayString::new();
    line.push_str(status);
    line.push_str(" ");
    line.push_str(name);
    line.push_str("\n");
    line
}

/// Returns the status, formatted in the buffer; `-` without one.
fn status_name<'b>(status: Option<StatusCode>, digits: &'b mut Buffer) -> &'b str
    ensures name { result.now ≡ status_name status }
    ensures bound { length result.now ≤ 5 }
{
    match status {
        Some(status) => digits.format(status.as_u16()),
        None => "-",
    }
}

/// Returns the line of a stream that was opened.
pub(crate) fn opened_line(id: &StreamId) -> ArrayString<MAX_LINE>
    ensures { result.bytes ≡ opened_line id.now }
{
    let mut line = ArrayString::new();
    line.push_str("stream ");
    line.push_str(id.as_str());
    line.push_str(" opened\n");
    line
}

/// Returns the line of a stream that ended.
pub(crate) fn ended_line(id: &StreamId, why: StreamEnd) -> ArrayString<MAX_LINE>
    ensures { result.bytes ≡ ended_line id.now why }
{
    let mut line = ArrayString::new();
    line.push_str("stream ");
    line.push_str(id.as_str());
    line.push_str(" ended ");
    line.push_str(why.name());
    line.push_str("\n");
    line
}

/// Returns the line of a planned fault that happened.
pub(crate) fn fault_happened_line(fault: &Fault) -> ArrayString<MAX_LINE>
    ensures { result.bytes ≡ fault_happened_line fault.now }
{
    let mut line = ArrayString::new();
    line.push_str("fault ");
    line.push_str(fault.text().as_str());
    line.push_str("\n");
    line
}

/// Returns the line of the number of lines that were dropped.
fn dropped_line(count: u64) -> ArrayString<MAX_LINE>
    ensures { result.bytes ≡ dropped_line count }
{
    let mut line = ArrayString::new();
    line.push_str("lines dropped ");
    line.push_str(Buffer::new().format(count));
    line.push_str("\n");
    line
}

/// The lines that are not written yet: at most `MAX_LINES` bytes. Further lines are dropped and
/// counted, until all earlier ones are written.
#[derive(Drop)]
pub(crate) struct Lines {
    bytes: Vec<u8>,
    /// The number of lines dropped since the last line that was stored.
    dropped: u64,
}

impl Lines {
    /// Returns an empty list. Does not allocate.
    pub fn new(alloc: Global) -> Lines
        ensures none { waiting result ≡ [] }
        ensures dropped { result.dropped ≡ 0 }
    {
        Lines {
            bytes: Vec::new(alloc),
            dropped: 0,
        }
    }

    /// Appends a line, or drops and counts it.
    pub fn push(&mut self, line: &str)
        ensures { Pushes line.now self.old self.new }
    {
        if self.dropped > 0 || !self.store(line) {
            self.dropped = self.dropped.saturating_add(1);
        }
    }

    /// Appends a line, if there is room and memory. Returns whether it was appended.
    fn store(&mut self, line: &str) -> bool
        ensures { StoresIf line.now self.old self.new result }
    {
        if self.bytes.len().saturating_add(line.len()) > MAX_LINES {
            return false;
        }
        self.bytes.extend_from_slice(line.as_bytes()).is_ok()
    }

    /// Returns the bytes that are not written.
    pub fn pending(&self) -> &[u8]
        ensures { result.now ≡ waiting self.now }
    {
        self.bytes.as_slice()
    }

    /// Notes that the first `count` bytes were written. Once all are, the number of the lines that
    /// were dropped follows.
    pub fn wrote(&mut self, count: usize)
        requires { count ≤ length (waiting self.old) }
        ensures { Writes count self.old self.new }
    {
        drop(self.bytes.drain(..count));
        self.count_dropped();
    }

    /// Appends the number of the lines that were dropped, if all others are written.
    fn count_dropped(&mut self)
        ensures { CountsDropped self.old self.new }
    {
        if !self.bytes.is_empty() || self.dropped == 0 {
            return;
        }
        let line = dropped_line(self.dropped);
        if self.store(line.as_str()) {
            self.dropped = 0;
        }
    }

    /// Drops all lines.
    pub fn clear(&mut self)
        ensures none { waiting self.new ≡ [] }
        ensures dropped { self.new.dropped ≡ 0 }
    {
        self.bytes.clear();
        self.dropped = 0;
    }
}
