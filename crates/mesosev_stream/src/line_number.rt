//! The number of the line in which an error was detected.

ghost use Rattle.std.specs.Prelude.{◌≡◌, ◌+◌, ◌<◌, ◌≤◌, ℕ, List, ◌++◌, true, length};
ghost use Rattle.mes_stream.specs.LineRecord.{line_feeds_in};
ghost use Rattle.mes_stream.specs.Stream.{saturated};
ghost use Rattle.arrayvec.specs.ArrayString.{array_string_len};
ghost use Rattle.mes_msg.specs.ShowLines.{spaced};
ghost use Rattle.mesosev_stream.specs.LineNumbers.{FindsLine, FindsLineOf, IsFreshCounter, is_lines, line_words, place_words};

use crate::limits::MAX_LINE;
use arrayvec::{ArrayString, ArrayVec};
use memchr::memchr_iter;
use mes_stream::{Consumer, Fault, Framing, MAX_READ, push_number, push_word};

/// A consumer that knows the number of line feeds in the bytes consumed, if these are JSON Lines.
pub(crate) trait LineConsumer<T>: Consumer<T> {
    /// The consumer reads JSON Lines, and has not consumed any byte.
    ghost starts: { Self → Type 0 };

    /// Returns the number of line feeds in the bytes consumed, or 2^64 - 1 if there are more. The
    /// result is unspecified if the consumer has stopped.
    fn line_feeds(&self) -> u64
        ensures { (first : Self) (start to : T) (w : List ℕ) → starts first
            → Self.goes first start self.now to w → result ≡ saturated (line_feeds_in w) };
}

/// Passes each piece to `inner`, and finds the number of the line with a given byte of the last
/// piece. Retains the bytes of that piece.
#[derive(Drop)]
pub(crate) struct LineCounter<C> {
    /// The consumer of the pieces.
    pub(crate) inner: C,
    // True if the bytes are JSON Lines. If not, the fields below do not change.
    counts: bool,
    // The number of line feeds before the last piece.
    line_feeds: u64,
    // The number of bytes before the last piece.
    start: u64,
    // The last piece.
    last: ArrayVec<u8, MAX_READ>,
}

impl<C> LineCounter<C> {
    /// Returns a counter before the first byte. Counts lines only if `counts` is true.
    pub(crate) fn new(inner: C, counts: bool) -> LineCounter<C>
        ensures inner { result.inner ≡ inner }
        ensures fresh { counts ≡ true → IsFreshCounter result }
    {
        LineCounter {
            inner,
            counts,
            line_feeds: 0,
            start: 0,
            last: ArrayVec::new(),
        }
    }

    /// Returns the number, from 1, of the line with the last of the first `used` bytes, if that byte
    /// is in the last piece. A line feed belongs to the line that it ends. If no byte was read, the
    /// number is 1. The result is unspecified in all other cases, or if lines are not counted.
    pub(crate) fn line_at(&self, used: u64) -> u64
        ensures { FindsLine self.now used result }
    {
        let inside = used.saturating_sub(1).saturating_sub(self.start) as usize;
        let last = self.last.as_slice();
        let line_feeds = line_feeds_of(&last[..inside.min(last.len())]) as u64;
        self.line_feeds.saturating_add(line_feeds).saturating_add(1)
    }

    /// Like [`line_at`](Self::line_at), if the framing is JSON Lines; `None` for other framings.
    pub(crate) fn line_of(&self, framing: Framing, used: u64) -> Option<u64>
        ensures { FindsLineOf framing self.now used result }
    {
        match framing {
            Framing::Plain | Framing::Chunked => None,
            Framing::Lines => Some(self.line_at(used)),
        }
    }

    // Retains `piece`, before which there are `line_feeds` line feeds.
    fn retain(&mut self, line_feeds: u64, piece: &[u8])
        requires { length piece.now ≤ MAX_READ }
        ensures inner { self.new.inner ≡ self.old.inner }
        ensures counts { self.new.counts ≡ self.old.counts }
        ensures line_feeds { self.new.line_feeds ≡ line_feeds }
        ensures start { self.new.start ≡ saturated (self.old.start + length self.old.last.items) }
        ensures last { self.new.last.items ≡ piece.now }
    {
        self.line_feeds = line_feeds;
        self.start = self.start.saturating_add(self.last.len() as u64);
        self.last.clear();
        let _fits = self.last.try_extend_from_slice(piece);
    }
}

impl<T, C: LineConsumer<T>> Consumer<T> for LineCounter<C> {
    type Stop = C::Stop;

    ghost use Rattle.mesosev_stream.specs.LineNumbers.{CountsFrom, StopsCounting};

    ghost goes = { λ first start now to w. C.goes first.inner start now.inner to w
        × CountsFrom C.starts first now w };

    ghost stops = { λ first start now to w piece stop.
        C.stops first.inner start now.inner to w piece stop
        × StopsCounting C.starts first now w piece };

    fn consume(&mut self, piece: &[u8], to: &mut T) -> Result<(), C::Stop> {
        if self.counts {
            let line_feeds = self.inner.line_feeds();
            self.retain(line_feeds, piece);
        }
        self.inner.consume(piece, to)
    }
}

/// Returns the number of line feeds.
fn line_feeds_of(bytes: &[u8]) -> usize
    ensures { result ≡ line_feeds_in bytes.now }
{
    let mut line_feeds = 0;
    for _at in memchr_iter(b'\n', bytes) {
        line_feeds += 1;
    }
    line_feeds
}

/// Returns whether the framing is JSON Lines.
pub(crate) fn counts_lines(framing: Framing) -> bool
    ensures { result ≡ is_lines framing }
{
    match framing {
        Framing::Plain | Framing::Chunked => false,
        Framing::Lines => true,
    }
}

/// Appends the number of the line, if it is known, and the error is in a record with another number:
/// at most 26 bytes.
pub(crate) fn push_place(text: &mut ArrayString<MAX_LINE>, line: Option<u64>, fault: &Fault)
    requires { array_string_len text.old + 26 ≤ MAX_LINE }
    ensures text { text.new.bytes ≡ text.old.bytes ++ spaced (place_words line fault.now) }
    ensures bound { array_string_len text.new ≤ array_string_len text.old + 26 }
{
    let Some(line) = line else { return };
    match fault {
        Fault::Text { at_record, .. } => push_line(text, *at_record, line),
        Fault::Field { at_record, .. } => push_line(text, *at_record, line),
        Fault::BadEntry { at_record } => push_line(text, *at_record, line),
        _ => {}
    }
}

/// Appends the number of the line, unless that is the number of the record too.
fn push_line(text: &mut ArrayString<MAX_LINE>, record_number: u64, line: u64)
    requires { array_string_len text.old + 26 ≤ MAX_LINE }
    ensures text { text.new.bytes ≡ text.old.bytes ++ spaced (line_words record_number line) }
    ensures bound { array_string_len text.new ≤ array_string_len text.old + 26 }
{
    if record_number != line {
        push_word(text, "line");
        push_number(text, line);
    }
}
