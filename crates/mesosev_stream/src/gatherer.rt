//! Reads a whole stream, for `convert`.

ghost use Rattle.std.specs.Prelude.{◌≡◌};
ghost use Rattle.mesosev_stream.specs.Converting.{ReadsAll};
ghost use Rattle.mesosev_stream.specs.Messages.{shown_as};

use crate::limits::MAX_READS;
use crate::line_number::{LineConsumer, LineCounter, counts_lines};
use crate::message::ShownMessage;
use mes_frame::{Limit, Source};
use mes_stream::{
    Consumer, Framing, MessageReader, Reading, ReadingStop, Report, Stop, read_device,
};
use std::alloc::Global;

/// Decodes a stream, and appends its messages to a list.
#[derive(Drop)]
pub(crate) struct Gatherer<M> {
    reading: Reading<MessageReader<M>>,
}

impl<M: ShownMessage> Consumer<Vec<M>> for Gatherer<M> {
    type Stop = ReadingStop;

    ghost use Rattle.mesosev_stream.specs.Converting.{Gathers, StopsGathering};

    ghost goes = { λ first start now to w. Gathers (shown_as M.kind M.word M.lines) first.reading
        start.items now.reading to.items w };

    ghost stops = { λ first start now to w piece stop. StopsGathering
        (shown_as M.kind M.word M.lines) first.reading start.items now.reading to.items w piece
        stop };

    fn consume(&mut self, piece: &[u8], messages: &mut Vec<M>) -> Result<(), ReadingStop> {
        self.reading.feed(piece, messages)
    }
}

impl<M: ShownMessage> LineConsumer<Vec<M>> for Gatherer<M> {
    ghost use Rattle.mesosev_stream.specs.Converting.{StartsLines};

    ghost starts = { λ d. StartsLines (shown_as M.kind M.word M.lines) d.reading };

    fn line_feeds(&self) -> u64 {
        self.reading.line_feeds()
    }
}

/// Reads a stream to its end, and appends its messages. Also returns the number of the line of JSON
/// Lines in which the reading ended.
pub(crate) fn read_all<M: ShownMessage, I: Source>(
    alloc: Global,
    framing: Framing,
    limit: Limit,
    input: &mut I,
    messages: &mut Vec<M>,
) -> (Result<Report, Stop>, Option<u64>)
    ensures { ReadsAll (shown_as M.kind M.word M.lines) framing limit (I.device input.old)
        (I.device input.new) messages.old.items messages.new.items result.0 result.1 }
{
    let reading = Reading::new(framing, MessageReader::<M>::new(alloc), limit);
    let mut counter = LineCounter::new(Gatherer { reading }, counts_lines(framing));
    let end = read_device(input, MAX_READS, &mut counter, messages);
    let line = counter.line_of(framing, counter.inner.reading.used());
    (counter.inner.reading.finish(end, messages), line)
}
