//! Incremental reading of a session log. The first record determines the version of the log.

ghost use Rattle.std.specs.Prelude.{◌≡◌, ◌≤◌, ℕ, List, [], ◌∷◌, ◌++◌, length, IfSome, IfOk, OnOk, OnErr, IfErr};
ghost use Rattle.mes_frame.specs.Record.{IsRecord};
ghost use Rattle.mes_msg.specs.declared.entry.Entry.{Entry as EntryValue};
ghost use Rattle.mes_stream.specs.Stream.{saturated};
ghost use Rattle.mes_session_log_entry.specs.Entries.{SpellsFirst, entries_in};
ghost use Rattle.mes_session_log.specs.LogStages.{LogMeans, LogRepresents, RestRepresents, StageBegins, StageMeans, StageTakes, log_answer, reading_end, used_by};

use mes_frame::Limit;
use mes_msg::Entry;
use mes_session_log_entry::{EntryReader, FirstReader, FirstRecord};
use mes_stream::{
    Consumer, EndedRecord, Fault, Framing, MAX_READ, Reading, ReadingStop, ReadsEnd, Report, Stop,
};
use std::alloc::Global;

#[derive(Drop)]
pub(crate) enum Stage {
    /// The first record is incomplete.
    First(Reading<FirstReader>),
    /// The log has version 1.
    One(Reading<EntryReader<1>>),
    /// The log has version 2.
    Two(Reading<EntryReader<2>>),
}

/// The reason for which reading a log stopped.
#[derive(Drop)]
pub(crate) enum LogStop {
    /// Reading the records stopped for this reason.
    Reading(ReadingStop),
    /// The first record is complete, but an allocation for its entry failed.
    NoMemory,
}

/// The incremental reading of a log into a list of entries.
#[derive(Drop)]
pub(crate) struct LogReading {
    alloc: Global,
    limit: Limit,
    stage: Stage,
}

impl LogReading {
    /// Returns the state before the first byte. Does not allocate.
    pub(crate) fn new(alloc: Global, limit: Limit) -> LogReading
        ensures { LogRepresents result limit [] [] }
    {
        LogReading {
            alloc,
            limit,
            stage: Stage::First(Reading::new(Framing::Plain, FirstReader::new(alloc), limit)),
        }
    }

    /// Consumes the bytes of one read and appends the entries of the records that end in them.
    fn feed(&mut self, piece: &[u8], entries: &mut Vec<Entry>) -> Result<(), LogStop>
        requires { length piece.now ≤ MAX_READ }
        ensures takes { (limit : ℕ) (w : List ℕ) (before : List EntryValue)
            → LogRepresents self.old limit w before
            → StageTakes self.new.stage limit w before piece.now entries.old.items entries.new.items
            result }
        ensures limit { self.new.limit ≡ self.old.limit }
    {
        match self.begin(piece, entries)? {
            Some(used) => self.stage.feed(&piece[used..], entries),
            None => Ok(()),
        }
    }

    // Consumes a piece up to the end of the first record. Returns the number of bytes used, or
    // `None` if the record is still incomplete.
    fn begin(&mut self, piece: &[u8], entries: &mut Vec<Entry>) -> Result<Option<usize>, LogStop>
        requires { length piece.now ≤ MAX_READ }
        ensures begins { (limit : ℕ) (w : List ℕ) (before : List EntryValue)
            → LogRepresents self.old limit w before
            → StageBegins self.new.stage limit w before piece.now entries.old.items
            entries.new.items result }
        ensures within { IfOk result (λ used. IfSome used (λ n. n ≤ length piece.now)) }
        ensures limit { self.new.limit ≡ self.old.limit }
    {
        match &mut self.stage {
            Stage::First(reading) => match reading.next(piece) {
                Ok(Some(EndedRecord { value, used })) => {
                    let bytes = reading.used();
                    self.stage = stage_after(self.alloc, self.limit, value, bytes, entries)?;
                    Ok(Some(used))
                }
                Ok(None) => Ok(None),
                Err(stop) => Err(LogStop::Reading(stop)),
            },
            Stage::One(_) => Ok(Some(0)),
            Stage::Two(_) => Ok(Some(0)),
        }
    }

    /// Returns the result of reading the log, if the reads ended as `end` states.
    pub(crate) fn outcome(&mut self, end: ReadsEnd<LogStop>) -> Result<Report, Stop>
        ensures { LogMeans self.old.stage end result }
    {
        match end_of_reading(end) {
            Some(end) => self.stage.outcome(end),
            None => Err(Stop {
                fault: Fault::NoMemory,
                used: self.stage.used(),
            }),
        }
    }
}

impl Consumer<Vec<Entry>> for LogReading {
    type Stop = LogStop;

    ghost use Rattle.mes_session_log.specs.LogStages.{LogGathers, LogGathersLast};

    ghost goes = { λ first start now to w. LogGathers first start.items now to.items w };

    ghost stops = { λ first start now to w piece stop. LogGathersLast first start.items now to.items
        w piece stop };

    fn consume(&mut self, piece: &[u8], entries: &mut Vec<Entry>) -> Result<(), LogStop> {
        self.feed(piece, entries)
    }
}

impl Stage {
    // Consumes a piece that follows the end of the first record.
    fn feed(&mut self, piece: &[u8], entries: &mut Vec<Entry>) -> Result<(), LogStop>
        requires { length piece.now ≤ MAX_READ }
        ensures { (limit : ℕ) (w : List ℕ) (before : List EntryValue)
            → RestRepresents self.old limit w before
            → StageTakes self.new limit w before piece.now entries.old.items entries.new.items
            result }
    {
        match self {
            Stage::First(_) => Ok(()),
            Stage::One(reading) => of_log(reading.feed(piece, entries)),
            Stage::Two(reading) => of_log(reading.feed(piece, entries)),
        }
    }

    // Returns the number of bytes used.
    fn used(&self) -> u64
        ensures { result ≡ used_by self.now }
    {
        match self {
            Stage::First(reading) => reading.used(),
            Stage::One(reading) => reading.used(),
            Stage::Two(reading) => reading.used(),
        }
    }

    // Returns the result of reading the log, if the reads ended as `end` states.
    fn outcome(&mut self, end: ReadsEnd<ReadingStop>) -> Result<Report, Stop>
        ensures { StageMeans self.old end result }
    {
        match self {
            Stage::First(reading) => reading.outcome(end),
            Stage::One(reading) => reading.outcome(end),
            Stage::Two(reading) => reading.outcome(end),
        }
    }
}

// Converts the result of reading records to a result of reading the log.
fn of_log(fed: Result<(), ReadingStop>) -> Result<(), LogStop>
    ensures { result ≡ log_answer fed }
{
    match fed {
        Ok(()) => Ok(()),
        Err(stop) => Err(LogStop::Reading(stop)),
    }
}

// Returns the stage after the first record, which ended after `used` bytes, and appends its entry.
fn stage_after(
    alloc: Global,
    limit: Limit,
    first: FirstRecord,
    used: u64,
    entries: &mut Vec<Entry>,
) -> Result<Stage, LogStop>
    ensures ok { IfOk result (λ stage. (head content : List ℕ) → IsRecord head content limit
        → SpellsFirst content first → used ≡ saturated (length head)
        → RestRepresents stage limit head (entries_in first)) }
    ensures ok_entries { OnOk result (entries.new.items ≡ entries.old.items ++ entries_in first) }
    ensures err { IfErr result (λ stop. stop ≡ LogStop.NoMemory) }
    ensures err_entries { OnErr result (entries.new.items ≡ entries.old.items) }
    ensures err_first { OnErr result ((entry : EntryValue) × (first ≡ FirstRecord.Entry entry)) }
{
    match first {
        FirstRecord::Header => Ok(Stage::Two(Reading::following(
            Framing::Plain,
            EntryReader::new(alloc),
            limit,
            1,
            used,
        ))),
        FirstRecord::Entry(entry) => {
            add(entry, entries)?;
            Ok(Stage::One(Reading::following(
                Framing::Plain,
                EntryReader::new(alloc),
                limit,
                1,
                used,
            )))
        }
    }
}

fn add(entry: Entry, entries: &mut Vec<Entry>) -> Result<(), LogStop>
    ensures ok { OnOk result (entries.new.items ≡ entries.old.items ++ entry ∷ []) }
    ensures err { IfErr result (λ stop. stop ≡ LogStop.NoMemory) }
    ensures same { OnErr result (entries.new.items ≡ entries.old.items) }
{
    if let Err(_) = entries.push(entry) {
        return Err(LogStop::NoMemory);
    }
    Ok(())
}

// Returns how reading the records ended, or `None` if an allocation failed for the first entry.
fn end_of_reading(end: ReadsEnd<LogStop>) -> Option<ReadsEnd<ReadingStop>>
    ensures { result ≡ reading_end end }
{
    match end {
        ReadsEnd::Stopped(LogStop::Reading(stop)) => Some(ReadsEnd::Stopped(stop)),
        ReadsEnd::Stopped(LogStop::NoMemory) => None,
        ReadsEnd::AtEnd => Some(ReadsEnd::AtEnd),
        ReadsEnd::Failed => Some(ReadsEnd::Failed),
        ReadsEnd::Spent => Some(ReadsEnd::Spent),
    }
}
