//! The writing of lines to standard output, which must not block.

ghost use Rattle.std.specs.Prelude.{◌≡◌, [], true, false};
ghost use Rattle.mesosev_live.specs.Lines.{waiting, Pushes, PutsLines};

use crate::limits::{LINES_AT_ONCE, TERMINAL_AT_ONCE};
use crate::lines::Lines;
use crate::transfer::{Went, put_ready};
use mes_frame::Sink;
use mio::unix::SourceFd;
use mio::{Interest, Registry, Token};
use std::alloc::Global;
use std::fs::{Files, metadata};
use std::os::fd::RawFd;
use std::os::unix::fs::FileTypeExt;

/// The file descriptor of standard output.
const STANDARD_OUTPUT: RawFd = 1;

/// The path of standard output.
const STANDARD_OUTPUT_PATH: &str = "/dev/stdout";

/// Returns whether standard output is a terminal, or another character device.
pub(crate) fn is_terminal<R: Files>(rt: &R) -> bool {
    match metadata(rt, STANDARD_OUTPUT_PATH) {
        Ok(found) => found.file_type().is_char_device(),
        Err(_) => false,
    }
}

/// Returns the number of bytes that a terminal takes at once: a line up to its LF, or the LF. The
/// terminal adds a carriage return to the LF, and may have no room for both after the line.
fn terminal_piece(lines: &[u8]) -> usize {
    match lines.iter().position(|byte| *byte == b'\n') {
        Some(0) => 1,
        Some(length) => length.min(TERMINAL_AT_ONCE),
        None => TERMINAL_AT_ONCE,
    }
}

/// The lines of the run, and the output that they go to.
#[derive(Drop)]
pub(crate) struct Printer<'a, O> {
    out: &'a mut O,
    lines: Lines,
    /// True if the system reports when the output takes bytes: a pipe, a socket or a terminal.
    /// Writing to another one, a file, does not wait for a reader.
    is_watched: bool,
    /// True if the output is a terminal.
    is_terminal: bool,
    /// True if the output takes bytes now.
    is_ready: bool,
    /// The number of bytes written, saturating.
    written: u64,
    /// True once a write failed. Nothing is written after that.
    has_failed: bool,
}

impl<'a, O: Sink> Printer<'a, O> {
    /// Returns a printer to standard output, which `out` writes to.
    pub fn new(
        alloc: Global,
        out: &'a mut O,
        is_terminal: bool,
        registry: &Registry,
        token: Token,
    ) -> Printer<'a, O> {
        let watched = registry.register(&mut SourceFd(&STANDARD_OUTPUT), token, Interest::WRITABLE);
        let is_watched = watched.is_ok();
        Printer {
            out,
            lines: Lines::new(alloc),
            is_watched,
            is_terminal,
            is_ready: !is_watched,
            written: 0,
            has_failed: false,
        }
    }

    /// Appends a line.
    pub fn push(&mut self, line: &str)
        ensures { self.old.has_failed ≡ false → Pushes line.now self.old.lines self.new.lines }
    {
        if !self.has_failed {
            self.lines.push(line);
        }
    }

    /// Returns whether all lines were written, or cannot be.
    pub fn is_done(&self) -> bool {
        self.has_failed || self.lines.pending().is_empty()
    }

    /// Returns the number of bytes written, if a write failed.
    pub fn failure(&self) -> Option<u64> {
        if self.has_failed {
            Some(self.written)
        } else {
            None
        }
    }

    /// Notes that the output takes bytes.
    pub fn set_ready(&mut self) {
        self.is_ready = true;
    }

    /// Writes lines, as far as the output takes them without blocking.
    pub fn print(&mut self, registry: &Registry, token: Token) {
        if self.is_watched {
            self.print_once(registry, token);
            return;
        }
        for _ in 0..u64::MAX {
            if self.is_done() || !self.write(usize::MAX) {
                return;
            }
        }
    }

    /// Writes lines once, if the output was reported to take bytes. It has to be reported again before
    /// the next write.
    fn print_once(&mut self, registry: &Registry, token: Token) {
        if !self.is_ready || self.is_done() {
            return;
        }
        let most = if self.is_terminal {
            terminal_piece(self.lines.pending())
        } else {
            LINES_AT_ONCE
        };
        let _ = self.write(most);
        self.is_ready = false;
        self.watch_again(registry, token);
    }

    /// Has the system report again when the output takes bytes.
    pub fn watch_again(&mut self, registry: &Registry, token: Token) {
        if !self.is_watched || self.has_failed {
            return;
        }
        let mut source = SourceFd(&STANDARD_OUTPUT);
        if registry
            .reregister(&mut source, token, Interest::WRITABLE)
            .is_err()
        {
            self.fail();
        }
    }

    /// Writes at most `most` bytes with one call. Returns whether the output may take more.
    fn write(&mut self, most: usize) -> bool
        ensures { PutsLines most (O.device self.old.out.now) (O.device self.new.out.now)
            self.old.lines self.new.lines result }
    {
        let pending = self.lines.pending();
        let front = &pending[..pending.len().min(most)];
        match put_ready(self.out, front) {
            Went::Bytes(count) => {
                self.lines.wrote(count);
                self.written = self.written.saturating_add(count as u64);
                true
            }
            Went::Nothing => false,
            Went::Failure => {
                self.fail();
                false
            }
        }
    }

    /// Notes that a write failed.
    fn fail(&mut self)
        ensures failed { self.new.has_failed ≡ true }
        ensures none { waiting self.new.lines ≡ [] }
        ensures same { O.device self.new.out.now ≡ O.device self.old.out.now }
    {
        self.has_failed = true;
        self.lines.clear();
    }
}
