//! Tests that [`Output`] returns the errors of its writer, and remembers a closed pipe.
use mes_frame::{FromStd, Sink};
use mesosev_stream::Output;
use std::io;
use std::io::{ErrorKind, Write};

// A writer whose calls all fail with an error of one kind.
#[derive(Drop)]
struct Failing {
    kind: ErrorKind,
}

impl Write for Failing {
    fn write(&mut self, _bytes: &[u8]) -> io::Result<usize> {
        Err(io::Error::from(self.kind))
    }

    fn flush(&mut self) -> io::Result<()> {
        Ok(())
    }
}

// Returns whether an output returns the error of its writer, of the kind `kind`, and is then closed
// or not, as given.
fn hands_on(kind: ErrorKind, closed: bool) -> bool {
    let mut output = Output::new(FromStd::new(Failing { kind }));
    match &output.put(b"x") {
        Ok(_) => false,
        Err(error) => error.kind() == kind && output.is_closed() == closed,
    }
}

#[test]
fn a_failure_is_returned_and_a_closed_pipe_is_recorded(rt: HostRuntime) {
    assert!(rt; hands_on(ErrorKind::BrokenPipe, true));
    assert!(rt; hands_on(ErrorKind::WouldBlock, false));
    assert!(rt; hands_on(ErrorKind::StorageFull, false));
    assert!(rt; hands_on(ErrorKind::Interrupted, false));
}
