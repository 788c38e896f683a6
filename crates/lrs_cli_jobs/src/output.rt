//! Standard output, whose last failure is noted.

use lrs_cli_sheets::write_out;
use std::cell::Cell;
use std::io;
use std::io::Write;
use std::rt::HostRuntime;

/// Writes to standard output, and notes why it last took nothing.
#[derive(Drop)]
pub(crate) struct Output<'a> {
    rt: &'a HostRuntime,
    failure: &'a Cell<Option<io::Error>>,
}

impl<'a> Output<'a> {
    pub(crate) fn new(rt: &'a HostRuntime, failure: &'a Cell<Option<io::Error>>) -> Output<'a> {
        Output { rt, failure }
    }
}

impl<'a> Write for Output<'a> {
    fn write(&mut self, buf: &[u8]) -> io::Result<usize> {
        let written = write_out(self.rt, buf);
        if let Err(error) = &written {
            self.failure.set(Some(*error));
        }
        written
    }

    // Nothing is kept back.
    fn flush(&mut self) -> io::Result<()> {
        Ok(())
    }
}
