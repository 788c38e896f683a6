//! How many lines a list has, counted as it is written.

ghost use Rattle.std.specs.Prelude.{◌≡◌, ◌==◌, [], Some, count_by};
ghost use Rattle.lrs_sheet_questions.specs.Entries.{behind_first, line_count};

use crate::given::Given;
use std::io;
use std::io::{ErrorKind, Write};

/// Counts the lines of what is written, and keeps nothing of it.
#[derive(Drop)]
pub(crate) struct LineCounter {
    lines: u64,
    pub(crate) given: Given,
    ghost counted: { lines ≡ line_count given.text },
}

/// How many lines end in some bytes.
fn lines_in(bytes: &[u8]) -> u64
    ensures { result ≡ line_count bytes.now }
{
    bytes.iter().filter(|byte| **byte == b'\n').count() as u64
}

impl LineCounter {
    pub(crate) fn new() -> LineCounter
        ensures { result.given.text ≡ [] }
    {
        LineCounter {
            lines: 0,
            given: Given::new(),
        }
    }

    /// How many lines stand behind the first one.
    pub(crate) fn behind_first(&self) -> u64
        ensures { result ≡ line_count (behind_first self.now.given.text) }
    {
        self.lines.saturating_sub(1)
    }
}

impl Write for LineCounter {
    ghost contents = { λ counter. Some counter.given.text };

    fn write(&mut self, buf: &[u8]) -> io::Result<usize> {
        let Some(lines) = self.lines.checked_add(lines_in(buf)) else {
            return Err(io::Error::from(ErrorKind::OutOfMemory));
        };
        self.given.note(buf);
        self.lines = lines;
        Ok(buf.len())
    }

    fn flush(&mut self) -> io::Result<()> {
        Ok(())
    }
}
