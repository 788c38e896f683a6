//! What has arrived of a sheet: a group of records ends where the next one is still to come.

ghost use Rattle.std.specs.Prelude.{◌≡◌};

use std::io;
use std::io::Read;

/// A reader that knows whether a whole record has arrived behind what was taken of it.
pub trait Arrival {
    /// Whether the bytes that it gave have a whole record behind the first `taken` ones.
    fn has_record_behind(&self, taken: u64) -> bool;
}

/// A text that is there as a whole.
#[derive(Drop)]
pub struct Whole<R: Read> {
    pub reader: R,
}

impl<R: Read> Read for Whole<R> {
    ghost remaining = { λ text. R.remaining text.reader };

    fn read(&mut self, buf: &mut [u8]) -> io::Result<usize> {
        self.reader.read(buf)
    }
}

impl<R: Read> Arrival for Whole<R> {
    fn has_record_behind(&self, _taken: u64) -> bool {
        true
    }
}

/// A text that is sent piece by piece. The places are counts of bytes from its start.
#[derive(Drop)]
pub struct Arriving<R: Read> {
    reader: R,
    given: u64,
    // Where the last line begins, if it has not ended. A line without a byte is none.
    open_line: Option<u64>,
    // Where the last line begins that has ended.
    whole_line: Option<u64>,
    // A quoted field may go over lines, so that nothing is known behind a quote.
    has_quote: bool,
}

impl<R: Read> Arriving<R> {
    /// The text that a reader gives, of which nothing has come.
    pub fn new(reader: R) -> Arriving<R>
        ensures { result.reader ≡ reader }
    {
        Arriving {
            reader,
            given: 0,
            open_line: None,
            whole_line: None,
            has_quote: false,
        }
    }

    fn note(&mut self, byte: u8)
        ensures { self.new.reader ≡ self.old.reader }
    {
        match byte {
            b'\n' => {
                if self.open_line.is_some() {
                    self.whole_line = self.open_line;
                }
                self.open_line = None;
            }
            b'\r' => {}
            _ => {
                if self.open_line.is_none() {
                    self.open_line = Some(self.given);
                }
                self.has_quote = self.has_quote || byte == b'"';
            }
        }
        self.given = self.given.saturating_add(1);
    }
}

impl<R: Read> Read for Arriving<R> {
    ghost remaining = { λ text. R.remaining text.reader };

    fn read(&mut self, buf: &mut [u8]) -> io::Result<usize> {
        let count = self.reader.read(buf)?;
        for byte in &buf[..count] {
            self.note(*byte);
        }
        Ok(count)
    }
}

impl<R: Read> Arrival for Arriving<R> {
    fn has_record_behind(&self, taken: u64) -> bool {
        match self.whole_line {
            Some(start) => taken <= start && !self.has_quote,
            None => false,
        }
    }
}
