//! What is to be written to a file that keeps its bytes: it stays in memory.

ghost use Rattle.std.specs.Prelude.{◌<◌, ◌≤◌, ◌^◌, length, IfOk};

use std::alloc::Global;
use std::io::{self, ErrorKind};

/// The last offset that the system knows.
pub(crate) const MAX_OFFSET: usize = (1 << 63) - 1;

/// A byte that was written, and where.
#[derive(Clone, Copy)]
struct Written {
    at: usize,
    byte: u8,
}

/// The bytes that were written over a file, the oldest first; and its length, as if they had been written.
#[derive(Drop)]
pub(crate) struct Overlay {
    len: usize,
    /// So many bytes of the file itself count, from its start.
    own: usize,
    written: Vec<Written>,
}

impl Overlay {
    /// Over a file of so many bytes, with nothing written.
    pub(crate) fn over(len: usize, alloc: Global) -> Overlay {
        Overlay {
            len,
            own: len,
            written: Vec::new(alloc),
        }
    }

    pub(crate) fn len(&self) -> usize {
        self.len
    }

    /// So many bytes of the file itself count, from its start.
    pub(crate) fn own(&self) -> usize {
        self.own
    }

    /// Writes the first of these bytes at an offset. Between the end and there are zeros.
    pub(crate) fn put(&mut self, at: usize, bytes: &[u8]) -> io::Result<usize>
        ensures { IfOk result (λ n. (0 < n) × (n ≤ length bytes.now) × (at < 2 ^ 63)) }
    {
        if at > MAX_OFFSET || bytes.is_empty() {
            return Err(ErrorKind::InvalidInput.into());
        }
        let byte = bytes[0];
        if self.written.push(Written { at, byte }).is_err() {
            return Err(ErrorKind::OutOfMemory.into());
        }
        self.len = self.len.max(at + 1);
        Ok(1)
    }

    /// Makes the file so long. What lay behind is gone, and what is new is zero.
    pub(crate) fn cut(&mut self, len: usize) {
        self.len = len;
        self.own = self.own.min(len);
        self.written.retain(|written| written.at < len);
    }

    /// Lays what was written over bytes that stand at an offset.
    pub(crate) fn lay(&self, at: usize, buf: &mut [u8]) {
        for written in self.written.iter() {
            if written.at >= at {
                let place = written.at - at;
                if place < buf.len() {
                    buf[place] = written.byte;
                }
            }
        }
    }
}
