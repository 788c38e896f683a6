//! The bytes of a reply, which has at most so many.

ghost use Rattle.std.specs.Prelude.{◌≡◌, [], Some};

use std::alloc::Global;
use std::io;
use std::io::{ErrorKind, Write};

/// What is written of a reply. Where it would have more bytes than it may, that is answered as want of memory is.
#[derive(Drop)]
pub struct BoundedBytes {
    pub bytes: Vec<u8>,
    pub most: usize,
}

impl BoundedBytes {
    /// Nothing yet, and at most so many bytes.
    pub fn new(alloc: Global, most: usize) -> BoundedBytes
        ensures items { result.bytes.items ≡ [] }
        ensures most { result.most ≡ most }
    {
        BoundedBytes {
            bytes: Vec::new(alloc),
            most,
        }
    }
}

impl Write for BoundedBytes {
    ghost contents = { λ text. Some text.bytes.items };

    fn write(&mut self, buf: &[u8]) -> io::Result<usize> {
        if self.bytes.len().saturating_add(buf.len()) > self.most {
            return Err(io::Error::from(ErrorKind::OutOfMemory));
        }
        self.bytes.write(buf)
    }

    fn flush(&mut self) -> io::Result<()> {
        Ok(())
    }
}
