//! A door and its connections in memory. They tell all: the door its connections, and these the bytes that are left of
//! their requests and those that are written to them.

ghost use Rattle.std.specs.Prelude.{Some};

use lrs_web::{Door, DoorFault};
use std::alloc::Global;
use std::collections::VecDeque;
use std::io;
use std::io::{ErrorKind, Print, Read};

/// A request in memory.
#[derive(Drop)]
pub struct MemoryReader {
    request: VecDeque<u8>,
    fails: bool,
}

impl MemoryReader {
    /// The bytes of a request. `fails` says whether the first read fails.
    pub fn new(request: Vec<u8>, fails: bool) -> MemoryReader {
        MemoryReader {
            request: VecDeque::from(request),
            fails,
        }
    }
}

impl Read for MemoryReader {
    ghost remaining = { λ reader. Some reader.request.items };

    fn read(&mut self, buf: &mut [u8]) -> io::Result<usize> {
        if self.fails {
            self.fails = false;
            return Err(io::Error::from(ErrorKind::ConnectionReset));
        }
        self.request.read(buf)
    }
}

/// A door before which connections wait. What was written to one is printed when it is back.
#[derive(Drop)]
pub struct MemoryDoor<'a, R: Print> {
    rt: &'a R,
    connections: VecDeque<(MemoryReader, Vec<u8>)>,
    failures: u64,
}

impl<'a, R: Print> MemoryDoor<'a, R> {
    /// A door before which none waits.
    pub fn new(rt: &'a R, alloc: Global) -> MemoryDoor<'a, R> {
        MemoryDoor {
            rt,
            connections: VecDeque::new(alloc),
            failures: 0,
        }
    }

    /// One more connection waits, behind the others; where memory runs out, it ends.
    pub fn add(&mut self, reader: MemoryReader, writer: Vec<u8>) -> Option<()> {
        self.connections.push_back((reader, writer)).ok()
    }
}

impl<'a, R: Print> Door for MemoryDoor<'a, R> {
    type Reader = MemoryReader;

    type Writer = Vec<u8>;

    ghost waiting = { λ door. Some door.connections.items };

    ghost failures = { λ door. door.failures };

    fn next(&mut self) -> Result<(MemoryReader, Vec<u8>), DoorFault> {
        match self.connections.pop_front() {
            Some(connection) => Ok(connection),
            None => {
                self.failures = self.failures.saturating_add(1);
                Err(DoorFault)
            }
        }
    }

    fn take_back(&mut self, writer: Vec<u8>) {
        let _ = match str::from_utf8(writer.as_slice()) {
            Ok(text) => self.rt.print(text),
            Err(_) => self.rt.print("(no text)"),
        };
        let _ = self.rt.println("(end of a connection)");
    }
}
