//! A door over a port.

use crate::connection::{ReplyWriter, RequestReader};
use crate::hall::WaitingRoom;
use lrs_web::{Door, DoorFault, Served};
use std::io::Eprint;
use std::time::Clock;

/// The door to a hall in which clients wait: it gives the connections whose requests have come.
#[derive(Drop)]
pub struct Listening<'a, R: Clock + Eprint> {
    hall: WaitingRoom<'a>,
    rt: &'a R,
    most_reply: usize,
    failures: u64,
}

impl<'a, R: Clock + Eprint> Listening<'a, R> {
    /// The door to this hall, for replies of at most so many bytes.
    pub(crate) fn new(hall: WaitingRoom<'a>, rt: &'a R, most_reply: usize) -> Listening<'a, R> {
        Listening {
            hall,
            rt,
            most_reply,
            failures: 0,
        }
    }

    /// Sends the replies that are left, as far as their clients take them in time. No connection is given any more. Where all
    /// were served and lines are wanted, the last one says so.
    pub fn finish(&mut self, served: Option<Served>) {
        let _ = self.hall.finish(self.rt);
        if let Some(served) = served {
            self.hall.conclude(self.rt, served);
        }
    }
}

impl<'a, R: Clock + Eprint> Door for Listening<'a, R> {
    type Reader = RequestReader;

    type Writer = ReplyWriter<'a>;

    ghost failures = { λ door. door.failures };

    fn most_reply(&self) -> usize {
        self.most_reply
    }

    fn next(&mut self) -> Result<(RequestReader, ReplyWriter<'a>), DoorFault> {
        match self.hall.next(self.rt) {
            Ok(connection) => Ok(connection),
            Err(_) => {
                self.failures = self.failures.saturating_add(1);
                Err(DoorFault)
            }
        }
    }

    // The hall has it back as it is dropped.
    fn take_back(&mut self, writer: ReplyWriter<'a>) {
        drop(writer);
    }
}
