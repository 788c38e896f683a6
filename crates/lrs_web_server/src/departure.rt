//! A connection whose reply is still going.

use crate::deadlines::later;
use crate::journal::JournalEntry;
use mio::Token;
use std::cell::RefCell;
use std::io::{ErrorKind, Read, Write};
use std::net::{Shutdown, TcpStream};
use std::time::Instant;

// How long a client may take to take its reply, and each further so many bytes of it; and then to end its side.
const TAKING_MILLIS: u64 = 4_000;

const RENEWING: usize = 1_048_576;

const ENDING_MILLIS: u64 = 1_000;

// So often it is written to in a row before others have their turn.
const MOST_WRITES: u32 = 64;

// What a client sent beyond its request is read in at most this many pieces, and dropped.
const MOST_PIECES: u32 = 1_024;

const PIECE: usize = 4_096;

/// How far a reply has gone.
#[derive(Clone, Copy, PartialEq, Eq)]
pub(crate) enum Stage {
    /// Some of it is still kept.
    Sending,
    /// It has been sent. What the client still sends is read and dropped.
    Ending,
    Over,
}

/// A connection whose reply is not sent whole.
#[derive(Drop)]
pub(crate) struct OutgoingReply {
    pub(crate) stream: TcpStream,
    pub(crate) token: Token,
    pub(crate) rest: Vec<u8>,
    pub(crate) sent: usize,
    pub(crate) stage: Stage,
    pub(crate) until: Instant,
    // How much had been sent when its time was last renewed.
    pub(crate) renewed: usize,
    pub(crate) is_answered: bool,
    pub(crate) is_stirred: bool,
    pub(crate) pieces: u32,
    pub(crate) entry: Option<JournalEntry>,
}

/// Connections that were served, until the door has them back.
pub(crate) type Returns = RefCell<Vec<OutgoingReply>>;

/// Gives back one that was served.
pub(crate) fn give_back(returns: &Returns, departure: OutgoingReply) {
    match returns.try_borrow_mut() {
        Ok(mut departures) => {
            let _ = departures.push(departure);
        }
        Err(_) => drop(departure),
    }
}

/// The next one that was served.
pub(crate) fn returned(returns: &Returns) -> Option<OutgoingReply> {
    match returns.try_borrow_mut() {
        Ok(mut departures) => departures.pop(),
        Err(_) => None,
    }
}

// What came of writing or reading as far as that went at once.
#[derive(Clone, Copy, PartialEq, Eq)]
enum Turn {
    Done,
    Waits,
    Goes,
    Failed,
}

fn send(stream: &mut TcpStream, rest: &[u8], sent: &mut usize) -> Turn {
    for _turn in 0..MOST_WRITES {
        let left = rest.get(*sent..).unwrap_or(&[]);
        if left.is_empty() {
            return Turn::Done;
        }
        match stream.write(left) {
            Ok(0) => return Turn::Failed,
            Ok(count) => *sent = sent.saturating_add(count),
            Err(error) if error.kind() == ErrorKind::WouldBlock => return Turn::Waits,
            Err(error) if error.kind() == ErrorKind::Interrupted => {}
            Err(_) => return Turn::Failed,
        }
    }
    Turn::Goes
}

// Reads what still comes, and drops it. A stream that is closed with bytes unread may take the reply back from a client
// that has not read it yet.
fn linger(stream: &mut TcpStream, pieces: &mut u32) -> Turn {
    let mut piece = [0u8; PIECE];
    for _turn in 0..MOST_PIECES {
        if *pieces >= MOST_PIECES {
            return Turn::Failed;
        }
        *pieces = pieces.saturating_add(1);
        match stream.read(&mut piece) {
            Ok(0) => return Turn::Done,
            Ok(_) => {}
            Err(error) if error.kind() == ErrorKind::WouldBlock => return Turn::Waits,
            Err(error) if error.kind() == ErrorKind::Interrupted => {}
            Err(_) => return Turn::Failed,
        }
    }
    Turn::Failed
}

impl OutgoingReply {
    /// Its reply goes from now on.
    pub(crate) fn begin(&mut self, now: Instant) {
        self.until = later(now, TAKING_MILLIS);
        if self.stream.set_nonblocking(true).is_err() {
            self.stage = Stage::Over;
        }
    }

    /// Ends it, whatever is left.
    pub(crate) fn cut(&mut self) {
        self.stage = Stage::Over;
    }

    /// Goes on as far as the client takes its reply.
    pub(crate) fn advance(&mut self, now: Instant) {
        if self.is_stirred {
            self.go_on(now);
        }
        if now >= self.until {
            self.stage = Stage::Over;
        }
    }

    fn go_on(&mut self, now: Instant) {
        self.is_stirred = false;
        if self.stage == Stage::Sending {
            let turn = send(&mut self.stream, self.rest.as_slice(), &mut self.sent);
            self.renew(now);
            match turn {
                Turn::Done => self.end(now),
                Turn::Waits => {}
                Turn::Goes => self.is_stirred = true,
                Turn::Failed => self.stage = Stage::Over,
            }
        }
        if self.stage == Stage::Ending {
            match linger(&mut self.stream, &mut self.pieces) {
                Turn::Waits => {}
                Turn::Done | Turn::Goes | Turn::Failed => self.stage = Stage::Over,
            }
        }
    }

    // A client that goes on taking its reply has more time.
    fn renew(&mut self, now: Instant) {
        if self.sent.saturating_sub(self.renewed) >= RENEWING {
            self.renewed = self.sent;
            self.until = later(now, TAKING_MILLIS);
        }
    }

    // All of the reply has been sent.
    fn end(&mut self, now: Instant) {
        self.until = later(now, ENDING_MILLIS);
        self.stage = match self.stream.shutdown(Shutdown::Write) {
            Ok(()) => Stage::Ending,
            Err(_) => Stage::Over,
        };
    }

    /// What is told of it, once its reply is no longer being sent.
    pub(crate) fn take_entry(&mut self) -> Option<JournalEntry> {
        if self.stage == Stage::Sending {
            return None;
        }
        let mut entry = self.entry.take()?;
        entry.lose(self.rest.len().saturating_sub(self.sent));
        Some(entry)
    }
}
