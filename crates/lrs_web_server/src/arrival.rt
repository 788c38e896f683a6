//! A connection whose request is still coming.

ghost use Rattle.std.specs.Prelude.{◌≤◌, vec_len};
ghost use Rattle.lrs_web_server.specs.Room.{most_held};

use crate::deadlines::later;
use crate::judge::{Finding, judged};
use mio::Token;
use std::alloc::{AllocError, Global};
use std::io::{ErrorKind, Read};
use std::net::TcpStream;
use std::time::Instant;

// How long a client may take to send its request.
const SENDING_MILLIS: u64 = 5_000;

// A request has at most so many bytes: those of its head and its body.
const MOST_HELD: usize = 8_192 + 1_048_576;

// So much is read at once, and so often in a row before others have their turn.
const PIECE: usize = 8_192;

const MOST_PIECES: u32 = 64;

/// What stands behind the bytes that have come.
#[derive(Clone, Copy, PartialEq, Eq)]
pub(crate) enum Behind {
    /// Nothing that is asked for.
    Nothing,
    /// The client has ended its side.
    End,
    /// Nothing came in time.
    Late,
    /// The connection has failed, or memory for more is missing.
    Failure,
}

/// All that is to come has come, since this instant.
#[derive(Clone, Copy)]
pub(crate) struct WholeRequest {
    pub(crate) behind: Behind,
    pub(crate) since: Instant,
}

/// A connection whose request has not arrived whole. At most a request's bytes are kept.
#[derive(Drop)]
pub(crate) struct IncomingRequest {
    pub(crate) stream: TcpStream,
    pub(crate) token: Token,
    pub(crate) bytes: Vec<u8>,
    pub(crate) until: Instant,
    pub(crate) whole: Option<WholeRequest>,
    pub(crate) is_stirred: bool,
    // The length at which the bytes are judged again, and whether they are at each end of a line.
    next: usize,
    by_lines: bool,
    ghost within: { vec_len bytes ≤ most_held },
}

impl IncomingRequest {
    /// A connection that has just been accepted.
    pub(crate) fn new(
        alloc: Global,
        stream: TcpStream,
        token: Token,
        now: Instant,
    ) -> IncomingRequest {
        IncomingRequest {
            stream,
            token,
            bytes: Vec::new(alloc),
            until: later(now, SENDING_MILLIS),
            whole: None,
            is_stirred: true,
            next: 1,
            by_lines: true,
        }
    }

    /// Since when its request has been whole, or has been late.
    pub(crate) fn since(&self, is_late: bool) -> Option<Instant> {
        match self.whole {
            Some(whole) if (whole.behind == Behind::Late) == is_late => Some(whole.since),
            _ => None,
        }
    }

    /// Nothing more is waited for.
    pub(crate) fn settle(&mut self, behind: Behind, now: Instant) {
        if self.whole.is_none() {
            self.whole = Some(WholeRequest { behind, since: now });
        }
    }

    /// Takes what has come meanwhile.
    pub(crate) fn advance(&mut self, alloc: Global, now: Instant) {
        if self.whole.is_some() {
            return;
        }
        if self.is_stirred
            && let Some(behind) = self.read_on(alloc)
        {
            self.settle(behind, now);
        } else if now >= self.until {
            self.settle(Behind::Late, now);
        }
    }

    // Reads until the request is whole, or nothing more is there. An arrival that is still stirred has not been read to
    // its end.
    fn read_on(&mut self, alloc: Global) -> Option<Behind> {
        let mut piece = [0u8; PIECE];
        for _turn in 0..MOST_PIECES {
            match self.stream.read(&mut piece) {
                Ok(0) => return Some(Behind::End),
                Ok(count) => {
                    if let Some(behind) = self.take(alloc, &piece[..count]) {
                        return Some(behind);
                    }
                }
                Err(error) if error.kind() == ErrorKind::WouldBlock => {
                    self.is_stirred = false;
                    return None;
                }
                Err(error) if error.kind() == ErrorKind::Interrupted => {}
                Err(_) => return Some(Behind::Failure),
            }
        }
        None
    }

    // Keeps as much of a piece as there is room for; what stands behind a request plays no part.
    fn keep(&mut self, piece: &[u8]) -> Result<(), AllocError> {
        let room = MOST_HELD - self.bytes.len();
        let count = piece.len().min(room);
        self.bytes.extend_from_slice(&piece[..count])
    }

    // Keeps a piece, and judges all that has come where that is due.
    fn take(&mut self, alloc: Global, piece: &[u8]) -> Option<Behind> {
        if self.keep(piece).is_err() {
            return Some(Behind::Failure);
        }
        if self.bytes.len() >= MOST_HELD {
            return Some(Behind::Nothing);
        }
        if self.bytes.len() < self.next && !(self.by_lines && piece.contains(&b'\n')) {
            return None;
        }
        match judged(alloc, self.bytes.as_slice()) {
            Finding::WholeRequest => return Some(Behind::Nothing),
            // a head that comes byte by byte is not parsed at each byte
            Finding::InHead => self.next = self.bytes.len().saturating_mul(2),
            Finding::InBody(missing) => {
                self.next = self.bytes.len().saturating_add(missing);
                self.by_lines = false;
            }
        }
        None
    }
}
