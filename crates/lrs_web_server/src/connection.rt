//! A connection whose request has come, so that serving it waits for nobody: what is read of it, and what is written to it.

ghost use Rattle.std.specs.Prelude.{◌≤◌, length, IfOk};

use crate::arrival::Behind;
use crate::departure::{OutgoingReply, Returns, Stage, give_back};
use crate::journal::JournalEntry;
use crate::judge::copy_from;
use lrs_web::Client;
use lrs_web_requests::write_unavailable;
use mio::Token;
use std::alloc::Global;
use std::cell::Cell;
use std::io;
use std::io::{ErrorKind, Read, Write};
use std::net::TcpStream;
use std::time::{Duration, Instant};

// Where memory for a reply is missing, its client is waited for so long, and others wait.
const TAKING_MILLIS: u64 = 4_000;

// Each reply begins with this byte.
const FIRST_BYTE: &[u8] = b"H";

/// The request of a connection, which has come, so that it is read from memory.
#[derive(Drop)]
pub struct RequestReader {
    request: Vec<u8>,
    read: usize,
    behind: Behind,
}

impl RequestReader {
    /// Reads these bytes, and then what stands behind them.
    pub(crate) fn new(request: Vec<u8>, behind: Behind) -> RequestReader {
        RequestReader {
            request,
            read: 0,
            behind,
        }
    }
}

impl Read for RequestReader {
    fn read(&mut self, buf: &mut [u8]) -> io::Result<usize> {
        let count = copy_from(self.request.as_slice(), self.read, buf);
        self.read = self.read.saturating_add(count);
        if count > 0 {
            return Ok(count);
        }
        match self.behind {
            Behind::End => Ok(0),
            Behind::Nothing => Err(io::Error::from(ErrorKind::WouldBlock)),
            Behind::Late => Err(io::Error::from(ErrorKind::TimedOut)),
            Behind::Failure => Err(io::Error::from(ErrorKind::ConnectionReset)),
        }
    }
}

/// How far a reply has been written.
#[derive(Clone, Copy, PartialEq, Eq)]
enum Progress {
    Nothing,
    /// Its first bytes, its head, are kept, and nothing is sent.
    Head,
    /// Some of it has been sent.
    Begun,
    /// There was no room for it, and an empty 503 is kept in its place.
    Refused,
}

/// Where the reply of a connection is written: the socket takes what it takes at once; the rest is kept, and sent by the
/// door once it has the writer back. Where there is no room for a reply, an empty 503 is sent in its place.
pub struct ReplyWriter<'a> {
    stream: TcpStream,
    token: Token,
    since: Instant,
    // What is kept, of which so much has been sent; a reply with more bytes than there is room for is refused.
    rest: Vec<u8>,
    sent: usize,
    room: usize,
    // How many bytes were sent before there was a reply: none, or the first one.
    ahead: Cell<usize>,
    progress: Progress,
    has_waited: bool,
    entry: Option<JournalEntry>,
    returns: &'a Returns,
}

impl<'a> ReplyWriter<'a> {
    /// Writes a reply of at most so many bytes to this stream, which the door has back through `returns`.
    pub(crate) fn new(
        alloc: Global,
        stream: TcpStream,
        token: Token,
        since: Instant,
        room: usize,
        entry: Option<JournalEntry>,
        returns: &'a Returns,
    ) -> ReplyWriter<'a> {
        ReplyWriter {
            stream,
            token,
            since,
            rest: Vec::new(alloc),
            sent: 0,
            room,
            ahead: Cell::new(0),
            progress: Progress::Nothing,
            has_waited: false,
            entry,
            returns,
        }
    }

    // Writes while the client is waited for, as there is no memory to do that later. This is done once.
    fn write_waiting(&mut self, buf: &[u8]) -> io::Result<usize>
        ensures { IfOk result (λ count. count ≤ length buf.now) }
    {
        if self.has_waited || self.sent < self.rest.len() {
            return Err(io::Error::from(ErrorKind::OutOfMemory));
        }
        self.has_waited = true;
        self.stream.set_nonblocking(false)?;
        self.stream
            .set_write_timeout(Some(Duration::from_millis(TAKING_MILLIS)))?;
        self.stream.write(buf)
    }

    // What the socket takes at once of bytes behind which nothing is kept.
    fn write_at_once(&mut self, buf: &[u8]) -> io::Result<usize>
        ensures { IfOk result (λ count. count ≤ length buf.now) }
    {
        if self.sent < self.rest.len() {
            return Ok(0);
        }
        match self.stream.write(buf) {
            Err(error) if is_later(error.kind()) => Ok(0),
            outcome => outcome,
        }
    }

    // Sends what is kept, as far as the socket takes it at once.
    fn send_kept(&mut self) -> io::Result<()> {
        let left = self.rest.get(self.sent..).unwrap_or(&[]);
        match self.stream.write(left) {
            Ok(count) => self.sent = self.sent.saturating_add(count),
            Err(error) if is_later(error.kind()) => {}
            Err(error) => return Err(error),
        }
        Ok(())
    }

    // Puts an empty 503 in the place of a reply of which nothing has been sent, or the first byte.
    fn refuse(&mut self) -> io::Error {
        self.progress = Progress::Refused;
        self.rest.clear();
        let _ = write_unavailable(&mut self.rest);
        if let Some(entry) = &mut self.entry {
            entry.restart();
            entry.note(self.rest.as_slice());
        }
        io::Error::from(ErrorKind::OutOfMemory)
    }

    fn write_or_keep(&mut self, buf: &[u8]) -> io::Result<usize>
        ensures { IfOk result (λ count. count ≤ length buf.now) }
    {
        let taken = self.write_at_once(buf)?;
        let left = &buf[taken..];
        if left.is_empty() || self.rest.extend_from_slice(left).is_ok() {
            return Ok(buf.len());
        }
        if taken > 0 {
            return Ok(taken);
        }
        self.write_waiting(buf)
    }

    // The head is kept until the body comes: only then it is known whether there is room for both.
    fn write_head(&mut self, buf: &[u8]) -> io::Result<usize>
        ensures { IfOk result (λ count. count ≤ length buf.now) }
    {
        let ahead = self.ahead.get().min(buf.len());
        if self.rest.extend_from_slice(buf).is_err() {
            self.progress = Progress::Begun;
            let count = self.write_or_keep(&buf[ahead..])?;
            return Ok(ahead + count);
        }
        self.sent = ahead;
        self.progress = Progress::Head;
        Ok(buf.len())
    }

    fn write_body(&mut self, buf: &[u8]) -> io::Result<usize>
        ensures { IfOk result (λ count. count ≤ length buf.now) }
    {
        if self.rest.len().saturating_add(buf.len()) > self.room {
            return Err(self.refuse());
        }
        self.progress = Progress::Begun;
        self.send_kept()?;
        self.write_or_keep(buf)
    }

    fn write_on(&mut self, buf: &[u8]) -> io::Result<usize>
        ensures { IfOk result (λ count. count ≤ length buf.now) }
    {
        match self.progress {
            Progress::Nothing => self.write_head(buf),
            Progress::Head => self.write_body(buf),
            Progress::Begun => self.write_or_keep(buf),
            Progress::Refused => Err(io::Error::from(ErrorKind::OutOfMemory)),
        }
    }
}

// Whether a socket takes nothing now, and may later.
fn is_later(kind: ErrorKind) -> bool {
    matches!(kind, ErrorKind::WouldBlock | ErrorKind::Interrupted)
}

// Whether a connection has been reset: then it does not take even nothing.
fn is_reset(mut stream: &TcpStream) -> bool {
    match stream.write(&[]) {
        Ok(_) => false,
        Err(error) => !is_later(error.kind()),
    }
}

// Whether nothing comes behind what was read, since the client has ended its side.
fn has_ended(stream: &TcpStream) -> bool {
    let mut next = [0u8; 1];
    matches!(stream.peek(&mut next), Ok(0))
}

impl<'a> Client for ReplyWriter<'a> {
    // A client that has ended its side waits for its reply, or has closed the connection, and the system does not tell which.
    // So the first byte of the reply is sent ahead: a closed connection is reset by it, as the next look finds.
    fn is_gone(&self) -> bool {
        if is_reset(&self.stream) {
            return true;
        }
        if self.ahead.get() == 0 && has_ended(&self.stream) {
            let mut stream = &self.stream;
            self.ahead.set(stream.write(FIRST_BYTE).unwrap_or(0));
        }
        false
    }
}

impl<'a> Write for ReplyWriter<'a> {
    fn write(&mut self, buf: &[u8]) -> io::Result<usize> {
        let count = self.write_on(buf)?;
        if let Some(entry) = &mut self.entry {
            entry.note(&buf[..count]);
        }
        Ok(count)
    }

    fn flush(&mut self) -> io::Result<()> {
        Ok(())
    }
}

impl<'a> Drop for ReplyWriter<'a> {
    fn drop(self) {
        let Self {
            stream,
            token,
            since,
            rest,
            sent,
            room: _,
            ahead: _,
            progress,
            has_waited: _,
            entry,
            returns,
        } = self;
        let departure = OutgoingReply {
            stream,
            token,
            rest,
            sent,
            stage: Stage::Sending,
            until: since,
            renewed: sent,
            is_answered: progress != Progress::Nothing,
            is_stirred: true,
            pieces: 0,
            entry,
        };
        give_back(returns, departure);
    }
}
