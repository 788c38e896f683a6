//! A line for each request that was served.

ghost use Rattle.std.specs.Prelude.{◌≤◌};

use crate::journal_outlet::JournalOutlet;
use jiff::Timestamp;
use std::alloc::Global;
use std::fmt;
use std::io::Eprint;
use std::time::{Clock, Instant, SystemTime};

// So many bytes of a request's first line are shown.
const MOST_SHOWN: usize = 200;

// The status stands behind the version of a reply: `HTTP/1.1 200`.
const STATUS_AT: usize = 9;

const STATUS_END: usize = 12;

/// A byte of a request as it is shown: a visible character of ASCII, or a question mark.
pub(crate) fn shown(byte: u8) -> char
    ensures { (0x21 ≤ result) × (result ≤ 0x7e) }
{
    if byte.is_ascii_graphic() {
        char::from(byte)
    } else {
        '?'
    }
}

// A word of a request. Where there is none, a hyphen stands for it.
#[derive(Clone, Copy)]
struct Word<'a>(&'a [u8]);

impl<'a> fmt::Display for Word<'a> {
    fn fmt<W: fmt::Write>(&self, f: &mut fmt::Formatter<W>) -> fmt::Result {
        if self.0.is_empty() {
            return f.write_char('-');
        }
        for byte in self.0 {
            f.write_char(shown(*byte))?;
        }
        Ok(())
    }
}

/// What is told of a request: the front of its first line, the status and the length of its reply, and since when it was
/// whole.
#[derive(Drop)]
pub(crate) struct JournalEntry {
    asked: Vec<u8>,
    status: Option<[u8; 3]>,
    bytes: u64,
    since: Instant,
}

// The first line of a request, as far as it is shown. Empty lines may stand before it.
fn first_line(request: &[u8]) -> &[u8] {
    let start = request
        .iter()
        .position(|byte| *byte != b'\r' && *byte != b'\n');
    let line = match start {
        Some(start) => request.get(start..),
        None => None,
    };
    let line = line.unwrap_or(&[]);
    let end = line
        .iter()
        .position(|byte| *byte == b'\r' || *byte == b'\n');
    let end = end.unwrap_or(line.len()).min(MOST_SHOWN);
    line.get(..end).unwrap_or(&[])
}

// The first word, and what stands behind it and a space.
fn split_word(line: &[u8]) -> (&[u8], &[u8]) {
    let at = line.iter().position(|byte| *byte == b' ');
    let at = at.unwrap_or(line.len());
    let word = line.get(..at).unwrap_or(&[]);
    let rest = line.get(at.saturating_add(1)..).unwrap_or(&[]);
    (word, rest)
}

impl JournalEntry {
    /// Of a request that has just become whole; nothing where memory is missing.
    pub(crate) fn new(alloc: Global, request: &[u8], since: Instant) -> Option<JournalEntry> {
        match Vec::from_slice(alloc, first_line(request)) {
            Ok(asked) => Some(JournalEntry {
                asked,
                status: None,
                bytes: 0,
                since,
            }),
            Err(_) => None,
        }
    }

    /// These bytes of its reply were written.
    pub(crate) fn note(&mut self, written: &[u8]) {
        if self.bytes == 0
            && let Some(digits) = written.get(STATUS_AT..STATUS_END)
            && let Ok(digits) = <[u8; 3]>::try_from(digits)
        {
            self.status = Some(digits);
        }
        self.bytes = self.bytes.saturating_add(written.len() as u64);
    }

    /// Nothing of what was noted is sent: another reply is in its place.
    pub(crate) fn restart(&mut self) {
        self.status = None;
        self.bytes = 0;
    }

    /// Of the bytes that were noted, so many were never sent.
    pub(crate) fn lose(&mut self, unsent: usize) {
        self.bytes = self.bytes.saturating_sub(unsent as u64);
    }

    /// Writes the line where it is taken at once: the time, the method, the target, the status, the bytes of the reply, and
    /// the microseconds from the whole request to the written reply. Nothing comes of a failure.
    pub(crate) fn say<R: Clock + Eprint>(&self, rt: &R, outlet: &mut JournalOutlet, now: Instant) {
        if !outlet.admits(rt) {
            return;
        }
        let (method, rest) = split_word(self.asked.as_slice());
        let (target, _) = split_word(rest);
        let (method, target) = (Word(method), Word(target));
        let status = match &self.status {
            Some(digits) => Word(&digits[..]),
            None => Word(&[]),
        };
        let bytes = self.bytes;
        let micros = now.duration_since(self.since).as_micros();
        let time = seconds(rt);
        let _ = eprintln!(rt; "{time} {method} {target} {status} {bytes} {micros}");
    }
}

// The time in whole seconds; where the clock has none, the start of 1970.
fn seconds<R: Clock>(rt: &R) -> Timestamp {
    match now(rt) {
        Some(time) => time,
        None => Timestamp::UNIX_EPOCH,
    }
}

fn now<R: Clock>(rt: &R) -> Option<Timestamp> {
    let time = SystemTime::now(rt).ok()?;
    let since = time.duration_since(SystemTime::UNIX_EPOCH).ok()?;
    let seconds = i64::try_from(since.as_secs()).ok()?;
    Timestamp::from_second(seconds).ok()
}
