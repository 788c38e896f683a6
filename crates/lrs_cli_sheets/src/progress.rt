//! A line on the terminal that says how far long work is.

ghost use Rattle.std.specs.Prelude.{◌≡◌, ◌==◌, count_by};

use crate::report::{Amount, LongWork, Report};
use std::cell::Cell;
use std::io;
use std::io::{Read, Write};
use std::rt::Clock;
use std::time::{Duration, Instant};

// Nothing is shown within the first second, and then at most five times a second.
const FIRST_MILLIS: u64 = 1_000;

const PAUSE_MILLIS: u64 = 200;

/// Where progress is shown.
#[derive(Clone, Copy, PartialEq, Eq)]
pub enum ProgressDisplay {
    Nowhere,
    /// On a terminal that has nothing else.
    Alone,
    /// On the terminal that the lines themselves go to: between two of them.
    BetweenLines,
}

/// How much there is of a sheet.
#[derive(Clone, Copy)]
pub enum Extent {
    /// So many bytes, which are there already, as in a file.
    Bytes(u64),
    /// It is sent, as by a pipe: its records may come one by one.
    Sent,
    /// Somebody types it on a terminal.
    Typed,
}

// From when on the pace of work is reckoned, and what was done then.
#[derive(Clone, Copy)]
struct Start {
    at: Instant,
    done: Amount,
}

/// The line of one work. What reads for it and what writes for it count what they do, and show it on standard error.
#[derive(Drop)]
pub(crate) struct ProgressLine<'a, R: Eprint + Clock> {
    pub(crate) rt: &'a R,
    shown: ProgressDisplay,
    work: LongWork,
    // how many bytes are to be read, where that is known
    whole: Option<u64>,
    lines: Cell<u64>,
    bytes: Cell<u64>,
    start: Cell<Option<Start>>,
    shown_at: Cell<Option<Instant>>,
    is_standing: Cell<bool>,
    // whether the answers so far end in a whole line
    is_between: Cell<bool>,
}

fn lines_in(bytes: &[u8]) -> u64
    ensures { result ≡ count_by (λ b. b == 10) bytes.now }
{
    bytes.iter().filter(|b| **b == b'\n').count() as u64
}

fn millis_of(time: Duration) -> u64 {
    time.as_secs()
        .saturating_mul(1_000)
        .saturating_add(time.subsec_millis() as u64)
}

impl<'a, R: Eprint + Clock> ProgressLine<'a, R> {
    /// The line of work that begins. Whoever types a sheet sees none.
    pub(crate) fn new(
        rt: &'a R,
        shown: ProgressDisplay,
        work: LongWork,
        extent: Extent,
    ) -> ProgressLine<'a, R> {
        let (shown, whole) = match extent {
            Extent::Bytes(bytes) => (shown, Some(bytes)),
            Extent::Sent => (shown, None),
            Extent::Typed => (ProgressDisplay::Nowhere, None),
        };
        ProgressLine {
            rt,
            shown,
            work,
            whole,
            lines: Cell::new(0),
            bytes: Cell::new(0),
            start: Cell::new(None),
            shown_at: Cell::new(None),
            is_standing: Cell::new(false),
            is_between: Cell::new(true),
        }
    }

    fn done(&self) -> Amount {
        Amount {
            lines: self.lines.get(),
            bytes: self.bytes.get(),
        }
    }

    // Shows the line where it is due. Who calls it has just done something, or may have to wait now.
    fn tick(&self) {
        let is_free = match self.shown {
            ProgressDisplay::Nowhere => false,
            ProgressDisplay::Alone => true,
            ProgressDisplay::BetweenLines => self.is_between.get(),
        };
        if !is_free {
            return;
        }
        let Ok(now) = Instant::now(self.rt) else {
            return;
        };
        match self.start.get() {
            Some(start) => self.show_if_due(start, now),
            None => self.start.set(Some(Start {
                at: now,
                done: self.done(),
            })),
        }
    }

    fn show_if_due(&self, start: Start, now: Instant) {
        let millis = millis_of(now.duration_since(start.at));
        let is_early = match self.shown_at.get() {
            None => millis < FIRST_MILLIS,
            Some(last) => millis_of(now.duration_since(last)) < PAUSE_MILLIS,
        };
        if is_early {
            return;
        }
        let done = self.done();
        let report = Report {
            work: self.work,
            whole: self.whole,
            done,
            lately: Amount {
                lines: done.lines.saturating_sub(start.done.lines),
                bytes: done.bytes.saturating_sub(start.done.bytes),
            },
            millis,
        };
        // A terminal that takes nothing more is no fault of the work, so what comes of showing is dropped.
        let _ = eprint!(self.rt; "\r{report}\x1b[K");
        self.is_standing.set(true);
        self.shown_at.set(Some(now));
    }

    // Counts what was read; of a sheet whose replies stay in memory or are dropped, its lines too.
    fn note_read(&self, read: &[u8]) {
        if self.shown == ProgressDisplay::Nowhere {
            return;
        }
        self.bytes
            .set(self.bytes.get().saturating_add(read.len() as u64));
        if let LongWork::Trial | LongWork::Audit(_) = self.work {
            self.lines
                .set(self.lines.get().saturating_add(lines_in(read)));
        }
    }

    // Counts the lines that were written. The records before the first of them were passed over, at another pace.
    fn note_written(&self, written: &[u8]) {
        if let Some(last) = written.last() {
            self.is_between.set(*last == b'\n');
        }
        let lines = lines_in(written);
        if lines > 0 {
            if self.lines.get() == 0 {
                self.start.set(None);
            }
            self.lines.set(self.lines.get().saturating_add(lines));
            self.tick();
        }
    }

    /// Takes the line away, if there is one.
    pub(crate) fn clear(&self) {
        if self.is_standing.get() {
            let _ = eprint!(self.rt; "\r\x1b[K");
            self.is_standing.set(false);
        }
    }
}

/// Passes a sheet on, and counts its bytes.
#[derive(Drop)]
pub(crate) struct Measured<'a, S: Read + Drop, R: Eprint + Clock> {
    pub(crate) from: S,
    pub(crate) line: &'a ProgressLine<'a, R>,
}

impl<'a, S: Read + Drop, R: Eprint + Clock> Read for Measured<'a, S, R> {
    // What is read is what the reader behind gives, no byte less.
    ghost remaining = { λ m. S.remaining m.from };

    fn read(&mut self, buf: &mut [u8]) -> io::Result<usize> {
        self.line.tick();
        let count = self.from.read(buf)?;
        self.line.note_read(&buf[..count]);
        Ok(count)
    }
}

/// Passes answers on to a writer, and counts their lines.
#[derive(Drop)]
pub(crate) struct Progress<'a, W: Write + Drop, R: Eprint + Clock> {
    pub(crate) to: W,
    pub(crate) line: &'a ProgressLine<'a, R>,
}

impl<'a, W: Write + Drop, R: Eprint + Clock> Progress<'a, W, R> {
    /// The writer behind.
    pub(crate) fn into_writer(self) -> W
        ensures { result ≡ self.entry.to }
    {
        let Self { to, line: _ } = self;
        to
    }
}

impl<'a, W: Write + Drop, R: Eprint + Clock> Write for Progress<'a, W, R> {
    // What is written is what the writer behind is given, no byte more.
    ghost contents = { λ p. W.contents p.to };

    fn write(&mut self, buf: &[u8]) -> io::Result<usize> {
        if self.line.shown == ProgressDisplay::Nowhere {
            return self.to.write(buf);
        }
        if self.line.shown == ProgressDisplay::BetweenLines {
            self.line.clear();
        }
        let n = self.to.write(buf)?;
        self.line.note_written(&buf[..n]);
        Ok(n)
    }

    fn flush(&mut self) -> io::Result<()> {
        self.to.flush()
    }
}
