//! How far long work is, as it is shown.

use std::fmt;

/// What takes long.
#[derive(Clone, Copy)]
pub(crate) enum LongWork {
    /// The records of a sheet are done, in memory.
    Records,
    /// The same in a file, which keeps them where the program is ended.
    KeptRecords,
    /// A sheet is tried at a copy.
    Trial,
    /// Questions are answered.
    Questions,
    /// So many edits are done again.
    Audit(u64),
}

/// How much of it is done: lines that were answered, or tried, and bytes that were read.
#[derive(Clone, Copy)]
pub(crate) struct Amount {
    pub(crate) lines: u64,
    pub(crate) bytes: u64,
}

/// A line that says how far work is, and how long it still takes.
#[derive(Clone, Copy)]
pub(crate) struct Report {
    pub(crate) work: LongWork,
    /// How many bytes are to be read, where that is known.
    pub(crate) whole: Option<u64>,
    pub(crate) done: Amount,
    /// What of it was done within the last so many milliseconds.
    pub(crate) lately: Amount,
    pub(crate) millis: u64,
}

impl Report {
    fn percent(&self) -> Option<u64> {
        let whole = self.whole?;
        let read = self.done.bytes.min(whole);
        read.saturating_mul(100).checked_div(whole)
    }

    // How many lines a second; none where it is less than one.
    fn per_second(&self) -> Option<u64> {
        let rate = self
            .lately
            .lines
            .saturating_mul(1_000)
            .checked_div(self.millis)?;
        if rate == 0 { None } else { Some(rate) }
    }

    // How long the rest takes, at the pace of late.
    fn left(&self) -> Option<TimeLeft> {
        let rest = self.whole?.saturating_sub(self.done.bytes);
        let millis = rest
            .saturating_mul(self.millis)
            .checked_div(self.lately.bytes)?;
        Some(TimeLeft {
            seconds: millis.saturating_add(999) / 1_000,
        })
    }

    fn write_done<W: fmt::Write>(&self, f: &mut fmt::Formatter<W>) -> fmt::Result {
        let lines = Grouped {
            number: self.done.lines,
        };
        match self.work {
            LongWork::Records | LongWork::KeptRecords => write!(f, "{lines} records"),
            LongWork::Trial => write!(f, "tried {lines} lines"),
            LongWork::Questions => write!(f, "{lines} lines"),
            LongWork::Audit(edits) => {
                // the log has a header too
                let done = Grouped {
                    number: self.done.lines.min(edits),
                };
                let edits = Grouped { number: edits };
                write!(f, "{done} of {edits} edits")
            }
        }
    }
}

impl fmt::Display for Report {
    fn fmt<W: fmt::Write>(&self, f: &mut fmt::Formatter<W>) -> fmt::Result {
        self.write_done(f)?;
        if let Some(percent) = self.percent() {
            write!(f, ", {percent}%")?;
        }
        if let Some(rate) = self.per_second() {
            let rate = Grouped { number: rate };
            write!(f, ", {rate} a second")?;
        }
        if let Some(left) = self.left() {
            write!(f, ", {left} left")?;
        }
        // No signal can be caught, so what to do behind one stands there before it comes.
        if let LongWork::KeptRecords = self.work {
            f.write_str("; after Ctrl-C: --resume")?;
        }
        Ok(())
    }
}

/// The last three digits of a number.
#[derive(Clone, Copy)]
struct LastThree {
    number: u64,
}

impl fmt::Display for LastThree {
    ghost use Rattle.std.specs.Prelude.{Some};
    ghost use Rattle.lrs_cli_sheets.specs.Reports.{last_three};

    ghost output = { λ digits. Some (last_three digits.number) };

    fn fmt<W: fmt::Write>(&self, f: &mut fmt::Formatter<W>) -> fmt::Result {
        let hundreds = self.number / 100 % 10;
        let tens = self.number / 10 % 10;
        let ones = self.number % 10;
        write!(f, "{hundreds}{tens}{ones}")
    }
}

/// A number whose digits stand in groups of three: `12,345`.
#[derive(Clone, Copy)]
struct Grouped {
    number: u64,
}

impl fmt::Display for Grouped {
    ghost use Rattle.std.specs.Prelude.{Some};
    ghost use Rattle.lrs_cli_sheets.specs.Reports.{grouped};

    ghost output = { λ it. Some (grouped it.number) };

    fn fmt<W: fmt::Write>(&self, f: &mut fmt::Formatter<W>) -> fmt::Result {
        let number = self.number;
        if number < 1_000 {
            return write!(f, "{number}");
        }
        let last = LastThree { number };
        let thousands = number / 1_000;
        if number < 1_000_000 {
            return write!(f, "{thousands},{last}");
        }
        let middle = LastThree { number: thousands };
        let millions = number / 1_000_000;
        write!(f, "{millions},{middle},{last}")
    }
}

/// A time, in a unit in which it is a short number: `37 s`, `4 min`, `3 h`.
#[derive(Clone, Copy)]
struct TimeLeft {
    seconds: u64,
}

impl fmt::Display for TimeLeft {
    ghost use Rattle.std.specs.Prelude.{Some};
    ghost use Rattle.lrs_cli_sheets.specs.Reports.{time_text};

    ghost output = { λ time. Some (time_text time.seconds) };

    fn fmt<W: fmt::Write>(&self, f: &mut fmt::Formatter<W>) -> fmt::Result {
        let seconds = self.seconds;
        if seconds < 120 {
            return write!(f, "{seconds} s");
        }
        if seconds < 7_200 {
            let minutes = seconds / 60;
            return write!(f, "{minutes} min");
        }
        let hours = seconds / 3_600;
        write!(f, "{hours} h")
    }
}
