//! The entries of a list, each behind a key and a word.

ghost use Rattle.std.specs.Prelude.{◌≡◌, ◌==◌, ◌<◌, ◌≤◌, false, length, take, Some, OnOk};
ghost use Rattle.std.specs.List.{list_any, position};
ghost use Rattle.std.specs.Io.KnownBytes.{Appends};
ghost use Rattle.lrs_sheet_questions.specs.Entries.{front_of};
ghost use Rattle.lrs_sheet_questions.specs.FirstLine.{line_length};
ghost use Rattle.lrs_sheet_questions.specs.Kinds.{entry_word};
ghost use Rattle.lrs_sheet_questions.specs.Passing.{HasToldUnlessBroken, HasToldUnlessBroken-prop, next_stage, stage_of, told_from};
ghost use Rattle.lrs_sheet_questions.specs.Story.{text_in};

use crate::given::Given;
use crate::kind::ListKind;
use crate::stage::Stage;
use lrs_machine::Key;
use std::io;
use std::io::{ErrorKind, Write};

/// The first line end.
fn line_end(bytes: &[u8]) -> Option<usize>
    ensures { result ≡ position (λ byte. byte == 10) bytes.now }
{
    bytes.iter().position(|byte| *byte == b'\n')
}

/// How long the first line is, with its end, and whether the end is there.
fn first_line(bytes: &[u8]) -> (usize, bool)
    ensures long { result.0 ≡ line_length bytes.now }
    ensures within { result.0 ≤ length bytes.now }
    ensures whole { result.1 ≡ list_any (λ byte. byte == 10) bytes.now }
{
    match line_end(bytes) {
        Some(place) => (place + 1, true),
        None => (bytes.len(), false),
    }
}

/// The stage behind a line, whose end may be missing.
fn behind_line(stage: Stage, is_whole: bool) -> Stage
    ensures { result ≡ next_stage stage is_whole }
{
    match (stage, is_whole) {
        (_, true) => Stage::Start,
        (Stage::Header, false) => Stage::Header,
        (Stage::Start | Stage::Inside, false) => Stage::Inside,
    }
}

fn write_front<W: Write>(to: &mut W, key: Key, kind: ListKind) -> io::Result<()>
    ensures { OnOk result (Appends (W.contents to.old) (W.contents to.new)
        (front_of key (entry_word kind))) }
{
    let word = kind.entry_word();
    write!(to, "{key},{word},")
}

/// Writes what is told of the first line of some bytes, which is so long.
fn write_line<W: Write>(
    to: &mut W,
    key: Key,
    kind: ListKind,
    stage: Stage,
    line: &[u8],
) -> io::Result<()>
    requires line { line.now ≡ take (line_length line.now) line.now }
    requires some { 0 < length line.now }
    ensures { OnOk result (Appends (W.contents to.old) (W.contents to.new)
        (told_from (front_of key (entry_word kind)) stage line.now)) }
{
    match stage {
        Stage::Header => Ok(()),
        Stage::Start => {
            write_front(to, key, kind)?;
            to.write_all(line)
        }
        Stage::Inside => to.write_all(line),
    }
}

/// Passes the entries of a list on to a writer, each line behind a key and a word, and leaves its header out. It keeps nothing.
#[derive(Drop)]
pub(crate) struct Entries<'a, W: Write> {
    pub(crate) to: &'a mut W,
    pub(crate) key: Key,
    pub(crate) kind: ListKind,
    pub(crate) stage: Stage,
    pub(crate) is_broken: bool,
    pub(crate) given: Given,
    ghost staged: { stage ≡ stage_of (text_in given.text) },
    ghost told: { HasToldUnlessBroken is_broken to.ghost_name (front_of key (entry_word kind))
        (W.contents to.now) given.text } by { HasToldUnlessBroken-prop is_broken to.ghost_name
            (front_of key (entry_word kind)) (W.contents to.now) given.text },
}

impl<'a, W: Write> Write for Entries<'a, W> {
    ghost contents = { λ entries. Some entries.given.text };

    fn write(&mut self, buf: &[u8]) -> io::Result<usize> {
        if self.is_broken {
            return Err(io::Error::from(ErrorKind::BrokenPipe));
        }
        if buf.is_empty() {
            return Ok(0);
        }
        let (length, is_whole) = first_line(buf);
        let line = &buf[..length];
        self.is_broken = true;
        write_line(self.to, self.key, self.kind, self.stage, line)?;
        self.given.note(line);
        self.stage = behind_line(self.stage, is_whole);
        self.is_broken = false;
        Ok(length)
    }

    fn flush(&mut self) -> io::Result<()> {
        Ok(())
    }
}
