//! A sheet that is done only where that is confirmed.

ghost use Rattle.std.specs.Prelude.{◌≡◌, ◌∷◌, [], codes, take, true, IfErr, IfNone, IfOk, IfSome, OnOk, Some};
ghost use Rattle.std.specs.Io.KnownBytes.{Consumes, IsAtEnd};
ghost use Rattle.std.specs.List.{before_first};
ghost use Rattle.lrs_machine.specs.Image.{state_of};
ghost use Rattle.lrs_sheet.specs.Sheets.{IsAfterCommands};
ghost use Rattle.lrs_cli_sheets.specs.Sheets.{IsUnwritten, ends_line};
ghost use Rattle.lrs_cli_sheets.specs.Trials.{EndsConfirmed, says_yes};

use crate::sheets::{Pace, ends_line, read_whole, unopened};
use crate::trial::{do_read, do_records, foretell};
use crate::world::{Sheets, World};
use lrs_cli_tasks::{Ending, ProgramFault};
use lrs_sheet::{Desk, Keeper, Sheet};
use std::alloc::Global;
use std::io;
use std::io::{Read, Write};
use std::rt::Runtime;

// The most bytes of an answer that count.
const MOST_BYTES: usize = 4_096;

// The next byte that a reader gives; none at its end.
fn next_byte<S: Read>(reader: &mut S) -> io::Result<Option<u8>>
    ensures some { IfOk result (λ found. IfSome found (λ byte.
        Consumes (S.remaining reader.old) (S.remaining reader.new) (byte ∷ []))) }
    ensures none { IfOk result (λ found. IfNone found (IsAtEnd (S.remaining reader.old))) }
{
    let mut bytes = [0];
    if reader.read(&mut bytes)? == 0 {
        return Ok(None);
    }
    Ok(Some(bytes[0]))
}

// Reads the first line that a reader gives, without its end; of a long one its first bytes.
fn read_line<S: Read>(reader: &mut S, line: &mut Vec<u8>) -> io::Result<()>
    requires { line.old.items ≡ [] }
    ensures { OnOk result (IfSome (S.remaining reader.old) (λ text.
        line.new.items ≡ take 4096 (before_first ends_line text))) }
{
    for _turn in 0..MOST_BYTES {
        match next_byte(reader)? {
            Some(byte) if !ends_line(byte) => line.push(byte)?,
            _ => return Ok(()),
        }
    }
    Ok(())
}

// Whether the first line that a reader gives is `yes`.
#[tactic(auto, using(crate::proofs::AnswerLine::said))]
fn says_yes<S: Read>(alloc: Global, reader: &mut S) -> io::Result<bool>
    ensures { IfOk result (λ is_yes.
        IfSome (S.remaining reader.old) (λ text. is_yes ≡ says_yes text)) }
{
    let mut line = Vec::new(alloc);
    match read_line(reader, &mut line) {
        Ok(()) => Ok(line.as_slice() == b"yes".as_slice()),
        Err(error) => Err(error),
    }
}

// Asks on standard error whether a sheet is to be done, and reads the answer from the standard input. Where standard error
// takes nothing, it is read all the same.
fn is_confirmed<R: Runtime<A = Global>, S: Sheets>(world: &World<'_, R, S>) -> io::Result<bool>
    ensures { IfOk result (λ is_yes. IfSome (S.text_of world.now.sheets.now (codes "stdin"))
        (λ answer. is_yes ≡ says_yes answer)) }
{
    let _ = eprint!(world.rt; "do it? yes or no: ");
    let mut input = world.sheets.open("stdin")?;
    says_yes(world.rt.alloc(), &mut input)
}

// Does the bytes of a sheet where that is confirmed. Standard error says before what they would do.
#[tactic(auto, using(crate::proofs::Between::none_done, crate::proofs::AnswerLine::answered))]
fn do_asked_text<R: Runtime<A = Global>, S: Sheets, W: Write + Drop, K: Keeper>(
    world: &World<'_, R, S>,
    desk: &mut Desk<K>,
    kind: Sheet,
    resumes: bool,
    all: bool,
    whole: bool,
    text: &[u8],
    of_file: Pace,
    to: W,
) -> Result<(W, Ending), ProgramFault>
    ensures ended { IfOk result (λ done. EndsConfirmed K.may_hold
        (S.text_of world.now.sheets.now (codes "stdin")) true kind resumes all whole
        (Some text.now) desk.old desk.new (W.contents to) (W.contents done.0) done.1) }
    ensures failed { IfErr result (IsUnwritten K.may_hold desk.old desk.new) }
    ensures left { IsAfterCommands desk.old.limits (state_of desk.old.image)
        (state_of desk.new.image) }
{
    if foretell(world, desk, kind, resumes, text).is_err() {
        return Ok((to, Ending::Stopped(ProgramFault::Memory)));
    }
    match is_confirmed(world) {
        Ok(true) => do_read(world, desk, kind, resumes, all, whole, text, of_file, to),
        Ok(false) => Ok((to, Ending::NotConfirmed)),
        Err(error) => Ok((to, unopened(world.rt, "stdin", error))),
    }
}

// Does a sheet where that is confirmed. It is read as a whole before.
#[tactic(auto, using(crate::proofs::Between::none_done))]
fn do_asked<R: Runtime<A = Global>, S: Sheets, W: Write + Drop, K: Keeper>(
    world: &World<'_, R, S>,
    desk: &mut Desk<K>,
    kind: Sheet,
    resumes: bool,
    all: bool,
    whole: bool,
    name: &str,
    of_file: Pace,
    to: W,
) -> Result<(W, Ending), ProgramFault>
    ensures ended { IfOk result (λ done. EndsConfirmed K.may_hold
        (S.text_of world.now.sheets.now (codes "stdin")) true kind resumes all whole
        (S.text_of world.now.sheets.now name.now) desk.old desk.new
        (W.contents to) (W.contents done.0) done.1) }
    ensures failed { IfErr result (IsUnwritten K.may_hold desk.old desk.new) }
    ensures left { IsAfterCommands desk.old.limits (state_of desk.old.image)
        (state_of desk.new.image) }
{
    match read_whole(world, name) {
        Ok(text) => {
            let text = text.as_slice();
            do_asked_text(world, desk, kind, resumes, all, whole, text, of_file, to)
        }
        Err(error) => Ok((to, unopened(world.rt, name, error))),
    }
}

/// Does a sheet of this kind at a desk, as `do_records` does; with `asks` only where the first line of the standard input
/// is `yes`. Then the sheet is read whole, and tried at a copy of the inventory: standard error says what to do about each
/// record that would be refused, and what would change. It is asked for, and the bytes that were tried are done.
///
/// # Errors
/// Those of `do_records`.
pub fn do_confirmed<R: Runtime<A = Global>, S: Sheets, W: Write + Drop, K: Keeper>(
    world: &World<'_, R, S>,
    desk: &mut Desk<K>,
    kind: Sheet,
    resumes: bool,
    all: bool,
    whole: bool,
    asks: bool,
    name: &str,
    of_file: Pace,
    to: W,
) -> Result<(W, Ending), ProgramFault>
    ensures ended { IfOk result (λ done. EndsConfirmed K.may_hold
        (S.text_of world.now.sheets.now (codes "stdin")) asks kind resumes all whole
        (S.text_of world.now.sheets.now name.now) desk.old desk.new
        (W.contents to) (W.contents done.0) done.1) }
    ensures failed { IfErr result (IsUnwritten K.may_hold desk.old desk.new) }
    ensures left { IsAfterCommands desk.old.limits (state_of desk.old.image)
        (state_of desk.new.image) }
{
    if asks {
        do_asked(world, desk, kind, resumes, all, whole, name, of_file, to)
    } else {
        do_records(world, desk, kind, resumes, all, whole, name, of_file, to)
    }
}
