//! Sheets, from a file or the standard input, and their replies.

ghost use Rattle.std.specs.Prelude.{◌≡◌, ◌⊎◌, IfErr, IfOk, IfSome, Some, false, true};
ghost use Rattle.lrs_machine.specs.Image.{state_of};
ghost use Rattle.lrs_sheet.specs.Runs.{IsWholeRun};
ghost use Rattle.lrs_sheet.specs.Sheets.{IsAfterCommands};
ghost use Rattle.lrs_cli_sheets.specs.Sheets.{DoesNotGoOn, EndsAsRun, EndsSheet, GoesOnBehind, HasRun, IsUnwritten, WritesReplies, ending_of_sheet, ends_line, is_cut_off, run_of, together_at};

use crate::progress::{Extent, Measured, Progress, ProgressLine};
use crate::report::LongWork;
use crate::world::{Sheets, World};
use lrs_cli_tasks::{Ending, ProgramFault, behind, buffered};
use lrs_sheet::{
    Decided, Desk, Keeper, RECORDS_TOGETHER, RepeatedKey, Run, Sheet, SheetFault, Tally, last_edit,
    repeated_key, run_arriving, run_behind, run_edits, run_survey,
};
use std::alloc::Global;
use std::io;
use std::io::{ErrorKind, LineWriter, Read, Write};
use std::rt::Runtime;

// How many records are done together, and when their reply lines are handed to the operating system.
#[derive(Clone, Copy, PartialEq, Eq)]
pub enum Pace {
    // One, and its line before the next record is read: whoever sends the records may wait for it.
    LineByLine,
    // Those that have arrived, and their lines before more is read: so too he may wait for each of them.
    AsTheyArrive,
    // Those of a group, and their lines before more are done.
    InGroups,
    // One, and the lines of many at once.
    InPieces,
}

// How a sheet is done: of which kind, at which pace, and behind how many of its records.
#[derive(Clone, Copy)]
pub struct Way {
    pub kind: Sheet,
    pub pace: Pace,
    pub passed: u32,
}

// How many records are done together at a pace.
fn together_at(pace: Pace) -> usize
    ensures { result ≡ together_at pace }
{
    match pace {
        Pace::LineByLine | Pace::InPieces => 1,
        Pace::AsTheyArrive | Pace::InGroups => RECORDS_TOGETHER,
    }
}

// How the records of a sheet are run that is done in this way.
fn run_of(way: Way) -> Run
    ensures { result ≡ run_of way }
{
    Run {
        sheet: way.kind,
        together: together_at(way.pace),
        passed: way.passed,
    }
}

// Runs a sheet's bytes, one record after another.
fn run_one_by_one<S: Read + Drop, W: Write, K: Keeper>(
    alloc: Global,
    kind: Sheet,
    sheet: S,
    writer: &mut W,
    desk: &mut Desk<K>,
) -> Result<Tally, SheetFault>
    ensures { IsWholeRun K.may_hold kind 1 (S.remaining sheet) desk.old desk.new
        (W.contents writer.old) (W.contents writer.new) result }
{
    match kind {
        Sheet::Edits => run_edits(alloc, sheet, writer, desk),
        Sheet::Survey => run_survey(alloc, sheet, writer, desk),
    }
}

// Runs a sheet's bytes in this way.
pub(crate) fn run<S: Read + Drop, W: Write, K: Keeper>(
    alloc: Global,
    way: Way,
    sheet: S,
    writer: &mut W,
    desk: &mut Desk<K>,
) -> Result<Tally, SheetFault>
    ensures { HasRun K.may_hold way (S.remaining sheet) desk.old desk.new
        (W.contents writer.old) (W.contents writer.new) result }
{
    let run = run_of(way);
    if run.together == 1 && run.passed == 0 {
        return run_one_by_one(alloc, run.sheet, sheet, writer, desk);
    }
    if way.pace == Pace::AsTheyArrive {
        return run_arriving(alloc, run, sheet, writer, desk);
    }
    run_behind(alloc, run, sheet, writer, desk)
}

// Runs a sheet's bytes, writes the lines of its replies as they come, and gives the writer back with all of them. So a
// fault of the sheet is handed out beside the writer; what fails here is the writing, or there is no memory for it.
#[tactic(auto, using(crate::proofs::Between::either_left, crate::proofs::Between::none_done))]
fn write_lines<S: Read + Drop, W: Write + Drop, K: Keeper>(
    alloc: Global,
    way: Way,
    sheet: S,
    to: W,
    desk: &mut Desk<K>,
) -> Result<(W, Result<Tally, SheetFault>), ProgramFault>
    ensures { WritesReplies K.may_hold W.contents way (S.remaining sheet) desk.old desk.new
        to result }
{
    let Ok(mut lines) = LineWriter::new(alloc, to) else {
        return Err(ProgramFault::Memory);
    };
    let outcome = run(alloc, way, sheet, &mut lines, desk);
    match lines.into_inner() {
        Ok(to) => Ok((to, outcome)),
        Err(_) => Err(ProgramFault::Write),
    }
}

// The same, with the lines of many replies in a piece.
#[tactic(auto, using(crate::proofs::Between::either_left, crate::proofs::Between::none_done))]
fn write_pieces<S: Read + Drop, W: Write + Drop, K: Keeper>(
    alloc: Global,
    way: Way,
    sheet: S,
    to: W,
    desk: &mut Desk<K>,
) -> Result<(W, Result<Tally, SheetFault>), ProgramFault>
    ensures { WritesReplies K.may_hold W.contents way (S.remaining sheet) desk.old desk.new
        to result }
{
    let mut pieces = buffered(alloc, to)?;
    let outcome = run(alloc, way, sheet, &mut pieces, desk);
    Ok((behind(pieces)?, outcome))
}

// The same, with the lines as they go out at this pace.
pub(crate) fn write_replies<S: Read + Drop, W: Write + Drop, K: Keeper>(
    alloc: Global,
    way: Way,
    sheet: S,
    to: W,
    desk: &mut Desk<K>,
) -> Result<(W, Result<Tally, SheetFault>), ProgramFault>
    ensures { WritesReplies K.may_hold W.contents way (S.remaining sheet) desk.old desk.new
        to result }
{
    match way.pace {
        Pace::LineByLine | Pace::AsTheyArrive | Pace::InGroups => write_lines(
            alloc, way, sheet, to, desk,
        ),
        Pace::InPieces => write_pieces(alloc, way, sheet, to, desk),
    }
}

// How the program ends where a sheet ended so.
pub(crate) fn ending_of(outcome: Result<Tally, SheetFault>) -> Ending
    ensures { result ≡ ending_of_sheet outcome }
{
    match outcome {
        Ok(tally) if tally.refused == 0 => Ending::Done,
        Ok(_) => Ending::RecordsRefused,
        Err(fault) => Ending::Stopped(ProgramFault::from(fault)),
    }
}

// What a sheet's work is at a pace.
fn work_at(pace: Pace) -> LongWork {
    match pace {
        Pace::AsTheyArrive | Pace::InGroups => LongWork::KeptRecords,
        Pace::LineByLine | Pace::InPieces => LongWork::Records,
    }
}

// Does the sheet that a reader gives, and writes its replies. The writer is given back with how the program ends.
pub(crate) fn print_replies<
    R: Runtime<A = Global>,
    N: Sheets,
    S: Read + Drop,
    W: Write + Drop,
    K: Keeper,
>(
    world: &World<'_, R, N>,
    way: Way,
    extent: Extent,
    sheet: S,
    desk: &mut Desk<K>,
    to: W,
) -> Result<(W, Ending), ProgramFault>
    ensures ended { IfOk result (λ done. EndsAsRun K.may_hold way (S.remaining sheet)
        desk.old desk.new (W.contents to) (W.contents done.0) done.1) }
    ensures failed { IfErr result (IsUnwritten K.may_hold desk.old desk.new) }
    ensures left { IsAfterCommands desk.old.limits (state_of desk.old.image)
        (state_of desk.new.image) }
{
    let line = ProgressLine::new(world.rt, world.shown, work_at(way.pace), extent);
    let sheet = Measured {
        from: sheet,
        line: &line,
    };
    let progress = Progress { to, line: &line };
    let written = write_replies(world.rt.alloc(), way, sheet, progress, desk);
    line.clear();
    match written {
        Ok((progress, outcome)) => Ok((progress.into_writer(), ending_of(outcome))),
        Err(fault) => Err(fault),
    }
}

// The pace of a sheet that is sent bit by bit. Over a file, those records are kept together that have arrived.
fn pace_of_sent(of_file: Pace) -> Pace {
    match of_file {
        Pace::InGroups => Pace::AsTheyArrive,
        _ => Pace::LineByLine,
    }
}

fn pace_of(extent: Extent, of_file: Pace) -> Pace {
    match extent {
        Extent::Bytes(_) => of_file,
        Extent::Sent | Extent::Typed => pace_of_sent(of_file),
    }
}

// Why a sheet is not read. Who wrote `-` for the standard input is told how it is written.
pub(crate) fn unopened<R: Runtime<A = Global>>(rt: &R, name: &str, error: io::Error) -> Ending
    ensures { (result ≡ Ending.Stopped ProgramFault.Read)
        ⊎ (result ≡ Ending.Stopped ProgramFault.Memory) }
{
    if name == "-" {
        let _ = eprintln!(rt; "hint: standard input is written stdin");
    }
    if error.kind() == ErrorKind::OutOfMemory {
        Ending::Stopped(ProgramFault::Memory)
    } else {
        Ending::Stopped(ProgramFault::Read)
    }
}

// Does a whole sheet.
#[tactic(auto, using(crate::proofs::Between::none_done))]
fn do_whole<R: Runtime<A = Global>, S: Sheets, W: Write + Drop, K: Keeper>(
    world: &World<'_, R, S>,
    desk: &mut Desk<K>,
    kind: Sheet,
    name: &str,
    of_file: Pace,
    to: W,
) -> Result<(W, Ending), ProgramFault>
    ensures ended { IfOk result (λ done. EndsSheet K.may_hold kind false
        (S.text_of world.now.sheets.now name.now) desk.old desk.new
        (W.contents to) (W.contents done.0) done.1) }
    ensures failed { IfErr result (IsUnwritten K.may_hold desk.old desk.new) }
    ensures left { IsAfterCommands desk.old.limits (state_of desk.old.image)
        (state_of desk.new.image) }
{
    match world.sheets.open(name) {
        Ok(sheet) => {
            let extent = world.sheets.extent(name);
            let pace = pace_of(extent, of_file);
            let passed = 0;
            print_replies(world, Way { kind, pace, passed }, extent, sheet, desk, to)
        }
        Err(error) => Ok((to, unopened(world.rt, name, error))),
    }
}

// The bytes of the sheet of a name.
pub(crate) fn read_whole<R: Runtime<A = Global>, S: Sheets>(
    world: &World<'_, R, S>,
    name: &str,
) -> io::Result<Vec<u8>>
    ensures { IfOk result (λ text.
        IfSome (S.text_of world.now.sheets.now name.now) (λ known. text.items ≡ known)) }
{
    let mut sheet = world.sheets.open(name)?;
    let mut text = Vec::new(world.rt.alloc());
    sheet.read_to_end(&mut text)?;
    Ok(text)
}

// Tells on standard error behind which record a sheet goes on. Where that takes nothing, it goes on all the same.
fn tell_decided<R: Runtime<A = Global>>(rt: &R, decided: &Decided) {
    let _ = match decided.key {
        Some(key) => eprintln!(rt; "resumes behind record {}, key {key}", decided.records),
        None => eprintln!(rt; "resumes at the first record"),
    };
}

// Tells on standard error which two records of a sheet have one key.
fn tell_repeated<R: Runtime<A = Global>>(rt: &R, twice: &RepeatedKey) {
    let RepeatedKey { key, first, second } = *twice;
    let _ = eprintln!(rt; "records {first} and {second} have one key, {key}");
}

// Behind how many of its records a sheet goes on, where no two have one key. Standard error tells it.
#[tactic(auto, using(crate::proofs::Searching::search_fault))]
pub(crate) fn passed_over<R: Runtime<A = Global>, K: Keeper>(
    rt: &R,
    desk: &Desk<K>,
    kind: Sheet,
    text: &[u8],
) -> Result<u32, ProgramFault>
    ensures passed { IfOk result (GoesOnBehind kind desk.now.image text.now) }
    ensures faults { IfErr result (DoesNotGoOn desk.now.must_reopen kind text.now) }
{
    match repeated_key(rt.alloc(), kind, text) {
        Ok(None) => {}
        Ok(Some(twice)) => {
            tell_repeated(rt, &twice);
            return Err(ProgramFault::RepeatedKey);
        }
        Err(fault) => return Err(ProgramFault::from(fault)),
    }
    match last_edit(rt.alloc(), kind, text, desk) {
        Ok(decided) => {
            tell_decided(rt, &decided);
            Ok(decided.records)
        }
        Err(fault) => Err(ProgramFault::from(fault)),
    }
}

pub(crate) fn ends_line(byte: u8) -> bool
    ensures { result ≡ ends_line byte }
{
    byte == b'\n' || byte == b'\r'
}

// Whether the last line of a text has no end.
pub(crate) fn is_cut_off(text: &[u8]) -> bool
    ensures { result ≡ is_cut_off text.now }
{
    match text.last() {
        Some(last) => !ends_line(*last),
        None => false,
    }
}

// Goes on with the bytes of a sheet behind its last record that is an edit.
#[tactic(auto, using(crate::proofs::Between::none_done))]
fn go_on_with<R: Runtime<A = Global>, S: Sheets, W: Write + Drop, K: Keeper>(
    world: &World<'_, R, S>,
    desk: &mut Desk<K>,
    kind: Sheet,
    text: &[u8],
    pace: Pace,
    to: W,
) -> Result<(W, Ending), ProgramFault>
    ensures ended { IfOk result (λ done. EndsSheet K.may_hold kind true (Some text.now)
        desk.old desk.new (W.contents to) (W.contents done.0) done.1) }
    ensures failed { IfErr result (IsUnwritten K.may_hold desk.old desk.new) }
    ensures left { IsAfterCommands desk.old.limits (state_of desk.old.image)
        (state_of desk.new.image) }
{
    let passed = match passed_over(world.rt, desk, kind, text) {
        Ok(passed) => passed,
        Err(fault) => return Ok((to, Ending::Stopped(fault))),
    };
    let extent = Extent::Bytes(text.len() as u64);
    print_replies(world, Way { kind, pace, passed }, extent, text, desk, to)
}

// Goes on with a sheet behind its last record that is an edit. It is read as a whole before.
#[tactic(auto, using(crate::proofs::Between::none_done))]
fn go_on<R: Runtime<A = Global>, S: Sheets, W: Write + Drop, K: Keeper>(
    world: &World<'_, R, S>,
    desk: &mut Desk<K>,
    kind: Sheet,
    name: &str,
    pace: Pace,
    to: W,
) -> Result<(W, Ending), ProgramFault>
    ensures ended { IfOk result (λ done. EndsSheet K.may_hold kind true
        (S.text_of world.now.sheets.now name.now) desk.old desk.new
        (W.contents to) (W.contents done.0) done.1) }
    ensures failed { IfErr result (IsUnwritten K.may_hold desk.old desk.new) }
    ensures left { IsAfterCommands desk.old.limits (state_of desk.old.image)
        (state_of desk.new.image) }
{
    match read_whole(world, name) {
        Ok(text) => go_on_with(world, desk, kind, text.as_slice(), pace, to),
        Err(error) => Ok((to, unopened(world.rt, name, error))),
    }
}

// Does the bytes of a sheet, or goes on with them behind the last record that is an edit.
pub(crate) fn do_bytes<R: Runtime<A = Global>, S: Sheets, W: Write + Drop, K: Keeper>(
    world: &World<'_, R, S>,
    desk: &mut Desk<K>,
    kind: Sheet,
    resumes: bool,
    text: &[u8],
    pace: Pace,
    to: W,
) -> Result<(W, Ending), ProgramFault>
    ensures ended { IfOk result (λ done. EndsSheet K.may_hold kind resumes (Some text.now)
        desk.old desk.new (W.contents to) (W.contents done.0) done.1) }
    ensures failed { IfErr result (IsUnwritten K.may_hold desk.old desk.new) }
    ensures left { IsAfterCommands desk.old.limits (state_of desk.old.image)
        (state_of desk.new.image) }
{
    if resumes {
        return go_on_with(world, desk, kind, text, pace, to);
    }
    let passed = 0;
    let extent = Extent::Bytes(text.len() as u64);
    print_replies(world, Way { kind, pace, passed }, extent, text, desk, to)
}

/// Does a sheet of this kind at a desk, or goes on with it behind its last record that is an edit, and writes its replies:
/// those to a sheet in a file at the pace `of_file`. Whatever fails, the desk's image stands for the state after some
/// commands in order, and its keeper goes along, unless a commit failed.
///
/// # Errors
/// `Memory` where there is none for the replies, and nothing is done; `Write` where not all of them were written.
pub fn do_sheet<R: Runtime<A = Global>, S: Sheets, W: Write + Drop, K: Keeper>(
    world: &World<'_, R, S>,
    desk: &mut Desk<K>,
    kind: Sheet,
    resumes: bool,
    name: &str,
    of_file: Pace,
    to: W,
) -> Result<(W, Ending), ProgramFault>
    ensures ended { IfOk result (λ done. EndsSheet K.may_hold kind resumes
        (S.text_of world.now.sheets.now name.now) desk.old desk.new
        (W.contents to) (W.contents done.0) done.1) }
    ensures failed { IfErr result (IsUnwritten K.may_hold desk.old desk.new) }
    ensures left { IsAfterCommands desk.old.limits (state_of desk.old.image)
        (state_of desk.new.image) }
{
    if resumes {
        go_on(world, desk, kind, name, of_file, to)
    } else {
        do_whole(world, desk, kind, name, of_file, to)
    }
}
