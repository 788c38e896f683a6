//! Sheets that are tried at a copy of the inventory, in memory.

ghost use Rattle.std.specs.Prelude.{◌≡◌, ◌⊎◌, IfOk, IfErr, Some, true};
ghost use Rattle.std.specs.Io.KnownBytes.{Appends};
ghost use Rattle.lrs_difference.specs.Text.{difference_text};
ghost use Rattle.lrs_machine.specs.Image.{state_of};
ghost use Rattle.lrs_machine.specs.Sound.{IsSound};
ghost use Rattle.lrs_sheet.specs.Sheets.{IsAfterCommands};
ghost use Rattle.lrs_cli_sheets.specs.Sheets.{DoesNotGoOn, IsUnwritten, ending_of_sheet};
ghost use Rattle.lrs_cli_sheets.specs.Trials.{ArePassed, EndsAll, EndsCheck, EndsGiven, EndsRecords, EndsTried, HasTried, IsFull, IsTried};

use crate::advice::{TriedSheet, advise};
use crate::difference_summary::tell_changes;
use crate::inventory_difference::text_of;
use crate::progress::{Extent, Measured, ProgressLine};
use crate::report::LongWork;
use crate::sheets::{
    Pace, Way, do_bytes, do_sheet, ending_of, is_cut_off, passed_over, print_replies, read_whole,
    unopened,
};
use crate::tidy_sheet::write_text;
use crate::trial_notes::tell_of_trial;
use crate::world::{Sheets, World};
use lrs_cli_tasks::{Ending, ProgramFault};
use lrs_inventory::Inventory;
use lrs_sheet::{
    Desk, Keeper, Sheet, SheetFault, Tally, Trial, copy_desk, discard_copy, try_sheet,
};
use std::alloc::{AllocError, Global};
use std::io::Write;
use std::rt::Runtime;

// Tries a sheet's bytes behind these records at a copy.
fn try_text<R: Runtime<A = Global>, S: Sheets, K: Keeper>(
    world: &World<'_, R, S>,
    copy: &mut Desk<K>,
    kind: Sheet,
    passed: u32,
    text: &[u8],
) -> Result<Trial, AllocError>
    requires full { IsFull copy.old.limits }
    ensures tried { IfOk result (λ trial. IsTried kind passed text.now (state_of copy.old.image)
        (state_of copy.new.image) trial.replies.items trial.outcome) }
{
    let extent = Extent::Bytes(text.len() as u64);
    let line = ProgressLine::new(world.rt, world.shown, LongWork::Trial, extent);
    let sheet = Measured {
        from: text,
        line: &line,
    };
    let tried = try_sheet(world.rt.alloc(), kind, passed, sheet, copy);
    line.clear();
    tried
}

// Says on standard error what to do about each record of a sheet that is refused, and what the others would change.
fn tell_sheet<R: Runtime<A = Global>>(
    rt: &R,
    sheet: &TriedSheet<'_>,
    before: &Inventory,
    after: &Inventory,
) {
    advise(rt, sheet);
    tell_changes(rt, before, after);
}

// Writes what is told of a sheet that was tried, and says the rest on standard error.
fn print_told<R: Runtime<A = Global>, W: Write + Drop>(
    rt: &R,
    told: &[u8],
    sheet: &TriedSheet<'_>,
    before: &Inventory,
    after: &Inventory,
    to: W,
) -> Result<(W, Ending), ProgramFault>
    ensures written { IfOk result (λ done. Appends (W.contents to) (W.contents done.0) told.now) }
    ensures ended { IfOk result (λ done. done.1 ≡ ending_of_sheet sheet.now.trial.now.outcome) }
    ensures failed { IfErr result (λ e. e ≡ ProgramFault.Write) }
{
    match write_text(told, to) {
        Ok(to) => {
            tell_sheet(rt, sheet, before, after);
            Ok((to, ending_of(sheet.trial.outcome)))
        }
        Err(fault) => Err(fault),
    }
}

// Writes what a sheet that was tried would change, where there is memory for it.
fn print_difference<R: Runtime<A = Global>, W: Write + Drop>(
    rt: &R,
    sheet: &TriedSheet<'_>,
    before: &Inventory,
    after: &Inventory,
    to: W,
) -> Result<(W, Ending), ProgramFault>
    ensures sound { IsSound after.now }
    ensures ended { IfOk result (λ done. (Appends (W.contents to) (W.contents done.0)
        (difference_text before.now after.now) × (done.1 ≡ ending_of_sheet sheet.now.trial.now.outcome))
        ⊎ ((W.contents done.0 ≡ W.contents to)
        × (done.1 ≡ Ending.Stopped ProgramFault.Memory))) }
    ensures failed { IfErr result (λ e. e ≡ ProgramFault.Write) }
{
    after.prove_sound();
    match text_of(rt.alloc(), before, after) {
        Ok(text) => print_told(rt, text.as_slice(), sheet, before, after, to),
        Err(fault) => Ok((to, Ending::Stopped(fault))),
    }
}

// Writes what a sheet of these bytes is answered at a copy, or what it changes there, and advises on what is refused.
#[tactic(auto, using(crate::proofs::Trying::replies_told, crate::proofs::Trying::difference_told))]
fn check_at<R: Runtime<A = Global>, S: Sheets, W: Write + Drop, K: Keeper>(
    world: &World<'_, R, S>,
    inventory: &Inventory,
    copy: &mut Desk<K>,
    kind: Sheet,
    differs: bool,
    text: &[u8],
    to: W,
) -> Result<(W, Ending), ProgramFault>
    requires full { IsFull copy.old.limits }
    requires same { copy.old.image ≡ inventory.now }
    ensures ended { IfOk result (λ done. EndsCheck kind differs (Some text.now) inventory.now
        (W.contents to) (W.contents done.0) done.1) }
    ensures failed { IfErr result (λ e. e ≡ ProgramFault.Write) }
{
    match try_text(world, copy, kind, 0, text) {
        Ok(trial) => {
            let sheet = TriedSheet {
                kind,
                text,
                passed: 0,
                trial: &trial,
            };
            if differs {
                print_difference(world.rt, &sheet, inventory, copy.inventory(), to)
            } else {
                let replies = trial.replies.as_slice();
                print_told(world.rt, replies, &sheet, inventory, copy.inventory(), to)
            }
        }
        Err(AllocError) => Ok((to, Ending::Stopped(ProgramFault::Memory))),
    }
}

// Writes what a sheet of these bytes would be answered at a desk, or would change there.
#[tactic(auto, using(crate::proofs::Trying::checked_at))]
fn check_text<R: Runtime<A = Global>, S: Sheets, W: Write + Drop, K: Keeper>(
    world: &World<'_, R, S>,
    desk: &Desk<K>,
    kind: Sheet,
    differs: bool,
    text: &[u8],
    to: W,
) -> Result<(W, Ending), ProgramFault>
    ensures ended { IfOk result (λ done. EndsCheck kind differs (Some text.now) desk.now.image
        (W.contents to) (W.contents done.0) done.1) }
    ensures failed { IfErr result (λ e. e ≡ ProgramFault.Write) }
{
    match copy_desk(world.rt.alloc(), desk) {
        Ok(copy) => {
            let mut copy = copy;
            let given = check_at(world, desk.inventory(), &mut copy, kind, differs, text, to);
            discard_copy(copy);
            given
        }
        Err(AllocError) => Ok((to, Ending::Stopped(ProgramFault::Memory))),
    }
}

// Does the same, and then tells a terminal where the sheet cuts routes, and what is near to what is refused.
fn check_and_tell<R: Runtime<A = Global>, S: Sheets, W: Write + Drop, K: Keeper>(
    world: &World<'_, R, S>,
    desk: &Desk<K>,
    kind: Sheet,
    differs: bool,
    text: &[u8],
    to: W,
) -> Result<(W, Ending), ProgramFault>
    ensures ended { IfOk result (λ done. EndsCheck kind differs (Some text.now) desk.now.image
        (W.contents to) (W.contents done.0) done.1) }
    ensures failed { IfErr result (λ e. e ≡ ProgramFault.Write) }
{
    let given = check_text(world, desk, kind, differs, text, to);
    let is_refused = matches!(given, Ok((_, Ending::RecordsRefused)));
    tell_of_trial(world.rt, world.shown, desk, kind, text, is_refused);
    given
}

/// Writes what a sheet would be answered at a desk, or with `differs` what it would change there, line by line, and on
/// standard error what to do about each record that would be refused, and in short what would change; on a terminal, also
/// where it cuts routes, and what the inventory has near to what a refused record names. Nothing is done: the sheet is
/// tried at a copy of the inventory.
///
/// # Errors
/// `Write` where not all of it was written.
pub fn do_check<R: Runtime<A = Global>, S: Sheets, W: Write + Drop, K: Keeper>(
    world: &World<'_, R, S>,
    desk: &Desk<K>,
    kind: Sheet,
    differs: bool,
    name: &str,
    to: W,
) -> Result<(W, Ending), ProgramFault>
    ensures ended { IfOk result (λ done. EndsCheck kind differs
        (S.text_of world.now.sheets.now name.now) desk.now.image
        (W.contents to) (W.contents done.0) done.1) }
    ensures failed { IfErr result (λ e. e ≡ ProgramFault.Write) }
{
    match read_whole(world, name) {
        Ok(text) => check_and_tell(world, desk, kind, differs, text.as_slice(), to),
        Err(error) => Ok((to, unopened(world.rt, name, error))),
    }
}

// How many records of a sheet are passed over: none, or those that are decided where it goes on.
fn passed_of<R: Runtime<A = Global>, K: Keeper>(
    rt: &R,
    desk: &Desk<K>,
    kind: Sheet,
    resumes: bool,
    text: &[u8],
) -> Result<u32, ProgramFault>
    ensures passed { IfOk result (ArePassed kind resumes desk.now.image text.now) }
    ensures faults { IfErr result (λ e. (resumes ≡ true)
        × DoesNotGoOn desk.now.must_reopen kind text.now e) }
{
    if resumes {
        passed_over(rt, desk, kind, text)
    } else {
        Ok(0)
    }
}

// Tries a sheet's bytes behind these records at a copy. Where something is refused, or always, standard error says what
// to do about it, and what would change.
#[tactic(auto, using(crate::proofs::Trying::has_tried))]
fn try_at<R: Runtime<A = Global>, S: Sheets, K: Keeper>(
    world: &World<'_, R, S>,
    inventory: &Inventory,
    copy: &mut Desk<K>,
    kind: Sheet,
    passed: u32,
    text: &[u8],
    always: bool,
) -> Result<Trial, AllocError>
    requires full { IsFull copy.old.limits }
    ensures tried { IfOk result (λ trial. HasTried kind passed text.now copy.old.image
        trial.replies.items trial.outcome) }
{
    let tried = try_text(world, copy, kind, passed, text);
    if let Ok(trial) = &tried {
        let sheet = TriedSheet {
            kind,
            text,
            passed,
            trial,
        };
        if always || !matches!(ending_of(trial.outcome), Ending::Done) {
            tell_sheet(world.rt, &sheet, inventory, copy.inventory());
        }
    }
    tried
}

// The same at a copy of a desk's inventory.
#[tactic(auto, using(crate::proofs::Trying::tried_at))]
fn try_copy<R: Runtime<A = Global>, S: Sheets, K: Keeper>(
    world: &World<'_, R, S>,
    desk: &Desk<K>,
    kind: Sheet,
    passed: u32,
    text: &[u8],
    always: bool,
) -> Result<Trial, AllocError>
    ensures tried { IfOk result (λ trial. HasTried kind passed text.now desk.now.image
        trial.replies.items trial.outcome) }
{
    let mut copy = copy_desk(world.rt.alloc(), desk)?;
    let tried = try_at(
        world,
        desk.inventory(),
        &mut copy,
        kind,
        passed,
        text,
        always,
    );
    discard_copy(copy);
    tried
}

/// Tries a sheet's bytes at a copy of a desk's inventory, where it is known behind which record they go on, and says on
/// standard error what to do about each record that is refused, and what the others would change.
///
/// # Errors
/// When memory runs out.
pub(crate) fn foretell<R: Runtime<A = Global>, S: Sheets, K: Keeper>(
    world: &World<'_, R, S>,
    desk: &Desk<K>,
    kind: Sheet,
    resumes: bool,
    text: &[u8],
) -> Result<(), AllocError> {
    match passed_of(world.rt, desk, kind, resumes, text) {
        Ok(passed) => match try_copy(world, desk, kind, passed, text, true) {
            Ok(_) => Ok(()),
            Err(AllocError) => Err(AllocError),
        },
        // why it does not go on is said where it is done
        Err(_) => Ok(()),
    }
}

// Does a sheet that was tried, if no record of it was refused. Else nothing is done.
fn do_tried<R: Runtime<A = Global>, S: Sheets, W: Write + Drop, K: Keeper>(
    world: &World<'_, R, S>,
    desk: &mut Desk<K>,
    way: Way,
    text: &[u8],
    outcome: Result<Tally, SheetFault>,
    to: W,
) -> Result<(W, Ending), ProgramFault>
    ensures ended { IfOk result (λ done. EndsTried K.may_hold way text.now outcome
        desk.old desk.new (W.contents to) (W.contents done.0) done.1) }
    ensures failed { IfErr result (IsUnwritten K.may_hold desk.old desk.new) }
    ensures left { IsAfterCommands desk.old.limits (state_of desk.old.image)
        (state_of desk.new.image) }
{
    match outcome {
        Ok(tally) if tally.refused == 0 => {
            let extent = Extent::Bytes(text.len() as u64);
            print_replies(world, way, extent, text, desk, to)
        }
        _ => Ok((to, ending_of(outcome))),
    }
}

// Does the bytes of a sheet, or goes on with them, only if no record of them is refused. Where one is, standard error
// says what to do about it.
fn do_text<R: Runtime<A = Global>, S: Sheets, W: Write + Drop, K: Keeper>(
    world: &World<'_, R, S>,
    desk: &mut Desk<K>,
    kind: Sheet,
    resumes: bool,
    text: &[u8],
    of_file: Pace,
    to: W,
) -> Result<(W, Ending), ProgramFault>
    ensures ended { IfOk result (λ done. EndsAll K.may_hold kind resumes (Some text.now)
        desk.old desk.new (W.contents to) (W.contents done.0) done.1) }
    ensures failed { IfErr result (IsUnwritten K.may_hold desk.old desk.new) }
    ensures left { IsAfterCommands desk.old.limits (state_of desk.old.image)
        (state_of desk.new.image) }
{
    let passed = match passed_of(world.rt, desk, kind, resumes, text) {
        Ok(passed) => passed,
        Err(fault) => return Ok((to, Ending::Stopped(fault))),
    };
    match try_copy(world, desk, kind, passed, text, false) {
        Ok(trial) => {
            let pace = of_file;
            let way = Way { kind, pace, passed };
            do_tried(world, desk, way, text, trial.outcome, to)
        }
        Err(AllocError) => Ok((to, Ending::Stopped(ProgramFault::Memory))),
    }
}

/// Does a sheet of this kind at a desk, or goes on with it, only if no record of it is refused: it is tried first at a
/// copy of the inventory. Where something is refused, nothing is done, and standard error says what to do about it.
fn do_all<R: Runtime<A = Global>, S: Sheets, W: Write + Drop, K: Keeper>(
    world: &World<'_, R, S>,
    desk: &mut Desk<K>,
    kind: Sheet,
    resumes: bool,
    name: &str,
    of_file: Pace,
    to: W,
) -> Result<(W, Ending), ProgramFault>
    ensures ended { IfOk result (λ done. EndsAll K.may_hold kind resumes
        (S.text_of world.now.sheets.now name.now) desk.old desk.new
        (W.contents to) (W.contents done.0) done.1) }
    ensures failed { IfErr result (IsUnwritten K.may_hold desk.old desk.new) }
    ensures left { IsAfterCommands desk.old.limits (state_of desk.old.image)
        (state_of desk.new.image) }
{
    match read_whole(world, name) {
        Ok(text) => do_text(world, desk, kind, resumes, text.as_slice(), of_file, to),
        Err(error) => Ok((to, unopened(world.rt, name, error))),
    }
}

// Does the bytes of a sheet: only if no record of them is refused, or each record by itself.
fn do_given<R: Runtime<A = Global>, S: Sheets, W: Write + Drop, K: Keeper>(
    world: &World<'_, R, S>,
    desk: &mut Desk<K>,
    kind: Sheet,
    resumes: bool,
    all: bool,
    text: &[u8],
    of_file: Pace,
    to: W,
) -> Result<(W, Ending), ProgramFault>
    ensures ended { IfOk result (λ done. EndsGiven K.may_hold kind resumes all
        (Some text.now) desk.old desk.new (W.contents to) (W.contents done.0) done.1) }
    ensures failed { IfErr result (IsUnwritten K.may_hold desk.old desk.new) }
    ensures left { IsAfterCommands desk.old.limits (state_of desk.old.image)
        (state_of desk.new.image) }
{
    if all {
        do_text(world, desk, kind, resumes, text, of_file, to)
    } else {
        do_bytes(world, desk, kind, resumes, text, of_file, to)
    }
}

// Does the bytes of a sheet, if their last line has an end. Else nothing is done.
#[tactic(auto, using(crate::proofs::Between::none_done))]
fn do_uncut_text<R: Runtime<A = Global>, S: Sheets, W: Write + Drop, K: Keeper>(
    world: &World<'_, R, S>,
    desk: &mut Desk<K>,
    kind: Sheet,
    resumes: bool,
    all: bool,
    text: &[u8],
    of_file: Pace,
    to: W,
) -> Result<(W, Ending), ProgramFault>
    ensures ended { IfOk result (λ done. EndsRecords K.may_hold kind resumes all true
        (Some text.now) desk.old desk.new (W.contents to) (W.contents done.0) done.1) }
    ensures failed { IfErr result (IsUnwritten K.may_hold desk.old desk.new) }
    ensures left { IsAfterCommands desk.old.limits (state_of desk.old.image)
        (state_of desk.new.image) }
{
    if is_cut_off(text) {
        return Ok((to, Ending::Stopped(ProgramFault::CutOff)));
    }
    do_given(world, desk, kind, resumes, all, text, of_file, to)
}

/// Does the bytes of a sheet, as `do_records` does a sheet of these bytes.
///
/// # Errors
/// Those of `do_records`.
pub(crate) fn do_read<R: Runtime<A = Global>, S: Sheets, W: Write + Drop, K: Keeper>(
    world: &World<'_, R, S>,
    desk: &mut Desk<K>,
    kind: Sheet,
    resumes: bool,
    all: bool,
    whole: bool,
    text: &[u8],
    of_file: Pace,
    to: W,
) -> Result<(W, Ending), ProgramFault>
    ensures ended { IfOk result (λ done. EndsRecords K.may_hold kind resumes all whole
        (Some text.now) desk.old desk.new (W.contents to) (W.contents done.0) done.1) }
    ensures failed { IfErr result (IsUnwritten K.may_hold desk.old desk.new) }
    ensures left { IsAfterCommands desk.old.limits (state_of desk.old.image)
        (state_of desk.new.image) }
{
    if whole {
        do_uncut_text(world, desk, kind, resumes, all, text, of_file, to)
    } else {
        do_given(world, desk, kind, resumes, all, text, of_file, to)
    }
}

// Does a sheet only if its last line has an end. It is read as a whole before.
#[tactic(auto, using(crate::proofs::Between::none_done))]
fn do_uncut<R: Runtime<A = Global>, S: Sheets, W: Write + Drop, K: Keeper>(
    world: &World<'_, R, S>,
    desk: &mut Desk<K>,
    kind: Sheet,
    resumes: bool,
    all: bool,
    name: &str,
    of_file: Pace,
    to: W,
) -> Result<(W, Ending), ProgramFault>
    ensures ended { IfOk result (λ done. EndsRecords K.may_hold kind resumes all true
        (S.text_of world.now.sheets.now name.now) desk.old desk.new
        (W.contents to) (W.contents done.0) done.1) }
    ensures failed { IfErr result (IsUnwritten K.may_hold desk.old desk.new) }
    ensures left { IsAfterCommands desk.old.limits (state_of desk.old.image)
        (state_of desk.new.image) }
{
    match read_whole(world, name) {
        Ok(text) => do_uncut_text(
            world,
            desk,
            kind,
            resumes,
            all,
            text.as_slice(),
            of_file,
            to,
        ),
        Err(error) => Ok((to, unopened(world.rt, name, error))),
    }
}

/// Does a sheet of this kind at a desk: with `all` only if no record of it is refused, and else each record by itself; with
/// `whole` only if its last line has an end. Its replies are written, and the writer is given back with how the program
/// ends.
///
/// # Errors
/// `Memory` where there is none for the replies, and nothing is done; `Write` where not all of them were written.
pub fn do_records<R: Runtime<A = Global>, S: Sheets, W: Write + Drop, K: Keeper>(
    world: &World<'_, R, S>,
    desk: &mut Desk<K>,
    kind: Sheet,
    resumes: bool,
    all: bool,
    whole: bool,
    name: &str,
    of_file: Pace,
    to: W,
) -> Result<(W, Ending), ProgramFault>
    ensures ended { IfOk result (λ done. EndsRecords K.may_hold kind resumes all whole
        (S.text_of world.now.sheets.now name.now) desk.old desk.new
        (W.contents to) (W.contents done.0) done.1) }
    ensures failed { IfErr result (IsUnwritten K.may_hold desk.old desk.new) }
    ensures left { IsAfterCommands desk.old.limits (state_of desk.old.image)
        (state_of desk.new.image) }
{
    if whole {
        do_uncut(world, desk, kind, resumes, all, name, of_file, to)
    } else if all {
        do_all(world, desk, kind, resumes, name, of_file, to)
    } else {
        do_sheet(world, desk, kind, resumes, name, of_file, to)
    }
}
