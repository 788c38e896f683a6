//! What two inventories differ in: two desks, one before an edit and now, or what a log makes.

ghost use Rattle.std.specs.Prelude.{◌≡◌, IfOk, IfErr, Some};
ghost use Rattle.std.specs.Io.KnownBytes.{Appends};
ghost use Rattle.lrs_machine.specs.Image.{nothing};
ghost use Rattle.lrs_machine.specs.Sound.{IsSound};
ghost use Rattle.lrs_difference.specs.Text.{difference_text};
ghost use Rattle.lrs_sheet.specs.Trials.{IsFull};
ghost use Rattle.lrs_cli_sheets.specs.Differences.{EndsDifference, EndsSince, HasNoInventory, IsMadeByLog, log_before};

use crate::audit::{make_log, remake};
use crate::progress::{Extent, ProgressDisplay, ProgressLine};
use crate::report::LongWork;
use crate::sheets::{read_whole, unopened};
use crate::tidy_sheet::write_text;
use crate::world::{Sheets, World};
use lrs_cli_tasks::{Ending, ProgramFault};
use lrs_desk::Plain;
use lrs_difference::write_difference;
use lrs_inventory::Inventory;
use lrs_sheet::{Desk, Keeper, SheetFault, Tally, discard_copy, empty_desk};
use lrs_sheet_log::write_log;
use std::alloc::Global;
use std::io::Write;
use std::rt::Runtime;

/// The difference of two inventories, as text.
pub(crate) fn text_of(
    alloc: Global,
    before: &Inventory,
    after: &Inventory,
) -> Result<Vec<u8>, ProgramFault>
    ensures text { IfOk result (λ text. text.items ≡ difference_text before.now after.now) }
    ensures memory { IfErr result (λ e. e ≡ ProgramFault.Memory) }
{
    let mut text = Vec::new(alloc);
    match write_difference(alloc, &mut text, before.kept(), after.kept()) {
        Ok(()) => Ok(text),
        Err(_) => Err(ProgramFault::Memory),
    }
}

// Writes the difference of two inventories; where there is no memory for it, nothing.
fn tell_difference<W: Write + Drop>(
    alloc: Global,
    before: &Inventory,
    after: &Inventory,
    to: W,
) -> Result<(W, Ending), ProgramFault>
    ensures ended { IfOk result (λ done. EndsDifference before.now after.now
        (W.contents to) (W.contents done.0) done.1) }
    ensures failed { IfErr result (λ e. e ≡ ProgramFault.Write) }
{
    match text_of(alloc, before, after) {
        Ok(text) => match write_text(text.as_slice(), to) {
            Ok(to) => Ok((to, Ending::Done)),
            Err(fault) => Err(fault),
        },
        Err(fault) => Ok((to, Ending::Stopped(fault))),
    }
}

/// Writes what the inventories of two desks differ in, and changes neither. The writer is given back with how the program
/// ends: done, or stopped where there is no memory for the difference, and nothing is written then.
///
/// # Errors
/// `Write` where not all of it was written.
pub fn do_difference<W: Write + Drop, K: Keeper, J: Keeper>(
    alloc: Global,
    before: &Desk<K>,
    after: &Desk<J>,
    to: W,
) -> Result<(W, Ending), ProgramFault>
    ensures ended { IfOk result (λ done. EndsDifference before.now.image after.now.image
        (W.contents to) (W.contents done.0) done.1) }
    ensures failed { IfErr result (λ e. e ≡ ProgramFault.Write) }
{
    tell_difference(alloc, before.inventory(), after.inventory(), to)
}

// The log of the edits before one.
fn log_before(alloc: Global, inventory: &Inventory, edit: u64) -> Result<Vec<u8>, ProgramFault>
    ensures log { IfOk result (λ text. text.items ≡ log_before edit inventory.now) }
    ensures memory { IfErr result (λ e. e ≡ ProgramFault.Memory) }
{
    let mut text = Vec::new(alloc);
    match write_log(&mut text, inventory.kept(), 1, Some(edit.saturating_sub(1))) {
        Ok(()) => Ok(text),
        Err(_) => Err(ProgramFault::Memory),
    }
}

// Writes what an inventory differs in from that of a desk. The desk is of any keeper, here and below: a function that has
// one over an image in memory is costly to prove.
fn tell_from<W: Write + Drop, K: Keeper>(
    alloc: Global,
    made: &Desk<K>,
    inventory: &Inventory,
    to: W,
) -> Result<(W, Ending), ProgramFault>
    ensures sound { IsSound made.now.image }
    ensures ended { IfOk result (λ done. EndsDifference made.now.image inventory.now
        (W.contents to) (W.contents done.0) done.1) }
    ensures failed { IfErr result (λ e. e ≡ ProgramFault.Write) }
{
    let before = made.inventory();
    before.prove_sound();
    tell_difference(alloc, before, inventory, to)
}

// The same of what the log of the edits before one makes at a desk over the empty inventory.
fn tell_since<R: Runtime<A = Global>, W: Write + Drop, K: Keeper>(
    line: &ProgressLine<'_, R>,
    edit: u64,
    log: &[u8],
    desk: &mut Desk<K>,
    inventory: &Inventory,
    to: W,
) -> Result<(W, Ending), ProgramFault>
    requires before { log.now ≡ log_before edit inventory.now }
    requires fresh { desk.old.image ≡ nothing }
    requires full { IsFull desk.old.limits }
    ensures ended { IfOk result (λ done. EndsSince edit inventory.now
        (W.contents to) (W.contents done.0) done.1) }
    ensures failed { IfErr result (λ e. e ≡ ProgramFault.Write) }
{
    match remake(line, log, desk) {
        Ok(()) => tell_from(line.rt.alloc(), desk, inventory, to),
        Err(fault) => Ok((to, Ending::Stopped(fault))),
    }
}

// The same at a desk that goes with it, whose keeper is given back.
fn tell_since_at<R: Runtime<A = Global>, W: Write + Drop, K: Keeper>(
    line: &ProgressLine<'_, R>,
    edit: u64,
    log: &[u8],
    desk: Desk<K>,
    inventory: &Inventory,
    to: W,
) -> (K, Result<(W, Ending), ProgramFault>)
    requires before { log.now ≡ log_before edit inventory.now }
    requires fresh { desk.image ≡ nothing }
    requires full { IsFull desk.limits }
    ensures ended { IfOk result.1 (λ done. EndsSince edit inventory.now
        (W.contents to) (W.contents done.0) done.1) }
    ensures failed { IfErr result.1 (λ e. e ≡ ProgramFault.Write) }
{
    let mut made = desk;
    let told = tell_since(line, edit, log, &mut made, inventory, to);
    (made.into_keeper(), told)
}

// The same at a desk in memory.
fn tell_since_log<R: Runtime<A = Global>, W: Write + Drop>(
    line: &ProgressLine<'_, R>,
    edit: u64,
    log: &[u8],
    inventory: &Inventory,
    to: W,
) -> Result<(W, Ending), ProgramFault>
    requires before { log.now ≡ log_before edit inventory.now }
    ensures ended { IfOk result (λ done. EndsSince edit inventory.now
        (W.contents to) (W.contents done.0) done.1) }
    ensures failed { IfErr result (λ e. e ≡ ProgramFault.Write) }
{
    match empty_desk(line.rt.alloc()) {
        Ok(desk) => {
            let (plain, told) = tell_since_at(line, edit, log, desk, inventory, to);
            plain.discard();
            told
        }
        Err(_) => Ok((to, Ending::Stopped(ProgramFault::Memory))),
    }
}

// The same, with the log.
fn tell_since_edit<R: Runtime<A = Global>, W: Write + Drop>(
    rt: &R,
    shown: ProgressDisplay,
    inventory: &Inventory,
    edit: u64,
    to: W,
) -> Result<(W, Ending), ProgramFault>
    ensures ended { IfOk result (λ done. EndsSince edit inventory.now
        (W.contents to) (W.contents done.0) done.1) }
    ensures failed { IfErr result (λ e. e ≡ ProgramFault.Write) }
{
    match log_before(rt.alloc(), inventory, edit) {
        Ok(log) => {
            let edits = edit.saturating_sub(1).min(inventory.edits());
            let extent = Extent::Bytes(log.len() as u64);
            let line = ProgressLine::new(rt, shown, LongWork::Audit(edits), extent);
            tell_since_log(&line, edit, log.as_slice(), inventory, to)
        }
        Err(fault) => Ok((to, Ending::Stopped(fault))),
    }
}

/// Writes what the edits of a desk from this one on changed: the log of those before it is done on the empty inventory in
/// memory, and what that makes is compared with the desk's inventory. With 0 and 1 no edit is before it; behind the last
/// one nothing differs. The writer is given back with how the program ends: done, or stopped where memory runs out, and
/// nothing is written then.
///
/// # Errors
/// `Write` where not all of it was written.
pub fn do_since<R: Runtime<A = Global>, W: Write + Drop, K: Keeper>(
    rt: &R,
    shown: ProgressDisplay,
    desk: &Desk<K>,
    edit: u64,
    to: W,
) -> Result<(W, Ending), ProgramFault>
    ensures ended { IfOk result (λ done. EndsSince edit desk.now.image
        (W.contents to) (W.contents done.0) done.1) }
    ensures failed { IfErr result (λ e. e ≡ ProgramFault.Write) }
{
    tell_since_edit(rt, shown, desk.inventory(), edit, to)
}

// Tells on standard error how many records of a log are refused. Where that takes nothing, the status alone tells.
fn tell_refused<R: Runtime<A = Global>>(rt: &R, name: &str, tally: Tally) {
    let refused = tally.refused;
    let _ = if refused == 1 {
        eprintln!(rt; "1 record of {name} is refused: see roadlrs check :memory: {name}")
    } else {
        eprintln!(rt; "{refused} records of {name} are refused: see roadlrs check :memory: {name}")
    };
}

// How a log was done: all of its records, or it makes no inventory.
fn made_whole<R: Runtime<A = Global>>(
    rt: &R,
    name: &str,
    outcome: Result<Tally, SheetFault>,
) -> Result<Tally, Ending>
    ensures whole { IfOk result (λ tally. (outcome ≡ Ok tally) × (tally.refused ≡ 0)) }
    ensures none { IfErr result HasNoInventory }
{
    match outcome {
        Ok(tally) if tally.refused == 0 => Ok(tally),
        Ok(tally) => {
            tell_refused(rt, name, tally);
            Err(Ending::RecordsRefused)
        }
        Err(fault) => Err(Ending::Stopped(ProgramFault::from(fault))),
    }
}

// Does a log at a desk over the empty inventory, if none of its records is refused.
fn make_whole<R: Runtime<A = Global>, K: Keeper>(
    rt: &R,
    shown: ProgressDisplay,
    name: &str,
    text: &[u8],
    desk: &mut Desk<K>,
) -> Result<(), Ending>
    requires fresh { desk.old.image ≡ nothing }
    requires full { IsFull desk.old.limits }
    ensures made { IfOk result (λ _. IsMadeByLog (Some text.now) desk.new.image) }
    ensures none { IfErr result HasNoInventory }
{
    let extent = Extent::Bytes(text.len() as u64);
    let line = ProgressLine::new(rt, shown, LongWork::Trial, extent);
    let outcome = make_log(&line, text, desk);
    match made_whole(rt, name, outcome) {
        Ok(_) => Ok(()),
        Err(ending) => Err(ending),
    }
}

// The desk in memory over what a log makes. It is let go where the log makes no inventory.
fn made_from<R: Runtime<A = Global>>(
    rt: &R,
    shown: ProgressDisplay,
    name: &str,
    text: &[u8],
) -> Result<Desk<Plain>, Ending>
    ensures made { IfOk result (λ desk. IsMadeByLog (Some text.now) desk.image) }
    ensures none { IfErr result HasNoInventory }
{
    match empty_desk(rt.alloc()) {
        Ok(desk) => {
            let mut made = desk;
            match make_whole(rt, shown, name, text, &mut made) {
                Ok(()) => Ok(made),
                Err(ending) => {
                    discard_copy(made);
                    Err(ending)
                }
            }
        }
        Err(_) => Err(Ending::Stopped(ProgramFault::Memory)),
    }
}

/// A desk in memory over the inventory that the log of a name makes from the beginning.
///
/// # Errors
/// How the program ends where there is none: `RecordsRefused`, of which standard error tells how many; and `Stopped` where
/// the log is not read or cannot be read on, or memory runs out.
pub fn made_by_log<R: Runtime<A = Global>, S: Sheets>(
    world: &World<'_, R, S>,
    name: &str,
) -> Result<Desk<Plain>, Ending>
    ensures made { IfOk result (λ desk. IsMadeByLog
        (S.text_of world.now.sheets.now name.now) desk.image) }
    ensures none { IfErr result HasNoInventory }
{
    match read_whole(world, name) {
        Ok(text) => made_from(world.rt, world.shown, name, text.as_slice()),
        Err(error) => Err(unopened(world.rt, name, error)),
    }
}
