//! Whether an inventory is what its log makes.

ghost use Rattle.std.specs.Prelude.{◌≡◌, IfOk, IfErr};
ghost use Rattle.std.specs.Io.KnownBytes.{Appends};
ghost use Rattle.lrs_machine.specs.Image.{nothing};
ghost use Rattle.lrs_image.specs.OpenLists.{image_of};
ghost use Rattle.lrs_sheet.specs.MadeLogs.{IsMadeBy, IsMadeWith};
ghost use Rattle.lrs_sheet.specs.Trials.{IsFull};
ghost use Rattle.lrs_sheet_log.specs.Differences.{IsFirstDifference};
ghost use Rattle.lrs_cli_sheets.specs.Audits.{EndsAudit, IsAudited, log_of, sound_line};

use crate::difference::tell_row;
use crate::progress::{Extent, Measured, ProgressDisplay, ProgressLine};
use crate::report::LongWork;
use lrs_cli_tasks::{Ending, ProgramFault};
use lrs_image::ImageLists;
use lrs_inventory::Inventory;
use lrs_machine::Table;
use lrs_sheet::{Desk, Keeper, SheetFault, Tally, empty_desk, run_log};
use lrs_sheet_log::{first_difference, write_log};
use std::alloc::Global;
use std::io::Write;
use std::rt::Runtime;

// The whole log of an inventory.
fn log_of(alloc: Global, inventory: &Inventory) -> Result<Vec<u8>, ProgramFault>
    ensures log { IfOk result (λ text. text.items ≡ log_of inventory.now) }
    ensures memory { IfErr result (λ e. e ≡ ProgramFault.Memory) }
{
    let mut text = Vec::new(alloc);
    match write_log(&mut text, inventory.kept(), 1, None) {
        Ok(()) => Ok(text),
        Err(_) => Err(ProgramFault::Memory),
    }
}

/// Does a log at a desk with full limits over the empty inventory, and shows how far it is. The desk is of any keeper, here
/// and below: a function that has one over an image in memory is costly to prove.
pub(crate) fn make_log<R: Runtime<A = Global>, K: Keeper>(
    line: &ProgressLine<'_, R>,
    log: &[u8],
    desk: &mut Desk<K>,
) -> Result<Tally, SheetFault>
    requires fresh { desk.old.image ≡ nothing }
    requires full { IsFull desk.old.limits }
    ensures made { IsMadeWith log.now result desk.new.image }
{
    let log = Measured { from: log, line };
    let outcome = run_log(line.rt.alloc(), log, desk);
    line.clear();
    outcome
}

/// The same of a log of which it does not matter what it is answered, unless memory runs out.
pub(crate) fn remake<R: Runtime<A = Global>, K: Keeper>(
    line: &ProgressLine<'_, R>,
    log: &[u8],
    desk: &mut Desk<K>,
) -> Result<(), ProgramFault>
    requires fresh { desk.old.image ≡ nothing }
    requires full { IsFull desk.old.limits }
    ensures made { IfOk result (λ _. IsMadeBy log.now desk.new.image) }
    ensures memory { IfErr result (λ e. e ≡ ProgramFault.Memory) }
{
    match make_log(line, log, desk) {
        Err(SheetFault::Memory | SheetFault::Desk(_)) => Err(ProgramFault::Memory),
        _ => Ok(()),
    }
}

// The first table in which two images differ, if there is one. Its first row that is another is told on standard error.
fn told_difference<R: Runtime<A = Global>>(
    rt: &R,
    kept: &ImageLists,
    made: &ImageLists,
) -> Option<Table>
    ensures { IsFirstDifference (image_of kept.now) (image_of made.now) result }
{
    let differs = first_difference(kept, made);
    if let Some(table) = differs {
        tell_row(rt, kept, made, table);
    }
    differs
}

fn difference_from<R: Runtime<A = Global>, K: Keeper>(
    rt: &R,
    inventory: &Inventory,
    made: &Desk<K>,
) -> Option<Table>
    ensures { IsFirstDifference inventory.now made.now.image result }
{
    told_difference(rt, inventory.kept(), made.inventory().kept())
}

// The first table in which an inventory is not what this log of it makes at such a desk, if there is one.
fn made_differs<R: Runtime<A = Global>, K: Keeper>(
    line: &ProgressLine<'_, R>,
    inventory: &Inventory,
    log: &[u8],
    desk: &mut Desk<K>,
) -> Result<Option<Table>, ProgramFault>
    requires whole { log.now ≡ log_of inventory.now }
    requires fresh { desk.old.image ≡ nothing }
    requires full { IsFull desk.old.limits }
    ensures audited { IfOk result (IsAudited inventory.now) }
    ensures memory { IfErr result (λ e. e ≡ ProgramFault.Memory) }
{
    match remake(line, log, desk) {
        Ok(()) => Ok(difference_from(line.rt, inventory, desk)),
        Err(fault) => Err(fault),
    }
}

// The same, at a desk that goes with it, whose keeper is given back. What may fail only borrows the desk: a function that
// lets one go in several places is costly to prove.
fn audit_at<R: Runtime<A = Global>, K: Keeper>(
    line: &ProgressLine<'_, R>,
    inventory: &Inventory,
    log: &[u8],
    desk: Desk<K>,
) -> (K, Result<Option<Table>, ProgramFault>)
    requires whole { log.now ≡ log_of inventory.now }
    requires fresh { desk.image ≡ nothing }
    requires full { IsFull desk.limits }
    ensures audited { IfOk result.1 (IsAudited inventory.now) }
    ensures memory { IfErr result.1 (λ e. e ≡ ProgramFault.Memory) }
{
    let mut made = desk;
    let differs = made_differs(line, inventory, log, &mut made);
    (made.into_keeper(), differs)
}

// The same, at a desk in memory.
fn audit_log<R: Runtime<A = Global>>(
    line: &ProgressLine<'_, R>,
    inventory: &Inventory,
    log: &[u8],
) -> Result<Option<Table>, ProgramFault>
    requires whole { log.now ≡ log_of inventory.now }
    ensures audited { IfOk result (IsAudited inventory.now) }
    ensures memory { IfErr result (λ e. e ≡ ProgramFault.Memory) }
{
    match empty_desk(line.rt.alloc()) {
        Ok(desk) => {
            let (plain, differs) = audit_at(line, inventory, log, desk);
            plain.discard();
            differs
        }
        Err(_) => Err(ProgramFault::Memory),
    }
}

// The first table in which an inventory is not what its log makes, if there is one.
fn audit<R: Runtime<A = Global>>(
    rt: &R,
    shown: ProgressDisplay,
    inventory: &Inventory,
) -> Result<Option<Table>, ProgramFault>
    ensures audited { IfOk result (IsAudited inventory.now) }
    ensures memory { IfErr result (λ e. e ≡ ProgramFault.Memory) }
{
    match log_of(rt.alloc(), inventory) {
        Ok(log) => {
            let extent = Extent::Bytes(log.len() as u64);
            let line = ProgressLine::new(rt, shown, LongWork::Audit(inventory.edits()), extent);
            audit_log(&line, inventory, log.as_slice())
        }
        Err(fault) => Err(fault),
    }
}

// Says that an inventory is as its log says.
fn say_sound<W: Write + Drop>(to: W) -> Result<W, ProgramFault>
    ensures said { IfOk result (λ done. Appends (W.contents to) (W.contents done) sound_line) }
    ensures failed { IfErr result (λ e. e ≡ ProgramFault.Write) }
{
    let mut to = to;
    match writeln!(to, "sound, and as its log says") {
        Ok(()) => Ok(to),
        Err(_) => Err(ProgramFault::Write),
    }
}

/// Does the log of a desk's inventory again on the empty inventory in memory, and compares what it makes with the
/// inventory, table by table. It changes nothing. Of a table that differs, its first row that is another is told on
/// standard error: as it is kept, and as the log makes it. The writer is given back with how the program ends.
///
/// # Errors
/// `Write` where it cannot be written that none differs.
pub fn do_audit<R: Runtime<A = Global>, W: Write + Drop, K: Keeper>(
    rt: &R,
    shown: ProgressDisplay,
    desk: &Desk<K>,
    to: W,
) -> Result<(W, Ending), ProgramFault>
    ensures ended { IfOk result (λ done. EndsAudit desk.now.image
        (W.contents to) (W.contents done.0) done.1) }
    ensures failed { IfErr result (λ e. e ≡ ProgramFault.Write) }
{
    match audit(rt, shown, desk.inventory()) {
        Ok(None) => match say_sound(to) {
            Ok(to) => Ok((to, Ending::Done)),
            Err(fault) => Err(fault),
        },
        Ok(Some(table)) => Ok((to, Ending::Differs(table))),
        Err(fault) => Ok((to, Ending::Stopped(fault))),
    }
}
