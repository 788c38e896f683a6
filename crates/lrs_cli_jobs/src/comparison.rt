//! Two inventories that are compared, at the desks that have them.

ghost use Rattle.std.specs.Prelude.{◌≡◌, ◌⊎◌, IfErr, IfOk};
ghost use Rattle.lrs_machine.specs.Image.{nothing};
ghost use Rattle.lrs_cli_sheets.specs.Differences.{HasNoInventory, IsMadeByLog};
ghost use Rattle.lrs_cli_jobs.specs.Jobs.{EndsCompared, IsActedOn, IsExpected, IsSourceOf, identity_at, printed};
ghost use Rattle.lrs_cli_jobs.specs.SourceDesks.{image_at};

use crate::desk::{identity_at, is_expected};
use crate::target::{Target, look_at_target, open_target, settled_site};
use lrs_cli_help::{Options, Patience, Site};
use lrs_cli_sheets::{ProgressDisplay, Sheets, World, do_difference, made_by_log};
use lrs_cli_tasks::{Ending, ProgramFault, is_in_memory, open_in_memory};
use lrs_cli_words::Source;
use lrs_desk::{Desk, Files, Keeper, Plain};
use std::alloc::Global;
use std::io::Write;
use std::rt::HostRuntime;

// The desk that has the inventory of a source.
enum SourceDesk<K: Keeper, J: Keeper> {
    // In memory.
    Plain(Desk<Plain>),
    // Over a file that was looked at, which others may open meanwhile.
    Seen(Desk<K>),
    // Over a file that was opened as for edits, and is closed then.
    Kept(Desk<J>),
}

// How the program ends where an inventory is not had, by this fault.
fn stopped(fault: ProgramFault) -> Ending
    ensures { HasNoInventory result }
{
    Ending::Stopped(fault)
}

// The inventory of a file, which is opened as for edits.
fn desk_with_log<F: Files>(
    rt: &HostRuntime,
    files: &mut F,
    target: Target<'_>,
    shown: ProgressDisplay,
) -> Result<SourceDesk<F::Seen, F::Kept>, Ending>
    ensures source { IfOk result (λ desk.
        IsActedOn F.Kept.may_hold F.has_opened (image_at desk)) }
    ensures fault { IfErr result HasNoInventory }
{
    match open_target(rt, files, target, shown) {
        Ok(desk) => Ok(SourceDesk::Kept(desk)),
        Err(fault) => Err(stopped(ProgramFault::from(fault))),
    }
}

// The inventory of a file, which is looked at, or opened where that does not take it.
fn desk_in_file<F: Files>(
    rt: &HostRuntime,
    files: &mut F,
    target: Target<'_>,
    shown: ProgressDisplay,
) -> Result<SourceDesk<F::Seen, F::Kept>, Ending>
    ensures source { IfOk result (λ desk. IsActedOn F.Seen.may_hold F.has_read (image_at desk)
        ⊎ IsActedOn F.Kept.may_hold F.has_opened (image_at desk)) }
    ensures fault { IfErr result HasNoInventory }
{
    match look_at_target(rt, files, target, shown) {
        Ok(Some(desk)) => Ok(SourceDesk::Seen(desk)),
        Ok(None) => desk_with_log(rt, files, target, shown),
        Err(fault) => Err(stopped(ProgramFault::from(fault))),
    }
}

// The inventory of a path, by what stands there. None is made.
fn desk_at_path<F: Files>(
    rt: &HostRuntime,
    files: &mut F,
    path: &str,
    wait: u64,
    shown: ProgressDisplay,
) -> Result<SourceDesk<F::Seen, F::Kept>, Ending>
    ensures source { IfOk result (λ desk. IsActedOn F.Seen.may_hold F.has_read (image_at desk)
        ⊎ IsActedOn F.Kept.may_hold F.has_opened (image_at desk)) }
    ensures fault { IfErr result HasNoInventory }
{
    let target = Target {
        path,
        new_has_sums: false,
        existing: true,
        patience: Patience::new(rt, wait, shown != ProgressDisplay::Nowhere),
        made: None,
        expected: None,
    };
    match settled_site(rt, target) {
        Site::Inventory => desk_in_file(rt, files, target, shown),
        _ => Err(stopped(ProgramFault::Open)),
    }
}

// A fresh inventory in memory.
fn fresh<K: Keeper, J: Keeper>(alloc: Global) -> Result<SourceDesk<K, J>, Ending>
    ensures fresh { IfOk result (λ desk. image_at desk ≡ nothing) }
    ensures fault { IfErr result HasNoInventory }
{
    match open_in_memory(alloc) {
        Ok(desk) => Ok(SourceDesk::Plain(desk)),
        Err(fault) => Err(stopped(fault)),
    }
}

// What the log of a name makes, in memory.
fn desk_by_log<K: Keeper, J: Keeper, S: Sheets>(
    world: &World<'_, HostRuntime, S>,
    name: &str,
) -> Result<SourceDesk<K, J>, Ending>
    ensures made { IfOk result (λ desk.
        IsMadeByLog (S.text_of world.now.sheets.now name.now) (image_at desk)) }
    ensures fault { IfErr result HasNoInventory }
{
    match made_by_log(world, name) {
        Ok(desk) => Ok(SourceDesk::Plain(desk)),
        Err(ending) => Err(ending),
    }
}

// The inventory of a source: of a file, an empty one, or what a log makes.
fn desk_of<F: Files, S: Sheets>(
    world: &World<'_, HostRuntime, S>,
    files: &mut F,
    source: Source<'_>,
    wait: u64,
) -> Result<SourceDesk<F::Seen, F::Kept>, Ending>
    ensures source { IfOk result (λ desk. IsSourceOf F.Kept.may_hold F.Seen.may_hold
        F.has_opened F.has_read (S.text_of world.now.sheets.now) source.entry (image_at desk)) }
    ensures fault { IfErr result HasNoInventory }
{
    match source {
        Source::Log(name) => desk_by_log(world, name),
        Source::Inventory(db) if is_in_memory(db) => fresh(world.rt.alloc()),
        Source::Inventory(db) => desk_at_path(world.rt, files, db, wait, world.shown),
    }
}

// Writes what the inventory of a desk and that of a source differ in.
fn compare_with<G: Files, S: Sheets, W: Write + Drop, K: Keeper>(
    world: &World<'_, HostRuntime, S>,
    before: &Desk<K>,
    other: &mut G,
    after: Source<'_>,
    options: Options,
    to: W,
) -> Result<(W, Ending), ProgramFault>
    requires expected { IsExpected options.expected (identity_at before.now.image) }
    ensures { EndsCompared (λ i. i ≡ before.now.image)
        (IsSourceOf G.Kept.may_hold G.Seen.may_hold G.has_opened G.has_read
        (S.text_of world.now.sheets.now) after.entry)
        options.expected (W.contents to) (printed W.contents result) }
{
    match desk_of(world, other, after, options.wait) {
        Ok(SourceDesk::Plain(plain)) => {
            let given = do_difference(world.rt.alloc(), before, &plain, to);
            plain.into_keeper().discard();
            given
        }
        Ok(SourceDesk::Seen(seen)) => {
            let given = do_difference(world.rt.alloc(), before, &seen, to);
            G::discard_seen(seen.into_keeper());
            given
        }
        Ok(SourceDesk::Kept(kept)) => {
            let given = do_difference(world.rt.alloc(), before, &kept, to);
            other.close(kept.into_keeper());
            given
        }
        Err(ending) => Ok((to, ending)),
    }
}

// The same, where the inventory of the desk is expected. Of another one nothing is written.
fn compare_expected<G: Files, S: Sheets, W: Write + Drop, K: Keeper>(
    world: &World<'_, HostRuntime, S>,
    before: &Desk<K>,
    other: &mut G,
    after: Source<'_>,
    options: Options,
    to: W,
) -> Result<(W, Ending), ProgramFault>
    ensures { EndsCompared (λ i. i ≡ before.now.image)
        (IsSourceOf G.Kept.may_hold G.Seen.may_hold G.has_opened G.has_read
        (S.text_of world.now.sheets.now) after.entry)
        options.expected (W.contents to) (printed W.contents result) }
{
    if is_expected(before, options.expected) {
        compare_with(world, before, other, after, options, to)
    } else {
        let found = identity_at(before);
        Ok((to, stopped(ProgramFault::OtherInventory(found))))
    }
}

/// Writes what the inventories of two sources differ in, by the options `wait` and `expected`, which is said of the first.
/// Each is had through files of its own, which are closed then. The writer is given back with how the program ends.
///
/// # Errors
/// `Write` where not all was written.
pub(crate) fn do_comparison<F: Files, G: Files, S: Sheets, W: Write + Drop>(
    world: &World<'_, HostRuntime, S>,
    files: &mut F,
    other: &mut G,
    before: Source<'_>,
    after: Source<'_>,
    options: Options,
    to: W,
) -> Result<(W, Ending), ProgramFault>
    ensures { EndsCompared
        (IsSourceOf F.Kept.may_hold F.Seen.may_hold F.has_opened F.has_read
        (S.text_of world.now.sheets.now) before.entry)
        (IsSourceOf G.Kept.may_hold G.Seen.may_hold G.has_opened G.has_read
        (S.text_of world.now.sheets.now) after.entry)
        options.expected (W.contents to) (printed W.contents result) }
{
    match desk_of(world, files, before, options.wait) {
        Ok(SourceDesk::Plain(plain)) => {
            let given = compare_expected(world, &plain, other, after, options, to);
            plain.into_keeper().discard();
            given
        }
        Ok(SourceDesk::Seen(seen)) => {
            let given = compare_expected(world, &seen, other, after, options, to);
            F::discard_seen(seen.into_keeper());
            given
        }
        Ok(SourceDesk::Kept(kept)) => {
            let given = compare_expected(world, &kept, other, after, options, to);
            files.close(kept.into_keeper());
            given
        }
        Err(ending) => Ok((to, ending)),
    }
}
