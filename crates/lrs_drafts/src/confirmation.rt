//! Whether a sheet is a draft: it is tried at a copy of the inventory, and what it makes is compared.

ghost use Rattle.std.specs.Prelude.{◌≡◌, ◌++◌, true, IfOk, OnOk};
ghost use Rattle.std.specs.List.{flat_map};
ghost use Rattle.lrs_machine.specs.Image.{state_of};
ghost use Rattle.lrs_machine.specs.Sound.{IsSound};
ghost use Rattle.lrs_image.specs.OpenLists.{image_of};
ghost use Rattle.lrs_sheet.specs.Trials.{IsFull};
ghost use Rattle.lrs_drafts.specs.Drafts.{DiffersOnlyIn, HoldsNothing, HoldsWhatHeld, Intends, IsDraft, changes_route, gives_up, is_entered};
ghost use Rattle.lrs_drafts.specs.Fronts.{texts_of};
ghost use Rattle.lrs_drafts.specs.Wholes.{IsDoneWhole, IsWhole};

use crate::draft::Draft;
use crate::fault::DraftFault;
use crate::fronts::{differs_only_in, push_entered, push_given_up, push_route};
use crate::holdings::{holds_nothing, holds_what_held};
use crate::undone::is_undone;
use lrs_image::ImageLists;
use lrs_machine::AssetNumber;
use lrs_position::RouteName;
use lrs_sheet::{Desk, Keeper, Sheet, Tally, Trial, copy_desk, discard_copy, try_sheet};
use std::alloc::{AllocError, Global};

const NOT_DONE: DraftFault = DraftFault::Impossible(
    "a record of the sheet that would do this is refused",
);

const NOT_INTENDED: DraftFault = DraftFault::Impossible(
    "the sheet that would do this changes something else too",
);

/// The fronts of lines of two routes.
#[tactic(auto, using(crate::proofs::Fronted::both_fronts))]
fn two_routes(alloc: Global, one: &RouteName, other: &RouteName) -> Result<Vec<Vec<u8>>, AllocError>
    ensures { IfOk result (λ fronts. texts_of fronts.items
        ≡ changes_route one.now ++ changes_route other.now) }
{
    let mut fronts = Vec::new(alloc);
    push_route(alloc, &mut fronts, one)?;
    push_route(alloc, &mut fronts, other)?;
    Ok(fronts)
}

/// Whether two routes alone are others: by name, by ground or by marks.
fn changes_two(
    alloc: Global,
    one: &RouteName,
    other: &RouteName,
    before: &ImageLists,
    after: &ImageLists,
) -> Result<bool, AllocError>
    requires before { IsSound (image_of before.now) }
    requires after { IsSound (image_of after.now) }
    ensures { IfOk result (λ only. only ≡ true
        → DiffersOnlyIn (changes_route one.now ++ changes_route other.now)
        (image_of before.now) (image_of after.now)) }
{
    let fronts = two_routes(alloc, one, other)?;
    differs_only_in(alloc, fronts.as_slice(), before, after)
}

/// The fronts of lines of these routes.
fn route_fronts(alloc: Global, routes: &[RouteName]) -> Result<Vec<Vec<u8>>, AllocError>
    ensures { IfOk result (λ fronts. texts_of fronts.items ≡ flat_map changes_route routes.now) }
{
    let mut fronts = Vec::new(alloc);
    for route in routes {
        push_route(alloc, &mut fronts, route)?;
    }
    Ok(fronts)
}

/// Whether these routes alone are others.
fn changes_all(
    alloc: Global,
    routes: &[RouteName],
    before: &ImageLists,
    after: &ImageLists,
) -> Result<bool, AllocError>
    requires before { IsSound (image_of before.now) }
    requires after { IsSound (image_of after.now) }
    ensures { IfOk result (λ only. only ≡ true → DiffersOnlyIn (flat_map changes_route routes.now)
        (image_of before.now) (image_of after.now)) }
{
    let fronts = route_fronts(alloc, routes)?;
    differs_only_in(alloc, fronts.as_slice(), before, after)
}

/// The front of lines of what an asset holds no more.
#[tactic(auto, using(crate::proofs::Fronted::only_fronts))]
fn given_up(alloc: Global, asset: AssetNumber) -> Result<Vec<Vec<u8>>, AllocError>
    ensures { IfOk result (λ fronts. texts_of fronts.items ≡ gives_up asset) }
{
    let mut fronts = Vec::new(alloc);
    push_given_up(alloc, &mut fronts, asset)?;
    Ok(fronts)
}

/// The fronts of lines of what an asset holds no more, and of another one that is entered.
#[tactic(auto, using(crate::proofs::Fronted::both_fronts))]
fn exchanged(
    alloc: Global,
    asset: AssetNumber,
    number: AssetNumber,
) -> Result<Vec<Vec<u8>>, AllocError>
    ensures { IfOk result (λ fronts. texts_of fronts.items
        ≡ gives_up asset ++ is_entered number) }
{
    let mut fronts = Vec::new(alloc);
    push_given_up(alloc, &mut fronts, asset)?;
    push_entered(alloc, &mut fronts, number)?;
    Ok(fronts)
}

/// Whether an asset has given up all that it held, and the difference has only lines that begin in one of these ways.
fn only_retires(
    alloc: Global,
    asset: AssetNumber,
    fronts: &[Vec<u8>],
    before: &ImageLists,
    after: &ImageLists,
) -> Result<bool, AllocError>
    requires before { IsSound (image_of before.now) }
    requires after { IsSound (image_of after.now) }
    ensures { IfOk result (λ retired. retired ≡ true
        → DiffersOnlyIn (texts_of fronts.now) (image_of before.now) (image_of after.now)
        × HoldsNothing asset (image_of after.now)) }
{
    if !differs_only_in(alloc, fronts, before, after)? {
        return Ok(false);
    }
    holds_nothing(alloc, asset, after)
}

/// Whether an asset has given up all that it held, and nothing else is different.
fn is_retired(
    alloc: Global,
    asset: AssetNumber,
    before: &ImageLists,
    after: &ImageLists,
) -> Result<bool, AllocError>
    requires before { IsSound (image_of before.now) }
    requires after { IsSound (image_of after.now) }
    ensures { IfOk result (λ retired. retired ≡ true
        → DiffersOnlyIn (gives_up asset) (image_of before.now) (image_of after.now)
        × HoldsNothing asset (image_of after.now)) }
{
    let fronts = given_up(alloc, asset)?;
    only_retires(alloc, asset, fronts.as_slice(), before, after)
}

/// Whether an asset has given up all that it held, another one is entered, and nothing else is different.
fn is_moved(
    alloc: Global,
    asset: AssetNumber,
    number: AssetNumber,
    before: &ImageLists,
    after: &ImageLists,
) -> Result<bool, AllocError>
    requires before { IsSound (image_of before.now) }
    requires after { IsSound (image_of after.now) }
    ensures { IfOk result (λ moved. moved ≡ true
        → DiffersOnlyIn (gives_up asset ++ is_entered number)
        (image_of before.now) (image_of after.now)
        × HoldsNothing asset (image_of after.now)) }
{
    let fronts = exchanged(alloc, asset, number)?;
    only_retires(alloc, asset, fronts.as_slice(), before, after)
}

/// Whether the same holds, and the other one has what the asset held.
fn is_replaced(
    alloc: Global,
    asset: AssetNumber,
    number: AssetNumber,
    before: &ImageLists,
    after: &ImageLists,
) -> Result<bool, AllocError>
    requires before { IsSound (image_of before.now) }
    requires after { IsSound (image_of after.now) }
    ensures { IfOk result (λ replaced. replaced ≡ true
        → DiffersOnlyIn (gives_up asset ++ is_entered number)
        (image_of before.now) (image_of after.now)
        × HoldsNothing asset (image_of after.now)
        × HoldsWhatHeld number asset (image_of before.now) (image_of after.now)) }
{
    if !is_moved(alloc, asset, number, before, after)? {
        return Ok(false);
    }
    holds_what_held(alloc, number, asset, before, after)
}

/// Whether one inventory became another as a draft intends it.
fn is_intended(
    alloc: Global,
    draft: &Draft,
    before: &ImageLists,
    after: &ImageLists,
) -> Result<bool, AllocError>
    requires before { IsSound (image_of before.now) }
    requires after { IsSound (image_of after.now) }
    ensures { IfOk result (λ intended. intended ≡ true
        → Intends draft.now (image_of before.now) (image_of after.now)) }
{
    match draft {
        Draft::Split { route, new, .. } => changes_two(alloc, route, new, before, after),
        Draft::Bypass { route, old, .. } => changes_two(alloc, route, old, before, after),
        Draft::Retire { asset } => is_retired(alloc, *asset, before, after),
        Draft::Replace { asset, number, .. } => {
            is_replaced(alloc, *asset, *number, before, after)
        }
        Draft::Move { asset, number, .. } => is_moved(alloc, *asset, *number, before, after),
        Draft::Merge { routes } => changes_all(alloc, routes.as_slice(), before, after),
        Draft::Undo { from, number } => is_undone(alloc, *from, *number, before, after),
    }
}

/// Whether each record of a sheet was done that was tried: none refused, none known before, and the sheet read to its end.
fn is_done_whole(trial: &Trial) -> bool
    ensures { result ≡ true → IsWhole trial.now.outcome }
{
    match trial.outcome {
        Ok(Tally { again, refused, .. }) => again == 0 && refused == 0,
        Err(_) => false,
    }
}

/// Does a sheet at a desk over a copy.
///
/// # Errors
/// `Impossible` where not each record of it is done, and `Memory`.
#[tactic(auto, using(crate::proofs::Confirmed::done_whole))]
fn do_whole<K: Keeper>(alloc: Global, sheet: &[u8], copy: &mut Desk<K>) -> Result<(), DraftFault>
    requires full { IsFull copy.old.limits }
    ensures { OnOk result (IsDoneWhole sheet.now (state_of copy.old.image)
        (state_of copy.new.image)) }
{
    let trial = try_sheet(alloc, Sheet::Edits, 0, sheet, copy)?;
    if is_done_whole(&trial) {
        Ok(())
    } else {
        Err(NOT_DONE)
    }
}

/// Does a sheet at a desk over a copy of an inventory, and looks at what it made.
///
/// # Errors
/// `Impossible` where not each record of it is done, or something else is made than is intended, and `Memory`.
#[tactic(auto, using(crate::proofs::Confirmed::is_draft))]
fn confirm_at<K: Keeper>(
    alloc: Global,
    before: &ImageLists,
    draft: &Draft,
    sheet: &[u8],
    copy: &mut Desk<K>,
) -> Result<(), DraftFault>
    requires sound { IsSound (image_of before.now) }
    requires same { copy.old.image ≡ image_of before.now }
    requires full { IsFull copy.old.limits }
    ensures { OnOk result (IsDraft draft.now (image_of before.now) sheet.now) }
{
    do_whole(alloc, sheet, copy)?;
    if is_intended(alloc, draft, before, copy.inventory().kept())? {
        Ok(())
    } else {
        Err(NOT_INTENDED)
    }
}

/// Does a sheet at a copy of a desk's inventory, and looks at what it made.
fn confirm<K: Keeper>(
    alloc: Global,
    desk: &Desk<K>,
    draft: &Draft,
    sheet: &[u8],
) -> Result<(), DraftFault>
    ensures { OnOk result (IsDraft draft.now desk.now.image sheet.now) }
{
    match copy_desk(alloc, desk) {
        Ok(copy) => {
            let mut copy = copy;
            let confirmed = confirm_at(alloc, desk.inventory().kept(), draft, sheet, &mut copy);
            discard_copy(copy);
            confirmed
        }
        Err(AllocError) => Err(DraftFault::Memory),
    }
}

/// Gives a sheet back that is a draft: each of its records is done at a copy of the inventory, and makes what is intended.
///
/// # Errors
/// `Impossible` where it is none, and `Memory`.
pub(crate) fn confirmed<K: Keeper>(
    alloc: Global,
    desk: &Desk<K>,
    draft: &Draft,
    sheet: Vec<u8>,
) -> Result<Vec<u8>, DraftFault>
    ensures { IfOk result (λ draft_text. IsDraft draft.now desk.now.image draft_text.items) }
{
    match confirm(alloc, desk, draft, sheet.as_slice()) {
        Ok(()) => Ok(sheet),
        Err(fault) => Err(fault),
    }
}
