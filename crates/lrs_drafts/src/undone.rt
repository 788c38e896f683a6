//! Whether edits are undone.

ghost use Rattle.std.specs.Prelude.{◌≡◌, ◌≤◌, ◌-◌, true, IfOk, Some, length};
ghost use Rattle.lrs_machine.specs.Sound.{IsSound};
ghost use Rattle.lrs_image.specs.OpenLists.{image_of};
ghost use Rattle.lrs_sheet.specs.MadeLogs.{IsMadeBy};
ghost use Rattle.lrs_sheet_log.specs.Log.{log_text};
ghost use Rattle.lrs_drafts.specs.Drafts as spec;
ghost use Rattle.lrs_drafts.specs.Drafts.{DiffersOnlyIn, IsUndone};
ghost use Rattle.lrs_drafts.specs.Fronts.{texts_of};
ghost use Rattle.lrs_drafts.specs.Holdings.{AreExchanged};

use crate::former_desk::former_desk;
use crate::fronts::{differs_only_in, push_front};
use crate::holdings::are_exchanged;
use crate::undone_edit::first_undone;
use lrs_desk::{Desk, Keeper};
use lrs_image::ImageLists;
use lrs_machine::AssetNumber;
use lrs_sheet::discard_copy;
use std::alloc::{AllocError, Global};

/// How the lines begin in which an inventory may differ from the one before the edits that are undone.
fn undone_fronts(alloc: Global, number: Option<AssetNumber>) -> Result<Vec<Vec<u8>>, AllocError>
    ensures { IfOk result (λ fronts. texts_of fronts.items ≡ spec.undone_fronts number) }
{
    let mut fronts = Vec::new(alloc);
    push_front(alloc, &mut fronts, b"+,", b"asset")?;
    match number {
        Some(_) => {
            push_front(alloc, &mut fronts, b"-,", b"holds")?;
            push_front(alloc, &mut fronts, b"+,", b"holds")?;
            Ok(fronts)
        }
        None => Ok(fronts),
    }
}

/// Whether only assets were entered, which hold what others did if they may hold something.
fn only_returns(
    alloc: Global,
    number: Option<AssetNumber>,
    was: &ImageLists,
    after: &ImageLists,
) -> Result<bool, AllocError>
    requires was { IsSound (image_of was.now) }
    requires after { IsSound (image_of after.now) }
    ensures { IfOk result (λ only. only ≡ true → DiffersOnlyIn (spec.undone_fronts number)
        (image_of was.now) (image_of after.now)) }
{
    let fronts = undone_fronts(alloc, number)?;
    differs_only_in(alloc, fronts.as_slice(), was, after)
}

/// Whether the inventory is as it was, but for assets that were entered.
fn is_back(
    alloc: Global,
    number: Option<AssetNumber>,
    was: &ImageLists,
    after: &ImageLists,
) -> Result<bool, AllocError>
    requires was { IsSound (image_of was.now) }
    requires after { IsSound (image_of after.now) }
    ensures { IfOk result (λ back. back ≡ true
        → DiffersOnlyIn (spec.undone_fronts number) (image_of was.now) (image_of after.now)
        × AreExchanged (image_of was.now) (image_of after.now)) }
{
    if !only_returns(alloc, number, was, after)? {
        return Ok(false);
    }
    are_exchanged(alloc, was, after)
}

/// Whether the edits from the first one on are undone, with a desk over what those before it made.
fn is_back_at<K: Keeper>(
    alloc: Global,
    from: Option<u64>,
    number: Option<AssetNumber>,
    before: &ImageLists,
    first: u64,
    former: &Desk<K>,
    after: &ImageLists,
) -> Result<bool, AllocError>
    requires after { IsSound (image_of after.now) }
    requires first { first ≡ spec.first_undone from (image_of before.now) }
    requires not_before { 1 ≤ spec.first_undone from (image_of before.now) }
    requires not_behind { spec.first_undone from (image_of before.now)
        ≤ length (image_of before.now).edits }
    requires made { IsMadeBy (log_text 1 (Some (first - 1)) (image_of before.now))
        former.now.image }
    ensures { IfOk result (λ undone. undone ≡ true
        → IsUndone from number (image_of before.now) (image_of after.now)) }
{
    let inventory = former.inventory();
    inventory.prove_sound();
    is_back(alloc, number, inventory.kept(), after)
}

/// Whether an edit of the one inventory and all behind it, or its last edit alone, are undone in the other.
///
/// # Errors
/// When memory runs out.
pub(crate) fn is_undone(
    alloc: Global,
    from: Option<u64>,
    number: Option<AssetNumber>,
    before: &ImageLists,
    after: &ImageLists,
) -> Result<bool, AllocError>
    requires after { IsSound (image_of after.now) }
    ensures { IfOk result (λ undone. undone ≡ true
        → IsUndone from number (image_of before.now) (image_of after.now)) }
{
    let Some(first) = first_undone(before, from) else {
        return Ok(false);
    };
    match former_desk(alloc, before, first) {
        Ok(former) => {
            let undone = is_back_at(alloc, from, number, before, first, &former, after);
            discard_copy(former);
            undone
        }
        Err(AllocError) => Err(AllocError),
    }
}
