//! A change of an image, here and in what is kept.

ghost use Rattle.std.specs.Prelude.{◌≡◌, ◌∷◌, ◌++◌, [], IfOk, OnOk, OnErr, Err, true, Result};
ghost use Rattle.lrs_machine.specs.declared.image.Image.{Image};
ghost use Rattle.lrs_machine.specs.declared.table.Table.{Table};
ghost use Rattle.lrs_machine.specs.Sound.{IsSound};
ghost use Rattle.lrs_image.specs.Change.{apply, CanMake};
ghost use Rattle.lrs_image.specs.KeeperCalls.{HasLoaded, HasRisen, HoldsSound, OnlyStages};
ghost use Rattle.lrs_image.specs.OpenLists.{image_of, image_with, IsPrepared};
ghost use Rattle.lrs_image.specs.ChangeLists.{Keeps, KeepsOne};

use crate::change::Change;
use crate::image_lists::ImageLists;
use crate::keeper::{CommitFault, Keeper};
use crate::open_route::OpenRoute;
use lrs_measure::TryCopy;
use std::alloc::{AllocError, Global};

/// Makes a change of an image here, and stages it. Nothing fails once it is staged.
///
/// # Errors
/// When memory runs out; nothing has changed then.
pub fn stage_change<K: Keeper>(
    alloc: Global,
    kept: &mut ImageLists,
    keeper: &mut K,
    change: Change,
) -> Result<(), AllocError>
    requires sound { IsSound (image_of kept.old) }
    requires can { CanMake change (image_of kept.old) }
    ensures ok { OnOk result (image_of kept.new ≡ apply change (image_of kept.old)) }
    ensures staged { OnOk result (K.staged keeper.new ≡ K.staged keeper.old ++ change ∷ []) }
    ensures err { OnErr result (image_of kept.new ≡ image_of kept.old) }
    ensures not_staged { OnErr result (K.staged keeper.new ≡ K.staged keeper.old) }
    ensures rest { OnlyStages K.Holder keeper.old keeper.new }
{
    match stage_prepared(alloc, kept, keeper, &change) {
        Ok(opened) => {
            kept.finish(opened, change);
            Ok(())
        }
        Err(fault) => {
            // As a call, the drop is one step to prove, and not one for each part.
            drop(change);
            Err(fault)
        }
    }
}

/// Makes a change of an image, in what is kept and here. Room for it is made first, so that nothing
/// fails after the commit.
///
/// # Errors
/// `Memory` when memory runs out, in the commit too, and `Store` where the device fails; here nothing has changed then.
pub fn make_change<K: Keeper>(
    alloc: Global,
    kept: &mut ImageLists,
    keeper: &mut K,
    change: Change,
) -> Result<(), CommitFault>
    requires has { HasLoaded K.Holder keeper.old (image_of kept.old) }
    requires staged { K.staged keeper.old ≡ [] }
    requires sound { IsSound (image_of kept.old) }
    requires can { CanMake change (image_of kept.old) }
    ensures ok { OnOk result (image_of kept.new ≡ apply change (image_of kept.old)) }
    ensures err { OnErr result (image_of kept.new ≡ image_of kept.old) }
    ensures keeps { KeepsOne K.Holder CommitFault.Memory CommitFault.Store change
        (image_of kept.old) keeper.old keeper.new result }
    ensures staged { K.staged keeper.new ≡ [] }
{
    match keep_prepared(alloc, kept, keeper, &change) {
        Ok(opened) => {
            kept.finish(opened, change);
            Ok(())
        }
        Err(fault) => {
            // As a call, the drop is one step to prove, and not one for each part.
            drop(change);
            Err(fault)
        }
    }
}

/// Prepares the lists for a change, and stages a copy of it. Where that fails, the route is put back.
fn stage_prepared<K: Keeper>(
    alloc: Global,
    kept: &mut ImageLists,
    keeper: &mut K,
    change: &Change,
) -> Result<Option<OpenRoute>, AllocError>
    requires sound { IsSound (image_of kept.old) }
    requires can { CanMake change.now (image_of kept.old) }
    ensures image { IfOk result (λ opened. image_with opened kept.new ≡ image_of kept.old) }
    ensures ready { IfOk result (λ opened. IsPrepared change.now.difference opened kept.new) }
    ensures staged { OnOk result (K.staged keeper.new ≡ K.staged keeper.old ++ change.now ∷ []) }
    ensures err { OnErr result (image_of kept.new ≡ image_of kept.old) }
    ensures not_staged { OnErr result (K.staged keeper.new ≡ K.staged keeper.old) }
    ensures rest { OnlyStages K.Holder keeper.old keeper.new }
{
    let opened = kept.prepare(alloc, &change.difference)?;
    match stage_copy(alloc, keeper, change) {
        Ok(()) => Ok(opened),
        Err(fault) => {
            kept.put_back(opened);
            Err(fault)
        }
    }
}

/// Prepares the lists for a change, and keeps it. Where that fails, the route is put back.
fn keep_prepared<K: Keeper>(
    alloc: Global,
    kept: &mut ImageLists,
    keeper: &mut K,
    change: &Change,
) -> Result<Option<OpenRoute>, CommitFault>
    requires has { HasLoaded K.Holder keeper.old (image_of kept.old) }
    requires staged { K.staged keeper.old ≡ [] }
    requires sound { IsSound (image_of kept.old) }
    requires can { CanMake change.now (image_of kept.old) }
    ensures image { IfOk result (λ opened. image_with opened kept.new ≡ image_of kept.old) }
    ensures ready { IfOk result (λ opened. IsPrepared change.now.difference opened kept.new) }
    ensures err { OnErr result (image_of kept.new ≡ image_of kept.old) }
    ensures keeps { KeepsOne K.Holder CommitFault.Memory CommitFault.Store change.now
        (image_of kept.old) keeper.old keeper.new result }
    ensures staged { K.staged keeper.new ≡ [] }
{
    let opened = kept.prepare(alloc, &change.difference)?;
    match keep_one(alloc, keeper, change) {
        Ok(()) => Ok(opened),
        Err(fault) => {
            kept.put_back(opened);
            Err(fault)
        }
    }
}

/// Stages a copy of a change.
fn stage_copy<K: Keeper>(alloc: Global, keeper: &mut K, change: &Change) -> Result<(), AllocError>
    ensures ok { OnOk result (K.staged keeper.new ≡ K.staged keeper.old ++ change.now ∷ []) }
    ensures err { OnErr result (K.staged keeper.new ≡ K.staged keeper.old) }
    ensures rest { OnlyStages K.Holder keeper.old keeper.new }
{
    let copy = change.copy(alloc)?;
    keeper.stage(copy)
}

/// Stages a copy of a change where nothing is staged, and commits it.
fn keep_one<K: Keeper>(alloc: Global, keeper: &mut K, change: &Change) -> Result<(), CommitFault>
    requires loaded { K.is_loaded keeper.old ≡ true }
    requires staged { K.staged keeper.old ≡ [] }
    requires reached { K.is_clean keeper.old → K.is_open keeper.old }
    requires sound { HoldsSound (K.may_hold keeper.old) }
    requires can { (c : Result Image Table) → K.may_hold keeper.old c → IfOk c (CanMake change.now) }
    ensures keeps { Keeps K.Holder (change.now ∷ []) keeper.old keeper.new result }
    ensures cause { result ≡ Err CommitFault.Store
        → HasRisen (K.failures keeper.old) (K.failures keeper.new) }
    ensures staged { K.staged keeper.new ≡ [] }
{
    stage_copy(alloc, keeper, change)?;
    keeper.commit()
}
