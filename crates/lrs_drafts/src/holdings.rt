//! What assets hold, as drafts intend it.

ghost use Rattle.std.specs.Prelude.{◌≡◌, ◌↔◌, IsTrue, ◌++◌, ◌∷◌, [], true, map, IfOk, OnOk};
ghost use Rattle.std.specs.Cmp.Lexicographic.{pointwise};
ghost use Rattle.std.specs.List.Sorted.{IsPermutation};
ghost use Rattle.lrs_machine.specs.Sound.{IsSound};
ghost use Rattle.lrs_image.specs.OpenLists.{image_of};
ghost use Rattle.lrs_difference.specs.Held.{held_in};
ghost use Rattle.lrs_sheet_log.specs.Differences.{AreEach};
ghost use Rattle.lrs_drafts.specs.Drafts.{HoldsNothing, HoldsWhatHeld};
ghost use Rattle.lrs_drafts.specs.Holdings.{AreExchanged, none_of, same_stretch, stretch_of, stretches_of, told};

use lrs_difference::{HeldRow, HeldStretch, held_stretches, only_held};
use lrs_events::{ClassName, Value};
use lrs_image::ImageLists;
use lrs_machine::AssetNumber;
use lrs_ordered::Chunked;
use lrs_report_lists::LinkStretch;
use std::alloc::{AllocError, Global};
use std::cmp::Ordering;

/// Whether no stretch is of an asset.
fn none_of(held: &[HeldStretch], asset: u64) -> bool
    ensures { result ≡ none_of asset held.now }
{
    held.iter().all(|stretch| stretch.asset != asset)
}

/// Whether an asset holds nothing.
///
/// # Errors
/// When memory runs out.
pub(crate) fn holds_nothing(
    alloc: Global,
    asset: AssetNumber,
    kept: &ImageLists,
) -> Result<bool, AllocError>
    ensures { IfOk result (λ nothing. nothing ≡ true → HoldsNothing asset (image_of kept.now)) }
{
    let held = held_stretches(alloc, kept)?;
    Ok(none_of(&held, asset.get()))
}

/// Adds a stretch if it is of an asset.
fn push_stretch(
    found: &mut Vec<LinkStretch>,
    held: &HeldStretch,
    asset: u64,
) -> Result<(), AllocError>
    ensures { OnOk result (found.new.items ≡ found.old.items ++ stretch_of asset held.now) }
{
    if held.asset == asset {
        found.push(held.stretch)?;
    }
    Ok(())
}

/// The stretches of an asset, in their order.
fn stretches_among(
    alloc: Global,
    held: &[HeldStretch],
    asset: u64,
) -> Result<Vec<LinkStretch>, AllocError>
    ensures { IfOk result (λ found. found.items ≡ stretches_of asset held.now) }
{
    let mut found = Vec::new(alloc);
    for stretch in held {
        push_stretch(&mut found, stretch, asset)?;
    }
    Ok(found)
}

/// The stretches of links that an asset holds.
fn stretches_of(
    alloc: Global,
    kept: &ImageLists,
    asset: u64,
) -> Result<Vec<LinkStretch>, AllocError>
    ensures { IfOk result (λ found. found.items
        ≡ stretches_of asset (held_in (image_of kept.now))) }
{
    let held = held_stretches(alloc, kept)?;
    stretches_among(alloc, &held, asset)
}

fn are_same_stretches(one: &[LinkStretch], other: &[LinkStretch]) -> bool
    ensures { result ≡ pointwise same_stretch one.now other.now }
{
    one == other
}

/// Whether an asset holds afterwards what another one held before: the stretches of their rows are the same, in one order.
///
/// # Errors
/// When memory runs out.
pub(crate) fn holds_what_held(
    alloc: Global,
    number: AssetNumber,
    asset: AssetNumber,
    before: &ImageLists,
    after: &ImageLists,
) -> Result<bool, AllocError>
    ensures { IfOk result (λ holds. holds ≡ true
        → HoldsWhatHeld number asset (image_of before.now) (image_of after.now)) }
{
    let held_before = stretches_of(alloc, before, asset.get())?;
    let held_after = stretches_of(alloc, after, number.get())?;
    Ok(are_same_stretches(&held_before, &held_after))
}

/// A stretch, whichever asset holds it: what is told of the asset, its lateral offset in millimetres, and the stretch.
#[derive(Clone, Copy)]
struct ToldStretch {
    class: ClassName,
    value: Value,
    lateral: u32,
    stretch: LinkStretch,
}

fn told(row: &HeldRow) -> ToldStretch
    ensures { result ≡ told row.now }
{
    ToldStretch {
        class: row.asset.class,
        value: row.asset.value,
        lateral: row.asset.lateral,
        stretch: row.stretch,
    }
}

/// Adds what a row tells.
fn push_told(all: &mut Vec<ToldStretch>, row: &HeldRow) -> Result<(), AllocError>
    ensures { OnOk result (all.new.items ≡ all.old.items ++ told row.now ∷ []) }
{
    all.push(told(row))?;
    Ok(())
}

/// What rows tell, whichever assets hold it.
fn all_told(alloc: Global, rows: &Chunked<HeldRow>) -> Result<Vec<ToldStretch>, AllocError>
    ensures { IfOk result (λ all. all.items ≡ map told rows.now.rows) }
{
    let mut all = Vec::new(alloc);
    for row in rows.iter() {
        push_told(&mut all, row)?;
    }
    Ok(all)
}

/// The order of link, start and side: two that hold one place are told by their class, value and offset.
fn compare(one: &ToldStretch, other: &ToldStretch) -> Ordering {
    let place = [
        one.stretch.link,
        one.stretch.from,
        one.stretch.to,
        one.lateral,
    ];
    let other_place = [
        other.stretch.link,
        other.stretch.from,
        other.stretch.to,
        other.lateral,
    ];
    match place.as_slice().cmp(other_place.as_slice()) {
        Ordering::Equal => match one.class.bytes().cmp(other.class.bytes()) {
            Ordering::Equal => one.value.bytes().cmp(other.value.bytes()),
            unequal => unequal,
        },
        unequal => unequal,
    }
}

fn sort(all: &mut Vec<ToldStretch>)
    ensures { IsPermutation all.old.items all.new.items }
{
    all.sort_unstable_by(|one, other| compare(one, other));
}

/// What rows tell, in an order that does not go by assets.
fn sorted_told(alloc: Global, rows: &Chunked<HeldRow>) -> Result<Vec<ToldStretch>, AllocError>
    ensures { IfOk result (λ all. IsPermutation (map told rows.now.rows) all.items) }
{
    let mut all = all_told(alloc, rows)?;
    sort(&mut all);
    Ok(all)
}

fn is_same_stretch(one: &LinkStretch, other: &LinkStretch) -> bool
    ensures { IsTrue result ↔ (one.now ≡ other.now) }
{
    one.link == other.link && one.from == other.from && one.to == other.to && one.side == other.side
}

fn is_same_told(one: &ToldStretch, other: &ToldStretch) -> bool
    ensures { IsTrue result ↔ (one.now ≡ other.now) }
{
    one.class == other.class
        && one.value == other.value
        && one.lateral == other.lateral
        && is_same_stretch(&one.stretch, &other.stretch)
}

/// Whether as many stretches are told, and each two are the same.
fn are_same_told(one: &[ToldStretch], other: &[ToldStretch]) -> bool
    ensures { result ≡ true → AreEach (λ a b. a ≡ b) one.now other.now }
{
    if one.len() != other.len() {
        return false;
    }
    for place in 0..one.len() {
        if !is_same_told(&one[place], &other[place]) {
            return false;
        }
    }
    true
}

/// Whether what is held in the one inventory alone is held in the other alone, if by assets of other numbers.
///
/// # Errors
/// When memory runs out.
pub(crate) fn are_exchanged(
    alloc: Global,
    before: &ImageLists,
    after: &ImageLists,
) -> Result<bool, AllocError>
    requires before { IsSound (image_of before.now) }
    requires after { IsSound (image_of after.now) }
    ensures { IfOk result (λ exchanged. exchanged ≡ true
        → AreExchanged (image_of before.now) (image_of after.now)) }
{
    let lost = only_held(alloc, before, after)?;
    let gained = only_held(alloc, after, before)?;
    let lost_told = sorted_told(alloc, &lost)?;
    let gained_told = sorted_told(alloc, &gained)?;
    Ok(are_same_told(&lost_told, &gained_told))
}
