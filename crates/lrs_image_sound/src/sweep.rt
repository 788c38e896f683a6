//! Tests of many rows by one sort.

ghost use Rattle.std.specs.Prelude.{◌≡◌, ℕ, ◌+◌, ◌<◌, length, slice_index_or, true, false, IfOk, IsPermutation};
ghost use Rattle.std.specs.Bool.{OnTrue, OnFalse};
ghost use Rattle.std.specs.List.{AllByRecursion};
ghost use Rattle.lrs_measure.specs.Lists.{each_two};
ghost use Rattle.lrs_events.specs.declared.part.Part.{Part};
ghost use Rattle.lrs_machine.specs.Sound.{share_nothing};
ghost use Rattle.lrs_image_sound.specs.SweptParts.{is_right, IsFilled, IsInOrder};

use lrs_events::{LinkSide, Part};
use std::alloc::{AllocError, Global};

fn share_nothing(x: &Part, y: &Part) -> bool
    ensures { result ≡ share_nothing x.now y.now }
{
    let same_line = x.asset == y.asset && x.link == y.link && x.side == y.side;
    !same_line || x.to <= y.from || y.to <= x.from
}

fn neighbours_share_nothing(parts: &[Part]) -> bool
    ensures all { OnTrue result ((k : ℕ) (d : Part) → k + 1 < length parts.now
        → share_nothing (slice_index_or parts.now k d) (slice_index_or parts.now (k + 1) d)
        ≡ true) }
    ensures some { OnFalse result ((k : ℕ) × (k + 1 < length parts.now)
        × ((d : Part) → share_nothing (slice_index_or parts.now k d)
        (slice_index_or parts.now (k + 1) d) ≡ false)) }
{
    for i in 1..parts.len() {
        if !share_nothing(&parts[i - 1], &parts[i]) {
            return false;
        }
    }
    true
}

fn line_key(part: &Part) -> ((u64, u32, bool), u32)
    ensures { result ≡ ((part.now.asset, part.now.link, is_right part.now.side), part.now.from) }
{
    (
        (part.asset, part.link, matches!(part.side, LinkSide::Right)),
        part.from,
    )
}

fn sort_by_line(parts: &mut Vec<Part>)
    ensures permutation { IsPermutation parts.old.items parts.new.items }
    ensures sorted { (k : ℕ) (d : Part) → k + 1 < length parts.new.items
        → IsInOrder (slice_index_or parts.new.items k d)
        (slice_index_or parts.new.items (k + 1) d) }
{
    parts.sort_unstable_by_key(|part| line_key(part));
}

/// The parts by asset, link, side and start. What is asked of each asset in turn is then asked of one that was near.
pub(crate) fn sorted_by_line(alloc: Global, parts: &[Part]) -> Result<Vec<Part>, AllocError>
    ensures permutation { IfOk result (λ sorted. IsPermutation parts.now sorted.items) }
    ensures sorted { IfOk result (λ sorted. (k : ℕ) (d : Part) → k + 1 < length sorted.items
        → IsInOrder (slice_index_or sorted.items k d) (slice_index_or sorted.items (k + 1) d)) }
{
    let mut sorted = Vec::from_slice(alloc, parts)?;
    sort_by_line(&mut sorted);
    Ok(sorted)
}

/// The same parts by asset, link, side and start.
pub(crate) fn into_line_order(mut parts: Vec<Part>) -> Vec<Part>
    ensures permutation { IsPermutation parts.items result.items }
    ensures sorted { (k : ℕ) (d : Part) → k + 1 < length result.items
        → IsInOrder (slice_index_or result.items k d) (slice_index_or result.items (k + 1) d) }
{
    sort_by_line(&mut parts);
    parts
}

/// Whether no two parts in the order of their lines have a pair of asset and place in common. Two that do are
/// side by side.
pub(crate) fn do_share_nothing_in_order(sorted: &[Part]) -> bool
    requires filled { AllByRecursion IsFilled sorted.now }
    requires order { (k : ℕ) (d : Part) → k + 1 < length sorted.now
        → IsInOrder (slice_index_or sorted.now k d) (slice_index_or sorted.now (k + 1) d) }
    ensures { result ≡ each_two share_nothing sorted.now }
{
    neighbours_share_nothing(sorted)
}

/// Whether no two parts have a pair of asset and place in common. A sort by asset, link, side and start
/// brings two that do side by side.
pub fn do_share_nothing(parts: Vec<Part>) -> bool
    requires filled { AllByRecursion IsFilled parts.items }
    ensures { result ≡ each_two share_nothing parts.items }
{
    let sorted = into_line_order(parts);
    neighbours_share_nothing(&sorted)
}
