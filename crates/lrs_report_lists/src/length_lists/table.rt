//! The lengths of each class and value, from stretches in their order.

ghost use Rattle.std.specs.Prelude.{◌≡◌, ℕ, ◌<◌, true, List, length, slice_index_or, IfOk};
ghost use Rattle.std.specs.List.{list_all, prefix_len};
ghost use Rattle.lrs_measure.specs.Lists.{each_two};
ghost use Rattle.lrs_events.specs.declared.class.Asset.{Asset};
ghost use Rattle.lrs_machine.specs.Sound.{asset_before};
ghost use Rattle.lrs_report_lists.specs.Length.Lengths.{has_either, has_left, has_right};
ghost use Rattle.lrs_report_lists.specs.Length.Parts.{IsGroup, IsTable, begins_by, ends_by, held, is_entry_of, is_held_by, not_behind};

use crate::length_lists::entries::LengthEntry;
use crate::length_lists::held_assets::count_assets;
use crate::length_lists::held_lengths::{Reach, held_length};
use crate::length_lists::order::is_of;
use lrs_events::{ClassName, Value};
use lrs_measure::Rows;
use std::alloc::{AllocError, Global};

/// How much of the routes the assets of one class and one value hold, in millimetres: on the left side, on the right side, and
/// on either side, each millimetre of a route once, however many of these assets hold it; and how many assets these are.
#[derive(Clone, Copy, PartialEq, Eq)]
pub struct ValueLength {
    pub class: ClassName,
    pub value: Value,
    pub left: u64,
    pub right: u64,
    pub length: u64,
    pub assets: u64,
}

/// How many of the first stretches are of the class and the value of another.
fn count_alike(entries: &[LengthEntry], first: &LengthEntry) -> usize
    ensures { result ≡ prefix_len (is_entry_of first.now.class first.now.value) entries.now }
{
    for (i, entry) in entries.iter().enumerate() {
        if !is_of(entry, first) {
            return i;
        }
    }
    entries.len()
}

/// How many of the first stretches are of the class and the value of the first one.
fn group_len(entries: &[LengthEntry], first: &LengthEntry) -> usize
    requires some { 0 < length entries.now }
    requires first { first.now ≡ slice_index_or entries.now 0 first.now }
    requires order { each_two not_behind entries.now ≡ true }
    ensures { IsGroup first.now entries.now result }
{
    count_alike(entries, first)
}

/// The lengths of stretches of one class and one value, which the first one has, and which so many assets hold.
fn group_length(first: &LengthEntry, group: &[LengthEntry], assets: u64) -> ValueLength
    requires order { each_two begins_by group.now ≡ true }
    ensures class { result.class ≡ first.now.class }
    ensures value { result.value ≡ first.now.value }
    ensures left { (n : ℕ) → list_all (ends_by n) group.now ≡ true
        → result.left ≡ held has_left group.now n }
    ensures right { (n : ℕ) → list_all (ends_by n) group.now ≡ true
        → result.right ≡ held has_right group.now n }
    ensures length { (n : ℕ) → list_all (ends_by n) group.now ≡ true
        → result.length ≡ held has_either group.now n }
    ensures assets { result.assets ≡ assets }
{
    ValueLength {
        class: first.class,
        value: first.value,
        left: held_length(group, Reach::Left),
        right: held_length(group, Reach::Right),
        length: held_length(group, Reach::Either),
        assets,
    }
}

/// The lengths of each class and value, and how many assets hold them.
pub(crate) fn table_of(
    alloc: Global,
    entries: &[LengthEntry],
) -> Result<Rows<ValueLength>, AllocError>
    requires order { each_two not_behind entries.now ≡ true }
    ensures { IfOk result (λ lengths. (n : ℕ) (assets : List Asset)
        → list_all (ends_by n) entries.now ≡ true → each_two asset_before assets ≡ true
        → list_all (is_held_by assets) entries.now ≡ true
        → IsTable n assets entries.now lengths) }
{
    let mut lengths = Vec::new(alloc);
    let mut rest = entries;
    while !rest.is_empty() {
        let first = &rest[0];
        let count = group_len(rest, first);
        let (group, others) = rest.split_at(count);
        let assets = count_assets(alloc, group)?;
        lengths.push(group_length(first, group, assets))?;
        rest = others;
    }
    Ok(Rows::from_vec(lengths))
}
