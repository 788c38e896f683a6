//! How many assets hold stretches, each once.

ghost use Rattle.std.specs.Prelude.{◌≡◌, ◌<◌, true, not, nat_eq, List, length, map, take, slice_index_or, IfOk, IsPermutation};
ghost use Rattle.std.specs.List.{list_all, list_any};
ghost use Rattle.std.specs.List.Sorted.{IsSorted};
ghost use Rattle.std.specs.Ordering.{nat_cmp};
ghost use Rattle.lrs_measure.specs.Lists.{each_two};
ghost use Rattle.lrs_events.specs.declared.class.Asset.{Asset};
ghost use Rattle.lrs_machine.specs.Sound.{asset_before};
ghost use Rattle.lrs_report_lists.specs.Length.Parts.{holders, is_held_by, is_number_of, numbered};

use crate::length_lists::entries::LengthEntry;
use std::alloc::{AllocError, Global};

fn numbers_of(alloc: Global, entries: &[LengthEntry]) -> Result<Vec<u64>, AllocError>
    ensures { IfOk result (λ numbers. numbers.items ≡ map (λ e. e.asset) entries.now) }
{
    let mut numbers = Vec::with_capacity(alloc, entries.len())?;
    for entry in entries {
        numbers.push(entry.asset)?;
    }
    Ok(numbers)
}

fn sort(numbers: &mut Vec<u64>)
    ensures same { IsPermutation numbers.old.items numbers.new.items }
    ensures order { IsSorted nat_cmp numbers.new.items }
{
    numbers.sort_unstable();
}

/// Whether none of the numbers before it is the same. They are in their order, so the one before it tells.
fn is_new(numbers: &[u64], i: usize) -> bool
    requires order { IsSorted nat_cmp numbers.now }
    requires within { i < length numbers.now }
    ensures { result ≡ not (list_any
        (λ n. nat_eq n (slice_index_or numbers.now i 0)) (take i numbers.now)) }
{
    i == 0 || numbers[i - 1] != numbers[i]
}

/// How many assets have one of these numbers, which are in their order.
fn count_numbers(numbers: &[u64]) -> u64
    requires order { IsSorted nat_cmp numbers.now }
    ensures { (assets : List Asset) → each_two asset_before assets ≡ true
        → list_all (is_number_of assets) numbers.now ≡ true → result ≡ numbered numbers.now assets }
{
    let mut count = 0;
    for i in 0..numbers.len() {
        if is_new(numbers, i) {
            count += 1;
        }
    }
    count
}

/// How many assets hold these stretches, each once. It takes memory for a number for each stretch, and gives it back.
pub(crate) fn count_assets(alloc: Global, entries: &[LengthEntry]) -> Result<u64, AllocError>
    ensures { IfOk result (λ count. (assets : List Asset) → each_two asset_before assets ≡ true
        → list_all (is_held_by assets) entries.now ≡ true → count ≡ holders entries.now assets) }
{
    let mut numbers = numbers_of(alloc, entries)?;
    sort(&mut numbers);
    Ok(count_numbers(&numbers))
}
