//! Combinations by their values.

ghost use Rattle.std.specs.Prelude.{◌≡◌, true};
ghost use Rattle.std.specs.List.Sorted.{IsPermutation};
ghost use Rattle.lrs_measure.specs.Lists.{each_two};
ghost use Rattle.lrs_report_answers.specs.CombinationParts.{has_values, not_behind, values_cmp};

use crate::combinations::Combination;
use std::cmp::Ordering;

/// Whether an entry has the values of another.
pub(crate) fn has_values_of(entry: &Combination, other: &Combination) -> bool
    ensures { result ≡ has_values other.now.values entry.now }
{
    entry.values.as_slice() == other.values.as_slice()
}

/// How the two lie in the order.
fn compare(entry: &Combination, other: &Combination) -> Ordering
    ensures { result ≡ values_cmp entry.now.values other.now.values }
{
    entry.values.as_slice().cmp(other.values.as_slice())
}

/// Sorts entries by their values. It takes no memory.
pub(crate) fn sort(entries: &mut Vec<Combination>)
    ensures same { IsPermutation entries.old.items entries.new.items }
    ensures order { each_two not_behind entries.new.items ≡ true }
{
    entries.sort_unstable_by(|entry, other| compare(entry, other));
}
