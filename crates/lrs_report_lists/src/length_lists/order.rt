//! Stretches by class, value and start.

ghost use Rattle.std.specs.Prelude.{◌≡◌, true};
ghost use Rattle.std.specs.Ordering.{is_lt};
ghost use Rattle.std.specs.List.Sorted.{IsPermutation};
ghost use Rattle.lrs_measure.specs.Lists.{each_two};
ghost use Rattle.lrs_report_lists.specs.Length.Lengths.{key_before};
ghost use Rattle.lrs_report_lists.specs.Length.Parts.{entry_before, is_entry_of, not_behind};

use crate::length_lists::entries::LengthEntry;
use std::cmp::Ordering;

/// Whether a stretch is of the class and the value of another.
pub(crate) fn is_of(entry: &LengthEntry, other: &LengthEntry) -> bool
    ensures { result ≡ is_entry_of other.now.class other.now.value entry.now }
{
    entry.class == other.class && entry.value == other.value
}

fn is_of_earlier(entry: &LengthEntry, other: &LengthEntry) -> bool
    ensures { result ≡ key_before entry.now.class entry.now.value other.now.class other.now.value }
{
    entry.class < other.class || (entry.class == other.class && entry.value < other.value)
}

fn comes_before(entry: &LengthEntry, other: &LengthEntry) -> bool
    ensures { result ≡ entry_before entry.now other.now }
{
    is_of_earlier(entry, other) || (is_of(entry, other) && entry.from < other.from)
}

/// How the two lie in the order, as a sort asks it.
fn compare(entry: &LengthEntry, other: &LengthEntry) -> Ordering
    ensures { is_lt result ≡ entry_before entry.now other.now }
{
    if comes_before(entry, other) {
        Ordering::Less
    } else if comes_before(other, entry) {
        Ordering::Greater
    } else {
        Ordering::Equal
    }
}

/// Sorts stretches by class, value and start. It takes no memory.
pub(crate) fn sort(entries: &mut Vec<LengthEntry>)
    ensures same { IsPermutation entries.old.items entries.new.items }
    ensures order { each_two not_behind entries.new.items ≡ true }
{
    entries.sort_unstable_by(|entry, other| compare(entry, other));
}
