//! What a stretch of a route has on its two sides, as entries.

ghost use Rattle.std.specs.Prelude.{◌≡◌, ◌++◌, ◌∷◌, [], OnOk};
ghost use Rattle.lrs_machine.specs.Segments.{same_values};
ghost use Rattle.lrs_report_answers.specs.CombinationParts.{entries_over, entry_of};

use crate::combinations::Combination;
use lrs_machine::Segment;
use std::alloc::{AllocError, Global};

fn have_same_values(left: &Segment, right: &Segment) -> bool
    ensures { result ≡ same_values left.now.values right.now.values }
{
    left.values.as_slice() == right.values.as_slice()
}

fn push_entry(
    alloc: Global,
    entries: &mut Vec<Combination>,
    segment: &Segment,
    left: u64,
    right: u64,
    length: u64,
) -> Result<(), AllocError>
    ensures { OnOk result (entries.new.items ≡ entries.old.items
        ++ entry_of segment.now.values left right length ∷ []) }
{
    let values = segment.values.copy(alloc)?;
    entries.push(Combination {
        values,
        left,
        right,
        length,
    })?;
    Ok(())
}

/// Adds so many millimetres that have the values of these segments on the left side and on the right one.
pub(crate) fn push_stretch(
    alloc: Global,
    entries: &mut Vec<Combination>,
    left: &Segment,
    right: &Segment,
    length: u64,
) -> Result<(), AllocError>
    ensures { OnOk result (entries.new.items ≡ entries.old.items
        ++ entries_over left.now.values right.now.values length) }
{
    if have_same_values(left, right) {
        return push_entry(alloc, entries, left, length, length, length);
    }
    push_entry(alloc, entries, left, length, 0, length)?;
    push_entry(alloc, entries, right, 0, length, length)
}
