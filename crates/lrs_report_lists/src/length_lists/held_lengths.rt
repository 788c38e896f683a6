//! How many millimetres stretches hold, each once.

ghost use Rattle.std.specs.Prelude.{◌≡◌, ℕ, ◌≤◌, true};
ghost use Rattle.std.specs.List.{list_all};
ghost use Rattle.lrs_measure.specs.Lists.{each_two};
ghost use Rattle.lrs_report_lists.specs.Length.Lengths.{has_left, has_right};
ghost use Rattle.lrs_report_lists.specs.Length.Parts.{begins_by, ends_by, held, longer, reaches};

use crate::length_lists::entries::LengthEntry;
use lrs_events::Side;

/// What is counted: the left side, the right side, or either.
#[derive(Clone, Copy)]
pub(crate) enum Reach {
    Left,
    Right,
    Either,
}

fn has_left(side: Side) -> bool
    ensures { result ≡ has_left side }
{
    match side {
        Side::L | Side::B => true,
        Side::R => false,
    }
}

fn has_right(side: Side) -> bool
    ensures { result ≡ has_right side }
{
    match side {
        Side::R | Side::B => true,
        Side::L => false,
    }
}

fn reaches(reach: Reach, side: Side) -> bool
    ensures { result ≡ reaches reach side }
{
    match reach {
        Reach::Left => has_left(side),
        Reach::Right => has_right(side),
        Reach::Either => true,
    }
}

/// How many millimetres stretches hold so far, and where the last of them ends.
#[derive(Clone, Copy)]
pub(crate) struct HeldLength {
    total: u64,
    end: u64,
}

/// One stretch more, which begins no earlier than those before it.
fn longer(counted: HeldLength, entry: &LengthEntry, reach: Reach) -> HeldLength
    requires fits { counted.total ≤ counted.end }
    ensures more { result ≡ longer (reaches reach) counted entry.now }
    ensures fits { result.total ≤ result.end }
{
    if !reaches(reach, entry.side) {
        return counted;
    }
    let new = entry.to.saturating_sub(entry.from.max(counted.end));
    HeldLength {
        total: counted.total + new,
        end: counted.end.max(entry.to),
    }
}

/// How many millimetres stretches hold on the side that is counted, each once. They are in the order of their starts.
pub(crate) fn held_length(entries: &[LengthEntry], reach: Reach) -> u64
    requires order { each_two begins_by entries.now ≡ true }
    ensures { (n : ℕ) → list_all (ends_by n) entries.now ≡ true
        → result ≡ held (reaches reach) entries.now n }
{
    let mut counted = HeldLength { total: 0, end: 0 };
    for entry in entries {
        counted = longer(counted, entry, reach);
    }
    counted.total
}
