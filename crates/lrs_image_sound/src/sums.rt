//! How many places of an asset parts have.

ghost use Rattle.std.specs.Prelude.{IsTrue, ◌↔◌, ◌≡◌, ℕ, ◌+◌, ◌-◌, ◌<◌, ◌≤◌, length, slice_index_or};
ghost use Rattle.std.specs.Bool.{OnTrue, OnFalse};
ghost use Rattle.lrs_events.specs.declared.part.Part.{Part};
ghost use Rattle.lrs_machine.specs.Sound.{pairs_of};
ghost use Rattle.lrs_image_sound.specs.SweptParts.{IsInOrder};

use lrs_events::Part;

fn places(part: &Part) -> u64
    ensures { result ≡ part.now.to - part.now.from }
{
    u64::from(part.to.saturating_sub(part.from))
}

// What is summed of the part's asset so far.
fn carried(part: &Part, last: u64, sum: u64) -> u64
    ensures same { part.now.asset ≡ last → result ≡ sum }
    ensures other { (part.now.asset ≡ last → ⊥) → result ≡ 0 }
{
    if part.asset == last { sum } else { 0 }
}

/// Whether parts in the order of their lines have at most this many places of each asset.
fn sums_are_within(sorted: &[Part], most: u64) -> bool
    requires order { (k : ℕ) (d : Part) → k + 1 < length sorted.now
        → IsInOrder (slice_index_or sorted.now k d) (slice_index_or sorted.now (k + 1) d) }
    ensures within { OnTrue result ((asset : ℕ) → pairs_of asset sorted.now ≤ most) }
    ensures beyond { OnFalse result ((asset : ℕ) × (most < pairs_of asset sorted.now)) }
{
    let mut last = 0;
    let mut sum = 0;
    for part in sorted {
        let before = carried(part, last, sum);
        let more = places(part);
        if more > most - before {
            return false;
        }
        last = part.asset;
        sum = before + more;
    }
    true
}

/// Whether parts in the order of their lines have at most this many places of each asset.
pub(crate) fn have_few_places(sorted: &[Part], most: u64) -> bool
    requires order { (k : ℕ) (d : Part) → k + 1 < length sorted.now
        → IsInOrder (slice_index_or sorted.now k d) (slice_index_or sorted.now (k + 1) d) }
    ensures { IsTrue result ↔ ((asset : ℕ) → pairs_of asset sorted.now ≤ most) }
{
    sums_are_within(sorted, most)
}
