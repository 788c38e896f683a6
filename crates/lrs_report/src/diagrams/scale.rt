//! Where chainages stand on the page.

ghost use Rattle.std.specs.Prelude.{◌≡◌, ◌<◌, ◌≤◌, nat_le};
ghost use Rattle.std.specs.List.{find};
ghost use Rattle.lrs_measure.specs.Limits.{longest_route};

/// Lengths in millimetres that look well between the ticks of an axis.
const STEPS: [u64; 28] = [
    1,
    2,
    5,
    10,
    20,
    50,
    100,
    200,
    500,
    1_000,
    2_000,
    5_000,
    10_000,
    20_000,
    50_000,
    100_000,
    200_000,
    500_000,
    1_000_000,
    2_000_000,
    5_000_000,
    10_000_000,
    20_000_000,
    50_000_000,
    100_000_000,
    200_000_000,
    500_000_000,
    1_000_000_000,
];

const LONGEST_STEP: u64 = 1_000_000_000;

/// The first of these numbers that is no less than the least.
fn first_from(numbers: &[u64], least: u64) -> Option<u64>
    ensures { result ≡ find (nat_le least) numbers.now }
{
    for number in numbers {
        if least <= *number {
            return Some(*number);
        }
    }
    None
}

/// The stretch of a route that a diagram shows, from a chainage to another in millimetres.
#[derive(Clone, Copy, PartialEq, Eq)]
pub struct Scale {
    pub from: u64,
    pub to: u64,
    pub ghost ordered: { from < to },
    pub ghost longest: { to ≤ longest_route },
}

impl Scale {
    ghost use Rattle.std.specs.Prelude.{◌≡◌};
    ghost use Rattle.lrs_report.specs.Drawings.Scales.{bar_of, has_place, step_of, width_of, x_at};

    /// Where a chainage stands; one before the stretch stands at its start, and one behind it at its end.
    pub(crate) fn x_at(self, chainage: u64) -> u64
        ensures { result ≡ x_at self chainage }
    {
        let behind = chainage.min(self.to).saturating_sub(self.from);
        1_000 + behind * 10_000 / (self.to - self.from)
    }

    /// How wide a stretch is drawn: a unit at least, so that it can be seen.
    pub(crate) fn width_of(self, from: u64, to: u64) -> u64
        ensures { result ≡ width_of self from to }
    {
        self.x_at(to).saturating_sub(self.x_at(from)).max(1)
    }

    /// Whether a chainage stands in the stretch or at its ends.
    pub(crate) fn has_place(self, chainage: u64) -> bool
        ensures { result ≡ has_place self chainage }
    {
        self.from <= chainage && chainage <= self.to
    }

    /// How far the ticks of the axis are from each other, in millimetres: there are ten of them or fewer steps.
    pub(crate) fn step(self) -> u64
        ensures { result ≡ step_of self }
    {
        match first_from(&STEPS, (self.to - self.from + 9) / 10) {
            Some(step) => step,
            None => LONGEST_STEP,
        }
    }

    /// How long a step is on the page.
    pub(crate) fn bar(self) -> u64
        ensures { result ≡ bar_of self }
    {
        self.step() * 10_000 / (self.to - self.from)
    }
}
