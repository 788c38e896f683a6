//! The line that the marks of a route draw (ISO 19148, absolute linear referencing method).

ghost use Rattle.std.specs.Prelude.{◌≡◌, ◌+◌, ◌-◌, ◌*◌, ◌<◌, ◌≤◌, ◌≤ℤ◌, ◌↔◌, ◌⊎◌, pos, length, slice_get, Some, None, IsTrue, IsSome, IfSome, IsSomeAnd, MatchOption};
ghost use Rattle.lrs_measure.specs.Fraction.{IsLowest, IsQuotient};
ghost use Rattle.lrs_measure.specs.Limits.{longest_route, greatest_measure};
ghost use Rattle.lrs_element.specs.Marks.{are_marks, first_mark, last_mark};
ghost use Rattle.lrs_element.specs.Line.{IsReadable, HasMeasure, IsFirstFrom, AreAt, AreRound, IsOutside, chainage_of, measure_of};

use crate::marks::{Mark, Marks, last_mark};
use lrs_measure::Frac;
use lrs_measure::limits::{FINEST, LONGEST_ROUTE};

/// A point of a straight line: a place on one scale, and the value there on the other.
#[derive(Clone, Copy)]
struct Knot {
    place: u64,
    value: u64,
}

/// The numbers of a fraction at which a line can be read: not negative, and not too fine.
fn parts(q: Frac) -> Option<(u128, u128)>
    ensures some { IsSome result ↔ ((q.den ≤ FINEST) × (pos 0 ≤ℤ q.num)) }
    ensures parts { IfSome result (λ p. (q.num ≡ pos p.0) × (q.den ≡ p.1) × (0 < p.1)) }
{
    let num = q.num();
    let den = q.den();
    if num < 0 || den > FINEST {
        return None;
    }
    Some((num as u128, den))
}

/// The value at the place `n / d` of the straight line from one point to another.
fn straight(p: Knot, q: Knot, n: u128, d: u128) -> Option<Frac>
    requires rise { p.place < q.place }
    requires climb { p.value < q.value }
    requires places { q.place ≤ 100_000_000_000 }
    requires values { q.value ≤ 100_000_000_000 }
    requires positive { 0 < d }
    requires fine { d ≤ FINEST }
    requires from { p.place * d ≤ n }
    requires to { n ≤ q.place * d }
    ensures value { IsSomeAnd result (λ v. IsQuotient v
        (pos (p.value * ((q.place - p.place) * d) + (n - p.place * d) * (q.value - p.value)))
        ((q.place - p.place) * d)) }
    ensures lowest { IfSome result (λ v. IsLowest v) }
{
    let width = (q.place - p.place) as u128 * d;
    let above = n - p.place as u128 * d;
    let climb = (q.value - p.value) as u128;
    let value = p.value as u128 * width + above * climb;
    Frac::new(value as i128, width)
}

/// How many marks lie before the chainage `n / d`.
fn chainages_below(marks: &[Mark], n: u128, d: u128) -> usize
    requires marks { IsTrue (are_marks marks.now) }
    requires fine { d ≤ FINEST }
    ensures { IsFirstFrom chainage_of marks.now n d result }
{
    marks.partition_point(|mark| (mark.chainage as u128 * d) < n)
}

/// How many marks have a measure below `n / d`.
fn measures_below(marks: &[Mark], n: u128, d: u128) -> usize
    requires marks { IsTrue (are_marks marks.now) }
    requires fine { d ≤ FINEST }
    ensures { IsFirstFrom measure_of marks.now n d result }
{
    marks.partition_point(|mark| (mark.measure as u128 * d) < n)
}

/// The mark before place `at` of the list and the one at that place; for the first place, the first two.
fn neighbours(marks: &[Mark], at: usize) -> Option<(Mark, Mark)>
    requires { at ≤ length marks.now }
    ensures { MatchOption result ((length marks.now ≤ 1) ⊎ (at ≡ length marks.now)) (λ pair.
        AreAt marks.now at pair.0 pair.1) }
{
    let next = at.max(1);
    if next >= marks.len() {
        return None;
    }
    Some((marks[next - 1], marks[next]))
}

/// The neighbours between which the chainage `n / d` lies.
fn round_chainage(marks: &[Mark], n: u128, d: u128) -> Option<(Mark, Mark)>
    requires marks { IsTrue (are_marks marks.now) }
    requires short { (last_mark marks.now).chainage ≤ longest_route }
    requires fine { d ≤ FINEST }
    ensures { MatchOption result (IsOutside chainage_of marks.now n d) (λ pair.
        AreRound chainage_of marks.now n d pair.0 pair.1) }
{
    let at = chainages_below(marks, n, d);
    match neighbours(marks, at) {
        None => None,
        Some((p, q)) => {
            if n < p.chainage as u128 * d {
                None
            } else {
                Some((p, q))
            }
        }
    }
}

/// The neighbours between which the measure `n / d` lies.
fn round_measure(marks: &[Mark], n: u128, d: u128) -> Option<(Mark, Mark)>
    requires marks { IsTrue (are_marks marks.now) }
    requires short { (last_mark marks.now).chainage ≤ longest_route }
    requires fine { d ≤ FINEST }
    ensures { MatchOption result (IsOutside measure_of marks.now n d) (λ pair.
        AreRound measure_of marks.now n d pair.0 pair.1) }
{
    let at = measures_below(marks, n, d);
    match neighbours(marks, at) {
        None => None,
        Some((p, q)) => {
            if n < p.measure as u128 * d {
                None
            } else {
                Some((p, q))
            }
        }
    }
}

impl Marks {
    /// Whether no route is as long as these marks, so that fractions on their line may not fit.
    fn are_too_long(&self) -> bool
        ensures { IsTrue result ↔ (longest_route < (last_mark self.now).chainage) }
    {
        last_mark(self.list()).chainage > LONGEST_ROUTE
    }

    /// The measure at a chainage in millimetres, exact.
    ///
    /// `None` outside the marks, where the denominator is above 10^16, and on marks that end above
    /// 10,000,000,000 mm, which are of no route.
    pub fn measure_at(&self, chainage: Frac) -> Option<Frac>
        ensures some { (last_mark self.now).chainage ≤ longest_route
            → (IsSome result ↔ IsReadable 0 (last_mark self.now).chainage chainage) }
        ensures none { longest_route < (last_mark self.now).chainage → result ≡ None }
        ensures value { IfSome result (λ measure. HasMeasure self.now chainage measure) }
        ensures lowest { IfSome result (λ measure. IsLowest measure) }
    {
        if self.are_too_long() {
            return None;
        }
        let (n, d) = parts(chainage)?;
        let (p, q) = round_chainage(self.list(), n, d)?;
        straight(
            Knot {
                place: p.chainage,
                value: p.measure,
            },
            Knot {
                place: q.chainage,
                value: q.measure,
            },
            n,
            d,
        )
    }

    /// The chainage in millimetres at a measure, exact.
    ///
    /// `None` outside the marks, where the denominator is above 10^16, and on marks that end above
    /// 10,000,000,000 mm, which are of no route.
    pub fn chainage_at(&self, measure: Frac) -> Option<Frac>
        ensures some { (last_mark self.now).chainage ≤ longest_route
            → (IsSome result ↔ IsReadable (first_mark self.now).measure
            (last_mark self.now).measure measure) }
        ensures none { longest_route < (last_mark self.now).chainage → result ≡ None }
        ensures value { IfSome result (λ chainage. HasMeasure self.now chainage measure) }
        ensures lowest { IfSome result (λ chainage. IsLowest chainage) }
    {
        if self.are_too_long() {
            return None;
        }
        let (n, d) = parts(measure)?;
        let (p, q) = round_measure(self.list(), n, d)?;
        straight(
            Knot {
                place: p.measure,
                value: p.chainage,
            },
            Knot {
                place: q.measure,
                value: q.chainage,
            },
            n,
            d,
        )
    }
}
