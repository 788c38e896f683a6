//! Where a position expression is on a route.

ghost use Rattle.std.specs.Prelude.{◌≡◌, ℕ, ◌*◌, ◌^◌, ◌<◌, ◌≤◌, ◌≤ℤ◌, ℤ, pos, false, length, min, unsigned_abs, IfOk, IsOkAnd};
ghost use Rattle.std.specs.Option.{ok_or};
ghost use Rattle.lrs_measure.specs.Fraction.{IsLowest, IsQuotient};
ghost use Rattle.lrs_measure.specs.Limits.{longest_route};
ghost use Rattle.lrs_position.specs.declared.expression.Expr.TheVariants.{Abs, Rel, Int};
ghost use Rattle.lrs_position.specs.declared.location.PlaceFault.TheVariants.{OffRoute};
ghost use Rattle.lrs_position.specs.Locations as place;
ghost use Rattle.lrs_position.specs.Locations.{Locates, located_or_fault, is_too_fine, within};
ghost use Rattle.lrs_position.specs.Translations.{alignment_of, referent_at, number_of, IsAnswer, IsOnRoute, LocatesAt};

use crate::expression::Expr;
use crate::name::RefName;
use crate::route::Route;
use lrs_measure::Frac;
use lrs_measure::limits::{FINEST, FINEST_PROPORTION};

/// Why a position expression is refused, in the order of the checks.
#[derive(Clone, Copy, PartialEq, Eq)]
pub enum PlaceFault {
    /// The referent is not on this route.
    NoRef,
    /// A denominator is above 10^16 (absolute and relative method) or 10^21 (interpolative method).
    TooFine,
    /// Outside the marks, outside the route, or a proportion outside 0 to 1.
    OffRoute,
}

/// The chainage in millimetres that a position expression locates on a route, exact.
///
/// # Errors
/// The first that applies of `NoRef`, `TooFine` and `OffRoute`.
pub fn locate(route: &Route, expression: Expr) -> Result<Frac, PlaceFault>
    ensures answer { IsAnswer (located_or_fault (alignment_of route.now)
        (referent_at route.now.refs) expression) result }

    // What is answered is located, and what can be located is answered.
    ensures place { IfOk result (λ x. LocatesAt (alignment_of route.now)
        (referent_at route.now.refs) expression x) }
    ensures found { (x : ℕ × ℕ) → Locates (alignment_of route.now)
        (referent_at route.now.refs) expression x → is_too_fine expression ≡ false
        → IsOkAnd result (λ q. IsQuotient q (pos x.0) x.1) }
    ensures lowest { IfOk result (λ x. IsLowest x) }
    ensures on_route { IfOk result (λ x. IsOnRoute (length route.now.course) x) }

    // How fine a chainage can be, and what the number of the expression is known to be.
    ensures den { IfOk result (λ x. x.den ≤ 10 ^ 27) }
    ensures number { IsLowest (number_of expression) }
{
    match expression {
        Expr::Abs(measure) => locate_measure(route, measure),
        Expr::Rel(name, distance) => locate_distance(route, name, distance),
        Expr::Int(proportion) => locate_proportion(route, proportion),
    }
}

/// The chainage at a measure of the marks.
fn locate_measure(route: &Route, measure: Frac) -> Result<Frac, PlaceFault>
    ensures answer { IsAnswer (located_or_fault (alignment_of route.now)
        (referent_at route.now.refs) (Abs measure)) result }
    ensures number { IsLowest measure }
{
    // For the prover alone: what its contract says is known from here on.
    let _num = measure.num();
    let _length = route.length();
    if measure.den() > FINEST {
        return Err(PlaceFault::TooFine);
    }
    match route.marks.chainage_at(measure) {
        Some(chainage) => Ok(chainage),
        None => Err(PlaceFault::OffRoute),
    }
}

/// The chainage at a distance from a referent.
fn locate_distance(route: &Route, name: RefName, distance: Frac) -> Result<Frac, PlaceFault>
    ensures answer { IsAnswer (located_or_fault (alignment_of route.now)
        (referent_at route.now.refs) (Rel name distance)) result }
    ensures number { IsLowest distance }
{
    let num = distance.num();
    let den = distance.den();
    match route.referent(name) {
        None => Err(PlaceFault::NoRef),
        Some(at) => {
            if den > FINEST {
                Err(PlaceFault::TooFine)
            } else {
                on_route((at as u128 * den) as i128 + num, den, route.length())
            }
        }
    }
}

/// The chainage at a proportion of the route's length.
fn locate_proportion(route: &Route, proportion: Frac) -> Result<Frac, PlaceFault>
    ensures answer { IsAnswer (located_or_fault (alignment_of route.now)
        (referent_at route.now.refs) (Int proportion)) result }
    ensures number { IsLowest proportion }
{
    let num = proportion.num();
    let den = proportion.den();
    let length = route.length();
    if den > FINEST_PROPORTION {
        return Err(PlaceFault::TooFine);
    }
    if num < 0 || num as u128 > den {
        return Err(PlaceFault::OffRoute);
    }
    let along = num as u128 * length as u128;
    match Frac::new(along as i128, den) {
        Some(chainage) => Ok(chainage),
        None => Err(PlaceFault::OffRoute),
    }
}

/// The chainage `n / d`, where it is from 0 to a route's length.
fn on_route(n: i128, d: u128, length: u64) -> Result<Frac, PlaceFault>
    requires positive { 0 < d }
    requires fine { d ≤ FINEST }
    requires longest { length ≤ longest_route }
    ensures { IsAnswer (ok_or (within length n d) OffRoute) result }
{
    if n < 0 || n as u128 > length as u128 * d {
        return Err(PlaceFault::OffRoute);
    }
    match Frac::new(n, d) {
        Some(chainage) => Ok(chainage),
        None => Err(PlaceFault::OffRoute),
    }
}

/// The whole millimetre that an end of a stretch goes to: the nearest one, a half going up.
pub fn snap(chainage: Frac) -> u64
    requires from { pos 0 ≤ℤ chainage.num }
    requires to { chainage.num ≤ℤ pos (longest_route * chainage.den) }
    ensures { result ≡ place.snap (unsigned_abs chainage.num, chainage.den) }
{
    chainage.nearest() as u64
}

/// The millimetre of a route that a point stands in; at the route's end, the last one.
pub fn cell(chainage: Frac, length: u64) -> u64
    requires positive { 0 < length }
    requires from { pos 0 ≤ℤ chainage.num }
    requires to { chainage.num ≤ℤ pos (length * chainage.den) }
    ensures { result ≡ place.cell length (unsigned_abs chainage.num, chainage.den) }
{
    (chainage.floor() as u64).min(length - 1)
}
