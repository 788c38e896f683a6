//! From one linear referencing method to another.

ghost use Rattle.std.specs.Prelude.{◌≡◌, ◌<◌, ◌≤◌, ◌*◌, pos, length, None, Some, IfOk, IfErr, MatchResult};
ghost use Rattle.lrs_measure.specs.Fraction.{IsLowest};
ghost use Rattle.lrs_measure.specs.Limits.{longest_route};
ghost use Rattle.lrs_position.specs.declared.expression.Target.TheVariants.{Abs, Rel, Int};
ghost use Rattle.lrs_position.specs.Translations.{alignment_of, referent_at, chainage_fault, IsExpression, Translates, RoundTrip};

use crate::expression::{Expr, Target};
use crate::location::{PlaceFault, locate};
use crate::name::RefName;
use crate::route::Route;
use lrs_measure::Frac;
use lrs_measure::limits::FINEST;

/// The expression by the target's method that locates a chainage in millimetres.
///
/// # Errors
/// The first that applies of `NoRef`, `TooFine` (a denominator above 10^16) and `OffRoute`.
pub fn express(route: &Route, chainage: Frac, target: Target) -> Result<Expr, PlaceFault>
    ensures { IsExpression (alignment_of route.now)
        (referent_at route.now.refs) chainage target result }
{
    match target {
        Target::Abs => express_measure(route, chainage),
        Target::Rel(name) => express_distance(route, chainage, name),
        Target::Int => express_proportion(route, chainage),
    }
}

/// The numerator of a distance that is on a linear element of this length and not too fine.
pub(crate) fn checked_along(length: u64, distance: Frac) -> Result<u128, PlaceFault>
    requires { length ≤ longest_route }
    ensures ok { IfOk result (λ n. (chainage_fault length distance ≡ None) × (distance.num ≡ pos n)
        × (n ≤ length * distance.den) × (distance.den ≤ FINEST)) }
    ensures err { IfErr result (λ fault. chainage_fault length distance ≡ Some fault) }
    ensures lowest { IsLowest distance }
{
    let num = distance.num();
    let den = distance.den();
    if den > FINEST {
        return Err(PlaceFault::TooFine);
    }
    if num < 0 || num as u128 > u128::from(length) * den {
        return Err(PlaceFault::OffRoute);
    }
    Ok(num as u128)
}

/// The numerator of a chainage that is on the route and not too fine.
fn checked(route: &Route, chainage: Frac) -> Result<u128, PlaceFault>
    ensures ok { IfOk result (λ n. (chainage_fault (length route.now.course) chainage ≡ None)
        × (chainage.num ≡ pos n) × (n ≤ length route.now.course * chainage.den)
        × (chainage.den ≤ FINEST)) }
    ensures err { IfErr result (λ fault. chainage_fault (length route.now.course) chainage
        ≡ Some fault) }
    ensures lowest { IsLowest chainage }
{
    checked_along(route.length(), chainage)
}

/// The measure at a chainage.
fn express_measure(route: &Route, chainage: Frac) -> Result<Expr, PlaceFault>
    ensures { IsExpression (alignment_of route.now)
        (referent_at route.now.refs) chainage Abs result }
{
    // For the prover alone: what its contract says is known from here on.
    let _length = route.length();
    match checked(route, chainage) {
        Err(fault) => Err(fault),
        Ok(_) => match route.marks.measure_at(chainage) {
            Some(measure) => Ok(Expr::Abs(measure)),
            None => Err(PlaceFault::OffRoute),
        },
    }
}

/// The distance of a chainage from a referent.
fn express_distance(route: &Route, chainage: Frac, name: RefName) -> Result<Expr, PlaceFault>
    ensures { IsExpression (alignment_of route.now) (referent_at route.now.refs) chainage
        (Rel name) result }
{
    match route.referent(name) {
        None => Err(PlaceFault::NoRef),
        Some(at) => match checked(route, chainage) {
            Err(fault) => Err(fault),
            Ok(n) => {
                let den = chainage.den();
                let from = at as u128 * den;
                match Frac::new(n as i128 - from as i128, den) {
                    Some(distance) => Ok(Expr::Rel(name, distance)),
                    None => Err(PlaceFault::OffRoute),
                }
            }
        },
    }
}

/// The proportion of the route's length at a chainage.
fn express_proportion(route: &Route, chainage: Frac) -> Result<Expr, PlaceFault>
    ensures { IsExpression (alignment_of route.now)
        (referent_at route.now.refs) chainage Int result }
{
    match checked(route, chainage) {
        Err(fault) => Err(fault),
        Ok(n) => {
            let whole = chainage.den() * route.length() as u128;
            match Frac::new(n as i128, whole) {
                Some(proportion) => Ok(Expr::Int(proportion)),
                None => Err(PlaceFault::OffRoute),
            }
        }
    }
}

/// The expression by the target's method that locates what the given one locates.
///
/// # Errors
/// Those of `locate`, and then those of `express`.
pub fn translate(route: &Route, expression: Expr, target: Target) -> Result<Expr, PlaceFault>
    ensures answer { Translates (alignment_of route.now)
        (referent_at route.now.refs) expression target result }

    // An entered expression comes back from each translation.
    ensures round_trip { RoundTrip (alignment_of route.now)
        (referent_at route.now.refs) expression target result }
{
    match locate(route, expression) {
        Ok(chainage) => express(route, chainage, target),
        Err(fault) => Err(fault),
    }
}
