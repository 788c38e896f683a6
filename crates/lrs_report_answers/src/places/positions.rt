//! A chainage of a route as position expressions: by each method, and from each referent.

ghost use Rattle.std.specs.Prelude.{◌≡◌, ◌≤◌, false, length, IfOk};
ghost use Rattle.std.specs.List.{AllZip};
ghost use Rattle.lrs_position.specs.Translations.{misses_referent, referent_at};
ghost use Rattle.lrs_report_answers.specs.Place.Answers.{IsPosition, targets_of};

use lrs_measure::{Frac, Rows};
use lrs_position::{Expr, Route, Target, express};
use std::alloc::{AllocError, Global};

/// The position of a chainage of a route by a method, for the relative one from a referent of the route.
pub(crate) fn position_by(route: &Route, chainage: u64, target: Target) -> Expr
    requires on_route { chainage ≤ length route.now.course }
    requires known { misses_referent (referent_at route.now.refs) target ≡ false }
    ensures { IsPosition route.now chainage target result }
{
    // For the prover alone: what its contract says is known from here on.
    let _length = route.length();
    match express(route, Frac::of_whole(chainage as i64), target) {
        Ok(position) => position,
        Err(_) => unreachable!(),
    }
}

/// The positions of a chainage of a route by each method, and from each referent in the order in which the route keeps them.
pub(crate) fn positions_of(
    alloc: Global,
    route: &Route,
    chainage: u64,
) -> Result<Rows<Expr>, AllocError>
    requires on_route { chainage ≤ length route.now.course }
    ensures { IfOk result (AllZip (IsPosition route.now chainage) (targets_of route.now.refs)) }
{
    let mut positions = Vec::new(alloc);
    positions.push(position_by(route, chainage, Target::Abs))?;
    positions.push(position_by(route, chainage, Target::Int))?;
    for referent in route.refs.as_slice() {
        positions.push(position_by(route, chainage, Target::Rel(referent.name)))?;
    }
    Ok(Rows::from_vec(positions))
}
