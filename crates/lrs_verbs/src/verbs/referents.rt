//! Plans by which referents of one route change, and nothing else.

ghost use Rattle.std.specs.Prelude.{◌≡◌, ◌∷◌, [], IfOk};
ghost use Rattle.lrs_verbs.specs.RouteReferents.{plan_of_referents};

use lrs_image::{ReferentChange, RouteChange, RouteKeys};
use lrs_inventory::{Plan, ReferentPlaces};
use lrs_measure::Rows;
use lrs_position::{RefName, Referent, RouteName};
use std::alloc::{AllocError, Global};

/// The plan by which referents of this route change, and where they then stand.
pub fn plan_of_referents(
    alloc: Global,
    route: RouteName,
    refs: ReferentChange,
    places: ReferentPlaces,
) -> Plan
    ensures { result ≡ plan_of_referents route refs places }
{
    let mut plan = Plan::none(alloc);
    plan.difference.changed = Some(RouteChange {
        route,
        name: route,
        keys: RouteKeys::none(alloc),
        course: None,
        marks: None,
        refs,
        spans_gone: Rows::new(alloc),
        spans_come: Rows::new(alloc),
    });
    plan.referents = places;
    plan
}

/// This name alone.
pub fn one_name(alloc: Global, name: RefName) -> Result<Rows<RefName>, AllocError>
    ensures { IfOk result (λ names. names ≡ name ∷ []) }
{
    let names = Vec::from_slice(alloc, &[name])?;
    Ok(Rows::from_vec(names))
}

/// This referent alone.
pub fn one_referent(alloc: Global, referent: Referent) -> Result<Rows<Referent>, AllocError>
    ensures { IfOk result (λ referents. referents ≡ referent ∷ []) }
{
    let referents = Vec::from_slice(alloc, &[referent])?;
    Ok(Rows::from_vec(referents))
}
