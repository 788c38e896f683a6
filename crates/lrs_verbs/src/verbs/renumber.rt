//! Another name for a route.

ghost use Rattle.std.specs.Prelude.{◌≡◌};
ghost use Rattle.lrs_machine.specs.declared.command.Command.TheVariants as verb;
ghost use Rattle.lrs_verbs.specs.Renumberings.{renumbered};
ghost use Rattle.lrs_inventory.specs.Plans.{Plans};

use lrs_element::Piece;
use lrs_image::RouteKeys;
use lrs_inventory::checks::route_named;
use lrs_inventory::route_changes::{keys_on, no_change, pieces_of, rerouted};
use lrs_inventory::{GroundChange, Inventory, Plan, Stop, refuse_if};
use lrs_machine::Cause;
use lrs_measure::Rows;
use lrs_position::RouteName;
use std::alloc::Global;

/// What another name of a route would change of an inventory.
///
/// # Errors
/// The first check of the verb that fails, or lack of memory.
pub fn plan_renumber(
    alloc: Global,
    inventory: &Inventory,
    route: RouteName,
    name: RouteName,
) -> Result<Plan, Stop>
    ensures { Plans (verb.Renumber route name) inventory.now result }
{
    inventory.prove_sound();
    let route_row = route_named(inventory, &route)?;
    let is_known = inventory.route(&name).is_some();
    refuse_if(is_known, Cause::RouteKnown)?;
    let passed = pieces_of(alloc, &route_row.route.course)?;
    let keys = keys_on(alloc, route_row)?;
    Ok(renumbered(alloc, route, name, keys, passed))
}

/// The plan by which a route gets this name with what lies on it, and its ground passes to it.
fn renumbered(
    alloc: Global,
    route: RouteName,
    name: RouteName,
    keys: RouteKeys,
    passed: Rows<Piece>,
) -> Plan
    ensures { result ≡ renumbered route name keys passed }
{
    let mut change = no_change(alloc, route);
    change.name = name;
    change.keys = keys;
    let mut plan = rerouted(alloc, change, None);
    plan.ground = Some(GroundChange {
        route: name,
        gone: Rows::new(alloc),
        passed,
        come: Rows::new(alloc),
    });
    plan
}
