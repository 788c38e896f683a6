//! A route goes, with what lies on it.

ghost use Rattle.std.specs.Prelude.{◌≡◌};
ghost use Rattle.lrs_machine.specs.declared.command.Command.TheVariants as verb;
ghost use Rattle.lrs_verbs.specs.Closings.{closing};
ghost use Rattle.lrs_inventory.specs.Plans.{Plans};

use lrs_element::Piece;
use lrs_events::Gone;
use lrs_image::RouteKeys;
use lrs_image_laws::taken_away;
use lrs_inventory::checks::route_named;
use lrs_inventory::route_changes::{keys_on, names_of, pieces_of};
use lrs_inventory::{GroundChange, Inventory, Plan, Stop};
use lrs_measure::Rows;
use lrs_position::{RefName, RouteName};
use std::alloc::{AllocError, Global};

/// What a close of a route would change of an inventory.
///
/// # Errors
/// The first check of the verb that fails, or lack of memory.
pub fn plan_close(alloc: Global, inventory: &Inventory, route: RouteName) -> Result<Plan, Stop>
    ensures { Plans (verb.Close route) inventory.now result }
{
    inventory.prove_sound();
    let route_row = route_named(inventory, &route)?;
    let edit = inventory.edits() + 1;
    let course = &route_row.route.course;
    let gone = taken_away(alloc, edit, route_row.spans.rows(), course, true)?;
    let freed = pieces_of(alloc, course)?;
    let names = names_of(alloc, route_row.route.refs.as_slice())?;
    let keys = keys_on(alloc, route_row)?;
    Ok(closing(alloc, route, keys, gone, freed, names))
}

/// The plan by which a route goes: its ground is free, and its referents stand nowhere any more.
fn closing(
    alloc: Global,
    route: RouteName,
    keys: RouteKeys,
    gone: Rows<Gone>,
    freed: Rows<Piece>,
    names: Rows<RefName>,
) -> Plan
    ensures { result ≡ closing route keys gone freed names }
{
    let mut plan = Plan::none(alloc);
    plan.difference.dropped = Some(route);
    plan.difference.keys = keys;
    plan.difference.gone = gone;
    plan.ground = Some(GroundChange {
        route,
        gone: freed,
        passed: Rows::new(alloc),
        come: Rows::new(alloc),
    });
    plan.referents.gone = names;
    plan
}
