//! Other marks for a route.

ghost use Rattle.std.specs.Prelude.{◌≡◌};
ghost use Rattle.lrs_machine.specs.declared.command.Command.TheVariants as verb;
ghost use Rattle.lrs_verbs.specs.RouteVerbs.Checks.{recalibrated};
ghost use Rattle.lrs_inventory.specs.Plans.{Plans};

use lrs_element::{Mark, Marks};
use lrs_inventory::checks::{new_marks, route_named};
use lrs_inventory::route_changes::{no_change, rerouted};
use lrs_inventory::{Inventory, Plan, Stop};
use lrs_position::RouteName;
use std::alloc::Global;

/// What other marks of a route would change of an inventory.
///
/// # Errors
/// The first check of the verb that fails, or lack of memory.
pub fn plan_recalibrate(
    alloc: Global,
    inventory: &Inventory,
    route: RouteName,
    marks: &[Mark],
) -> Result<Plan, Stop>
    ensures { Plans (verb.Recalibrate route marks.now) inventory.now result }
{
    inventory.prove_sound();
    let route_row = route_named(inventory, &route)?;
    let len = route_row.route.course.len();
    let marks = new_marks(alloc, marks, len)?;
    Ok(recalibrated(alloc, route, marks))
}

/// The plan by which a route gets these marks.
fn recalibrated(alloc: Global, route: RouteName, marks: Marks) -> Plan
    ensures { result ≡ recalibrated route marks }
{
    let mut change = no_change(alloc, route);
    change.marks = Some(marks);
    rerouted(alloc, change, None)
}
