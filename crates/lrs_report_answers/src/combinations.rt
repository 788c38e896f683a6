//! How much of the routes has each combination of the values of exclusive classes.

mod entries;
mod order;
mod sides;
mod stretches;
mod table;

ghost use Rattle.std.specs.Prelude.{◌≡◌, Err, None, IfOk};
ghost use Rattle.lrs_events.specs.declared.side.Side.TheVariants.{L};
ghost use Rattle.lrs_machine.specs.Image.{state_of};
ghost use Rattle.lrs_machine.specs.Segments.{segment_fault};
ghost use Rattle.lrs_report_answers.specs.Combinations.{AreCombinations, AreCombinationsOf};
ghost use Rattle.lrs_report_answers.specs.RouteSegments.{class_list};

use crate::AskFault;
use crate::class_faults::class_fault;
use crate::combinations::entries::wanted_entries;
use crate::combinations::order::sort;
use crate::combinations::table::table_of;
use lrs_events::{ClassName, Value};
use lrs_inventory::Inventory;
use lrs_machine::Missing;
use lrs_measure::Rows;
use lrs_position::RouteName;
use lrs_report_lists::lacks_route;
use std::alloc::{AllocError, Global};

/// How much of the routes has these values of the classes that are asked for, a value or none of each, in millimetres: on the
/// left side, on the right side, and on either side, each millimetre of a route once. Sides are seen along the route.
#[derive(Drop)]
pub struct Combination {
    pub values: Rows<Option<Value>>,
    pub left: u64,
    pub right: u64,
    pub length: u64,
}

/// The combinations of classes that are there and exclusive.
fn all_combinations(
    alloc: Global,
    inventory: &Inventory,
    route: Option<RouteName>,
    classes: &[ClassName],
) -> Result<Rows<Combination>, AllocError>
    requires exclusive { segment_fault (class_list (state_of inventory.now)) classes.now L ≡ None }
    ensures { IfOk result (AreCombinations inventory.now route classes.now) }
{
    inventory.prove_sound();
    let mut entries = wanted_entries(alloc, inventory, route, classes)?;
    sort(&mut entries);
    table_of(alloc, &entries)
}

/// The combinations of the values of exclusive classes that some millimetre has on some side, on one route or on all, with their
/// lengths. They are in the order of the values of the first class, then of the second and so on: none, and then by bytes.
///
/// It goes once along both sides of each route, copies the values of each stretch over which neither side changes, and sorts
/// them: time and memory grow with these stretches, not with the millimetres.
///
/// # Errors
/// `Missing(Route)`, then `Seg` of the first class that is not there (`NoClass`), else of the first that is not exclusive
/// (`NotExclusive`), each by its place in `classes`, and `Memory`.
pub fn combinations(
    alloc: Global,
    inventory: &Inventory,
    route: Option<RouteName>,
    classes: &[ClassName],
) -> Result<Rows<Combination>, AskFault>
    ensures answer { AreCombinationsOf inventory.now route classes.now result }
    ensures never { result ≡ Err AskFault.MustReopen → ⊥ }
{
    inventory.prove_sound();
    if lacks_route(inventory.kept(), route) {
        return Err(AskFault::Missing(Missing::Route));
    }
    if let Some(fault) = class_fault(inventory, classes) {
        return Err(AskFault::Seg(fault));
    }
    Ok(all_combinations(alloc, inventory, route, classes)?)
}
