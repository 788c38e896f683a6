//! What routes have on their two sides, as entries that may have the same values.

ghost use Rattle.std.specs.Prelude.{◌≡◌, [], None, Some, map, IfOk, OnOk};
ghost use Rattle.lrs_measure.specs.Lists.{In};
ghost use Rattle.lrs_events.specs.declared.side.Side.TheVariants.{L};
ghost use Rattle.lrs_machine.specs.Image.{state_of};
ghost use Rattle.lrs_machine.specs.Readings.{segments_on};
ghost use Rattle.lrs_machine.specs.Segments.{segment_fault};
ghost use Rattle.lrs_report.specs.Sweep.{run_of};
ghost use Rattle.lrs_report_lists.specs.Lists.{routes_named};
ghost use Rattle.lrs_report_answers.specs.CombinationParts.{Count, CountRoutes};
ghost use Rattle.lrs_report_answers.specs.RouteSegments.{class_list};

use crate::combinations::Combination;
use crate::combinations::sides::{pass_ended, push_next};
use crate::overlay::overlay_segments;
use crate::segmentation::RouteSegments;
use lrs_events::{ClassName, LinkSide};
use lrs_inventory::Inventory;
use lrs_machine::RouteRow;
use lrs_position::RouteName;
use std::alloc::{AllocError, Global};

/// The segments of a side, by classes that are there and exclusive.
fn side_segments<'a>(
    alloc: Global,
    inventory: &'a Inventory,
    route_row: &'a RouteRow,
    classes: &[ClassName],
    side: LinkSide,
) -> Result<RouteSegments<'a>, AllocError>
    requires known { In route_row.now inventory.now.routes }
    requires exclusive { segment_fault (class_list (state_of inventory.now)) classes.now L ≡ None }
    ensures { IfOk result (λ found. map run_of found ≡ segments_on (state_of inventory.now)
        route_row.now.route.course classes.now side) }
{
    match overlay_segments(alloc, inventory, route_row, classes, side) {
        Ok(found) => Ok(found),
        Err(_) => Err(AllocError),
    }
}

/// Adds what a route has on its two sides.
fn push_route(
    alloc: Global,
    entries: &mut Vec<Combination>,
    inventory: &Inventory,
    route_row: &RouteRow,
    classes: &[ClassName],
) -> Result<(), AllocError>
    requires known { In route_row.now inventory.now.routes }
    requires exclusive { segment_fault (class_list (state_of inventory.now)) classes.now L ≡ None }
    ensures { OnOk result (Count (state_of inventory.now) classes.now entries.old.items
        route_row.now.route.course entries.new.items []) }
{
    let mut lefts = side_segments(alloc, inventory, route_row, classes, LinkSide::Left)?;
    let mut rights = side_segments(alloc, inventory, route_row, classes, LinkSide::Right)?;
    let mut at = 0;
    while let Some(left) = lefts.first() {
        at = push_next(alloc, entries, at, left, rights.first())?;
        pass_ended(&mut lefts, at);
        pass_ended(&mut rights, at);
    }
    Ok(())
}

/// What all routes have.
fn all_entries(
    alloc: Global,
    inventory: &Inventory,
    classes: &[ClassName],
) -> Result<Vec<Combination>, AllocError>
    requires exclusive { segment_fault (class_list (state_of inventory.now)) classes.now L ≡ None }
    ensures { IfOk result (λ entries. CountRoutes (state_of inventory.now) classes.now
        entries.items [] inventory.now.routes) }
{
    let mut entries = Vec::new(alloc);
    for route_row in inventory.kept().routes.iter() {
        push_route(alloc, &mut entries, inventory, route_row, classes)?;
    }
    Ok(entries)
}

/// What the route of a name has, if there is one.
fn named_entries(
    alloc: Global,
    inventory: &Inventory,
    name: &RouteName,
    classes: &[ClassName],
) -> Result<Vec<Combination>, AllocError>
    requires exclusive { segment_fault (class_list (state_of inventory.now)) classes.now L ≡ None }
    ensures { IfOk result (λ entries. CountRoutes (state_of inventory.now) classes.now
        entries.items [] (routes_named (Some name.now) inventory.now)) }
{
    inventory.prove_sound();
    let mut entries = Vec::new(alloc);
    match inventory.route(name) {
        Some(route_row) => {
            push_route(alloc, &mut entries, inventory, route_row, classes)?;
            Ok(entries)
        }
        None => Ok(entries),
    }
}

/// What the route of a name has, or what all routes have. A route that is named is found by search.
pub(crate) fn wanted_entries(
    alloc: Global,
    inventory: &Inventory,
    route: Option<RouteName>,
    classes: &[ClassName],
) -> Result<Vec<Combination>, AllocError>
    requires exclusive { segment_fault (class_list (state_of inventory.now)) classes.now L ≡ None }
    ensures { IfOk result (λ entries. CountRoutes (state_of inventory.now) classes.now
        entries.items [] (routes_named route inventory.now)) }
{
    match route {
        Some(name) => named_entries(alloc, inventory, &name, classes),
        None => all_entries(alloc, inventory, classes),
    }
}
