//! A new route.

ghost use Rattle.std.specs.Prelude.{◌≡◌, None, length};
ghost use Rattle.lrs_element.specs.Marks.{bad_mark};
ghost use Rattle.lrs_machine.specs.declared.command.Command.TheVariants as verb;
ghost use Rattle.lrs_inventory.specs.NewRoutes.{IsEntryOf, route_plan};
ghost use Rattle.lrs_inventory.specs.Plans.{Plans};

use lrs_element::{Course, Mark, Marks, Piece};
use lrs_events::Spans;
use lrs_inventory::checks::{check_free, new_marks};
use lrs_inventory::route_changes::pieces_of;
use lrs_inventory::{GroundChange, Inventory, Plan, Stop, refuse_if};
use lrs_machine::{Cause, RouteRow};
use lrs_measure::Rows;
use lrs_position::{Route, RouteName};
use std::alloc::Global;

pub fn plan_route(
    alloc: Global,
    inventory: &Inventory,
    name: RouteName,
    pieces: &[Piece],
    marks: &[Mark],
) -> Result<Plan, Stop>
    ensures { Plans (verb.Route name pieces.now marks.now) inventory.now result }
{
    inventory.prove_sound();
    let is_known = inventory.route(&name).is_some();
    refuse_if(is_known, Cause::RouteKnown)?;
    let course = inventory.course(alloc, pieces)?;
    check_free(inventory, pieces)?;
    let marks = new_marks(alloc, marks, course.len())?;
    let come = pieces_of(alloc, &course)?;
    let route_row = new_entry(alloc, name, course, marks);
    Ok(route_plan(alloc, name, route_row, come))
}

/// A route of this name, course and measure line, on which nothing lies.
fn new_entry(alloc: Global, name: RouteName, course: Course, marks: Marks) -> RouteRow
    requires fit { bad_mark (length course) marks ≡ None }
    ensures { IsEntryOf name course marks result }
{
    // It is not too long.
    let _len = course.len();
    let route = Route {
        name,
        course,
        marks,
        refs: Rows::new(alloc),
    };
    RouteRow {
        route,
        spans: Spans::empty(alloc),
    }
}

/// The plan by which a route comes, with its ground.
fn route_plan(alloc: Global, route: RouteName, route_row: RouteRow, come: Rows<Piece>) -> Plan
    ensures { result ≡ route_plan route route_row come }
{
    let mut plan = Plan::none(alloc);
    plan.ground = Some(GroundChange {
        route,
        gone: Rows::new(alloc),
        passed: Rows::new(alloc),
        come,
    });
    plan.difference.made = Some(route_row);
    plan
}
