//! A route becomes two.

ghost use Rattle.std.specs.Prelude.{◌≡◌, ◌≤◌, IsTrue, IfOk, map, true, length, nat_eq};
ghost use Rattle.std.specs.List.{list_any};
ghost use Rattle.lrs_inventory.specs.Prelude.{are_rows, is_route, IsPlan};
ghost use Rattle.lrs_events.specs.Changes.{changed_rows};
ghost use Rattle.lrs_events.specs.Row.Cuts.{IsCut};
ghost use Rattle.lrs_element.specs.Marks.{is_inner_mark};
ghost use Rattle.lrs_machine.specs.declared.command.Command.TheVariants as verb;
ghost use Rattle.lrs_image_laws.specs.Splits.{back_by};
ghost use Rattle.lrs_verbs.specs.RouteVerbs.Checks.{split_plan};
ghost use Rattle.lrs_verbs.specs.RouteVerbs.Splits.{is_inside, refs_behind, IsHalved};
ghost use Rattle.lrs_inventory.specs.Plans.{Plans};

use lrs_element::{Course, Mark, Marks, Piece};
use lrs_events::rows::cuts::Cut;
use lrs_events::{SpanChange, Spans};
use lrs_image::{ReferentChange, RouteChange};
use lrs_inventory::checks::route_named;
use lrs_inventory::route_changes::{changed, pieces_of, rerouted};
use lrs_inventory::{GroundChange, Inventory, Plan, Stop, refuse_if};
use lrs_machine::{Cause, RouteRow};
use lrs_measure::Rows;
use lrs_position::{RefName, Referent, Route, RouteName};
use std::alloc::{AllocError, Global};

/// What a split of a route would change of an inventory.
///
/// # Errors
/// The first check of the verb that fails, or lack of memory.
pub fn plan_split(
    alloc: Global,
    inventory: &Inventory,
    route: RouteName,
    at: u64,
    name: RouteName,
) -> Result<Plan, Stop>
    ensures { Plans (verb.Split route at name) inventory.now result }
{
    inventory.prove_sound();
    let route_row = route_named(inventory, &route)?;
    let is_known = inventory.route(&name).is_some();
    refuse_if(is_known, Cause::RouteKnown)?;
    let len = route_row.route.course.len();
    let is_inner = is_inside(len, route_row.route.marks.list(), at);
    refuse_if(!is_inner, Cause::NoMark)?;
    let halves = cut_route(alloc, route_row, at, name)?;
    let Ok(passed) = pieces_of(alloc, &halves.rear.route.course) else {
        // As a call, the drop is one step to prove, and not one for each part.
        drop(halves);
        return Err(Stop::Memory);
    };
    Ok(split_plan(alloc, name, halves, passed))
}

/// Whether a mark stands at a chainage inside a course of this length.
fn is_inside(len: u64, marks: &[Mark], at: u64) -> bool
    ensures { result ≡ is_inside len marks.now at }
{
    0 < at && at < len && has_mark(marks, at)
}

/// Whether a mark stands at a chainage.
fn has_mark(marks: &[Mark], at: u64) -> bool
    ensures { result ≡ list_any (λ mark. nat_eq mark.chainage at) marks.now }
{
    marks.iter().any(|mark| mark.chainage == at)
}

/// What becomes of a route, and its rear as a route of its own.
#[derive(Drop)]
struct Halves {
    front: RouteChange,
    rear: RouteRow,
}

/// The parts of a route at an inner mark.
fn cut_route(
    alloc: Global,
    route_row: &RouteRow,
    at: u64,
    name: RouteName,
) -> Result<Halves, AllocError>
    requires inner { IsTrue (is_inner_mark route_row.now.route.marks at) }
    requires inside { at ≤ length route_row.now.route.course }
    ensures { IfOk result (λ halves. IsHalved route_row.now at name halves) }
{
    let route = &route_row.route;
    let old = route.refs.as_slice();
    // What owns most is made last, so that it is dropped in few places.
    let names = names_behind(alloc, old, at)?;
    let refs = refs_behind(alloc, old, at)?;
    let (marks, rear_marks) = route.marks.cut(at)?;
    let (course, rear_course) = route.course.cut(at)?;
    let CutRows { spans, change } = cut_rows(alloc, &route_row.spans, at)?;
    // Neither is too long.
    let _len = course.len();
    let _rear_len = rear_course.len();
    let moved = ReferentChange {
        gone: names,
        come: Rows::new(alloc),
    };
    let front = changed(alloc, route.name, Some(course), Some(marks), moved, change);
    let route = rear_route(name, rear_course, rear_marks, refs);
    Ok(Halves {
        front,
        rear: RouteRow { route, spans },
    })
}

/// The rows of a rear, and the change that leaves those before it.
#[derive(Drop)]
struct CutRows {
    spans: Spans,
    change: SpanChange,
}

/// The rows of a route at a chainage.
fn cut_rows(alloc: Global, spans: &Spans, at: u64) -> Result<CutRows, AllocError>
    ensures plan { IfOk result (λ cut. IsPlan spans.now cut.change) }
    ensures rear { IfOk result (λ cut. IsTrue (are_rows cut.spans)) }
    ensures cut { IfOk result (λ cut. IsCut at spans.now
        (changed_rows cut.change spans.now) cut.spans) }
{
    let Cut { rear, change } = spans.plan_cut(alloc, at)?;
    let spans = Spans::of_rows(alloc, rear)?;
    Ok(CutRows { spans, change })
}

/// A route of these parts, which fit.
fn rear_route(name: RouteName, course: Course, marks: Marks, refs: Rows<Referent>) -> Route
    requires fit { is_route course marks refs ≡ true }
    ensures name { result.name ≡ name }
    ensures course { result.course ≡ course }
    ensures marks { result.marks ≡ marks }
    ensures refs { result.refs ≡ refs }
{
    Route {
        name,
        course,
        marks,
        refs,
    }
}

/// The referents behind a place, counted from there.
fn refs_behind(alloc: Global, refs: &[Referent], at: u64) -> Result<Rows<Referent>, AllocError>
    ensures { IfOk result (λ out. out ≡ map (back_by at) (refs_behind at refs.now)) }
{
    let mut out = Vec::new(alloc);
    for referent in refs {
        if at <= referent.at {
            out.push(Referent {
                name: referent.name,
                at: referent.at - at,
            })?;
        }
    }
    Ok(Rows::from_vec(out))
}

/// The names of the referents behind a place.
pub fn names_behind(alloc: Global, refs: &[Referent], at: u64) -> Result<Rows<RefName>, AllocError>
    ensures { IfOk result (λ out. out ≡ map (λ q. q.name) (refs_behind at refs.now)) }
{
    let mut out = Vec::new(alloc);
    for referent in refs {
        if at <= referent.at {
            out.push(referent.name)?;
        }
    }
    Ok(Rows::from_vec(out))
}

/// The plan by which a route becomes two, and the ground of its rear passes to the new one.
fn split_plan(alloc: Global, name: RouteName, halves: Halves, passed: Rows<Piece>) -> Plan
    ensures { result ≡ split_plan name halves passed }
{
    let Halves { front, rear } = halves;
    let mut plan = rerouted(alloc, front, Some(rear));
    plan.ground = Some(GroundChange {
        route: name,
        gone: Rows::new(alloc),
        passed,
        come: Rows::new(alloc),
    });
    plan
}
