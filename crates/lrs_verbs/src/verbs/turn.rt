//! A route runs the other way.

ghost use Rattle.std.specs.Prelude.{◌≡◌, ◌≤◌, IsTrue, IfOk, map, length};
ghost use Rattle.lrs_inventory.specs.Prelude.{end_by, longest_route, IsPlan};
ghost use Rattle.lrs_events.specs.Row.Turns.{IsTurned};
ghost use Rattle.lrs_events.specs.Changes.{changed_rows};
ghost use Rattle.lrs_machine.specs.declared.command.Command.TheVariants as verb;
ghost use Rattle.lrs_image_laws.specs.Turns.{from_end};
ghost use Rattle.lrs_verbs.specs.Turns.{IsTurnedBy};
ghost use Rattle.lrs_inventory.specs.Plans.{Plans};

use lrs_events::rows::change::difference;
use lrs_events::rows::turns::turned;
use lrs_events::{SpanChange, Spans};
use lrs_image::{ReferentChange, RouteChange};
use lrs_inventory::checks::route_named;
use lrs_inventory::route_changes::{changed, names_of, rerouted};
use lrs_inventory::{Inventory, Plan, Stop};
use lrs_machine::RouteRow;
use lrs_measure::Rows;
use lrs_position::{Referent, RouteName};
use std::alloc::{AllocError, Global};

/// What a turn of a route would change of an inventory.
///
/// # Errors
/// The first check of the verb that fails, or lack of memory.
pub fn plan_turn(alloc: Global, inventory: &Inventory, route: RouteName) -> Result<Plan, Stop>
    ensures { Plans (verb.Turn route) inventory.now result }
{
    inventory.prove_sound();
    let route_row = route_named(inventory, &route)?;
    // It runs over its ground as before, and its referents stay where they stand.
    let change = turn_route(alloc, route_row)?;
    Ok(rerouted(alloc, change, None))
}

/// What becomes of a route that is seen from its other end.
fn turn_route(alloc: Global, route_row: &RouteRow) -> Result<RouteChange, AllocError>
    requires { IsTrue (end_by (length route_row.now.route.course) route_row.now.spans) }
    ensures { IfOk result (λ change. IsTurnedBy route_row.now change) }
{
    let route = &route_row.route;
    let len = route.length();
    let marks = route.marks.mirrored()?;
    let refs = turn_refs(alloc, route.refs.as_slice(), len)?;
    let rows = turn_spans(alloc, &route_row.spans, len)?;
    let course = route.course.turned()?;
    // It is not too long from there either.
    let _len = course.len();
    Ok(changed(alloc, route.name, Some(course), Some(marks), refs, rows))
}

/// The removed and the inserted rows where a route of this length is seen from its other end.
fn turn_spans(alloc: Global, spans: &Spans, len: u64) -> Result<SpanChange, AllocError>
    requires ends { IsTrue (end_by len spans.now) }
    requires len { len ≤ longest_route }
    ensures plan { IfOk result (λ change. IsPlan spans.now change) }
    ensures turned { IfOk result (λ change. IsTurned len spans.now
        (changed_rows change spans.now)) }
{
    let rows = spans.rows();
    let turned = turned(alloc, rows, len)?;
    let change = difference(alloc, rows, &turned)?;
    Ok(change)
}

/// All referents go, and come where they are from the other end of a course of this length.
fn turn_refs(alloc: Global, refs: &[Referent], len: u64) -> Result<ReferentChange, AllocError>
    ensures gone { IfOk result (λ change. change.gone ≡ map (λ q. q.name) refs.now) }
    ensures come { IfOk result (λ change. change.come ≡ map (from_end len) refs.now) }
{
    Ok(ReferentChange {
        gone: names_of(alloc, refs)?,
        come: refs_from_end(alloc, refs, len)?,
    })
}

/// The referents of a course of this length, counted from its other end.
fn refs_from_end(alloc: Global, refs: &[Referent], len: u64) -> Result<Rows<Referent>, AllocError>
    ensures { IfOk result (λ out. out ≡ map (from_end len) refs.now) }
{
    // None stands behind the last millimetre.
    let last = len.saturating_sub(1);
    let mut out = Vec::new(alloc);
    for referent in refs {
        out.push(Referent {
            name: referent.name,
            at: last.saturating_sub(referent.at),
        })?;
    }
    Ok(Rows::from_vec(out))
}
