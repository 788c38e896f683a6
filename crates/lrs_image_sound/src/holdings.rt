//! What the rows of routes hold, as parts of links.

ghost use Rattle.std.specs.Prelude.{IfOk};
ghost use Rattle.std.specs.List.{AllByRecursion};
ghost use Rattle.lrs_image_sound.specs.SweptParts.{IsFilled};
ghost use Rattle.lrs_image_sound.specs.HeldParts.{AreOfRoute, AreOfRoutes};
ghost use Rattle.lrs_image_sound.specs.Tables.{route_spans};

use lrs_events::{Part, parts};
use lrs_machine::RouteRow;
use std::alloc::{AllocError, Global};

/// The parts that the rows of a route hold.
fn route_parts(alloc: Global, route_row: &RouteRow) -> Result<Vec<Part>, AllocError>
    ensures filled { IfOk result (λ parts. AllByRecursion IsFilled parts.items) }
    ensures held { IfOk result (λ parts.
        AreOfRoute route_row.now.route.course route_row.now.spans parts.items) }
{
    parts(alloc, 0, route_row.spans.rows(), &route_row.route.course)
}

/// The parts that the rows of all routes hold.
pub(crate) fn held_parts(alloc: Global, routes: &[RouteRow]) -> Result<Vec<Part>, AllocError>
    ensures filled { IfOk result (λ held. AllByRecursion IsFilled held.items) }
    ensures held { IfOk result (λ held. AreOfRoutes (route_spans routes.now) held.items) }
{
    let mut held = Vec::new(alloc);
    for route_row in routes {
        let parts = route_parts(alloc, route_row)?;
        held.extend_from_slice(&parts)?;
    }
    Ok(held)
}
