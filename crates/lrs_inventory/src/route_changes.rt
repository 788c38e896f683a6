//! What verbs of routes make their plans of.

ghost use Rattle.std.specs.Prelude.{◌≡◌, IfOk, Some, None, map};
ghost use Rattle.std.specs.List.{AllByRecursion};
ghost use Rattle.lrs_inventory.specs.Prelude.{course_of, keys_of, rerouting, IsFilled};
ghost use Rattle.lrs_inventory.specs.Plans.{plan_of};
ghost use Rattle.lrs_image_laws.specs.Differences.{no_change};

use crate::plan::{Plan, ReferentPlaces};
use lrs_element::{Course, Marks, Piece};
use lrs_events::SpanChange;
use lrs_image::{Difference, ReferentChange, RouteChange, RouteKeys};
use lrs_machine::RouteRow;
use lrs_measure::Rows;
use lrs_position::{RefName, Referent, RouteName};
use std::alloc::{AllocError, Global};

/// The change of a route that leaves it as it is. It takes no memory.
pub fn no_change(alloc: Global, route: RouteName) -> RouteChange
    ensures { result ≡ no_change route }
{
    RouteChange {
        route,
        name: route,
        keys: RouteKeys::none(alloc),
        course: None,
        marks: None,
        refs: ReferentChange {
            gone: Rows::new(alloc),
            come: Rows::new(alloc),
        },
        spans_gone: Rows::new(alloc),
        spans_come: Rows::new(alloc),
    }
}

/// The change of a route that gets this course and these marks, where they are given, and whose referents and rows
/// change so.
///
/// To make it whole is cheaper to prove than to set the fields of one that changes nothing: each of them would be dropped.
pub fn changed(
    alloc: Global,
    route: RouteName,
    course: Option<Course>,
    marks: Option<Marks>,
    moved: ReferentChange,
    spans: SpanChange,
) -> RouteChange
    ensures { result ≡ record (no_change route) {
      course = course;
      marks = marks;
      refs = moved;
      spans_gone = spans.gone.items;
      spans_come = spans.come.items;
    } }
{
    RouteChange {
        route,
        name: route,
        keys: RouteKeys::none(alloc),
        course,
        marks,
        refs: moved,
        spans_gone: Rows::from_vec(spans.gone),
        spans_come: Rows::from_vec(spans.come),
    }
}

/// The plan by which a route changes, and another one comes where one is given.
pub fn rerouted(alloc: Global, change: RouteChange, made: Option<RouteRow>) -> Plan
    ensures { result ≡ plan_of (rerouting (Some change) None made) }
{
    Plan {
        difference: Difference {
            link: None,
            class: None,
            asset: None,
            changed: Some(change),
            dropped: None,
            keys: RouteKeys::none(alloc),
            made,
            entered: Rows::new(alloc),
            gone: Rows::new(alloc),
        },
        ground: None,
        referents: ReferentPlaces {
            come: None,
            gone: Rows::new(alloc),
        },
    }
}

/// The pieces of a course.
pub fn pieces_of(alloc: Global, course: &Course) -> Result<Rows<Piece>, AllocError>
    ensures course { IfOk result (λ pieces. course_of pieces ≡ course.now) }
    ensures filled { IfOk result (λ pieces. AllByRecursion IsFilled pieces) }
{
    let pieces = Vec::from_slice(alloc, course.pieces())?;
    Ok(Rows::from_vec(pieces))
}

/// The names of referents.
pub fn names_of(alloc: Global, refs: &[Referent]) -> Result<Rows<RefName>, AllocError>
    ensures { IfOk result (λ out. out ≡ map (λ q. q.name) refs.now) }
{
    let mut out = Vec::new(alloc);
    for referent in refs {
        out.push(referent.name)?;
    }
    Ok(Rows::from_vec(out))
}

/// What lies on a route, by its keys.
pub fn keys_on(alloc: Global, route_row: &RouteRow) -> Result<RouteKeys, AllocError>
    ensures { IfOk result (λ keys. keys ≡ keys_of route_row.now.route.refs route_row.now.spans) }
{
    let refs = names_of(alloc, route_row.route.refs.as_slice())?;
    let spans = Vec::from_slice(alloc, route_row.spans.rows())?;
    Ok(RouteKeys {
        refs,
        spans: Rows::from_vec(spans),
    })
}
