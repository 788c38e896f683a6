//! The values of exclusive classes side by side: the segments of a route, and which of them are asked for.

ghost use Rattle.std.specs.Prelude.{◌≡◌, ◌&&◌, ◌||◌, map, nat_lt, not};
ghost use Rattle.lrs_measure.specs.Lists.{In};
ghost use Rattle.lrs_events.specs.RouteSpans.Search.{one_side};
ghost use Rattle.lrs_machine.specs.Image.{state_of};
ghost use Rattle.lrs_machine.specs.Readings.{segments_on};
ghost use Rattle.lrs_machine.specs.Segments.{segment_fault};
ghost use Rattle.lrs_report.specs.SideValues.{IsAnswer};
ghost use Rattle.lrs_report.specs.Sweep.{run_of};
ghost use Rattle.lrs_report_lists.specs.WantedRows.{earlier, later};
ghost use Rattle.lrs_report_answers.specs.Overlay.{has_gap, is_segment_wanted};
ghost use Rattle.lrs_report_answers.specs.RouteSegments.{class_list};

use crate::segmentation::RouteSegments;
use lrs_events::{ClassName, LinkSide, Side, Value};
use lrs_inventory::Inventory;
use lrs_machine::{OverlayWanted, RouteRow, SegFault, Segment};
use lrs_report::sweep_segments;
use std::alloc::Global;

fn one_side(side: LinkSide) -> Side
    ensures { result ≡ one_side side }
{
    match side {
        LinkSide::Left => Side::L,
        LinkSide::Right => Side::R,
    }
}

/// The segments of a route of an inventory on one side of it, seen along the route, by these classes, with the value of each
/// class or none. They follow one another from its start to its end, and each is made where it is taken: what is in memory
/// grows with the classes alone.
///
/// # Errors
/// `NoClass` of the first class that is not there, else `NotExclusive` of the first that is not exclusive, each by its place
/// in `classes`; and `Memory`. Never `SideB`.
pub fn overlay_segments<'a>(
    alloc: Global,
    inventory: &'a Inventory,
    route_row: &'a RouteRow,
    classes: &[ClassName],
    side: LinkSide,
) -> Result<RouteSegments<'a>, SegFault>
    requires known { In route_row.now inventory.now.routes }
    ensures { IsAnswer (segment_fault (class_list (state_of inventory.now)) classes.now
        (one_side side)) (λ found. map run_of found ≡ segments_on (state_of inventory.now)
        route_row.now.route.course classes.now side) result }
{
    let kept = inventory.kept();
    sweep_segments(
        alloc,
        &route_row.route,
        &route_row.spans,
        &kept.assets,
        &kept.classes,
        classes,
        one_side(side),
    )
}

fn later(from: Option<u64>, at: u64) -> u64
    ensures { result ≡ later from at }
{
    match from {
        Some(from) => from.max(at),
        None => at,
    }
}

fn earlier(to: Option<u64>, at: u64) -> u64
    ensures { result ≡ earlier to at }
{
    match to {
        Some(to) => to.min(at),
        None => at,
    }
}

fn has_between(wanted: &OverlayWanted, segment: &Segment) -> bool
    ensures { result ≡ nat_lt (later wanted.now.from segment.now.from)
        (earlier wanted.now.to segment.now.to) }
{
    later(wanted.from, segment.from) < earlier(wanted.to, segment.to)
}

/// Whether some class has no value.
fn has_gap(values: &[Option<Value>]) -> bool
    ensures { result ≡ has_gap values.now }
{
    values.iter().any(|value| value.is_none())
}

fn has_wanted_values(gaps: bool, segment: &Segment) -> bool
    ensures { result ≡ (not gaps || has_gap segment.now.values) }
{
    !gaps || has_gap(segment.values.as_slice())
}

/// Whether a segment is asked for, on whichever route and side it lies: it has a millimetre at or behind chainage `from` and
/// before `to`, and where gaps are asked for, some class has no value there.
pub fn is_segment_wanted(wanted: &OverlayWanted, segment: &Segment) -> bool
    ensures { result ≡ is_segment_wanted wanted.now (run_of segment.now) }
{
    has_between(wanted, segment) && has_wanted_values(wanted.gaps, segment)
}
