//! Segments of a route that a question names.

ghost use Rattle.std.specs.Prelude.{◌≡◌};
ghost use Rattle.lrs_machine.specs.Image.{state_of};
ghost use Rattle.lrs_machine.specs.Sound.{IsSound};
ghost use Rattle.lrs_image.specs.OpenLists.{image_of};
ghost use Rattle.lrs_report_answers.specs.RouteSegments.{asked_fault, IsSegmented};

use crate::fault::AskFault;
use crate::route::route_of;
use lrs_events::{Asset, ClassName, Side};
use lrs_image::ImageLists;
use lrs_machine::{Missing, SegFault};
use lrs_ordered::Chunked;
use lrs_position::RouteName;
use lrs_report::{Segments, sweep_segments};
use std::alloc::Global;

/// The segments of a route of an inventory.
pub type RouteSegments<'a> = Segments<'a, Chunked<Asset>>;

/// The fault of segments as that of a question.
fn asked_fault(fault: SegFault) -> AskFault
    ensures { result ≡ asked_fault fault }
{
    match fault {
        SegFault::Memory => AskFault::Memory,
        SegFault::NoClass(_) | SegFault::NotExclusive(_) | SegFault::SideB => AskFault::Seg(fault),
    }
}

/// The segments of a route on one side of it, seen along the route: the maximal runs of its millimetres over which each
/// class asked for has one value or none. They follow one another from its start to its end, and each is made where it is
/// taken.
///
/// # Errors
/// `Missing(Route)`, then `Seg` of the first class that is not there (`NoClass`), of the first that is not exclusive
/// (`NotExclusive`), each by its place in `wanted`, and of both sides (`SideB`), and `Memory`.
pub fn segments<'a>(
    alloc: Global,
    kept: &'a ImageLists,
    route: &RouteName,
    wanted: &[ClassName],
    side: Side,
) -> Result<RouteSegments<'a>, AskFault>
    requires sound { IsSound (image_of kept.now) }
    ensures { IsSegmented (state_of (image_of kept.now)) route.now wanted.now side result }
{
    match route_of(kept, route) {
        Some(row) => {
            let spans = &row.spans;
            let assets = &kept.assets;
            let classes = &kept.classes;
            match sweep_segments(alloc, &row.route, spans, assets, classes, wanted, side) {
                Ok(found) => Ok(found),
                Err(fault) => Err(asked_fault(fault)),
            }
        }
        None => Err(AskFault::Missing(Missing::Route)),
    }
}
