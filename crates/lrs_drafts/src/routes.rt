//! Routes that a draft names, and places on them.

ghost use Rattle.lrs_machine.specs.Sound.{IsSound};
ghost use Rattle.lrs_image.specs.OpenLists.{image_of};

use crate::fault::DraftFault;
use crate::marks::measure_at;
use lrs_element::Mark;
use lrs_image::ImageLists;
use lrs_machine::{Place, RouteRow};
use lrs_position::{Expr, PlaceFault, Route, RouteName, locate, snap};
use std::alloc::{AllocError, Global};

/// The most names that are tried for a route in between.
const MOST_NAMES: u32 = 20_000;

/// The row of a route of a name, if there is one.
fn row_of<'a>(kept: &'a ImageLists, name: &RouteName) -> Option<&'a RouteRow>
    requires sound { IsSound (image_of kept.now) }
{
    kept.routes.find(name)
}

/// The route of a name.
///
/// # Errors
/// `Impossible` where there is none.
pub(crate) fn route_named<'a>(
    kept: &'a ImageLists,
    name: &RouteName,
) -> Result<&'a Route, DraftFault>
    requires sound { IsSound (image_of kept.now) }
{
    match row_of(kept, name) {
        Some(row) => Ok(&row.route),
        None => Err(DraftFault::Impossible("there is no route of this name")),
    }
}

/// Whether no route has a name.
pub(crate) fn is_free(kept: &ImageLists, name: &RouteName) -> bool
    requires sound { IsSound (image_of kept.now) }
{
    row_of(kept, name).is_none()
}

/// The name of a route that is there only while a sheet is done, from `DRAFT1` on: no route has it, and none gets it.
///
/// # Errors
/// When memory runs out.
pub(crate) fn free_name(
    alloc: Global,
    kept: &ImageLists,
    others: &[RouteName],
) -> Result<Option<RouteName>, AllocError>
    requires sound { IsSound (image_of kept.now) }
{
    for number in 1..MOST_NAMES {
        let text = format!(in alloc; "DRAFT{number}")?;
        if let Some(name) = RouteName::new(text.as_str().as_bytes()) {
            if !others.contains(&name) && is_free(kept, &name) {
                return Ok(Some(name));
            }
        }
    }
    Ok(None)
}

fn place_fault(fault: PlaceFault) -> DraftFault {
    match fault {
        PlaceFault::NoRef => DraftFault::Impossible(
            "a place counts from a referent that is not on the route",
        ),
        PlaceFault::TooFine => DraftFault::Impossible("a place is given too finely"),
        PlaceFault::OffRoute => DraftFault::Impossible("a place is not on the route"),
    }
}

/// The whole millimetre of a route to which a position goes as an end of a stretch.
fn end_at(route: &Route, position: Expr) -> Result<u64, DraftFault> {
    match locate(route, position) {
        Ok(chainage) => Ok(snap(chainage)),
        Err(fault) => Err(place_fault(fault)),
    }
}

/// The chainage that a place means on a route, in whole millimetres.
///
/// # Errors
/// `Impossible` where it is not on the route.
pub(crate) fn chainage_of(route: &Route, place: Place) -> Result<u64, DraftFault> {
    let chainage = match place {
        Place::Chainage(chainage) => chainage,
        Place::Position(position) => end_at(route, position)?,
    };
    if chainage > route.length() {
        return Err(DraftFault::Impossible("a place is behind the end of the route"));
    }
    Ok(chainage)
}

/// The mark that a route has at a place, or that can be set there without changing a measure.
///
/// # Errors
/// `Impossible` where the place is not on the route, or its measure is no whole number.
pub(crate) fn mark_at(route: &Route, place: Place) -> Result<Mark, DraftFault> {
    let chainage = chainage_of(route, place)?;
    match measure_at(route.marks.list(), chainage) {
        Some(measure) => Ok(Mark { chainage, measure }),
        None => Err(DraftFault::Impossible(
            "no whole measure there, so that no mark can be set: take a place that has one, or recalibrate the route first",
        )),
    }
}
