//! Positions that locate whole millimetres of a route, as commands can state them.

use lrs_image::ImageLists;
use lrs_measure::Frac;
use lrs_position::{
    EnteredPosition, EventLocation, Expr, Method, RefName, Referent, Route, Target, cell, express,
    locate, snap,
};
use std::alloc::{AllocError, Global};

/// No more names are tried for a referent that is added for a while.
const MOST_NAMES: u32 = 1_000_000;

/// A point of a route, or a stretch of it up to `to`, in millimetres of chainage.
#[derive(Clone, Copy)]
pub(crate) struct Extent {
    pub from: u64,
    pub to: Option<u64>,
}

/// What a position is to locate.
#[derive(Clone, Copy)]
enum Spot {
    /// The millimetre that a point stands in.
    Point(u64),
    /// An end of a stretch.
    End(u64),
}

/// Its chainage in millimetres.
fn chainage_of(spot: Spot) -> u64 {
    match spot {
        Spot::Point(at) => at,
        Spot::End(at) => at,
    }
}

/// Whether an expression locates a spot.
fn locates(route: &Route, expression: &Expr, spot: Spot) -> bool {
    match locate(route, *expression) {
        Ok(chainage) => match spot {
            Spot::Point(at) => cell(chainage, route.length()) == at,
            Spot::End(at) => snap(chainage) == at,
        },
        Err(_) => false,
    }
}

/// The position of an expression, if a command can state it and it locates a spot.
fn stated(route: &Route, expression: &Expr, spot: Spot) -> Option<EnteredPosition> {
    if locates(route, expression, spot) {
        EnteredPosition::new(*expression)
    } else {
        None
    }
}

/// The whole measure at a spot: for an end the nearest one, for a point the next one that does not lie before it.
fn whole_measure(measure: &Frac, spot: Spot) -> i128 {
    match spot {
        Spot::End(_) => measure.nearest(),
        Spot::Point(_) => {
            if measure.is_whole() {
                measure.num()
            } else {
                measure.floor().saturating_add(1)
            }
        }
    }
}

/// The whole measure at a spot that an expression by measure locates.
fn measure_in(expression: &Expr, spot: Spot) -> Option<i128> {
    match expression {
        Expr::Abs(measure) => Some(whole_measure(measure, spot)),
        _ => None,
    }
}

/// The whole measure at a spot of a route.
fn measure_at(route: &Route, spot: Spot) -> Option<i128> {
    let chainage = Frac::new(i128::from(chainage_of(spot)), 1)?;
    match express(route, chainage, Target::Abs) {
        Ok(expression) => measure_in(&expression, spot),
        Err(_) => None,
    }
}

/// The whole measure that locates a spot.
fn by_measure(route: &Route, spot: Spot) -> Option<EnteredPosition> {
    let measure = measure_at(route, spot)?;
    let whole = Frac::new(measure, 1)?;
    stated(route, &Expr::Abs(whole), spot)
}

/// The proportion of the route's length that locates a spot.
fn by_proportion(route: &Route, spot: Spot) -> Option<EnteredPosition> {
    let chainage = Frac::new(i128::from(chainage_of(spot)), 1)?;
    match express(route, chainage, Target::Int) {
        Ok(expression) => stated(route, &expression, spot),
        Err(_) => None,
    }
}

/// The distance of a spot from a referent.
fn by_distance(referent: &Referent, spot: Spot) -> Option<EnteredPosition> {
    let chainage = i128::from(chainage_of(spot));
    let distance = Frac::new(chainage - i128::from(referent.at), 1)?;
    EnteredPosition::new(Expr::Rel(referent.name, distance))
}

/// The position of a spot by a method; distances count from this referent.
fn position_by(
    method: Method,
    route: &Route,
    referent: Option<&Referent>,
    spot: Spot,
) -> Option<EnteredPosition> {
    match method {
        Method::Abs => by_measure(route, spot),
        Method::Int => by_proportion(route, spot),
        Method::Rel => match referent {
            Some(referent) => by_distance(referent, spot),
            None => None,
        },
    }
}

/// The location of a point or stretch by a method.
fn location_by(
    method: Method,
    route: &Route,
    referent: Option<&Referent>,
    extent: Extent,
) -> Option<EventLocation> {
    match extent.to {
        None => {
            let at = position_by(method, route, referent, Spot::Point(extent.from))?;
            EventLocation::new(at, None)
        }
        Some(to) => {
            let from = position_by(method, route, referent, Spot::End(extent.from))?;
            let to = position_by(method, route, referent, Spot::End(to))?;
            EventLocation::new(from, Some(to))
        }
    }
}

/// The location of a point or stretch of a route, to the millimetre: by whole measures where they locate it, else by
/// distances from a referent if there is one, else by proportions where they locate it.
pub(crate) fn location_of(
    route: &Route,
    referent: Option<&Referent>,
    extent: Extent,
) -> Option<EventLocation> {
    if let Some(location) = location_by(Method::Abs, route, referent, extent) {
        return Some(location);
    }
    if let Some(location) = location_by(Method::Rel, route, referent, extent) {
        return Some(location);
    }
    location_by(Method::Int, route, referent, extent)
}

/// The location of a point or stretch by distances from a referent; none where it is farther from it than a command can state.
pub(crate) fn location_from(
    route: &Route,
    referent: &Referent,
    extent: Extent,
) -> Option<EventLocation> {
    location_by(Method::Rel, route, Some(referent), extent)
}

/// The position of a proportion.
fn proportion(num: i128) -> Option<EnteredPosition> {
    EnteredPosition::new(Expr::Int(Frac::new(num, 1)?))
}

/// The start of any route.
pub(crate) fn route_start() -> Option<EnteredPosition> {
    proportion(0)
}

/// From the start of any route to its end.
pub(crate) fn whole_route() -> Option<EventLocation> {
    EventLocation::new(proportion(0)?, Some(proportion(1)?))
}

/// Whether a referent is nearer to a chainage than the other, or there is no other.
fn is_nearer(referent: &Referent, other: Option<&Referent>, at: u64) -> bool {
    match other {
        Some(other) => referent.at.abs_diff(at) < other.at.abs_diff(at),
        None => true,
    }
}

/// The referent of a route that is nearest to a chainage.
pub(crate) fn nearest_referent(route: &Route, at: u64) -> Option<&Referent> {
    let mut nearest = None;
    for referent in route.refs.as_slice() {
        if is_nearer(referent, nearest, at) {
            nearest = Some(referent);
        }
    }
    nearest
}

/// Whether a referent has this name.
fn is_referent(kept: &ImageLists, name: &RefName) -> bool {
    kept.routes
        .iter()
        .any(|row| row.route.referent(*name).is_some())
}

/// The name of a number for a referent that is added for a while.
fn referent_name(alloc: Global, number: u32) -> Result<Option<RefName>, AllocError> {
    let text = format!(in alloc; "DRAFT{number}")?;
    Ok(RefName::new(text.as_str().as_bytes()))
}

/// A name that no referent has; none where a million names are taken.
///
/// # Errors
/// When memory runs out.
pub(crate) fn free_referent_name(
    alloc: Global,
    kept: &ImageLists,
) -> Result<Option<RefName>, AllocError> {
    for number in 1..=MOST_NAMES {
        if let Some(name) = referent_name(alloc, number)? {
            if !is_referent(kept, &name) {
                return Ok(Some(name));
            }
        }
    }
    Ok(None)
}

/// The chainage of the millimetre in which a point stands, or to which an end of a stretch goes.
pub(crate) fn chainage_at(route: &Route, expression: &Expr, is_point: bool) -> Option<u64> {
    match locate(route, *expression) {
        Ok(chainage) => {
            if is_point {
                Some(cell(chainage, route.length()))
            } else {
                Some(snap(chainage))
            }
        }
        Err(_) => None,
    }
}
