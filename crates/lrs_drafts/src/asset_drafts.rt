//! What retires, replaces or moves an asset.

use crate::assembly::write_entered_everywhere;
use crate::fault::DraftFault;
use crate::keys::SheetWriter;
use crate::placement::{BAD_OFFSET, Entry, Placement, command_at, entry_like, write_placed};
use crate::positions::{Extent, chainage_at, location_of, nearest_referent, whole_route};
use lrs_events::{Asset, ClassName, Kind, Side, Span, Value};
use lrs_image::ImageLists;
use lrs_machine::{AssetNumber, Place, RouteRow};
use lrs_position::{EnteredPosition, EventLocation, Route, RouteName};
use std::alloc::{AllocError, Global};

pub(crate) const NO_ASSET: DraftFault = DraftFault::Impossible("there is no such asset");

const NO_CLASS: DraftFault = DraftFault::Impossible("the class of the asset is not there");

const NO_ROUTE: DraftFault = DraftFault::Impossible("there is no such route");

pub(crate) const HOLDS_NOTHING: DraftFault = DraftFault::Impossible("the asset holds nothing");

const IS_KNOWN: DraftFault = DraftFault::Impossible(
    "the number of the new asset is used: give a new one",
);

const OFF_ROUTE: DraftFault = DraftFault::Impossible("the place is not on the route");

const ONE_PLACE: DraftFault = DraftFault::Impossible("the asset is a point: give one place");

const TWO_PLACES: DraftFault = DraftFault::Impossible(
    "the asset is a stretch: give the places at which it begins and ends",
);

/// The asset of a number.
pub(crate) fn asset_in(kept: &ImageLists, number: u64) -> Option<&Asset> {
    for asset in kept.assets.iter() {
        if asset.number == number {
            return Some(asset);
        }
    }
    None
}

/// Whether no asset has a number.
///
/// # Errors
/// `Impossible` where one has it.
fn check_free(kept: &ImageLists, number: &AssetNumber) -> Result<(), DraftFault> {
    match asset_in(kept, number.get()) {
        Some(_) => Err(IS_KNOWN),
        None => Ok(()),
    }
}

/// The kind of a class.
///
/// # Errors
/// `Impossible` where there is no such class.
pub(crate) fn kind_of(kept: &ImageLists, name: &ClassName) -> Result<Kind, DraftFault> {
    for class in kept.classes.iter() {
        if class.name == *name {
            return Ok(class.kind);
        }
    }
    Err(NO_CLASS)
}

/// The route of a name, and what lies on it.
pub(crate) fn route_in<'a>(kept: &'a ImageLists, name: &RouteName) -> Option<&'a RouteRow> {
    for row in kept.routes.iter() {
        if row.route.name == *name {
            return Some(row);
        }
    }
    None
}

/// The rows of an asset on a route, as they lie along it.
fn rows_of(alloc: Global, row: &RouteRow, asset: u64) -> Result<Vec<Span>, AllocError> {
    let mut rows = Vec::new(alloc);
    for span in row.spans.rows() {
        if span.asset == asset {
            rows.push(*span)?;
        }
    }
    Ok(rows)
}

/// The stretch from the start of the first row to the end of the last.
fn extent_over(rows: &[Span]) -> Option<Extent> {
    match rows {
        [first, .., last] => Some(Extent {
            from: first.from,
            to: Some(last.to),
        }),
        [only] => Some(Extent {
            from: only.from,
            to: Some(only.to),
        }),
        [] => None,
    }
}

/// The location of a stretch of a route, or that of the whole route where no position locates its ends: what an asset is to
/// give up it may be asked for over more than it holds.
fn covering_location(route: &Route, extent: Extent) -> Option<EventLocation> {
    let referent = nearest_referent(route, extent.from);
    match location_of(route, referent, extent) {
        Some(location) => Some(location),
        None => whole_route(),
    }
}

/// Adds the records by which an asset of points gives up these rows.
fn write_points_retired(
    alloc: Global,
    sheet: &mut SheetWriter<'_>,
    kept: &ImageLists,
    asset: &AssetNumber,
    route: &Route,
    rows: &[Span],
) -> Result<(), DraftFault> {
    for row in rows {
        let extent = Extent {
            from: row.from,
            to: None,
        };
        write_placed(alloc, sheet, kept, Placement::Retire(asset), route, extent)?;
    }
    Ok(())
}

/// Adds the record by which an asset gives up all that it holds over a stretch of a route.
fn write_stretch_retired(
    alloc: Global,
    sheet: &mut SheetWriter<'_>,
    asset: &AssetNumber,
    route: &Route,
    extent: Extent,
) -> Result<(), DraftFault> {
    let Some(location) = covering_location(route, extent) else {
        return Err(OFF_ROUTE);
    };
    let command = command_at(Placement::Retire(asset), &route.name, &location);
    sheet.add(alloc, &command)
}

/// Adds the records by which an asset gives up these rows of a route. Says whether there is one.
fn write_rows_retired(
    alloc: Global,
    sheet: &mut SheetWriter<'_>,
    kept: &ImageLists,
    asset: &AssetNumber,
    kind: Kind,
    route: &Route,
    rows: &[Span],
) -> Result<bool, DraftFault> {
    match extent_over(rows) {
        None => Ok(false),
        Some(extent) => {
            if kind == Kind::Point {
                write_points_retired(alloc, sheet, kept, asset, route, rows)?;
            } else {
                write_stretch_retired(alloc, sheet, asset, route, extent)?;
            }
            Ok(true)
        }
    }
}

/// Adds the records by which an asset gives up what it holds on a route. Says whether it holds something there.
fn write_route_retired(
    alloc: Global,
    sheet: &mut SheetWriter<'_>,
    kept: &ImageLists,
    asset: &AssetNumber,
    kind: Kind,
    row: &RouteRow,
) -> Result<bool, DraftFault> {
    let rows = rows_of(alloc, row, asset.get())?;
    write_rows_retired(alloc, sheet, kept, asset, kind, &row.route, rows.as_slice())
}

/// Adds the records by which an asset gives up all that it holds: one for each route on which it lies.
///
/// # Errors
/// `Impossible` where there is no such asset, or it holds nothing, and `Memory`.
pub(crate) fn write_retire(
    alloc: Global,
    sheet: &mut SheetWriter<'_>,
    kept: &ImageLists,
    asset: AssetNumber,
) -> Result<(), DraftFault> {
    let Some(known) = asset_in(kept, asset.get()) else {
        return Err(NO_ASSET);
    };
    let kind = kind_of(kept, &known.class)?;
    let mut found = false;
    for row in kept.routes.iter() {
        if write_route_retired(alloc, sheet, kept, &asset, kind, row)? {
            found = true;
        }
    }
    if found { Ok(()) } else { Err(HOLDS_NOTHING) }
}

/// Whether an asset lies on a route.
pub(crate) fn lies_on(row: &RouteRow, asset: u64) -> bool {
    row.spans.rows().iter().any(|span| span.asset == asset)
}

/// Whether an asset lies on any route.
pub(crate) fn lies_anywhere(kept: &ImageLists, asset: u64) -> bool {
    kept.routes.iter().any(|row| lies_on(row, asset))
}

/// The first route from the front on which an asset lies, and whether it lies on another.
fn first_route(kept: &ImageLists, asset: u64) -> (Option<&RouteRow>, bool) {
    let mut first = None;
    for row in kept.routes.iter() {
        if lies_on(row, asset) {
            if first.is_some() {
                return (first, true);
            }
            first = Some(row);
        }
    }
    (first, false)
}

/// The side of the first row.
fn first_side(rows: &[Span]) -> Result<Side, DraftFault> {
    match rows {
        [first, ..] => Ok(first.side),
        [] => Err(HOLDS_NOTHING),
    }
}

/// Whether all rows are on this side.
fn have_side(rows: &[Span], side: Side) -> bool {
    rows.iter().all(|row| row.side == side)
}

/// Whether another asset of the class of a row lies on its route between its start and a chainage.
fn has_other(row: &RouteRow, first: &Span, to: u64) -> bool {
    row.spans.rows().iter().any(|span| {
        span.class == first.class
            && span.asset != first.asset
            && span.from < to
            && first.from < span.to
    })
}

/// Whether an asset of a kind can be entered from the first of rows of a route to the last, and then give up what lies between
/// them.
fn is_enterable(kind: Kind, row: &RouteRow, rows: &[Span]) -> bool {
    match rows {
        [first, .., last] => {
            have_side(rows, first.side)
                && !(kind == Kind::Exclusive && has_other(row, first, last.to))
        }
        [_] => true,
        [] => false,
    }
}

/// Adds the records by which an asset that lies over rows and between them gives up what is between them.
fn write_gaps_retired(
    alloc: Global,
    sheet: &mut SheetWriter<'_>,
    kept: &ImageLists,
    asset: &AssetNumber,
    route: &Route,
    rows: &[Span],
) -> Result<(), DraftFault> {
    let mut end = None;
    for row in rows {
        if let Some(from) = end {
            let extent = Extent {
                from,
                to: Some(row.from),
            };
            write_placed(alloc, sheet, kept, Placement::Retire(asset), route, extent)?;
        }
        end = Some(row.to);
    }
    Ok(())
}

/// The point at which an asset of points lies, or the stretch.
fn extent_of_kind(kind: Kind, rows: &[Span]) -> Result<Extent, DraftFault> {
    match extent_over(rows) {
        Some(extent) => Ok(Extent {
            from: extent.from,
            to: if kind == Kind::Point { None } else { extent.to },
        }),
        None => Err(HOLDS_NOTHING),
    }
}

/// Adds the records by which an asset is entered over these rows of a route, which another one gives up: one record where a
/// class has one asset at a place and there is one row.
fn write_entered_over(
    alloc: Global,
    sheet: &mut SheetWriter<'_>,
    kept: &ImageLists,
    asset: &AssetNumber,
    entry: &Entry,
    kind: Kind,
    route: &Route,
    rows: &[Span],
) -> Result<(), DraftFault> {
    let extent = extent_of_kind(kind, rows)?;
    if kind == Kind::Exclusive && rows.len() == 1 {
        return write_placed(
            alloc,
            sheet,
            kept,
            Placement::Supersede(entry),
            route,
            extent,
        );
    }
    write_rows_retired(alloc, sheet, kept, asset, kind, route, rows)?;
    write_placed(alloc, sheet, kept, Placement::Enter(entry), route, extent)?;
    if kind == Kind::Point {
        return Ok(());
    }
    write_gaps_retired(alloc, sheet, kept, &entry.number, route, rows)
}

/// Adds the records by which an asset is entered where another one lies: over a stretch of one route if it can be, else on all
/// its parts.
fn write_exchanged(
    alloc: Global,
    sheet: &mut SheetWriter<'_>,
    kept: &ImageLists,
    asset: &AssetNumber,
    entry: &Entry,
    kind: Kind,
    rows: &[Span],
) -> Result<(), DraftFault> {
    match first_route(kept, asset.get()) {
        (Some(row), false) if is_enterable(kind, row, rows) => {
            write_entered_over(alloc, sheet, kept, asset, entry, kind, &row.route, rows)
        }
        (Some(_), _) => write_entered_everywhere(alloc, sheet, kept, asset, entry, kind),
        (None, _) => Err(HOLDS_NOTHING),
    }
}

/// The rows of an asset on the first route on which it lies.
fn first_rows(alloc: Global, kept: &ImageLists, asset: u64) -> Result<Vec<Span>, DraftFault> {
    match first_route(kept, asset) {
        (Some(row), _) => Ok(rows_of(alloc, row, asset)?),
        (None, _) => Err(HOLDS_NOTHING),
    }
}

/// Adds the records by which another asset, with this value, comes in the place of an asset.
///
/// # Errors
/// `Impossible` where there is no such asset, it holds nothing, it lies on both sides here and on one there, or the other is
/// known, and `Memory`.
pub(crate) fn write_replace(
    alloc: Global,
    sheet: &mut SheetWriter<'_>,
    kept: &ImageLists,
    asset: AssetNumber,
    number: AssetNumber,
    value: Value,
) -> Result<(), DraftFault> {
    let Some(known) = asset_in(kept, asset.get()) else {
        return Err(NO_ASSET);
    };
    check_free(kept, &number)?;
    let kind = kind_of(kept, &known.class)?;
    let rows = first_rows(alloc, kept, asset.get())?;
    let side = first_side(rows.as_slice())?;
    let Some(like) = entry_like(known, &number, side) else {
        return Err(BAD_OFFSET);
    };
    let entry = Entry { value, ..like };
    write_exchanged(alloc, sheet, kept, &asset, &entry, kind, rows.as_slice())
}

/// The side on which an asset lies where it lies first.
fn side_of_first(alloc: Global, kept: &ImageLists, asset: u64) -> Result<Side, DraftFault> {
    let rows = first_rows(alloc, kept, asset)?;
    first_side(rows.as_slice())
}

/// The position that a place is, if a command can state it.
fn position_of(place: &Place) -> Option<EnteredPosition> {
    match place {
        Place::Position(expression) => EnteredPosition::new(*expression),
        Place::Chainage(_) => None,
    }
}

/// The location of places as they are said, if a command can state it.
fn said_location(from: &Place, to: Option<&Place>) -> Option<EventLocation> {
    let from = position_of(from)?;
    match to {
        Some(to) => EventLocation::new(from, Some(position_of(to)?)),
        None => EventLocation::new(from, None),
    }
}

/// The chainage of a place that is one: at the end of the route a point stands in the last millimetre.
fn checked_chainage(route: &Route, chainage: u64, is_point: bool) -> Option<u64> {
    let length = route.length();
    if chainage > length {
        return None;
    }
    if is_point && chainage == length {
        return Some(length - 1);
    }
    Some(chainage)
}

/// The chainage of a place.
///
/// # Errors
/// `Impossible` where it is not on the route.
fn chainage_of(route: &Route, place: &Place, is_point: bool) -> Result<u64, DraftFault> {
    let chainage = match place {
        Place::Chainage(chainage) => checked_chainage(route, *chainage, is_point),
        Place::Position(expression) => chainage_at(route, expression, is_point),
    };
    match chainage {
        Some(chainage) => Ok(chainage),
        None => Err(OFF_ROUTE),
    }
}

/// The point or stretch between places.
fn extent_between(route: &Route, from: &Place, to: Option<&Place>) -> Result<Extent, DraftFault> {
    match to {
        None => Ok(Extent {
            from: chainage_of(route, from, true)?,
            to: None,
        }),
        Some(to) => Ok(Extent {
            from: chainage_of(route, from, false)?,
            to: Some(chainage_of(route, to, false)?),
        }),
    }
}

/// Whether an asset of a kind can lie at one place or between two.
fn check_places(kind: Kind, has_end: bool) -> Result<(), DraftFault> {
    match (kind == Kind::Point, has_end) {
        (true, true) => Err(ONE_PLACE),
        (false, false) => Err(TWO_PLACES),
        _ => Ok(()),
    }
}

/// Adds the record by which an asset is entered at a place of a route or between two: with the positions that are said, where
/// a command can state them.
fn write_entered_at(
    alloc: Global,
    sheet: &mut SheetWriter<'_>,
    kept: &ImageLists,
    entry: &Entry,
    route: &Route,
    from: &Place,
    to: Option<&Place>,
) -> Result<(), DraftFault> {
    match said_location(from, to) {
        Some(location) => {
            let command = command_at(Placement::Enter(entry), &route.name, &location);
            sheet.add(alloc, &command)
        }
        None => {
            let extent = extent_between(route, from, to)?;
            write_placed(alloc, sheet, kept, Placement::Enter(entry), route, extent)
        }
    }
}

/// Adds the records by which an asset goes, and another one like it is entered at a place of a route, or from it to another,
/// on the side or sides on which the asset lay first.
///
/// # Errors
/// `Impossible` where there is no such asset or route, the asset holds nothing, the places are not on the route, or the other
/// asset is known, and `Memory`.
pub(crate) fn write_move(
    alloc: Global,
    sheet: &mut SheetWriter<'_>,
    kept: &ImageLists,
    asset: AssetNumber,
    number: AssetNumber,
    route: &RouteName,
    from: Place,
    to: Option<Place>,
) -> Result<(), DraftFault> {
    let Some(known) = asset_in(kept, asset.get()) else {
        return Err(NO_ASSET);
    };
    check_free(kept, &number)?;
    let kind = kind_of(kept, &known.class)?;
    check_places(kind, to.is_some())?;
    let side = side_of_first(alloc, kept, asset.get())?;
    let Some(entry) = entry_like(known, &number, side) else {
        return Err(BAD_OFFSET);
    };
    let Some(row) = route_in(kept, route) else {
        return Err(NO_ROUTE);
    };
    write_retire(alloc, sheet, kept, asset)?;
    write_entered_at(alloc, sheet, kept, &entry, &row.route, &from, to.as_ref())
}
