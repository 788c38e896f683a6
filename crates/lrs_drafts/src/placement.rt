//! Commands that do something at a point or over a stretch of a route.

use crate::fault::DraftFault;
use crate::keys::SheetWriter;
use crate::positions::{
    Extent, free_referent_name, location_from, location_of, nearest_referent, route_start,
};
use lrs_events::{Asset, ClassName, Side, Value};
use lrs_image::ImageLists;
use lrs_machine::{AssetNumber, Command, LateralOffset, NewAsset};
use lrs_position::{EventLocation, RefName, Referent, Route, RouteName};
use std::alloc::Global;

/// What is entered, wherever it lies.
#[derive(Clone, Copy)]
pub(crate) struct Entry {
    pub number: AssetNumber,
    pub class: ClassName,
    pub side: Side,
    pub value: Value,
    pub offset: LateralOffset,
}

/// What is done at a location.
#[derive(Clone, Copy)]
pub(crate) enum Placement<'a> {
    Retire(&'a AssetNumber),
    Enter(&'a Entry),
    Supersede(&'a Entry),
    Refer(&'a RefName),
}

pub(crate) const BAD_OFFSET: DraftFault = DraftFault::Impossible(
    "the lateral offset of the asset is above what a command can state",
);

const NO_NAME: DraftFault = DraftFault::Impossible(
    "no name is free for a referent that is added for a while",
);

const NO_POSITION: DraftFault = DraftFault::Impossible("no position can state the place");

/// What is entered under a number on a side in the place of an asset; none where the asset's offset cannot be stated.
pub(crate) fn entry_like(asset: &Asset, number: &AssetNumber, side: Side) -> Option<Entry> {
    let offset = LateralOffset::new(asset.lateral)?;
    Some(Entry {
        number: *number,
        class: asset.class,
        side,
        value: asset.value,
        offset,
    })
}

fn new_asset(entry: &Entry, route: &RouteName, location: &EventLocation) -> NewAsset {
    NewAsset {
        asset: entry.number,
        class: entry.class,
        route: *route,
        side: entry.side,
        location: *location,
        value: entry.value,
        offset: entry.offset,
    }
}

/// The command that does it at a location.
pub(crate) fn command_at(
    placement: Placement<'_>,
    route: &RouteName,
    location: &EventLocation,
) -> Command {
    match placement {
        Placement::Retire(asset) => Command::Retire {
            asset: *asset,
            route: *route,
            location: *location,
        },
        Placement::Enter(entry) => Command::Enter(new_asset(entry, route, location)),
        Placement::Supersede(entry) => Command::Supersede(new_asset(entry, route, location)),
        Placement::Refer(name) => Command::Ref {
            name: *name,
            route: *route,
            at: location.from(),
        },
    }
}

/// Adds the record that does it at a location.
fn write_at(
    alloc: Global,
    sheet: &mut SheetWriter<'_>,
    placement: Placement<'_>,
    route: &RouteName,
    location: &EventLocation,
) -> Result<(), DraftFault> {
    let command = command_at(placement, route, location);
    sheet.add(alloc, &command)
}

/// Adds the record that does it, between that of a referent at the start of the route, from which it is located, and that
/// which removes the referent.
fn write_from_start(
    alloc: Global,
    sheet: &mut SheetWriter<'_>,
    name: &RefName,
    placement: Placement<'_>,
    route: &Route,
    extent: Extent,
) -> Result<(), DraftFault> {
    let start = Referent { name: *name, at: 0 };
    let Some(location) = location_from(route, &start, extent) else {
        return Err(NO_POSITION);
    };
    let Some(at) = route_start() else {
        return Err(NO_POSITION);
    };
    let begin = Command::Ref {
        name: *name,
        route: route.name,
        at,
    };
    sheet.add(alloc, &begin)?;
    write_at(alloc, sheet, placement, &route.name, &location)?;
    let end = Command::Unref { name: *name };
    sheet.add(alloc, &end)
}

/// Adds the record that does it, located from this referent where no whole measures locate it. Where there is no referent
/// and nothing else locates it, one is added and removed again, under a name that no referent of this inventory has.
///
/// # Errors
/// `Impossible` where no such name is free, and those of the sheet.
pub(crate) fn write_from(
    alloc: Global,
    sheet: &mut SheetWriter<'_>,
    kept: &ImageLists,
    referent: Option<&Referent>,
    placement: Placement<'_>,
    route: &Route,
    extent: Extent,
) -> Result<(), DraftFault> {
    match location_of(route, referent, extent) {
        Some(location) => write_at(alloc, sheet, placement, &route.name, &location),
        None => match free_referent_name(alloc, kept)? {
            Some(name) => write_from_start(alloc, sheet, &name, placement, route, extent),
            None => Err(NO_NAME),
        },
    }
}

/// The same, from the referent of the route that is nearest.
///
/// # Errors
/// Those of `write_from`.
pub(crate) fn write_placed(
    alloc: Global,
    sheet: &mut SheetWriter<'_>,
    kept: &ImageLists,
    placement: Placement<'_>,
    route: &Route,
    extent: Extent,
) -> Result<(), DraftFault> {
    let referent = nearest_referent(route, extent.from);
    write_from(alloc, sheet, kept, referent, placement, route, extent)
}
