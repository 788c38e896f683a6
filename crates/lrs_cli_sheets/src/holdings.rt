//! Where an asset lies that a refused record is about.

ghost use Rattle.std.specs.Prelude.{◌≡◌, IfSome, Some};
ghost use Rattle.std.specs.List.{find};
ghost use Rattle.std.specs.Option.{option_map};
ghost use Rattle.lrs_image.specs.Change.{is_named};
ghost use Rattle.lrs_inventory.specs.RouteStretches.{IsRouteIn};
ghost use Rattle.lrs_machine.specs.Image.{state_of};
ghost use Rattle.lrs_measure.specs.Texts.{same_name};
ghost use Rattle.lrs_report_answers.specs.AssetStretches.{all_rows_of, row_of_span};
ghost use Rattle.lrs_cli_sheets.specs.Holdings as spec;

use crate::place_notes::name_of;
use crate::places::{Places, UnderstoodPlaces, understood};
use lrs_events::rows::sides::has_side;
use lrs_events::{Asset, Kind, LinkSide, Side, Span};
use lrs_inventory::{Inventory, RouteStretch};
use lrs_machine::{NewAsset, Place, RouteRow};
use lrs_position::RouteName;
use lrs_report_answers::{FoundRow, find};
use std::alloc::Global;
use std::fmt;

/// Where an asset lies: `asset 7 (60) lies on A38 from 1.000 m (measure 13) to 2.500 m (measure 14.500), side B`.
#[derive(Clone, Copy)]
pub(crate) struct Holding {
    asset: Asset,
    route: RouteName,
    places: UnderstoodPlaces,
    side: Side,
}

impl fmt::Display for Holding {
    fn fmt<W: fmt::Write>(&self, f: &mut fmt::Formatter<W>) -> fmt::Result {
        let (number, value) = (self.asset.number, self.asset.value);
        let name = name_of(&self.route);
        let (places, side) = (self.places, self.side);
        write!(f, "asset {number} ({value}) lies on {name}")?;
        write!(f, " {places}, side {side}")
    }
}

// Whether two sides of a route have one in common.
fn share_side(one: Side, other: Side) -> bool
    ensures { result ≡ spec.share_side one other }
{
    (has_side(one, LinkSide::Left) && has_side(other, LinkSide::Left))
        || (has_side(one, LinkSide::Right) && has_side(other, LinkSide::Right))
}

// Whether a row has a millimetre of a stretch, on a side that it shares with this one.
fn meets(side: Side, stretch: RouteStretch, row: &Span) -> bool
    ensures { result ≡ spec.meets side stretch row.now }
{
    row.from < stretch.to() && stretch.from() < row.to && share_side(side, row.side)
}

// The first of these rows that has one.
fn first_of(rows: &[Span], side: Side, stretch: RouteStretch) -> Option<&Span>
    ensures { option_map (λ row. row.now) result ≡ find (spec.meets side stretch) rows.now }
{
    rows.iter().find(|row| meets(side, stretch, *row))
}

// The first row of an asset on a route that has one.
fn first_met<'a>(
    route_row: &'a RouteRow,
    asset: &Asset,
    side: Side,
    stretch: RouteStretch,
) -> Option<&'a Span>
    ensures { option_map (λ row. row.now) result
        ≡ spec.first_met asset.now side stretch route_row.now }
{
    let rows = route_row.spans.asset_rows(asset.class, asset.number);
    first_of(rows, side, stretch)
}

// A row of a route, with its name.
fn found_row(route: RouteName, row: &Span) -> FoundRow
    ensures { result ≡ row_of_span route row.now }
{
    FoundRow {
        route,
        from: row.from,
        to: row.to,
        side: row.side,
    }
}

// The first row of an asset that a new one would lie over, on the route of the new one.
fn lain_over_on(
    inventory: &Inventory,
    route_row: &RouteRow,
    asked: &NewAsset,
    asset: &Asset,
) -> Option<FoundRow>
    requires known { IsRouteIn inventory.now route_row.now }
    requires named { find (is_named asked.now.route) inventory.now.routes ≡ Some route_row.now }
    ensures { IfSome result (spec.IsLainOver inventory.now asked.now asset.now) }
{
    let Ok(stretch) = inventory.stretch(route_row, asked.location) else {
        return None;
    };
    match first_met(route_row, asset, asked.side, stretch) {
        Some(row) => Some(found_row(route_row.route.name, row)),
        None => None,
    }
}

// The same of the route by its name.
fn lain_over(inventory: &Inventory, asked: &NewAsset, asset: &Asset) -> Option<FoundRow>
    ensures { IfSome result (spec.IsLainOver inventory.now asked.now asset.now) }
{
    match inventory.route(&asked.route) {
        Some(route_row) => lain_over_on(inventory, route_row, asked, asset),
        None => None,
    }
}

// The first of these rows on the route of a name.
fn found_on<'a>(rows: &'a [FoundRow], route: &RouteName) -> Option<&'a FoundRow>
    ensures { option_map (λ row. row.now) result ≡ find (λ r. same_name r.route route.now) rows.now }
{
    rows.iter().find(|row| row.route == *route)
}

// The same, or else the first of all.
fn first_on<'a>(rows: &'a [FoundRow], route: &RouteName) -> Option<&'a FoundRow>
    ensures { option_map (λ row. row.now) result ≡ spec.first_on route.now rows.now }
{
    match found_on(rows, route) {
        Some(row) => Some(row),
        None => rows.first(),
    }
}

// The first row of the asset of a number on the route of a name, or else on the first route that has one.
fn first_found(
    alloc: Global,
    inventory: &Inventory,
    route: &RouteName,
    number: u64,
) -> Option<FoundRow>
    ensures { IfSome result (λ row. spec.first_on route.now
        (all_rows_of (state_of inventory.now) number) ≡ Some row) }
{
    match find(alloc, inventory, number) {
        Ok(rows) => first_on(rows.as_slice(), route).copied(),
        Err(_) => None,
    }
}

// The places that a row names of an asset of this kind.
fn places_of_row(kind: Kind, row: &FoundRow) -> Places
    ensures { result ≡ spec.places_of_row kind row.now }
{
    let from = Place::Chainage(row.from);
    match kind {
        Kind::Point => Places::At(from),
        Kind::Stretch | Kind::Exclusive => Places::Between(from, Place::Chainage(row.to)),
    }
}

// How a row of an asset is told.
fn holding_at(inventory: &Inventory, asset: Asset, row: &FoundRow) -> Option<Holding> {
    let kind = inventory.class(&asset.class)?;
    let route_row = inventory.route(&row.route)?;
    Some(Holding {
        asset,
        route: row.route,
        places: understood(&route_row.route, &places_of_row(kind, row))?,
        side: row.side,
    })
}

/// Where the asset of a number lies over which a new one would lie: its first stretch that the new one meets.
pub(crate) fn holding_below(
    inventory: &Inventory,
    asked: &NewAsset,
    number: u64,
) -> Option<Holding> {
    let asset = inventory.asset(number)?;
    let row = lain_over(inventory, asked, &asset)?;
    holding_at(inventory, asset, &row)
}

/// Where the asset of a number lies: its first stretch on the route of a name, or else on the first route that has one.
pub(crate) fn holding_of(
    alloc: Global,
    inventory: &Inventory,
    route: &RouteName,
    number: u64,
) -> Option<Holding> {
    let asset = inventory.asset(number)?;
    let row = first_found(alloc, inventory, route, number)?;
    holding_at(inventory, asset, &row)
}
