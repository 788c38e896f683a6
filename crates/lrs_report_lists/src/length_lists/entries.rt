//! What rows hold, as stretches of one axis along which the routes lie one behind the other.

ghost use Rattle.std.specs.Prelude.{◌≡◌, ◌+◌, ◌<◌, ◌^◌, ◌++◌, true, filter, sum_by, All, IfOk, OnOk};
ghost use Rattle.std.specs.List.{list_all};
ghost use Rattle.std.specs.Option.{option_map};
ghost use Rattle.lrs_measure.specs.Lists.{each_two};
ghost use Rattle.lrs_machine.specs.Sound.{asset_before, route_before};
ghost use Rattle.lrs_report_lists.specs.WantedRows.{is_of_route};
ghost use Rattle.lrs_report_lists.specs.Length.Parts.{FitsFrom, entries_of, entries_on, entry_of, has_rows_on, known_entry, list_of, route_length, row_entry};

use crate::length_lists::assets::asset_numbered;
use lrs_events::{Asset, ClassName, Side, Span, Value};
use lrs_machine::RouteRow;
use lrs_ordered::Chunked;
use lrs_position::RouteName;
use std::alloc::{AllocError, Global};

/// A stretch that an asset of a class and a value holds, in millimetres of an axis along which routes lie one behind the other.
#[derive(Clone, Copy)]
pub(crate) struct LengthEntry {
    pub asset: u64,
    pub class: ClassName,
    pub value: Value,
    pub from: u64,
    pub to: u64,
    pub side: Side,
}

/// What an asset holds by a row of the route that begins there.
fn entry_of(start: u64, row: &Span, asset: &Asset) -> LengthEntry
    requires from { start + row.now.from < 2 ^ 64 }
    requires to { start + row.now.to < 2 ^ 64 }
    ensures { result ≡ entry_of start row.now asset.now }
{
    LengthEntry {
        asset: row.asset,
        class: row.class,
        value: asset.value,
        from: start + row.from,
        to: start + row.to,
        side: row.side,
    }
}

/// Adds what a known asset holds by a row, or nothing where there is no asset.
fn push_known(
    entries: &mut Vec<LengthEntry>,
    start: u64,
    row: &Span,
    asset: Option<&Asset>,
) -> Result<(), AllocError>
    requires from { start + row.now.from < 2 ^ 64 }
    requires to { start + row.now.to < 2 ^ 64 }
    ensures { OnOk result (entries.new.items ≡ entries.old.items
        ++ known_entry start row.now (option_map (λ a. a.now) asset.entry)) }
{
    match asset {
        Some(asset) => {
            entries.push(entry_of(start, row, asset))?;
            Ok(())
        }
        None => Ok(()),
    }
}

fn push_row(
    entries: &mut Vec<LengthEntry>,
    assets: &Chunked<Asset>,
    start: u64,
    row: &Span,
) -> Result<(), AllocError>
    requires order { each_two asset_before assets.now.rows ≡ true }
    requires from { start + row.now.from < 2 ^ 64 }
    requires to { start + row.now.to < 2 ^ 64 }
    ensures { OnOk result (entries.new.items ≡ entries.old.items
        ++ row_entry assets.now.rows start row.now) }
{
    push_known(entries, start, row, asset_numbered(assets, row.asset))
}

fn push_rows(
    entries: &mut Vec<LengthEntry>,
    assets: &Chunked<Asset>,
    start: u64,
    rows: &[Span],
) -> Result<(), AllocError>
    requires order { each_two asset_before assets.now.rows ≡ true }
    requires fit { All (FitsFrom start) rows.now }
    ensures { OnOk result (entries.new.items ≡ entries.old.items
        ++ entries_on assets.now.rows start rows.now) }
{
    for row in rows {
        push_row(entries, assets, start, row)?;
    }
    Ok(())
}

/// Adds what the rows of a route hold, which begins there.
fn push_route(
    entries: &mut Vec<LengthEntry>,
    assets: &Chunked<Asset>,
    start: u64,
    route_row: &RouteRow,
) -> Result<(), AllocError>
    requires order { each_two asset_before assets.now.rows ≡ true }
    requires rows { has_rows_on route_row.now ≡ true }
    requires fits { start + route_length route_row.now < 2 ^ 64 }
    ensures { OnOk result (entries.new.items ≡ entries.old.items
        ++ entries_on assets.now.rows start route_row.now.spans) }
{
    push_rows(entries, assets, start, route_row.spans.rows())
}

/// What the rows of all routes hold.
fn all_entries(
    alloc: Global,
    assets: &Chunked<Asset>,
    routes: &Chunked<RouteRow>,
) -> Result<Vec<LengthEntry>, AllocError>
    requires order { each_two asset_before assets.now.rows ≡ true }
    requires rows { list_all has_rows_on routes.now.rows ≡ true }
    requires fit { sum_by route_length routes.now.rows < 2 ^ 64 }
    ensures { IfOk result (λ entries. entries.items
        ≡ entries_of assets.now.rows 0 routes.now.rows) }
{
    let mut entries = Vec::new(alloc);
    let mut start = 0;
    for route_row in routes.iter() {
        push_route(&mut entries, assets, start, route_row)?;
        start += route_row.route.length();
    }
    Ok(entries)
}

/// What the rows of one route hold.
fn route_entries(
    alloc: Global,
    assets: &Chunked<Asset>,
    route_row: &RouteRow,
) -> Result<Vec<LengthEntry>, AllocError>
    requires order { each_two asset_before assets.now.rows ≡ true }
    requires rows { has_rows_on route_row.now ≡ true }
    requires fits { route_length route_row.now < 2 ^ 64 }
    ensures { IfOk result (λ entries. entries.items
        ≡ entries_on assets.now.rows 0 route_row.now.spans) }
{
    let mut entries = Vec::new(alloc);
    push_route(&mut entries, assets, 0, route_row)?;
    Ok(entries)
}

/// What the rows of a route hold, if there is one.
fn found_entries(
    alloc: Global,
    assets: &Chunked<Asset>,
    route_row: Option<&RouteRow>,
) -> Result<Vec<LengthEntry>, AllocError>
    requires order { each_two asset_before assets.now.rows ≡ true }
    requires rows { list_all has_rows_on (list_of (option_map (λ e. e.now) route_row)) ≡ true }
    requires fit { sum_by route_length (list_of (option_map (λ e. e.now) route_row)) < 2 ^ 64 }
    ensures { IfOk result (λ entries. entries.items ≡ entries_of assets.now.rows 0
        (list_of (option_map (λ e. e.now) route_row.entry))) }
{
    match route_row {
        Some(route_row) => route_entries(alloc, assets, route_row),
        None => Ok(Vec::new(alloc)),
    }
}

/// What the rows of the route of a name hold, or those of all routes. A route that is named is found by search.
pub(crate) fn wanted_entries(
    alloc: Global,
    assets: &Chunked<Asset>,
    routes: &Chunked<RouteRow>,
    route: Option<&RouteName>,
) -> Result<Vec<LengthEntry>, AllocError>
    requires assets_order { each_two asset_before assets.now.rows ≡ true }
    requires routes_order { each_two route_before routes.now.rows ≡ true }
    requires rows { list_all has_rows_on routes.now.rows ≡ true }
    requires fit { sum_by route_length routes.now.rows < 2 ^ 64 }
    ensures { IfOk result (λ entries. entries.items ≡ entries_of assets.now.rows 0
        (filter (is_of_route (option_map (λ r. r.now) route.entry)) routes.now.rows)) }
{
    match route {
        Some(name) => found_entries(alloc, assets, routes.find(name)),
        None => all_entries(alloc, assets, routes),
    }
}
