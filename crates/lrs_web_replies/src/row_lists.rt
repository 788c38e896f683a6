//! Rows of an inventory as replies.

ghost use Rattle.std.specs.Prelude.{◌≡◌, ◌≤◌, [], IfOk, OnOk, filter, length, true};
ghost use Rattle.std.specs.List.{AllByRecursion, flat_map};
ghost use Rattle.std.specs.Option.{option_map, option_map_or};
ghost use Rattle.serde_json.specs.Written.{compact_text};
ghost use Rattle.lrs_measure.specs.Lists.{each_two};
ghost use Rattle.lrs_element.specs.Pieces.{IsFilled};
ghost use Rattle.lrs_machine.specs.Sound.{IsSound, asset_before, route_before};
ghost use Rattle.lrs_image.specs.OpenLists.{image_of};
ghost use Rattle.lrs_report_lists.specs.PlacedPieces.{placed_from, placed_pieces};
ghost use Rattle.lrs_report_lists.specs.WantedRows.{is_of_route};
ghost use Rattle.lrs_web_requests.specs.Text.{answer_of};
ghost use Rattle.lrs_web_replies.specs.Listings.{link_row_data, link_row_items, row_data_with, row_items, row_items_with, rows_answer, rows_data, rows_of};
ghost use Rattle.lrs_web_replies.specs.PagedText.{add_all, add_one};

use crate::entries::{link_row_value, row_value};
use crate::lines::rows_lines;
use crate::paged_text::PagedText;
use crate::pages::Page;
use crate::reply::{csv_reply, found_reply};
use lrs_element::Piece;
use lrs_events::{Asset, Span};
use lrs_image::ImageLists;
use lrs_inventory::Inventory;
use lrs_machine::{RouteRow, RowForm, RowsWanted};
use lrs_ordered::Chunked;
use lrs_position::Route;
use lrs_report_lists::{LinkStretch, asset_numbered, on_piece, rows_in_road_order};
use lrs_web_requests::{Format, Response};
use std::alloc::{AllocError, Global};

/// Adds a row of a known asset, or of none, on its route.
fn add_on_route(
    alloc: Global,
    text: &mut PagedText,
    asset: Option<&Asset>,
    route: &Route,
    row: &Span,
) -> Result<(), AllocError>
    ensures { OnOk result (text.new ≡ add_one text.old (row_data_with (option_map (λ a. a.now)
        asset.entry) route.now row.now)) }
{
    let value = row_value(alloc, asset, route, row)?;
    text.add(alloc, value)
}

/// Adds what a row holds of a link.
fn add_stretch(
    alloc: Global,
    text: &mut PagedText,
    asset: Option<&Asset>,
    route: &Route,
    row: &Span,
    stretch: LinkStretch,
) -> Result<(), AllocError>
    ensures { OnOk result (text.new ≡ add_one text.old (link_row_data (option_map (λ a. a.now)
        asset.entry) route.now row.now stretch)) }
{
    let value = link_row_value(alloc, asset, route, row, stretch)?;
    text.add(alloc, value)
}

/// Adds what a row has of a piece that begins at chainage `start`, where it has a millimetre of it.
fn add_on_piece(
    alloc: Global,
    text: &mut PagedText,
    asset: Option<&Asset>,
    route: &Route,
    row: &Span,
    start: u64,
    piece: Piece,
) -> Result<(), AllocError>
    requires { IsFilled piece }
    ensures { OnOk result (text.new ≡ add_all text.old (link_row_items (option_map (λ a. a.now)
        asset.entry) route.now row.now (start, piece))) }
{
    match on_piece(row, start, piece) {
        Some(stretch) => add_stretch(alloc, text, asset, route, row, stretch),
        None => Ok(()),
    }
}

/// Adds what a row has of the pieces of its route.
fn add_on_pieces(
    alloc: Global,
    text: &mut PagedText,
    asset: Option<&Asset>,
    route: &Route,
    row: &Span,
    pieces: &[Piece],
) -> Result<(), AllocError>
    requires filled { AllByRecursion IsFilled pieces.now }
    requires few { length pieces.now ≤ 1_000 }
    ensures { OnOk result (text.new ≡ add_all text.old (flat_map (link_row_items (option_map (λ a.
        a.now) asset.entry) route.now row.now) (placed_from 0 pieces.now))) }
{
    let mut start = 0;
    for piece in pieces {
        add_on_piece(alloc, text, asset, route, row, start, *piece)?;
        start += piece.len();
    }
    Ok(())
}

/// Adds what a row of a route holds, on the links under it.
fn add_on_links(
    alloc: Global,
    text: &mut PagedText,
    asset: Option<&Asset>,
    route: &Route,
    row: &Span,
) -> Result<(), AllocError>
    ensures { OnOk result (text.new ≡ add_all text.old (flat_map (link_row_items (option_map (λ a.
        a.now) asset.entry) route.now row.now) (placed_pieces route.now.course))) }
{
    add_on_pieces(alloc, text, asset, route, row, route.course.pieces())
}

/// Adds a row of a known asset, or of none, in a form.
fn add_row_with(
    alloc: Global,
    text: &mut PagedText,
    form: RowForm,
    asset: Option<&Asset>,
    route: &Route,
    row: &Span,
) -> Result<(), AllocError>
    ensures { OnOk result (text.new ≡ add_all text.old (row_items_with form (option_map (λ a.
        a.now) asset.entry) route.now row.now)) }
{
    match form {
        RowForm::Decimal | RowForm::Exact => add_on_route(alloc, text, asset, route, row),
        RowForm::OnLinks => add_on_links(alloc, text, asset, route, row),
    }
}

#[tactic(auto, using(crate::proofs::Paging::full_stays))]
fn add_row(
    alloc: Global,
    text: &mut PagedText,
    form: RowForm,
    assets: &Chunked<Asset>,
    route: &Route,
    row: &Span,
) -> Result<(), AllocError>
    requires order { each_two asset_before assets.now.rows ≡ true }
    ensures { OnOk result (text.new ≡ add_all text.old (row_items form assets.now.rows route.now
        row.now)) }
{
    if text.is_full() {
        return Ok(());
    }
    let asset = asset_numbered(assets, row.asset);
    add_row_with(alloc, text, form, asset, route, row)
}

fn add_rows_on(
    alloc: Global,
    text: &mut PagedText,
    form: RowForm,
    assets: &Chunked<Asset>,
    route: &Route,
    rows: &[Span],
) -> Result<(), AllocError>
    requires order { each_two asset_before assets.now.rows ≡ true }
    ensures { OnOk result (text.new ≡ add_all text.old (flat_map (row_items form assets.now.rows
        route.now) rows.now)) }
{
    for row in rows {
        add_row(alloc, text, form, assets, route, row)?;
    }
    Ok(())
}

/// Adds the rows of a route that are asked for, in the order of the road.
#[tactic(auto, using(crate::proofs::Paging::full_stays))]
fn add_rows_of(
    alloc: Global,
    text: &mut PagedText,
    wanted: &RowsWanted,
    assets: &Chunked<Asset>,
    route_row: &RouteRow,
) -> Result<(), AllocError>
    requires order { each_two asset_before assets.now.rows ≡ true }
    ensures { OnOk result (text.new ≡ add_all text.old (rows_of wanted.now assets.now.rows
        route_row.now)) }
{
    if text.is_full() {
        return Ok(());
    }
    let route = &route_row.route;
    let rows = rows_in_road_order(alloc, wanted, route_row.spans.rows())?;
    add_rows_on(alloc, text, wanted.form, assets, route, &rows)
}

fn add_each_row(
    alloc: Global,
    text: &mut PagedText,
    wanted: &RowsWanted,
    assets: &Chunked<Asset>,
    routes: &Chunked<RouteRow>,
) -> Result<(), AllocError>
    requires order { each_two asset_before assets.now.rows ≡ true }
    ensures { OnOk result (text.new ≡ add_all text.old (flat_map (rows_of wanted.now
        assets.now.rows) routes.now.rows)) }
{
    for route_row in routes.iter() {
        add_rows_of(alloc, text, wanted, assets, route_row)?;
    }
    Ok(())
}

/// Adds the rows that are asked for of one route, if there is one.
fn add_rows_of_some(
    alloc: Global,
    text: &mut PagedText,
    wanted: &RowsWanted,
    assets: &Chunked<Asset>,
    route_row: Option<&RouteRow>,
) -> Result<(), AllocError>
    requires order { each_two asset_before assets.now.rows ≡ true }
    ensures { OnOk result (text.new ≡ add_all text.old (option_map_or (rows_of wanted.now
        assets.now.rows) (option_map (λ e. e.now) route_row.entry) [])) }
{
    match route_row {
        Some(route_row) => add_rows_of(alloc, text, wanted, assets, route_row),
        None => Ok(()),
    }
}

/// Adds the rows that are asked for. A route that is named is found by search.
fn add_asked_rows(
    alloc: Global,
    text: &mut PagedText,
    wanted: &RowsWanted,
    assets: &Chunked<Asset>,
    routes: &Chunked<RouteRow>,
) -> Result<(), AllocError>
    requires assets_order { each_two asset_before assets.now.rows ≡ true }
    requires routes_order { each_two route_before routes.now.rows ≡ true }
    ensures { OnOk result (text.new ≡ add_all text.old (flat_map (rows_of wanted.now
        assets.now.rows) (filter (is_of_route wanted.now.route) routes.now.rows))) }
{
    match &wanted.route {
        Some(name) => add_rows_of_some(alloc, text, wanted, assets, routes.find(name)),
        None => add_each_row(alloc, text, wanted, assets, routes),
    }
}

fn rows_json(
    alloc: Global,
    most: usize,
    page: Page,
    kept: &ImageLists,
    wanted: &RowsWanted,
) -> Result<Vec<u8>, AllocError>
    requires sound { IsSound (image_of kept.now) }
    ensures { IfOk result (λ bytes. bytes.items
        ≡ compact_text (rows_data page wanted.now (image_of kept.now))) }
{
    let mut text = PagedText::begin(alloc, most, page, "rows")?;
    add_asked_rows(alloc, &mut text, wanted, &kept.assets, &kept.routes)?;
    text.end()
}

/// The reply with the rows of an inventory that are asked for, in a format.
///
/// # Errors
/// When memory or so many bytes do not suffice.
pub(crate) fn rows_reply(
    alloc: Global,
    most: usize,
    format: Format,
    page: Page,
    inventory: &Inventory,
    wanted: &RowsWanted,
) -> Result<Response, AllocError>
    ensures { IfOk result (λ reply. answer_of reply
        ≡ rows_answer format page inventory.now wanted.now) }
{
    let kept = inventory.kept();
    match format {
        Format::Json => Ok(found_reply(rows_json(alloc, most, page, kept, wanted)?)),
        Format::Csv => Ok(csv_reply(rows_lines(alloc, most, kept, wanted)?)),
    }
}
