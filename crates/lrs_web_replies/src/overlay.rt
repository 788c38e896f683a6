//! The values of exclusive classes side by side, as replies.

ghost use Rattle.std.specs.Prelude.{◌≡◌, ◌++◌, IfOk, OnOk, Some};
ghost use Rattle.std.specs.List.{flat_map};
ghost use Rattle.serde_json.specs.View.{view};
ghost use Rattle.serde_json.specs.Written.{compact_text};
ghost use Rattle.lrs_measure.specs.Lists.{In};
ghost use Rattle.lrs_report.specs.Sweep.{run_of};
ghost use Rattle.lrs_report_answers.specs.Overlay.{overlay_text};
ghost use Rattle.lrs_report_lists.specs.Lists.{routes_named};
ghost use Rattle.lrs_web_requests.specs.Text.{answer_of};
ghost use Rattle.lrs_web_replies.specs.Overlay.{overlay_answer, overlay_data, overlay_item, overlay_items, segment_items, side_items};
ghost use Rattle.lrs_web_replies.specs.PagedText.{add_all, add_one};

use crate::bounded::BoundedBytes;
use crate::class_values::with_held;
use crate::entries::{decimal_at, measure_at};
use crate::members::{Member, Scalar, members_of};
use crate::paged_text::PagedText;
use crate::pages::Page;
use crate::reply::{csv_reply, found_reply};
use lrs_events::LinkSide;
use lrs_inventory::Inventory;
use lrs_machine::{OverlayWanted, RouteRow, Segment};
use lrs_position::{Route, RouteName};
use lrs_report_answers::{RouteSegments, is_segment_wanted, overlay_segments, write_overlay};
use lrs_report_lists::link_side_text;
use lrs_web_requests::{Format, Response};
use serde_json::Value;
use std::alloc::{AllocError, Global};

// ---- a segment

fn segment_value(
    alloc: Global,
    route: &Route,
    side: LinkSide,
    segment: &Segment,
) -> Result<Value, AllocError>
    ensures { IfOk result (λ value. view value
        ≡ overlay_item route.now side (run_of segment.now)) }
{
    let members = members_of(
        alloc,
        &[
            Member("from", Scalar::Whole(segment.from)),
            Member("from_measure", measure_at(route, segment.from)),
            Member("from_measure_decimal", decimal_at(route, segment.from)),
            Member("route", Scalar::Route(route.name)),
            Member("side", Scalar::Word(link_side_text(side))),
            Member("to", Scalar::Whole(segment.to)),
            Member("to_measure", measure_at(route, segment.to)),
            Member("to_measure_decimal", decimal_at(route, segment.to)),
        ],
    )?;
    with_held(alloc, members, segment.values.as_slice())
}

// ---- the segments that are asked for

fn add_segment(
    alloc: Global,
    text: &mut PagedText,
    route: &Route,
    side: LinkSide,
    segment: &Segment,
) -> Result<(), AllocError>
    ensures { OnOk result (text.new ≡ add_one text.old (overlay_item route.now side (run_of
        segment.now))) }
{
    let value = segment_value(alloc, route, side, segment)?;
    text.add(alloc, value)
}

/// Adds a segment where it is asked for.
#[tactic(auto, using(crate::proofs::Paging::full_stays))]
fn add_wanted_segment(
    alloc: Global,
    text: &mut PagedText,
    wanted: &OverlayWanted,
    route: &Route,
    side: LinkSide,
    segment: &Segment,
) -> Result<(), AllocError>
    ensures { OnOk result (text.new ≡ add_all text.old (segment_items wanted.now route.now side
        segment.now)) }
{
    if text.is_full() {
        return Ok(());
    }
    if is_segment_wanted(wanted, segment) {
        return add_segment(alloc, text, route, side, segment);
    }
    Ok(())
}

/// Adds the segments that are asked for, which are made one by one.
fn add_wanted_segments(
    alloc: Global,
    text: &mut PagedText,
    wanted: &OverlayWanted,
    route: &Route,
    side: LinkSide,
    mut segments: RouteSegments<'_>,
) -> Result<(), AllocError>
    ensures { OnOk result (text.new ≡ add_all text.old (flat_map (segment_items wanted.now
        route.now side) segments.entry)) }
{
    while let Some(segment) = segments.first() {
        add_wanted_segment(alloc, text, wanted, route, side, segment)?;
        segments.pass();
    }
    Ok(())
}

// The classes are known and exclusive where an overlay is told, so memory alone is wanting where there are no segments.
#[tactic(auto, using(crate::proofs::Paging::full_stays))]
fn add_on_side(
    alloc: Global,
    text: &mut PagedText,
    inventory: &Inventory,
    wanted: &OverlayWanted,
    route_row: &RouteRow,
    side: LinkSide,
) -> Result<(), AllocError>
    requires known { In route_row.now inventory.now.routes }
    ensures { OnOk result (text.new ≡ add_all text.old (side_items inventory.now wanted.now
        route_row.now side)) }
{
    if text.is_full() {
        return Ok(());
    }
    let classes = wanted.classes.as_slice();
    match overlay_segments(alloc, inventory, route_row, classes, side) {
        Ok(segments) => {
            let route = &route_row.route;
            add_wanted_segments(alloc, text, wanted, route, side, segments)
        }
        Err(_) => Err(AllocError),
    }
}

/// Adds the segments of the left side of a route, and then those of the right one.
fn add_both_sides(
    alloc: Global,
    text: &mut PagedText,
    inventory: &Inventory,
    wanted: &OverlayWanted,
    route_row: &RouteRow,
) -> Result<(), AllocError>
    requires known { In route_row.now inventory.now.routes }
    ensures { OnOk result (text.new ≡ add_all text.old (side_items inventory.now wanted.now
        route_row.now LinkSide.Left ++ side_items inventory.now wanted.now route_row.now
        LinkSide.Right)) }
{
    let (left, right) = (LinkSide::Left, LinkSide::Right);
    add_on_side(alloc, text, inventory, wanted, route_row, left)?;
    add_on_side(alloc, text, inventory, wanted, route_row, right)
}

/// Adds the segments of a route, of both sides or of the one that is asked for.
fn add_sides(
    alloc: Global,
    text: &mut PagedText,
    inventory: &Inventory,
    wanted: &OverlayWanted,
    route_row: &RouteRow,
) -> Result<(), AllocError>
    requires known { In route_row.now inventory.now.routes }
    ensures { OnOk result (text.new ≡ add_all text.old (overlay_items inventory.now wanted.now
        route_row.now)) }
{
    match wanted.side {
        Some(side) => add_on_side(alloc, text, inventory, wanted, route_row, side),
        None => add_both_sides(alloc, text, inventory, wanted, route_row),
    }
}

fn add_each_route(
    alloc: Global,
    text: &mut PagedText,
    inventory: &Inventory,
    wanted: &OverlayWanted,
) -> Result<(), AllocError>
    ensures { OnOk result (text.new ≡ add_all text.old (flat_map (overlay_items inventory.now
        wanted.now) inventory.now.routes)) }
{
    for route_row in inventory.kept().routes.iter() {
        add_sides(alloc, text, inventory, wanted, route_row)?;
    }
    Ok(())
}

/// Adds the segments of the route of a name, if there is one.
fn add_named_route(
    alloc: Global,
    text: &mut PagedText,
    inventory: &Inventory,
    wanted: &OverlayWanted,
    name: &RouteName,
) -> Result<(), AllocError>
    ensures { OnOk result (text.new ≡ add_all text.old (flat_map (overlay_items inventory.now
        wanted.now) (routes_named (Some name.now) inventory.now))) }
{
    // For the prover alone: no two routes have one name.
    inventory.prove_sound();
    match inventory.route(name) {
        Some(route_row) => add_sides(alloc, text, inventory, wanted, route_row),
        None => Ok(()),
    }
}

/// Adds the segments of the routes that are asked for. A route that is named is found by search.
fn add_asked_routes(
    alloc: Global,
    text: &mut PagedText,
    inventory: &Inventory,
    wanted: &OverlayWanted,
) -> Result<(), AllocError>
    ensures { OnOk result (text.new ≡ add_all text.old (flat_map (overlay_items inventory.now
        wanted.now) (routes_named wanted.now.route inventory.now))) }
{
    match &wanted.route {
        Some(name) => add_named_route(alloc, text, inventory, wanted, name),
        None => add_each_route(alloc, text, inventory, wanted),
    }
}

fn overlay_json(
    alloc: Global,
    most: usize,
    page: Page,
    inventory: &Inventory,
    wanted: &OverlayWanted,
) -> Result<Vec<u8>, AllocError>
    ensures { IfOk result (λ bytes. bytes.items
        ≡ compact_text (overlay_data page wanted.now inventory.now)) }
{
    let mut text = PagedText::begin(alloc, most, page, "overlay")?;
    add_asked_routes(alloc, &mut text, inventory, wanted)?;
    text.end()
}

// It takes every byte that it is given, unless it has no room for it or memory runs out.
fn overlay_lines(
    alloc: Global,
    most: usize,
    inventory: &Inventory,
    wanted: &OverlayWanted,
) -> Result<Vec<u8>, AllocError>
    ensures { IfOk result (λ bytes. bytes.items ≡ overlay_text wanted.now inventory.now) }
{
    let mut text = BoundedBytes::new(alloc, most);
    match write_overlay(alloc, &mut text, inventory, wanted) {
        Ok(()) => Ok(text.bytes),
        Err(_) => Err(AllocError),
    }
}

/// The reply with the segments that are asked for, and the values of the classes side by side, in a format.
///
/// # Errors
/// When memory or so many bytes do not suffice.
pub(crate) fn overlay_reply(
    alloc: Global,
    most: usize,
    format: Format,
    page: Page,
    inventory: &Inventory,
    wanted: &OverlayWanted,
) -> Result<Response, AllocError>
    ensures { IfOk result (λ reply. answer_of reply
        ≡ overlay_answer format page inventory.now wanted.now) }
{
    match format {
        Format::Json => Ok(found_reply(overlay_json(alloc, most, page, inventory, wanted)?)),
        Format::Csv => Ok(csv_reply(overlay_lines(alloc, most, inventory, wanted)?)),
    }
}
