//! Routes with their spans.

ghost use Rattle.std.specs.Prelude.{◌≡◌, true, List, Ok, Err, IfOk};
ghost use Rattle.std.specs.List.Sorted.{IsSortedBy};
ghost use Rattle.std.specs.Option.{option_map};
ghost use Rattle.lrs_measure.specs.Lists.{each_two};
ghost use Rattle.lrs_element.specs.declared.link.Link.{Link};
ghost use Rattle.lrs_machine.specs.declared.table.Table.{Table as DeclaredTable};
ghost use Rattle.lrs_machine.specs.declared.table.Table.TheVariants as table;
ghost use Rattle.lrs_machine.specs.Sound.{asset_before, class_before, are_courses};
ghost use Rattle.lrs_store_tables.specs.Contents.Decoders.{each_of};
ghost use Rattle.lrs_store_tables.specs.Contents.Content.{read, entries_of};
ghost use Rattle.lrs_store_image.specs.DecodedRoutes.Courses.{passing};
ghost use Rattle.lrs_store_image.specs.DecodedRoutes.Groups.{route_before};
ghost use Rattle.lrs_store_image.specs.declared.route_decoder.fault.RowsFault.TheVariants as RowsFault;
ghost use Rattle.lrs_store_image.specs.DecodedRoutes.Spans.{named_before, agree_said, canonical_entry, courses_over, are_sound};

use crate::route_decoder::canonical_rows::canonical;
use crate::route_decoder::decode_spans::spans_said;
use crate::{OfRoute, RowsFault, SpanCells, said_of, sort_by_route};
use lrs_events::{Asset, Class, Span, Spans};
use lrs_image_sound::are_spans;
use lrs_machine::{RouteRow, Table};
use lrs_position::Route;
use std::alloc::{AllocError, Global};

/// A route with its spans, if these are canonical.
fn row_of(
    alloc: Global,
    said: &[OfRoute<Span>],
    route: Route,
) -> Result<Option<RouteRow>, AllocError>
    requires sorted { IsSortedBy route_before said.now }
    requires agree { each_two agree_said said.now ≡ true }
    ensures { IfOk result (λ found. found ≡ canonical_entry said.now route) }
{
    let rows = said_of(alloc, said, &route.name)?;
    let Some(sorted) = canonical(rows) else {
        return Ok(None);
    };
    let spans = Spans::of_rows(alloc, sorted)?;
    Ok(Some(RouteRow { route, spans }))
}

/// Routes with their spans, if these are canonical.
fn entries_with(
    alloc: Global,
    said: &[OfRoute<Span>],
    routes: Vec<Route>,
) -> Result<Option<Vec<RouteRow>>, AllocError>
    requires sorted { IsSortedBy route_before said.now }
    requires agree { each_two agree_said said.now ≡ true }
    ensures { IfOk result (λ found. option_map (λ v. v.items) found
        ≡ each_of (canonical_entry said.now) routes.items) }
{
    let mut entries = Vec::new(alloc);
    for route in routes {
        let Some(route_row) = row_of(alloc, said, route)? else {
            return Ok(None);
        };
        entries.push(route_row)?;
    }
    Ok(Some(entries))
}

/// Routes with their spans, if these are sound.
fn sound_entries(
    alloc: Global,
    classes: &[Class],
    assets: &[Asset],
    said: &[OfRoute<Span>],
    routes: Vec<Route>,
) -> Result<Option<Vec<RouteRow>>, AllocError>
    requires classes { each_two class_before classes.now ≡ true }
    requires assets { each_two asset_before assets.now ≡ true }
    requires sorted { IsSortedBy route_before said.now }
    requires agree { each_two agree_said said.now ≡ true }
    ensures { IfOk result (λ found. (links : List Link)
        → are_courses links (courses_over routes.items) ≡ true
        → option_map (λ v. v.items) found ≡ passing
        (each_of (canonical_entry said.now) routes.items)
        (are_sound links classes.now assets.now)) }
{
    let Some(entries) = entries_with(alloc, said, routes)? else {
        return Ok(None);
    };
    let sound = are_spans(alloc, classes, assets, &entries)?;
    if !sound {
        return Ok(None);
    }
    Ok(Some(entries))
}

/// Routes with the spans that rows say, if the table of spans is sound.
fn entries_said(
    alloc: Global,
    classes: &[Class],
    assets: &[Asset],
    rows: &[SpanCells<'_>],
    routes: Vec<Route>,
) -> Result<Option<Vec<RouteRow>>, AllocError>
    requires classes { each_two class_before classes.now ≡ true }
    requires assets { each_two asset_before assets.now ≡ true }
    requires routes { each_two named_before routes.items ≡ true }
    ensures { IfOk result (λ found. (links : List Link)
        → are_courses links (courses_over routes.items) ≡ true
        → option_map (λ v. v.items) found ≡ passing (entries_of assets.now rows.now routes.items)
        (are_sound links classes.now assets.now)) }
{
    let Some(mut said) = spans_said(alloc, assets, &routes, rows)? else {
        return Ok(None);
    };
    sort_by_route(&mut said);
    sound_entries(alloc, classes, assets, &said, routes)
}

/// The routes with their spans, from the rows of the table of spans in any order, beside classes in the order of
/// their names, assets in the order of their numbers and routes in the order of their names, whose courses are
/// sound beside some links. It takes time in O(n log n) for n rows, assets and routes.
///
/// # Errors
/// `Unsound` where the table of spans is unsound, and `Memory`.
pub fn read_spans(
    alloc: Global,
    classes: &[Class],
    assets: &[Asset],
    rows: &[SpanCells<'_>],
    routes: Vec<Route>,
) -> Result<Vec<RouteRow>, RowsFault>
    requires classes { each_two class_before classes.now ≡ true }
    requires assets { each_two asset_before assets.now ≡ true }
    requires routes { each_two named_before routes.items ≡ true }
    ensures entries { IfOk result (λ entries. (links : List Link)
        → are_courses links (courses_over routes.items) ≡ true
        → read table.Span (entries_of assets.now rows.now routes.items)
        (are_sound links classes.now assets.now) ≡ Ok entries.items) }
    ensures unsound { (t : DeclaredTable) → result ≡ Err (RowsFault.Unsound t) → (links : List Link)
        → are_courses links (courses_over routes.items) ≡ true
        → read table.Span (entries_of assets.now rows.now routes.items)
        (are_sound links classes.now assets.now) ≡ Err t }
{
    let found = entries_said(alloc, classes, assets, rows, routes)?;
    match found {
        Some(entries) => Ok(entries),
        None => Err(RowsFault::Unsound(Table::Span)),
    }
}
