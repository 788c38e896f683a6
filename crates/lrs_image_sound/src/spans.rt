//! The table of spans.

ghost use Rattle.std.specs.Prelude.{◌≡◌, true, nat_le, List, IfOk, IsPermutation};
ghost use Rattle.std.specs.List.{list_all, flat_map};
ghost use Rattle.lrs_measure.specs.Lists.{each_two};
ghost use Rattle.lrs_element.specs.declared.link.Link.{Link};
ghost use Rattle.lrs_machine.specs.Sound.{asset_before, class_before, are_spans, are_courses};
ghost use Rattle.lrs_image_sound.specs.Tables.{fits_route, rows_end_on, is_known, route_courses, route_spans};

use crate::exclusive::keep_exclusive;
use crate::holdings::held_parts;
use crate::lookups::is_of_class;
use lrs_events::{Asset, Class, Span};
use lrs_machine::RouteRow;
use std::alloc::{AllocError, Global};

fn end_by(rows: &[Span], length: u64) -> bool
    ensures { result ≡ list_all (λ r. nat_le r.to length) rows.now }
{
    rows.iter().all(|span| span.to <= length)
}

/// Whether the rows of a route end on it. That they are canonical their type says.
fn end_on_route(route_row: &RouteRow) -> bool
    ensures { result ≡ rows_end_on route_row.now }
{
    end_by(route_row.spans.rows(), route_row.route.course.len())
}

fn end_on_routes(routes: &[RouteRow]) -> bool
    ensures { result ≡ list_all rows_end_on routes.now }
{
    routes.iter().all(|route_row| end_on_route(route_row))
}

fn all_rows(alloc: Global, routes: &[RouteRow]) -> Result<Vec<Span>, AllocError>
    ensures { IfOk result (λ rows. rows.items ≡ flat_map (λ e. e.spans) routes.now) }
{
    let mut rows = Vec::new(alloc);
    for route_row in routes {
        rows.extend_from_slice(route_row.spans.rows())?;
    }
    Ok(rows)
}

fn sort_by_asset(rows: &mut Vec<Span>)
    ensures { IsPermutation rows.old.items rows.new.items }
{
    rows.sort_unstable_by_key(|row| row.asset);
}

/// The rows of all routes, by asset: each asset is then looked for near the one before.
fn rows_by_asset(alloc: Global, routes: &[RouteRow]) -> Result<Vec<Span>, AllocError>
    ensures { IfOk result (λ rows. IsPermutation (flat_map (λ e. e.spans) routes.now) rows.items) }
{
    let mut rows = all_rows(alloc, routes)?;
    sort_by_asset(&mut rows);
    Ok(rows)
}

fn is_known(assets: &[Asset], span: &Span) -> bool
    requires { each_two asset_before assets.now ≡ true }
    ensures { result ≡ is_known assets.now span.now }
{
    is_of_class(assets, span.asset, span.class)
}

fn are_known(assets: &[Asset], rows: &[Span]) -> bool
    requires { each_two asset_before assets.now ≡ true }
    ensures { result ≡ list_all (is_known assets.now) rows.now }
{
    rows.iter().all(|span| is_known(assets, span))
}

/// Whether the rows of each route end on it and are of known assets.
fn fit_routes(alloc: Global, assets: &[Asset], routes: &[RouteRow]) -> Result<bool, AllocError>
    requires { each_two asset_before assets.now ≡ true }
    ensures { IfOk result (λ fit. fit ≡ list_all (fits_route assets.now) routes.now) }
{
    if !end_on_routes(routes) {
        return Ok(false);
    }
    let rows = rows_by_asset(alloc, routes)?;
    Ok(are_known(assets, &rows))
}

/// Whether rows lie on their routes, are of known assets and of their classes, and at each place each
/// exclusive class has at most one holder.
///
/// # Errors
/// When memory runs out.
pub fn are_spans(
    alloc: Global,
    classes: &[Class],
    assets: &[Asset],
    routes: &[RouteRow],
) -> Result<bool, AllocError>
    requires assets { each_two asset_before assets.now ≡ true }
    requires classes { each_two class_before classes.now ≡ true }
    ensures { IfOk result (λ sound. (links : List Link)
        → are_courses links (route_courses routes.now) ≡ true
        → sound ≡ are_spans links classes.now assets.now (route_spans routes.now)) }
{
    let fit = fit_routes(alloc, assets, routes)?;
    if !fit {
        return Ok(false);
    }
    let held = held_parts(alloc, routes)?;
    keep_exclusive(alloc, assets, classes, held)
}
