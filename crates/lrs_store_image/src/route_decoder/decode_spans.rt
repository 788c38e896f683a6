//! What stored rows say of spans.

ghost use Rattle.std.specs.Prelude.{◌≡◌, true, IfOk};
ghost use Rattle.std.specs.Option.{option_map};
ghost use Rattle.lrs_measure.specs.Lists.{each_two};
ghost use Rattle.lrs_machine.specs.Sound.{asset_before};
ghost use Rattle.lrs_store_tables.specs.Contents.Decoders.{only_if, side_numbered, class_of_asset, span_of};
ghost use Rattle.lrs_store_tables.specs.Contents.Content.{each_of_known};
ghost use Rattle.lrs_store_image.specs.DecodedRoutes.Spans.{named_before, is_one_of, known_span};

use crate::{OfRoute, SpanCells};
use lrs_events::{Asset, ClassName, Side, Span};
use lrs_position::{Route, RouteName};
use lrs_store_tables::whole;
use std::alloc::{AllocError, Global};

/// The class of the asset of this number, by binary search.
fn class_of(assets: &[Asset], number: u64) -> Option<ClassName>
    requires { each_two asset_before assets.now ≡ true }
    ensures { result ≡ class_of_asset assets.now number }
{
    match assets.binary_search_by_key(&number, |asset| asset.number) {
        Ok(at) => Some(assets[at].class),
        Err(_) => None,
    }
}

/// The name of the route that has it, by binary search.
fn route_named(routes: &[Route], text: &[u8]) -> Option<RouteName>
    requires { each_two named_before routes.now ≡ true }
    ensures { result ≡ only_if (is_one_of routes.now text.now) text.now }
{
    match routes.binary_search_by(|route| route.name.bytes().cmp(text)) {
        Ok(at) => Some(routes[at].name),
        Err(_) => None,
    }
}

fn side(n: u64) -> Option<Side>
    ensures { result ≡ side_numbered n }
{
    match n {
        0 => Some(Side::L),
        1 => Some(Side::R),
        2 => Some(Side::B),
        _ => None,
    }
}

/// The span that a row says, of whichever route.
fn span_said(assets: &[Asset], row: &SpanCells<'_>) -> Option<Span>
    requires { each_two asset_before assets.now ≡ true }
    ensures { result ≡ option_map (λ s. s.said) (span_of assets.now row.now) }
{
    let asset = whole(row.asset)?;
    let class = class_of(assets, asset)?;
    let from = whole(row.lo)?;
    let to = whole(row.hi)?;
    let side = side(whole(row.side)?)?;
    Some(Span {
        asset,
        class,
        from,
        to,
        side,
    })
}

/// What a row says of one of the routes.
fn span_of(assets: &[Asset], routes: &[Route], row: &SpanCells<'_>) -> Option<OfRoute<Span>>
    requires assets { each_two asset_before assets.now ≡ true }
    requires routes { each_two named_before routes.now ≡ true }
    ensures { result ≡ known_span assets.now routes.now row.now }
{
    let said = span_said(assets, row)?;
    let route = route_named(routes, row.route)?;
    Some(OfRoute { route, said })
}

/// What the rows of spans say, if each says something, and that of one of the routes.
///
/// # Errors
/// When memory runs out.
pub(crate) fn spans_said(
    alloc: Global,
    assets: &[Asset],
    routes: &[Route],
    rows: &[SpanCells<'_>],
) -> Result<Option<Vec<OfRoute<Span>>>, AllocError>
    requires assets { each_two asset_before assets.now ≡ true }
    requires routes { each_two named_before routes.now ≡ true }
    ensures { IfOk result (λ found. option_map (λ v. v.items) found
        ≡ each_of_known (span_of assets.now) (is_one_of routes.now) rows.now) }
{
    let mut found = Vec::new(alloc);
    for row in rows {
        let Some(said) = span_of(assets, routes, row) else {
            return Ok(None);
        };
        found.push(said)?;
    }
    Ok(Some(found))
}
