//! Who holds a millimetre of a route.

ghost use Rattle.std.specs.Prelude.{◌≡◌, ◌<◌, IfOk, slice_get, Some, length, true};
ghost use Rattle.std.specs.List.{filter_map};
ghost use Rattle.lrs_machine.specs.Image.{state_of};
ghost use Rattle.lrs_machine.specs.Readings.{hits_on};
ghost use Rattle.lrs_machine.specs.Sound.{IsSound, asset_before};
ghost use Rattle.lrs_measure.specs.Lists.{each_two};
ghost use Rattle.lrs_image.specs.OpenLists.{image_of};
ghost use Rattle.lrs_report_answers.specs.Answers.{IsRouteIn, IsAt};
ghost use Rattle.lrs_report_answers.specs.Hits.{hit_by};
ghost use Rattle.lrs_element.specs.declared.link.Ground.{Ground as DeclaredGround};

use crate::fault::AskFault;
use crate::position::cell_of;
use crate::route::route_of;
use lrs_element::Ground;
use lrs_events::{Asset, Span};
use lrs_image::ImageLists;
use lrs_machine::{Hit, Missing, RouteRow};
use lrs_measure::Rows;
use lrs_ordered::Chunked;
use lrs_position::{Expr, RouteName};
use std::alloc::{AllocError, Global};

/// The millimetre of a route that a position stands in, and who holds it.
#[derive(Drop)]
pub struct AtAnswer {
    /// Its chainage on the route, in millimetres.
    pub at: u64,
    /// Which millimetre of which link it is, and whether the route runs along the link there.
    pub ground: Ground,
    /// The assets that hold it, by number, each with the side on which it does, seen along the route.
    pub hits: Rows<Hit>,
}

/// The asset of a row, with the side of the row.
pub(crate) fn hit_of(assets: &Chunked<Asset>, row: &Span) -> Option<Hit>
    requires order { each_two asset_before assets.now.rows ≡ true }
    ensures { result ≡ hit_by assets.now.rows row.now }
{
    match assets.find(&row.asset) {
        Some(asset) => Some(Hit {
            asset: *asset,
            side: row.side,
        }),
        None => None,
    }
}

/// The assets of these rows, each with the side of its row.
fn hits_of(alloc: Global, assets: &Chunked<Asset>, rows: &[Span]) -> Result<Rows<Hit>, AllocError>
    requires order { each_two asset_before assets.now.rows ≡ true }
    ensures { IfOk result (λ hits. hits ≡ filter_map (hit_by assets.now.rows) rows.now) }
{
    let mut hits = Vec::with_capacity(alloc, rows.len())?;
    for row in rows {
        if let Some(hit) = hit_of(assets, row) {
            hits.push(hit)?;
        }
    }
    Ok(Rows::from_vec(hits))
}

/// Who holds a millimetre of a route, by asset number.
fn holders(
    alloc: Global,
    kept: &ImageLists,
    row: &RouteRow,
    at: u64,
) -> Result<Rows<Hit>, AllocError>
    requires sound { IsSound (image_of kept.now) }
    requires known { IsRouteIn (image_of kept.now) row.now }
    requires within { at < length row.now.route.course }
    ensures { IfOk result (λ hits. (g : DeclaredGround) → slice_get row.now.route.course at ≡ Some g
        → hits ≡ hits_on (state_of (image_of kept.now)) g) }
{
    let rows = row.spans.at(alloc, at)?;
    hits_of(alloc, &kept.assets, &rows)
}

/// A millimetre of a route, and who holds it.
fn answer_at(
    alloc: Global,
    kept: &ImageLists,
    row: &RouteRow,
    at: u64,
) -> Result<AtAnswer, AllocError>
    requires sound { IsSound (image_of kept.now) }
    requires known { IsRouteIn (image_of kept.now) row.now }
    requires within { at < length row.now.route.course }
    ensures at { IfOk result (λ found. found.at ≡ at) }
    ensures ground { IfOk result (λ found. slice_get row.now.route.course at ≡ Some found.ground) }
    ensures hits { IfOk result (λ found. found.hits
        ≡ hits_on (state_of (image_of kept.now)) found.ground) }
{
    let hits = holders(alloc, kept, row, at)?;
    Ok(AtAnswer {
        at,
        ground: row.route.course.ground(at),
        hits,
    })
}

/// The millimetre of a route that a position stands in, and who holds it, by asset number.
///
/// # Errors
/// `Missing(Route)`, then the first that applies of `NoRef`, `TooFine` and `OffRoute`, and `Memory`.
pub fn at(
    alloc: Global,
    kept: &ImageLists,
    route: &RouteName,
    expression: Expr,
) -> Result<AtAnswer, AskFault>
    requires sound { IsSound (image_of kept.now) }
    ensures { IsAt (state_of (image_of kept.now)) route.now expression result }
{
    match route_of(kept, route) {
        Some(row) => match cell_of(row, expression) {
            Ok(at) => match answer_at(alloc, kept, row, at) {
                Ok(found) => Ok(found),
                Err(AllocError) => Err(AskFault::Memory),
            },
            Err(fault) => Err(AskFault::Place(fault)),
        },
        None => Err(AskFault::Missing(Missing::Route)),
    }
}
