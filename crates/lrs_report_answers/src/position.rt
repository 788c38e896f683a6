//! Where a position stands: on the route, by another method, and on a link.

ghost use Rattle.std.specs.Prelude.{◌≡◌, MatchResult, Ok, Err, length, ◌<◌, IfOk};
ghost use Rattle.lrs_machine.specs.Image.{state_of};
ghost use Rattle.lrs_machine.specs.Sound.{IsSound};
ghost use Rattle.lrs_position.specs.LinkPositions.{IsLinkPosition};
ghost use Rattle.lrs_position.specs.Locations as place;
ghost use Rattle.lrs_position.specs.Locations.{located_or_fault};
ghost use Rattle.lrs_position.specs.Translations.{alignment_of, referent_at, Translates, RoundTrip};
ghost use Rattle.lrs_image.specs.OpenLists.{image_of};
ghost use Rattle.lrs_report_answers.specs.Answers.{AsksRoute};

use crate::fault::AskFault;
use crate::route::route_of;
use lrs_image::ImageLists;
use lrs_machine::{Missing, RouteRow};
use lrs_measure::Frac;
use lrs_position::{Expr, PlaceFault, RouteName, Target, cell, locate, route_to_link};

/// The millimetre of a route that a position stands in.
///
/// # Errors
/// Those of `locate`.
pub(crate) fn cell_of(row: &RouteRow, expression: Expr) -> Result<u64, PlaceFault>
    ensures within { IfOk result (λ at. at < length row.now.route.course) }
    ensures answer { MatchResult (located_or_fault (alignment_of row.now.route)
        (referent_at row.now.route.refs) expression) (λ x.
        result ≡ Ok (place.cell (length row.now.route.course) x)) (λ fault. result ≡ Err fault) }
{
    match locate(&row.route, expression) {
        Ok(chainage) => Ok(cell(chainage, row.route.length())),
        Err(fault) => Err(fault),
    }
}

/// The expression by the target's method that locates on a route what the given one locates there, exactly.
///
/// # Errors
/// `Missing(Route)`, then the first that applies of `NoRef` of the expression, `TooFine`, `OffRoute`, `NoRef` of the target, and
/// `TooFine` and `OffRoute` of the chainage.
pub fn translate(
    kept: &ImageLists,
    route: &RouteName,
    expression: Expr,
    target: Target,
) -> Result<Expr, AskFault>
    requires sound { IsSound (image_of kept.now) }
    ensures answer { AsksRoute (state_of (image_of kept.now)) route.now (λ a chainage_on answer.
        Translates a chainage_on expression target answer
        × RoundTrip a chainage_on expression target answer) result }
{
    match route_of(kept, route) {
        Some(row) => match lrs_position::translate(&row.route, expression, target) {
            Ok(translated) => Ok(translated),
            Err(fault) => Err(AskFault::Place(fault)),
        },
        None => Err(AskFault::Missing(Missing::Route)),
    }
}

/// The link that an expression's place on a route is on, and the distance in millimetres from the link's start.
///
/// At a seam the later piece is meant, at the route's end the last one.
///
/// # Errors
/// `Missing(Route)`, then the first that applies of `NoRef`, `TooFine` and `OffRoute`.
pub fn to_link(
    kept: &ImageLists,
    route: &RouteName,
    expression: Expr,
) -> Result<(u32, Frac), AskFault>
    requires sound { IsSound (image_of kept.now) }
    ensures answer { AsksRoute (state_of (image_of kept.now)) route.now (λ a chainage_on answer.
        IsLinkPosition a chainage_on expression answer) result }
{
    match route_of(kept, route) {
        Some(row) => match route_to_link(&row.route, expression) {
            Ok(position) => Ok(position),
            Err(fault) => Err(AskFault::Place(fault)),
        },
        None => Err(AskFault::Missing(Missing::Route)),
    }
}
