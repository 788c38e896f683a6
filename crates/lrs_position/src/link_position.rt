//! From routes to links, and back.

ghost use Rattle.std.specs.Prelude.{◌≡◌, ℕ, pos, ◌+◌, ◌-◌, ◌*◌, ◌≤◌, ◌≤ℤ◌, ◌^◌, if◌then◌else◌, length, unsigned_abs, None, Some, IfNone, IfSome, IfOk, IfErr, IsSomeAnd, position};
ghost use Rattle.lrs_measure.specs.Fraction.{IsLowest, IsQuotient};
ghost use Rattle.lrs_element.specs.Course as ground;
ghost use Rattle.lrs_element.specs.Course.{expand, is_at};
ghost use Rattle.lrs_measure.specs.Limits.{longest_route};
ghost use Rattle.lrs_position.specs.LinkPositions as linked;
ghost use Rattle.lrs_position.specs.LinkPositions.{LiesOn, IsLinkPosition, IsRoutePosition, ComesBack};
ghost use Rattle.lrs_position.specs.Locations as place;
ghost use Rattle.lrs_position.specs.Translations.{alignment_of, referent_at, chainage_fault, IsOnRoute};

use crate::expression::Expr;
use crate::location::{PlaceFault, cell, locate};
use crate::name::RouteName;
use crate::route::Route;
use crate::translation::checked_along;
use lrs_element::{Course, Link, Piece};
use lrs_measure::Frac;

/// The link that an expression's place is on, and the distance in millimetres from the link's start.
///
/// At a seam the later piece is meant, at the route's end the last one.
///
/// # Errors
/// Those of `locate`.
pub fn route_to_link(route: &Route, expression: Expr) -> Result<(u32, Frac), PlaceFault>
    ensures { IsLinkPosition (alignment_of route.now)
        (referent_at route.now.refs) expression result }
{
    match locate(route, expression) {
        Err(fault) => Err(fault),
        Ok(chainage) => match link_position(route, chainage) {
            Some(position) => Ok(position),
            None => Err(PlaceFault::OffRoute),
        },
    }
}

/// The route that a place on a link is on, and its chainage there, both in millimetres.
///
/// The millimetre that the place stands in names the route; at the link's end, that is the last one.
/// Routes of an inventory share no ground; where routes do, the first one is meant.
///
/// # Errors
/// The first that applies of `TooFine` (a denominator above 10^16) and `OffRoute` (outside the link, or
/// on no route).
pub fn link_to_route(
    routes: &[Route],
    link: Link,
    position: Frac,
) -> Result<(RouteName, Frac), PlaceFault>
    ensures answer { IsRoutePosition routes.now link position result }

    // The reverse of `route_to_link`: a chainage in the middle of a millimetre comes back.
    ensures back { ComesBack routes.now link position result }
{
    match millimetre_at(link, position) {
        Err(fault) => Err(fault),
        Ok(mm) => match route_over(routes, link.number, mm) {
            None => Err(PlaceFault::OffRoute),
            Some((route, at)) => {
                let forward = route.course.ground(at).forward;
                match across(position, u64::from(mm), at, forward) {
                    Some(chainage) => Ok((route.name, chainage)),
                    None => Err(PlaceFault::OffRoute),
                }
            }
        },
    }
}

/// The millimetre of a link that a distance from its start stands in.
fn millimetre_at(link: Link, distance: Frac) -> Result<u32, PlaceFault>
    ensures ok { IfOk result (λ mm. (chainage_fault link.length distance ≡ None)
        × (mm ≡ place.cell link.length (unsigned_abs distance.num, distance.den))) }
    ensures err { IfErr result (λ fault. chainage_fault link.length distance ≡ Some fault) }
    ensures behind { IfOk result (λ mm. mm * distance.den ≤ unsigned_abs distance.num) }
    ensures inside { IfOk result (λ mm. unsigned_abs distance.num - mm * distance.den
        ≤ distance.den) }
{
    let length = u64::from(link.length);
    match checked_along(length, distance) {
        Err(fault) => Err(fault),
        Ok(_) => Ok(cell(distance, length) as u32),
    }
}

/// The first of the routes that runs over a millimetre of a link, and its chainage on it.
fn route_over(routes: &[Route], link: u32, mm: u32) -> Option<(&Route, u64)>
    ensures none { IfNone result (linked.route_over routes.now (link, mm) ≡ None) }
    ensures some { IfSome result (λ found. (linked.route_over routes.now (link, mm)
        ≡ Some found.0.now) × (ground.chainage_on found.0.now.course (link, mm) ≡ Some found.1)) }
{
    for route in routes {
        match chainage_on(&route.course, link, mm) {
            Some(at) => return Some((route, at)),
            None => {}
        }
    }
    None
}

/// At which chainage of a course a millimetre of a link is.
fn chainage_on(course: &Course, link: u32, mm: u32) -> Option<u64>
    ensures { result ≡ ground.chainage_on course.now (link, mm) }
{
    // For the prover alone: what its contract says is known from here on.
    let _length = course.len();
    let mut start = 0;
    for piece in course.pieces() {
        match place_in(*piece, link, mm) {
            Some(place) => return Some(start + place),
            None => {}
        }
        start += u64::from(piece.to - piece.from);
    }
    None
}

/// At which place of a piece a millimetre of a link is.
fn place_in(piece: Piece, link: u32, mm: u32) -> Option<u64>
    ensures { result ≡ position (is_at (link, mm)) (expand piece) }
{
    if piece.link != link || mm < piece.from || piece.to <= mm {
        return None;
    }
    let place = if piece.forward {
        mm - piece.from
    } else {
        piece.to - 1 - mm
    };
    Some(u64::from(place))
}

/// The link and the distance from its start at a chainage of the route.
fn link_position(route: &Route, chainage: Frac) -> Option<(u32, Frac)>
    requires on_route { IsOnRoute (length route.now.course) chainage }
    requires fine { chainage.den ≤ 10 ^ 27 }
    ensures { IsSomeAnd result (λ p. LiesOn route.now.course chainage p.0 p.1) }
{
    let place = cell(chainage, route.length());
    let here = route.course.ground(place);
    match across(chainage, place, u64::from(here.mm), here.forward) {
        Some(distance) => Some((here.link, distance)),
        None => None,
    }
}

/// A place of one linear element, which stands in its millimetre `from`, on another one that has this
/// millimetre as its `to`-th, run the same way or not.
fn across(place: Frac, from: u64, to: u64, forward: bool) -> Option<Frac>
    requires natural { pos 0 ≤ℤ place.num }
    requires behind { from * place.den ≤ unsigned_abs place.num }
    requires inside { unsigned_abs place.num - from * place.den ≤ place.den }
    requires fine { place.den ≤ 10 ^ 27 }
    requires far { to ≤ longest_route }
    ensures { IsSomeAnd result (λ q. IsQuotient q
        (pos (linked.across forward from to (unsigned_abs place.num, place.den))) place.den
        × IsLowest q) }
{
    let num = place.num() as u128;
    let den = place.den();
    let distance = along(to, num - u128::from(from) * den, den, forward);
    Frac::new(distance as i128, den)
}

/// So far behind the start of a millimetre, or before its end, in fractions of a millimetre.
fn along(mm: u64, within: u128, den: u128, forward: bool) -> u128
    requires inside { within ≤ den }
    requires fine { den ≤ 10 ^ 27 }
    requires far { mm ≤ longest_route }
    ensures value { result ≡ (if forward then mm * den + within else (mm + 1) * den - within) }
    ensures small { result ≤ 10 ^ 38 }
{
    if forward {
        u128::from(mm) * den + within
    } else {
        (u128::from(mm) + 1) * den - within
    }
}
