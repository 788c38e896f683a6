//! Where a spot is: on which route, and how far along it.

ghost use Rattle.std.specs.Prelude.{◌≡◌, Ok, Err, length, nat_eq, IfOk, IfErr};
ghost use Rattle.std.specs.List.{find};
ghost use Rattle.lrs_machine.specs.declared.question.Place.TheVariants.{Position};
ghost use Rattle.lrs_report_answers.specs.Place.Places.{place_along, place_of, place_on_link, spot_at, spot_on_route};

use crate::fault::AskFault;
use crate::places::ground::place_over;
use crate::position::cell_of;
use lrs_element::Link;
use lrs_inventory::Inventory;
use lrs_machine::{AskedPlace, Missing, Place, RouteRow};
use lrs_position::{Expr, RouteName};

/// The millimetre of a route that a position stands in.
fn millimetre_at(row: &RouteRow, position: Expr) -> Result<u64, AskFault>
    ensures ok { IfOk result (λ at. spot_at (Position position) row.now ≡ Ok (row.now, at)) }
    ensures err { IfErr result (λ fault. spot_at (Position position) row.now ≡ Err fault) }
{
    match cell_of(row, position) {
        Ok(at) => Ok(at),
        Err(fault) => Err(AskFault::Place(fault)),
    }
}

/// The chainage of a place of a route.
fn chainage_at(row: &RouteRow, place: Place) -> Result<u64, AskFault>
    ensures ok { IfOk result (λ chainage. spot_at place row.now ≡ Ok (row.now, chainage)) }
    ensures err { IfErr result (λ fault. spot_at place row.now ≡ Err fault) }
{
    match place {
        Place::Chainage(chainage) => {
            if chainage > row.route.length() {
                return Err(AskFault::Missing(Missing::Place));
            }
            Ok(chainage)
        }
        Place::Position(position) => millimetre_at(row, position),
    }
}

/// A place of the route of a name, which is found by search.
fn spot_on_route<'a>(
    inventory: &'a Inventory,
    route: &RouteName,
    place: Place,
) -> Result<(&'a RouteRow, u64), AskFault>
    ensures ok { IfOk result (λ spot. spot_on_route inventory.now route.now place
        ≡ Ok (spot.0.now, spot.1)) }
    ensures err { IfErr result (λ fault. spot_on_route inventory.now route.now place
        ≡ Err fault) }
{
    match inventory.route(route) {
        Some(row) => Ok((row, chainage_at(row, place)?)),
        None => Err(AskFault::Missing(Missing::Route)),
    }
}

/// The link of a number, found by search.
fn link_of(inventory: &Inventory, number: u32) -> Option<Link>
    ensures { result ≡ find (λ link. nat_eq link.number number) inventory.now.links }
{
    inventory.kept().links.find(&number).copied()
}

/// The route that runs over a millimetre of a known link, and its chainage there.
fn place_along(inventory: &Inventory, link: Link, mm: u64) -> Result<(&RouteRow, u64), Missing>
    ensures ok { IfOk result (λ place. place_along inventory.now link mm
        ≡ Ok (place.0.now, place.1)) }
    ensures err { IfErr result (λ missing. place_along inventory.now link mm ≡ Err missing) }
{
    let length = u64::from(link.length);
    if mm > length {
        return Err(Missing::Place);
    }
    let mm = mm.min(length - 1) as u32;
    match place_over(inventory, link, mm) {
        Some(place) => Ok(place),
        None => Err(Missing::Place),
    }
}

/// The route that runs over a millimetre of the link of a number, and its chainage there.
fn place_on_link(inventory: &Inventory, number: u32, mm: u64) -> Result<(&RouteRow, u64), Missing>
    ensures ok { IfOk result (λ place. place_on_link inventory.now number mm
        ≡ Ok (place.0.now, place.1)) }
    ensures err { IfErr result (λ missing. place_on_link inventory.now number mm ≡ Err missing) }
{
    match link_of(inventory, number) {
        Some(link) => place_along(inventory, link, mm),
        None => Err(Missing::Link),
    }
}

/// The route of a spot, and the chainage that is meant.
///
/// # Errors
/// The first of the route, the link and the place that is missing; `Place` where a position locates nothing on its route.
pub(crate) fn place_of(
    inventory: &Inventory,
    spot: AskedPlace,
) -> Result<(&RouteRow, u64), AskFault>
    ensures ok { IfOk result (λ place. place_of inventory.now spot ≡ Ok (place.0.now, place.1)) }
    ensures err { IfErr result (λ fault. place_of inventory.now spot ≡ Err fault) }
{
    match spot {
        AskedPlace::OnRoute { route, place } => spot_on_route(inventory, &route, place),
        AskedPlace::OnLink { link, mm } => match place_on_link(inventory, link, mm) {
            Ok(spot) => Ok(spot),
            Err(missing) => Err(AskFault::Missing(missing)),
        },
    }
}
