//! Where a stretch of a route begins and ends that is asked for by places.

ghost use Rattle.std.specs.Prelude.{◌≡◌};
ghost use Rattle.std.specs.Option.{option_map};
ghost use Rattle.lrs_report_answers.specs.Stretches.{chainage_of, end_at, end_of, route_if_named};

use crate::fault::AskFault;
use lrs_inventory::Inventory;
use lrs_machine::{Missing, Place, RouteRow};
use lrs_position::{Expr, RouteName, locate, snap};

/// An end of a stretch.
#[derive(Clone, Copy, PartialEq, Eq)]
pub enum End {
    From,
    To,
}

/// The whole millimetre of a route to which a position goes at an end.
fn end_at(end: End, position: Expr, row: &RouteRow) -> Result<u64, AskFault>
    ensures { result ≡ end_at end position row.now }
{
    match locate(&row.route, position) {
        Ok(chainage) => Ok(snap(chainage)),
        Err(fault) => Err(AskFault::End(end, fault)),
    }
}

/// The row of the route that is named, if there is one.
fn row_if_named(inventory: &Inventory, route: Option<RouteName>) -> Option<&RouteRow>
    ensures { option_map (λ row. row.now) result ≡ route_if_named inventory.now route }
{
    match route {
        Some(name) => inventory.route(&name),
        None => None,
    }
}

/// The chainage that a place means as an end.
fn chainage_of(
    inventory: &Inventory,
    route: Option<RouteName>,
    end: End,
    place: Place,
) -> Result<u64, AskFault>
    ensures { result ≡ chainage_of inventory.now route end place }
{
    match place {
        Place::Chainage(chainage) => Ok(chainage),
        Place::Position(position) => match row_if_named(inventory, route) {
            Some(row) => end_at(end, position, row),
            None => Err(AskFault::Missing(Missing::Route)),
        },
    }
}

/// The chainage of an end of a stretch that is asked for by a place, in millimetres. A chainage is meant as it is, on
/// whatever route; a position is located on the route that is named, and goes to the nearest whole millimetre, a half going
/// up.
///
/// # Errors
/// `Missing(Route)` for a position where no route is named or there is none of the name; `End` with the first that
/// applies of `NoRef`, `TooFine` and `OffRoute`.
pub fn end_of(
    inventory: &Inventory,
    route: Option<RouteName>,
    end: End,
    place: Option<Place>,
) -> Result<Option<u64>, AskFault>
    ensures { result ≡ end_of inventory.now route end place }
{
    match place {
        Some(place) => match chainage_of(inventory, route, end, place) {
            Ok(chainage) => Ok(Some(chainage)),
            Err(fault) => Err(fault),
        },
        None => Ok(None),
    }
}
