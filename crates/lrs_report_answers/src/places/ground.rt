//! The route that runs over a millimetre of a link, and where on the route that millimetre is.

ghost use Rattle.std.specs.Prelude.{◌≡◌, ◌+◌, ◌*◌, ◌<◌, None, Some, IfNone, IfSome};
ghost use Rattle.std.specs.List.{find};
ghost use Rattle.std.specs.Option.{option_map};
ghost use Rattle.lrs_element.specs.Course.{chainage_on, runs_over};
ghost use Rattle.lrs_report_answers.specs.Place.Middles.{middle};
ghost use Rattle.lrs_report_answers.specs.Place.Places.{place_over};

use lrs_element::Link;
use lrs_inventory::Inventory;
use lrs_machine::RouteRow;
use lrs_measure::Frac;
use lrs_position::{Route, cell, link_to_route};
use std::slice;

/// The route that runs over a millimetre of a link, by the index of ground.
fn route_over(inventory: &Inventory, link: u32, mm: u32) -> Option<&RouteRow>
    ensures { option_map (λ row. row.now) result
        ≡ find (λ e. runs_over e.route.course (link, mm)) inventory.now.routes }
{
    // For the prover alone: what its contract says is known from here on.
    inventory.prove_sound();
    match inventory.route_over(link, mm) {
        Some(name) => inventory.route(&name),
        None => None,
    }
}

/// The distance of the middle of a millimetre from the start of its link, in millimetres.
fn middle_of(mm: u32) -> Frac
    ensures { result ≡ middle mm }
{
    match Frac::new(i128::from(2 * u64::from(mm) + 1), 2) {
        Some(distance) => distance,
        None => unreachable!(),
    }
}

/// At which chainage of a route a millimetre of a link is, in millimetres. Whichever way the route runs, the middle of the
/// millimetre on the link is its middle on the route.
fn chainage_over(route: &Route, link: Link, mm: u32) -> Option<u64>
    requires inside { mm < link.length }
    ensures { result ≡ chainage_on route.now.course (link.number, mm) }
{
    match link_to_route(slice::from_ref(route), link, middle_of(mm)) {
        Ok(place) => Some(cell(place.1, route.length())),
        Err(_) => None,
    }
}

/// The route that runs over a millimetre of a link, and its chainage there.
pub(crate) fn place_over(inventory: &Inventory, link: Link, mm: u32) -> Option<(&RouteRow, u64)>
    requires inside { mm < link.length }
    ensures none { IfNone result (place_over inventory.now (link.number, mm) ≡ None) }
    ensures some { IfSome result (λ place. place_over inventory.now (link.number, mm)
        ≡ Some (place.0.now, place.1)) }
{
    match route_over(inventory, link.number, mm) {
        Some(row) => match chainage_over(&row.route, link, mm) {
            Some(chainage) => Some((row, chainage)),
            None => None,
        },
        None => None,
    }
}
