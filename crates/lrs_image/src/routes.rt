//! The routes of an image while one of them changes.

ghost use Rattle.std.specs.Prelude.{◌≡◌, ◌≤◌, ◌+◌, IfOk, OnOk, OnErr, true, Some};
ghost use Rattle.std.specs.List.{find};
ghost use Rattle.std.specs.Option.{option_map};
ghost use Rattle.lrs_measure.specs.Lists.{each_two};
ghost use Rattle.lrs_machine.specs.Sound.{route_before};
ghost use Rattle.lrs_image.specs.Change.{is_named, without, without_some, routes_after, CanChangeRoute};
ghost use Rattle.lrs_image.specs.OpenLists.{row_of_open, routes_with, IsOpenFor, HasOpened};

use crate::change::RouteChange;
use crate::open_route::OpenRoute;
use lrs_machine::RouteRow;
use lrs_ordered::Chunked;
use lrs_position::RouteName;
use std::alloc::{AllocError, Global};

/// Takes the route that changes, if there is one of its name, out of its place and makes room for the change.
pub fn open_route(
    alloc: Global,
    routes: &mut Chunked<RouteRow>,
    change: &RouteChange,
) -> Result<Option<OpenRoute>, AllocError>
    requires order { each_two route_before routes.old.rows ≡ true }
    requires room { 1 ≤ routes.old.room }
    requires can { CanChangeRoute (Some change.now) routes.old.rows }
    ensures found { IfOk result (λ opened. option_map row_of_open opened
        ≡ find (is_named change.now.route) routes.old.rows) }
    ensures ready { IfOk result (IsOpenFor change.now) }
    ensures others { OnOk result (routes.new.rows ≡ without change.now.route routes.old.rows) }
    ensures err { OnErr result (routes.new.rows ≡ routes.old.rows) }
    ensures room { OnOk result (routes.new.room ≡ routes.old.room) }
{
    let Some(route_row) = routes.remove(&change.route) else {
        return Ok(None);
    };
    let mut opened = OpenRoute::open(route_row);
    match opened.make_room(alloc, change) {
        Ok(()) => Ok(Some(opened)),
        Err(fault) => {
            routes.insert_ordered(opened.close());
            Err(fault)
        }
    }
}

/// Puts a route that was out of its place into its new one, as it is after its change.
pub fn put_changed(
    routes: &mut Chunked<RouteRow>,
    opened: Option<OpenRoute>,
    change: Option<RouteChange>,
)
    requires opened { HasOpened change opened routes.old.rows }
    requires can { CanChangeRoute change (routes_with opened routes.old.rows) }
    requires order { each_two route_before (routes_after change
        (routes_with opened routes.old.rows)) ≡ true }
    requires room { 1 ≤ routes.old.room }
    ensures routes { routes.new.rows ≡ routes_after change (routes_with opened routes.old.rows) }
    ensures room { routes.old.room ≤ routes.new.room + 1 }
{
    if let (Some(opened), Some(change)) = (opened, change) {
        routes.insert_ordered(opened.finish(change));
    }
}

/// Takes a route, if one is named, out.
pub fn drop_route(routes: &mut Chunked<RouteRow>, name: Option<RouteName>)
    requires order { each_two route_before routes.old.rows ≡ true }
    ensures routes { routes.new.rows ≡ without_some name routes.old.rows }
    ensures room { routes.new.room ≡ routes.old.room }
{
    if let Some(name) = name {
        routes.remove(&name);
    }
}
