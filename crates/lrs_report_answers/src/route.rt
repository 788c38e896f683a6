//! The route that a question names.

ghost use Rattle.std.specs.Prelude.{◌≡◌, IfSome};
ghost use Rattle.std.specs.List.{find};
ghost use Rattle.std.specs.Option.{option_map};
ghost use Rattle.lrs_machine.specs.Image.{state_of};
ghost use Rattle.lrs_machine.specs.Register.{get};
ghost use Rattle.lrs_machine.specs.Sound.{IsSound};
ghost use Rattle.lrs_position.specs.Translations.{alignment_of};
ghost use Rattle.lrs_image.specs.Change.{is_named};
ghost use Rattle.lrs_image.specs.OpenLists.{image_of};
ghost use Rattle.lrs_report_answers.specs.Answers.{IsRouteIn};
ghost use Rattle.lrs_report_answers.specs.ToldAnswers.{IsNamedRoute, length_on};

use crate::fault::AskFault;
use lrs_image::ImageLists;
use lrs_machine::{Missing, RouteRow};
use lrs_position::{Route, RouteName};
use std::alloc::Global;

/// The route of a name, with what lies on it, found by search.
pub(crate) fn route_of<'a>(kept: &'a ImageLists, name: &RouteName) -> Option<&'a RouteRow>
    requires sound { IsSound (image_of kept.now) }
    ensures known { IfSome result (λ row. IsRouteIn (image_of kept.now) row.now) }
    ensures route { option_map (λ row. alignment_of row.now.route) result
        ≡ get (state_of (image_of kept.now)).routes name.now }
{
    kept.routes.find(name)
}

/// The row of a route of a name, found by search.
pub(crate) fn row_of<'a>(kept: &'a ImageLists, name: &RouteName) -> Option<&'a RouteRow>
    requires sound { IsSound (image_of kept.now) }
    ensures { option_map (λ row. row.now) result
        ≡ find (is_named name.now) (image_of kept.now).routes }
{
    kept.routes.find(name)
}

/// The route of a name: its course, marks and referents.
///
/// # Errors
/// `Missing(Route)` where no route has the name, and `Memory`.
pub fn named_route(alloc: Global, kept: &ImageLists, name: &RouteName) -> Result<Route, AskFault>
    requires sound { IsSound (image_of kept.now) }
    ensures { IsNamedRoute (image_of kept.now) name.now result }
{
    match row_of(kept, name) {
        Some(row) => Ok(row.route.copy(alloc)?),
        None => Err(AskFault::Missing(Missing::Route)),
    }
}

/// How long the route of a name is, in millimetres; 0 where no route has the name.
pub fn length_of(kept: &ImageLists, name: &RouteName) -> u64
    requires sound { IsSound (image_of kept.now) }
    ensures { result ≡ length_on (state_of (image_of kept.now)) name.now }
{
    match route_of(kept, name) {
        Some(row) => row.route.length(),
        None => 0,
    }
}
