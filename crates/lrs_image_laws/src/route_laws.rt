//! Laws of routes that are dropped and routes that are written.

ghost use Rattle.lrs_image_laws.specs.Rewrites.{RewritingIsOrderly};
ghost use Rattle.lrs_image_laws.specs.SameGround.{RewritingKeepsState};
ghost use Rattle.lrs_image_laws.specs.RoutesOver.{RewritingMovesGround};
ghost use Rattle.lrs_image_laws.specs.Differences.{DifferenceRewrites};
ghost use Rattle.lrs_image_laws.specs.Renames.{RecalibrateMakes, RenumberMakes};
ghost use Rattle.lrs_image_laws.specs.Splits.{SplitMakes, PartsAreRoutes, PartsHaveRows};
ghost use Rattle.lrs_image_laws.specs.Joins.{JoinMakes, JoinsAreRoutes, JoinsHaveRows};
ghost use Rattle.lrs_image_laws.specs.Turns.{TurnMakes, TurnedIsRoute, TurnedHasRows};

/// Routes dropped and written that fit leave an image in order.
pub fn rewriting_is_orderly()
    ensures { RewritingIsOrderly }
{}

/// Routes dropped and written that say the same of the ground leave the state but for its routes.
pub fn rewriting_keeps_state()
    ensures { RewritingKeepsState }
{}

/// Which route runs over a millimetre where routes are dropped and written.
pub fn rewriting_moves_ground()
    ensures { RewritingMovesGround }
{}

/// A difference drops and writes routes.
pub fn difference_rewrites()
    ensures { DifferenceRewrites }
{}

/// A route with other marks is what its recalibration makes.
pub fn recalibrate_makes()
    ensures { RecalibrateMakes }
{}

/// A route under a new name is what its renumbering makes.
pub fn renumber_makes()
    ensures { RenumberMakes }
{}

/// The two parts of a route are what its split makes.
pub fn split_makes()
    ensures { SplitMakes }
{}

/// The one route that continues another is what their join makes.
pub fn join_makes()
    ensures { JoinMakes }
{}

/// Both parts of a route at an inner mark are routes.
pub fn parts_are_routes()
    ensures { PartsAreRoutes }
{}

/// The rows of a route in two parts lie on these.
pub fn parts_have_rows()
    ensures { PartsHaveRows }
{}

/// Two routes as one are a route.
pub fn joins_are_routes()
    ensures { JoinsAreRoutes }
{}

/// The rows of two routes as one lie on it.
pub fn joins_have_rows()
    ensures { JoinsHaveRows }
{}

/// The route from its other end is what its turn makes.
pub fn turn_makes()
    ensures { TurnMakes }
{}

/// A route from its other end is a route.
pub fn turned_is_route()
    ensures { TurnedIsRoute }
{}

/// The rows of a route from its other end lie on it.
pub fn turned_has_rows()
    ensures { TurnedHasRows }
{}
