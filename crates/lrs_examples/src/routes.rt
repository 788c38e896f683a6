//! Examples of route edits and of referents.

ghost use Rattle.lrs_examples.specs.Routes.{SplitAtMark, JoinedAgain, Recalibrated, Realigned, InsertedPiece, TakenGround, JoinRefusals, ClosedRoute, TurnedRoute, ReferentPositions};

/// A route is split at a mark.
pub fn split_at_mark()
    ensures { SplitAtMark }
{}

/// Its two parts are joined again.
pub fn joined_again()
    ensures { JoinedAgain }
{}

/// A route gets other marks.
pub fn recalibrated()
    ensures { Recalibrated }
{}

/// Another link replaces a stretch of a route.
pub fn realigned()
    ensures { Realigned }
{}

/// Another link comes between.
pub fn inserted_piece()
    ensures { InsertedPiece }
{}

/// A second route, on ground that is taken and on ground that is free.
pub fn taken_ground()
    ensures { TakenGround }
{}

/// Joins that are refused, and one that is done.
pub fn join_refusals()
    ensures { JoinRefusals }
{}

/// A route goes, and what lies on it is abandoned.
pub fn closed_route()
    ensures { ClosedRoute }
{}

/// A route runs the other way.
pub fn turned_route()
    ensures { TurnedRoute }
{}

/// Positions that count from a referent.
pub fn referent_positions()
    ensures { ReferentPositions }
{}
