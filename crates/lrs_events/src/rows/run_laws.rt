//! Laws of rows and of what is held: the rows of a route are the maximal runs of it.

ghost use Rattle.lrs_events.specs.Row.CourseMembers.{HoldsByPlaces};
ghost use Rattle.lrs_events.specs.Row.RunLaws.{RowsAreRuns, RowsAreCanonical, HeldRunsAreOne, HeldRowsAreOne, HeldRowsAreFewest};

/// The rows of each asset are the maximal runs of neighbouring millimetres where they stand for the same side or sides.
pub fn rows_are_runs()
    ensures { RowsAreRuns }
{}

/// Rows hold a place on a course exactly where it is beside an entry of the course, and they stand for the chainage of
/// that entry and that side of it.
pub fn rows_hold_places()
    ensures { HoldsByPlaces }
{}

/// The rows of each asset are the canonical rows of what they hold on the course of their route: the maximal runs of
/// neighbouring millimetres of it where the asset holds the same side or sides.
pub fn rows_are_canonical()
    ensures { RowsAreCanonical }
{}

/// Two lists of rows that hold the same on one course have the same runs of each asset.
pub fn held_runs_are_one()
    ensures { HeldRunsAreOne }
{}

/// The rows of a route are a function of its course, of what each asset holds on it, and of the class of each asset.
pub fn held_rows_are_one()
    ensures { HeldRowsAreOne }
{}

/// The rows of a route are as few as what is held on its course can be written in, where no asset has two rows over one
/// millimetre.
pub fn held_rows_are_fewest()
    ensures { HeldRowsAreFewest }
{}
