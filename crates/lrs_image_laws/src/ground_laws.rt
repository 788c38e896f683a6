//! Laws of routes that leave a part of their ground.

ghost use Rattle.lrs_image_laws.specs.Closures.{CloseMakes, LeavingIsOrderly, LeavingMakesState};
ghost use Rattle.lrs_image_laws.specs.Realignments.{RealignMakes, RealignedHasRows};

/// Routes dropped and written that fit, and the ledger rows of what is removed, leave an image in order.
pub fn leaving_is_orderly()
    ensures { LeavingIsOrderly }
{}

/// Routes dropped and written that leave a part of their ground leave the state without it.
pub fn leaving_makes_state()
    ensures { LeavingMakesState }
{}

/// The other routes, and what the rows of the removed one held, are what its close makes.
pub fn close_makes()
    ensures { CloseMakes }
{}

/// A route with other ground for a stretch, and what lay on the stretch gone, are what its realignment makes.
pub fn realign_makes()
    ensures { RealignMakes }
{}

/// Rows of a realigned route lie on it.
pub fn realigned_has_rows()
    ensures { RealignedHasRows }
{}
