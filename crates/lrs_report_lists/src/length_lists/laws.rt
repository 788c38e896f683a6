//! Laws of the lengths of values.

ghost use Rattle.lrs_report_lists.specs.Length.Laws.{LengthsAreOfTwoSides, LengthsAreUnique};

/// Neither side is longer than both together, and both together are no longer than the two sides.
pub fn lengths_are_of_two_sides()
    ensures { LengthsAreOfTwoSides }
{}

/// No two lists are the lengths of one route, or of all.
pub fn lengths_are_unique()
    ensures { LengthsAreUnique }
{}
