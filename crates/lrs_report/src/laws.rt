//! What the segments of a route are in the state that its inventory stands for.

ghost use Rattle.lrs_report.specs.StateSegments.{SegmentsAreOfState, ExclusiveByRows};

/// Segments by the rows of a route are those of the state.
pub fn segments_are_of_state()
    ensures { SegmentsAreOfState }
{}

/// What segments ask of an exclusive class is true where the state is exclusive.
pub fn exclusive_by_rows()
    ensures { ExclusiveByRows }
{}
