//! Laws of what contracts of several crates speak of.

ghost use Rattle.lrs_measure.specs.MaximalRuns.{RunsAreOne};

/// A list has one list of maximal runs: that which linear segments and canonical rows are made of.
pub fn runs_are_one<T>()
    ensures { RunsAreOne T }
{}
