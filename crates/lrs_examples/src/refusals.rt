//! Examples of commands that are refused.

ghost use Rattle.lrs_examples.specs.Refusals.{EveryRefusal};

/// Each cause in turn.
pub fn every_refusal()
    ensures { EveryRefusal }
{}
