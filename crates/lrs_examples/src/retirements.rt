//! Examples of assets that are retired or superseded.

ghost use Rattle.lrs_examples.specs.Retirements.{RetiredForGood, SupersededOnOneSide};

/// A speed limit is retired.
pub fn retired_for_good()
    ensures { RetiredForGood }
{}

/// A speed limit is superseded on one side.
pub fn superseded_on_one_side()
    ensures { SupersededOnOneSide }
{}
