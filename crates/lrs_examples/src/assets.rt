//! Examples of assets that are entered.

ghost use Rattle.lrs_examples.specs.Entries.{FirstSheet, SpeedLimitEntered, HalfMillimetreEnds, SignOnBackwardPiece, OverlapAndTouch, RepeatedKey};

/// The first sheet is done.
pub fn first_sheet()
    ensures { FirstSheet }
{}

/// A speed limit on both sides of the route.
pub fn speed_limit_entered()
    ensures { SpeedLimitEntered }
{}

/// A position in the middle of a millimetre.
pub fn half_millimetre_ends()
    ensures { HalfMillimetreEnds }
{}

/// A sign where the route runs backwards.
pub fn sign_on_backward_piece()
    ensures { SignOnBackwardPiece }
{}

/// Two speed limits overlap, or only touch.
pub fn overlap_and_touch()
    ensures { OverlapAndTouch }
{}

/// A command that is sent again.
pub fn repeated_key()
    ensures { RepeatedKey }
{}
