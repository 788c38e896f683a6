//! The log of an inventory makes it again.

ghost use Rattle.lrs_promises.specs.Replay.{LogMakesState, PartGoesOn};

/// The log of what any commands made, done on the empty inventory, makes the same state: refused and repeated commands
/// are not in it, and are not missed.
pub fn a_log_makes_the_state()
    ensures { LogMakesState }
{}

/// The log from an edit on, done on the state before that edit, makes the state after the last one.
pub fn a_part_goes_on_with_a_copy()
    ensures { PartGoesOn }
{}
