//! Runs that stop.

ghost use Rattle.lrs_promises.specs.Stops.{LoseNoneAndDoubleNone};

/// A stop at any moment loses no acknowledged command and doubles none.
pub fn stops()
    ensures { LoseNoneAndDoubleNone }
{}
