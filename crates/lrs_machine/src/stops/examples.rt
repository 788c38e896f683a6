//! Worked runs that stop.

ghost use Rattle.lrs_machine.specs.Stop.WorkedRuns.{OneLinkOrTwo, BothEndAlike, TwoInFlight, Excluded, GoesOnBehindTheLink};

/// A stop while a link is in flight leaves it out or keeps it, and nothing else can be.
pub fn one_link_or_two()
    ensures { OneLinkOrTwo }
{}

/// Where that link is sent first, both runs end with the same state.
pub fn both_end_alike()
    ensures { BothEndAlike }
{}

/// Two links that are in flight together are both stored, or none of them is; where both were, and both are
/// sent first, each is answered again, and the run ends with the same state too.
pub fn two_in_flight()
    ensures { TwoInFlight }
{}

/// Nothing is forgotten at a stop, and nothing acts before an opening.
pub fn what_cannot_be()
    ensures { Excluded }
{}

/// A sheet of which a route was refused, since its link came behind it: going on behind the link is right, and
/// sending the whole sheet again is not, since the route would be accepted.
pub fn going_on_behind_a_refused_route()
    ensures { GoesOnBehindTheLink }
{}
