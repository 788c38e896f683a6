//! Laws of places.

ghost use Rattle.lrs_report_answers.specs.Place.Laws.{LinksLeadBack, LocatedIsExact};

/// A millimetre that a route runs over, asked for on its link, is at its chainage on that route.
pub fn links_lead_back()
    ensures { LinksLeadBack }
{}

/// The chainage that is found for an expression is one that it locates, and one of the same value is found wherever it
/// locates one.
pub fn located_is_exact()
    ensures { LocatedIsExact }
{}
