//! Laws of lists: a row of a stretch has a millimetre of it, the rows that are told are those that are asked for, a row holds
//! the same on the links under it, and no field has to be quoted.

ghost use Rattle.lrs_report_lists.specs.Laws.{NoFieldNeedsQuotes, RowsAreToldInOrder, RowsHaveAMillimetre, RowsHoldTheSameOnLinks, SidesAreSeenAlongLinks};

/// A row passes for a stretch exactly where it has a millimetre at or behind the start, and before the end.
pub fn rows_have_a_millimetre()
    ensures { RowsHaveAMillimetre }
{}

/// The rows that are told of a route are those that are asked for, each as often as the route has it, and each two of them
/// are in the order of the road.
pub fn rows_are_told_in_order()
    ensures { RowsAreToldInOrder }
{}

/// What a row has of a piece of its route, on the link, are those millimetres of the piece whose chainages it holds.
pub fn rows_hold_the_same_on_links()
    ensures { RowsHoldTheSameOnLinks }
{}

/// A side of the link is told exactly where the row holds the side of the route that lies there.
pub fn sides_are_seen_along_links()
    ensures { SidesAreSeenAlongLinks }
{}

/// No name, value, key, verb, number or measure has a comma, a quotation mark or an end of a line.
pub fn no_field_needs_quotes()
    ensures { NoFieldNeedsQuotes }
{}
