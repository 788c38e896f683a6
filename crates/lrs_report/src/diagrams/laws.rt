//! Laws of diagrams: order along the route is order on the page, labels stand apart, and no text has to be escaped.

ghost use Rattle.lrs_report.specs.Drawings.Laws.{LabelsStandApart, OrderIsKept, TextsArePlain};

/// What lies further along a route stands no further left on the page, and all of it stands between the ends of the axis.
pub fn order_is_kept()
    ensures { OrderIsKept }
{}

/// The labels that are written are those that fit: each begins no further left than the one before it ends, and ends where it
/// has to.
pub fn labels_stand_apart()
    ensures { LabelsStandApart }
{}

/// No name and no value has a character that means something in an SVG picture, so none has to be escaped.
pub fn texts_are_plain()
    ensures { TextsArePlain }
{}
