//! Laws of the difference of two inventories.

ghost use Rattle.lrs_difference.specs.Laws.{KindsAreToldByThemselves, NothingDiffersFromItself, NoLineWhereTheyAgree, SignsAreExchanged, LinesAreInOrder, LinesLeadToTheOther, RouteEditsTellNoAsset};
ghost use Rattle.lrs_difference.specs.Examples.{ShorterLimitIsTold};
ghost use Rattle.lrs_difference.specs.Held.{StretchesAreHeld};

/// An example: where a speed limit becomes shorter and is taken from one side, the stretches that it no longer has are told,
/// and so is a link that is added.
pub fn shorter_limit_is_told()
    ensures { ShorterLimitIsTold }
{}

/// No inventory differs from itself.
pub fn nothing_differs_from_itself()
    ensures { NothingDiffersFromItself }
{}

/// Each two lines of the difference of two sound inventories stand in the order of their items, and of two with one key
/// the removed one stands first.
pub fn lines_are_in_order()
    ensures { LinesAreInOrder }
{}

/// The lines of a difference are those of each kind by itself: links, classes, routes, referents, assets, and what assets
/// hold.
pub fn kinds_are_told_by_themselves()
    ensures { KindsAreToldByThemselves }
{}

/// Where two inventories are exchanged, the signs are exchanged: what is removed the one way is added the other way, in
/// the same order.
pub fn signs_are_exchanged()
    ensures { SignsAreExchanged }
{}

/// The difference of two sound inventories has no line exactly where they say the same of links, classes, routes,
/// referents, assets, and of what each asset holds.
pub fn no_line_where_they_agree()
    ensures { NoLineWhereTheyAgree }
{}

/// The lines of what assets hold, taken from the first of two sound inventories and added to it, give what is held in
/// the second.
pub fn lines_lead_to_the_other()
    ensures { LinesLeadToTheOther }
{}

/// A split, join, renumber, recalibrate or turn is told by no line of an asset, or of what assets hold.
pub fn route_edits_tell_no_asset()
    ensures { RouteEditsTellNoAsset }
{}

/// An asset holds a place of an inventory exactly where a stretch says so of those that its rows have of links.
pub fn stretches_are_held()
    ensures { StretchesAreHeld }
{}
