//! Laws of the rows of an inventory, of inventories that say the same, and of commands that undo one another.

ghost use Rattle.lrs_promises.specs.DeskLaws.Classes.{SomeDifferByClasses};
ghost use Rattle.lrs_promises.specs.DeskLaws.InventoryRows.{AsMany, NoneIsShorter, RowsAreMaximal, RowsAreTheRuns, RowsBeginApart, RowsStand, SameRows, SameRowsOfEach};
ghost use Rattle.lrs_promises.specs.DeskLaws.LeftRows.{CommandsLeaveFewestRows, CommandsLeaveMaximalRows, CommandsLeaveTheSameRows};
ghost use Rattle.lrs_promises.specs.DeskLaws.Overlaps.{SomeOverlapsAreShorter};
ghost use Rattle.lrs_promises.specs.DeskLaws.Rows.{RowsAreDetermined};
ghost use Rattle.lrs_promises.specs.DeskLaws.Inverses.{SplitAndJoinLeaveTheRows, SplitIsUndone, TurnIsUndone, TurnsLeaveTheRows};

/// The rows of an inventory are a function of the courses of its routes, of the classes of its assets, and of what is held.
pub fn rows_are_determined()
    ensures { RowsAreDetermined }
{}

/// A join of the two parts of a route is never refused, and undoes the split.
pub fn a_split_is_undone()
    ensures { SplitIsUndone }
{}

/// A second turn of a route undoes the first.
pub fn a_turn_is_undone()
    ensures { TurnIsUndone }
{}

/// An inventory of which a route is split and joined again has the rows that it had.
pub fn a_split_and_a_join_leave_the_rows()
    ensures { SplitAndJoinLeaveTheRows }
{}

/// An inventory of which a route is turned twice has the rows that it had.
pub fn two_turns_leave_the_rows()
    ensures { TurnsLeaveTheRows }
{}

/// The rows of each asset on each route are its canonical rows there: the maximal runs of neighbouring millimetres of
/// the course where it holds the same side or sides. The classes of the assets have no part in it.
pub fn rows_are_the_runs()
    ensures { RowsAreTheRuns }
{}

/// The rows of an inventory are the maximal stretches of what is held: at each millimetre of a row the asset is on the
/// row's side or sides and on no other, and at the millimetres before and behind the row that is not so. Each such
/// stretch is a row.
pub fn rows_are_maximal()
    ensures { RowsAreMaximal }
{}

/// Inventories with the same courses that hold the same have the same rows of each asset on each route, in the same
/// order.
pub fn rows_of_each_are_one()
    ensures { SameRowsOfEach }
{}

/// Inventories with the same courses that hold the same have the same rows, compared as sets.
pub fn rows_are_one()
    ensures { SameRows }
{}

/// Inventories with the same courses that hold the same have equally many rows.
pub fn they_are_as_many()
    ensures { AsMany }
{}

/// The rows of an inventory stand for what it holds, and no asset has two of them over one millimetre.
pub fn rows_stand()
    ensures { RowsStand }
{}

/// No two rows of an inventory have asset, route and start in common.
pub fn rows_begin_apart()
    ensures { RowsBeginApart }
{}

/// No list of rows that stands for the same, with no asset twice over one millimetre, is shorter than the rows of an
/// inventory; and the asset, route and start of each of these rows are those of some row of that list.
pub fn none_is_shorter()
    ensures { NoneIsShorter }
{}

/// Whatever the commands of a list were, the rows that they leave are the maximal stretches of what is held then.
pub fn commands_leave_maximal_rows()
    ensures { CommandsLeaveMaximalRows }
{}

/// Two lists of commands after which courses and holdings are the same leave the same rows.
pub fn commands_leave_the_same_rows()
    ensures { CommandsLeaveTheSameRows }
{}

/// No list of rows that stands for what is held after a list of commands, with no asset twice over one millimetre, is
/// shorter than the rows that the commands leave.
pub fn commands_leave_fewest_rows()
    ensures { CommandsLeaveFewestRows }
{}

/// There are two inventories with the same courses that hold the same, and whose assets are of other classes: their
/// rows as they are kept, with the classes and in the order of the classes, differ.
pub fn some_differ_by_classes()
    ensures { SomeDifferByClasses }
{}

/// There are fewer rows than those of an inventory that stand for what it holds, where an asset has two of them over one
/// millimetre.
pub fn some_overlaps_are_shorter()
    ensures { SomeOverlapsAreShorter }
{}
