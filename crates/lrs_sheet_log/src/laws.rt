//! The laws of the log.

ghost use Rattle.lrs_sheet_log.specs.Differences.{TablesMakeImages};
ghost use Rattle.lrs_sheet_log.specs.Laws.{CommandsMakeTheRoute, LogReadsAsRecords, LogRecordsSay, LogsHaveParts, PiecesMakeCourses, ReferentsAreSetExactly, RouteSheetsRead};
ghost use Rattle.lrs_sheet_log.specs.Sums.{SumsFollow};

/// The record of an edit says the command that was accepted, under its key.
pub fn log_records_say_their_commands()
    ensures { LogRecordsSay }
{}

/// By the rules of `csv`, the records of a log are the header and the record of each edit.
pub fn a_log_reads_as_its_records()
    ensures { LogReadsAsRecords }
{}

/// A log up to an edit and the one from the next edit on are the whole log; and up to the last edit of an earlier state it
/// is the log of that state.
pub fn logs_have_parts()
    ensures { LogsHaveParts }
{}

/// Images that have the same rows in all tables are the same.
pub fn same_tables_make_the_same_image()
    ensures { TablesMakeImages }
{}

/// The sum up to an edit follows from the sum up to the edit before it, its number and its line.
pub fn sums_follow()
    ensures { SumsFollow }
{}

/// The pieces of a course make it, and there are no fewer.
pub fn pieces_make_courses()
    ensures { PiecesMakeCourses }
{}

/// A referent is set in exactly its millimetre.
pub fn referents_are_set_exactly()
    ensures { ReferentsAreSetExactly }
{}

/// The sheet of a route reads as the records of the commands that make it, and each of them says its command.
pub fn route_sheets_read()
    ensures { RouteSheetsRead }
{}

/// The commands that make a route, done one after another where there is room for it, make it: its course, its marks and
/// its referents are what they were, each command is an edit, and nothing else changes.
pub fn commands_make_the_route()
    ensures { CommandsMakeTheRoute }
{}
