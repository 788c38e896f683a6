//! Laws of records and of the table of verbs.

ghost use Rattle.lrs_sheet_records.specs.Laws.{
  LinesAreTheTables,
  PrintedRecordsSay,
  QuestionsAreJudged,
  RecordsAreJudged,
};

/// A record says one command under one key, or it has one first malformed field, and not both.
pub fn each_record_is_judged()
    ensures { RecordsAreJudged }
{}

/// A record of a sheet of questions asks one question under one key, or it has one first malformed field, and not both.
pub fn each_question_is_judged()
    ensures { QuestionsAreJudged }
{}

/// The canonical line of each command is made from the table of verbs.
pub fn lines_are_made_from_the_table()
    ensures { LinesAreTheTables }
{}

/// The record that a well formed command is printed as says that command.
pub fn a_printed_record_says_its_command()
    ensures { PrintedRecordsSay }
{}
