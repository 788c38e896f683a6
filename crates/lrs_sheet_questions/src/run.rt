//! A sheet of questions, from its bytes to the bytes of its answers.

ghost use Rattle.std.specs.Prelude.{◌≡◌, Some, false};
ghost use Rattle.std.specs.Io.KnownBytes.{Keeps};
ghost use Rattle.csv.specs.Reading.{expected_len};
ghost use Rattle.lrs_sheet_records.specs.Rows.{IsPlain};
ghost use Rattle.lrs_sheet_questions.specs.SheetAnswers.{HasAsked, width};
ghost use Rattle.lrs_sheet_questions.specs.Rows.{AnswersRows};

use crate::answer::answer_row;
use crate::tally::QuestionTally;
use csv::{ByteRecord, Reader};
use lrs_desk::{Desk, Keeper};
use lrs_sheet_records::rows::{Arrival, Arriving, Whole, next_row, open};
use lrs_sheet_records::{SheetFault, is_question_header};
use std::alloc::Global;
use std::io::{self, Read, Write};

/// The most records of a sheet after its header.
const MAX_RECORDS: u32 = 100_000_000;

/// Sends what is written on its way, where no other record has come.
fn send<R: Read + Arrival, W: Write>(rows: &Reader<R>, writer: &mut W) -> io::Result<()>
    ensures { Keeps (W.contents writer.old) (W.contents writer.new) }
{
    if rows.get_ref().has_record_behind(rows.position().byte()) {
        return Ok(());
    }
    writer.flush()
}

/// Answers the records under the header, to their end.
fn ask_rows<R: Read + Arrival, W: Write, K: Keeper>(
    alloc: Global,
    rows: &mut Reader<R>,
    row: &mut ByteRecord,
    writer: &mut W,
    desk: &Desk<K>,
) -> Result<QuestionTally, SheetFault>
    requires plain { IsPlain rows.old }
    requires wide { expected_len rows.old ≡ Some width }
    requires behind { desk.now.is_ahead ≡ false }
    ensures { AnswersRows desk.now.image R.remaining rows.old (W.contents writer.old)
        (W.contents writer.new) result }
{
    let mut tally = QuestionTally::default();
    for _turn in 0..MAX_RECORDS {
        match next_row(rows, row) {
            Ok(true) => {}
            Ok(false) => return Ok(tally),
            Err(fault) => return Err(fault),
        }
        match answer_row(alloc, row, writer, desk) {
            Ok(is_answer) => tally.count(is_answer),
            Err(fault) => return Err(fault),
        }
        if send(rows, writer).is_err() {
            return Err(SheetFault::Write);
        }
    }
    match next_row(rows, row) {
        Ok(true) => Err(SheetFault::Read),
        Ok(false) => Ok(tally),
        Err(fault) => Err(fault),
    }
}

fn run<R: Read + Arrival + Drop, W: Write, K: Keeper>(
    alloc: Global,
    reader: R,
    writer: &mut W,
    desk: &Desk<K>,
) -> Result<QuestionTally, SheetFault>
    requires behind { desk.now.is_ahead ≡ false }
    ensures { HasAsked desk.now.image (R.remaining reader) (W.contents writer.old)
        (W.contents writer.new) result }
{
    let mut rows = open(alloc, reader);
    let mut row = ByteRecord::new(alloc);
    match next_row(&mut rows, &mut row) {
        Ok(true) => {}
        Ok(false) => return Ok(QuestionTally::default()),
        Err(fault) => return Err(fault),
    }
    if !is_question_header(&row) {
        return Err(SheetFault::BadHeader);
    }
    ask_rows(alloc, &mut rows, &mut row, writer, desk)
}

/// Answers the questions of a sheet in order: the lines of each are written before the next one is read. A malformed
/// question is refused, and the next one is asked. Nothing that is kept changes. The writer is not flushed.
///
/// # Errors
///
/// `BadHeader` if the first record is not the header, and nothing is written. `BadCsv` at the first record that has not
/// six fields. `Read` if the reader fails or there are more than 100,000,000 records, `Write` if the writer fails, and
/// `Memory`. What was answered before the fault stays written.
pub fn ask_all<R: Read + Drop, W: Write, K: Keeper>(
    alloc: Global,
    reader: R,
    writer: &mut W,
    desk: &Desk<K>,
) -> Result<QuestionTally, SheetFault>
    requires behind { desk.now.is_ahead ≡ false }
    ensures { HasAsked desk.now.image (R.remaining reader) (W.contents writer.old)
        (W.contents writer.new) result }
{
    run(alloc, Whole { reader }, writer, desk)
}

/// The same of a sheet that is sent piece by piece: the writer is flushed where no whole record has come behind the one
/// that was answered, so that no answer waits for bytes that are still to come.
///
/// # Errors
///
/// Those of `ask_all`.
pub fn ask_arriving<R: Read + Drop, W: Write, K: Keeper>(
    alloc: Global,
    reader: R,
    writer: &mut W,
    desk: &Desk<K>,
) -> Result<QuestionTally, SheetFault>
    requires behind { desk.now.is_ahead ≡ false }
    ensures { HasAsked desk.now.image (R.remaining reader) (W.contents writer.old)
        (W.contents writer.new) result }
{
    run(alloc, Arriving::new(reader), writer, desk)
}
