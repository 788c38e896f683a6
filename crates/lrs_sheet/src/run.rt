//! Sheets, from their bytes to the bytes of their replies.

ghost use Rattle.std.specs.Prelude.{◌≡◌, ◌≤◌, ◌<◌, [], Some, Err, length, IfOk, OnOk, IfErr};
ghost use Rattle.csv.specs.Reading.{expected_len};
ghost use Rattle.lrs_sheet_records.specs.Kinds.{width_of};
ghost use Rattle.lrs_sheet_records.specs.Rows.{IsPlain};
ghost use Rattle.lrs_sheet.specs.Replies.{tally_of};
ghost use Rattle.lrs_sheet.specs.Rows.{IsRunOfRows};
ghost use Rattle.lrs_sheet.specs.Runs.{IsRunBehind, IsWholeRun};
ghost use Rattle.lrs_sheet.specs.WaitingCommands.{HasTaken};

use crate::queue::{Queue, settle, take_row};
use crate::reply::Tally;
use csv::{ByteRecord, Reader};
use lrs_desk::{Desk, Keeper};
use lrs_sheet_records::rows::{Arrival, Arriving, Whole, next_row, open, skip_rows};
use lrs_sheet_records::{Sheet, SheetFault, SheetRecord, is_header};
use std::alloc::Global;
use std::io::{Read, Write};

/// The most records of a sheet after its header.
pub(crate) const MAX_RECORDS: u32 = 100_000_000;

/// How many records are done together of a sheet that is there as a whole: some tens of milliseconds over a file, a
/// few hundred bytes of memory each.
pub const RECORDS_TOGETHER: usize = 1_024;

/// How a sheet is run: of which kind it is, how many records are done together at most, and how many first ones are
/// passed over.
#[derive(Clone, Copy)]
pub struct Run {
    pub sheet: Sheet,
    pub together: usize,
    pub passed: u32,
}

/// Takes the records under the header, to their end. Says why the rest cannot be read, if it cannot.
///
/// # Errors
///
/// Those of doing the records: `Write`, `Desk`, `Memory`.
fn take_rows<R: Read + Arrival, W: Write, K: Keeper>(
    alloc: Global,
    run: Run,
    rows: &mut Reader<R>,
    row: &mut ByteRecord,
    queue: &mut Queue,
    writer: &mut W,
    desk: &mut Desk<K>,
) -> Result<Option<SheetFault>, SheetFault>
    requires plain { IsPlain rows.old }
    requires width { expected_len rows.old ≡ Some (width_of run.sheet) }
    requires together { 1 ≤ run.together }
    requires none { queue.old.waiting.items ≡ [] }
    requires fresh { queue.old.tally ≡ tally_of [] }
    ensures taken { IfOk result (HasTaken run.sheet K.may_hold R.remaining rows.old desk.old desk.new
        (W.contents writer.old) (W.contents writer.new) queue.new.tally queue.new.waiting.items) }
    ensures few { OnOk result (length queue.new.waiting.items < run.together) }
    ensures stops { IfErr result (λ e. IsRunOfRows K.may_hold run R.remaining rows.old
        desk.old desk.new (W.contents writer.old) (W.contents writer.new) (Err e)) }
{
    for _turn in 0..MAX_RECORDS {
        match next_row(rows, row) {
            Ok(true) => {}
            Ok(false) => return Ok(None),
            Err(fault) => return Ok(Some(fault)),
        }
        let read = SheetRecord {
            fields: row,
            sheet: run.sheet,
        };
        let has_next = rows.get_ref().has_record_behind(rows.position().byte());
        take_row(alloc, &read, run.together, has_next, queue, writer, desk)?;
    }
    match next_row(rows, row) {
        Ok(true) => Ok(Some(SheetFault::Read)),
        Ok(false) => Ok(None),
        Err(fault) => Ok(Some(fault)),
    }
}

/// Does the records under the header.
fn do_rows<R: Read + Arrival, W: Write, K: Keeper>(
    alloc: Global,
    run: Run,
    rows: &mut Reader<R>,
    row: &mut ByteRecord,
    writer: &mut W,
    desk: &mut Desk<K>,
) -> Result<Tally, SheetFault>
    requires plain { IsPlain rows.old }
    requires width { expected_len rows.old ≡ Some (width_of run.sheet) }
    requires together { 1 ≤ run.together }
    ensures { IsRunOfRows K.may_hold run R.remaining rows.old desk.old desk.new
        (W.contents writer.old) (W.contents writer.new) result }
{
    let mut queue = Queue {
        waiting: Vec::new(alloc),
        tally: Tally::default(),
    };
    let unread = take_rows(alloc, run, rows, row, &mut queue, writer, desk)?;
    settle(&mut queue, writer, desk)?;
    match unread {
        Some(fault) => Err(fault),
        None => Ok(queue.tally),
    }
}

/// Does the records behind those that are passed over, in groups that end where no other record has come.
fn run_groups<R: Read + Arrival + Drop, W: Write, K: Keeper>(
    alloc: Global,
    run: Run,
    reader: R,
    writer: &mut W,
    desk: &mut Desk<K>,
) -> Result<Tally, SheetFault>
    requires together { 1 ≤ run.together }
    ensures { IsRunBehind K.may_hold run (R.remaining reader) desk.old desk.new
        (W.contents writer.old) (W.contents writer.new) result }
{
    desk.prove_kept();
    let mut rows = open(alloc, reader);
    let mut row = ByteRecord::new(alloc);
    if !next_row(&mut rows, &mut row)? {
        return Ok(Tally::default());
    }
    if !is_header(run.sheet, &row) {
        return Err(SheetFault::BadHeader);
    }
    skip_rows(&mut rows, &mut row, run.passed)?;
    let ended = do_rows(alloc, run, &mut rows, &mut row, writer, desk);
    desk.prove_kept();
    ended
}

/// Does the records of a sheet behind those that are passed over, in order, some together: they are kept together, and
/// then each has its line. The first ones have been done or decided before; they are read, and no more. The writer is
/// not flushed.
///
/// # Errors
///
/// Those of `run_sheet`. `Read` also where the sheet has fewer records than are passed over.
pub fn run_behind<R: Read + Drop, W: Write, K: Keeper>(
    alloc: Global,
    run: Run,
    reader: R,
    writer: &mut W,
    desk: &mut Desk<K>,
) -> Result<Tally, SheetFault>
    requires together { 1 ≤ run.together }
    ensures { IsRunBehind K.may_hold run (R.remaining reader) desk.old desk.new
        (W.contents writer.old) (W.contents writer.new) result }
{
    run_groups(alloc, run, Whole { reader }, writer, desk)
}

/// Does the same records of a sheet that is sent piece by piece, and no more of them together than have arrived. So no
/// line of a reply waits for bytes that are still to come. The writer is not flushed.
///
/// # Errors
///
/// Those of `run_behind`.
pub fn run_arriving<R: Read + Drop, W: Write, K: Keeper>(
    alloc: Global,
    run: Run,
    reader: R,
    writer: &mut W,
    desk: &mut Desk<K>,
) -> Result<Tally, SheetFault>
    requires together { 1 ≤ run.together }
    ensures { IsRunBehind K.may_hold run (R.remaining reader) desk.old desk.new
        (W.contents writer.old) (W.contents writer.new) result }
{
    run_groups(alloc, run, Arriving::new(reader), writer, desk)
}

/// Does the records of a sheet in order, at most this many together: they are kept together, and then each has its
/// line. With one, the line of each reply is written before the next record is read. The writer is not flushed.
///
/// # Errors
///
/// Those of `run_edits` for an edit sheet, and of `run_survey` for a survey. After `Desk(Keep)` the first of the records
/// that have no line, one at least and at most this many, are in flight: all of them are kept or none.
pub fn run_sheet<R: Read + Drop, W: Write, K: Keeper>(
    alloc: Global,
    sheet: Sheet,
    together: usize,
    reader: R,
    writer: &mut W,
    desk: &mut Desk<K>,
) -> Result<Tally, SheetFault>
    requires together { 1 ≤ together }
    ensures { IsWholeRun K.may_hold sheet together (R.remaining reader) desk.old desk.new
        (W.contents writer.old) (W.contents writer.new) result }
{
    let run = Run {
        sheet,
        together,
        passed: 0,
    };
    run_behind(alloc, run, reader, writer, desk)
}

/// Does the records of an edit sheet in order, and writes the line of each reply before it reads the next
/// record. The writer is not flushed.
///
/// # Errors
///
/// `BadHeader` if the first record is not the header of an edit sheet, and nothing is done. `BadCsv` at the
/// first record that has not eleven fields. `Read` if the reader fails or there are more than 100,000,000
/// records, `Write` if the writer fails, `Desk` if the desk does not answer. What was done before the fault
/// stays done. After `Desk(Keep)` the next record is kept or not, and questions are answered as before it.
pub fn run_edits<R: Read + Drop, W: Write, K: Keeper>(
    alloc: Global,
    reader: R,
    writer: &mut W,
    desk: &mut Desk<K>,
) -> Result<Tally, SheetFault>
    ensures { IsWholeRun K.may_hold Sheet.Edits 1 (R.remaining reader) desk.old desk.new
        (W.contents writer.old) (W.contents writer.new) result }
{
    run_sheet(alloc, Sheet::Edits, 1, reader, writer, desk)
}

/// Does the records of a survey in order, and writes the line of each reply before it reads the next
/// record. The writer is not flushed.
///
/// # Errors
///
/// `BadHeader` if the first record is not the header of a survey, and nothing is done. `BadCsv` at the
/// first record that has not ten fields. `Read` if the reader fails or there are more than 100,000,000
/// records, `Write` if the writer fails, `Desk` if the desk does not answer. What was done before the fault
/// stays done. After `Desk(Keep)` the next record is kept or not, and questions are answered as before it.
pub fn run_survey<R: Read + Drop, W: Write, K: Keeper>(
    alloc: Global,
    reader: R,
    writer: &mut W,
    desk: &mut Desk<K>,
) -> Result<Tally, SheetFault>
    ensures { IsWholeRun K.may_hold Sheet.Survey 1 (R.remaining reader) desk.old desk.new
        (W.contents writer.old) (W.contents writer.new) result }
{
    run_sheet(alloc, Sheet::Survey, 1, reader, writer, desk)
}
