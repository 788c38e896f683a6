//! Sheets whose replies were lost: they go on behind the last record that is an edit.
//!
//! A whole sheet that is sent again may do what it refused before, since a record that was refused is looked at again
//! behind commands that stood after it. Where keys are new, going on behind the last edit gives what one run without a
//! stop would have given (`laws`). A sheet in which a key stands twice does not go on.

ghost use Rattle.std.specs.Prelude.{◌≡◌, ◌≤◌, ◌<◌, ◌-◌, ◌^◌, List, length, Some, IfOk, IfErr, IfSome, IfNone};
ghost use Rattle.csv.specs.Reading.{expected_len};
ghost use Rattle.csv.specs.Records.{fields_of};
ghost use Rattle.lrs_machine.specs.Image.{state_of};
ghost use Rattle.lrs_machine.specs.Lines.{Text};
ghost use Rattle.lrs_sheet_records.specs.Kinds.{width_of};
ghost use Rattle.lrs_sheet.specs.Repetition.{HasKeysOnce};
ghost use Rattle.lrs_sheet.specs.Resumption.{HasFound, IsDecidedBy, IsEdit, IsNoEdit, IsSearchFault, decided_next};
ghost use Rattle.lrs_sheet_records.specs.Rows.{IsPlain};
ghost use Rattle.lrs_sheet.specs.Runs.{IsResumedRun, IsResumption};

use crate::repetition::{RepeatedKey, repeated_key};
use crate::reply::Tally;
use crate::run::{MAX_RECORDS, Run, run_behind};
use csv::{ByteRecord, Reader};
use lrs_desk::{Desk, Keeper};
use lrs_machine::Key;
use lrs_sheet_records::rows::{next_row, open};
use lrs_sheet_records::{ReadFault, Sheet, SheetFault, SheetRecord, command_in, is_header};
use std::alloc::Global;
use std::io::{Read, Write};

/// How much of a sheet is decided: so many records, up to the last one that is an edit, which has this key.
#[derive(Clone, Copy, PartialEq, Eq)]
pub struct Decided {
    pub records: u32,
    pub key: Option<Key>,
}

/// Why a sheet does not go on, or not to its end.
#[derive(Clone, Copy, PartialEq, Eq)]
pub enum ResumeFault {
    /// Two of its records have one key; nothing was done.
    RepeatedKey(RepeatedKey),
    Sheet(SheetFault),
}

/// Nothing of a sheet.
const NOTHING: Decided = Decided {
    records: 0,
    key: None,
};

/// The key of a record whose command is an edit.
fn key_of_edit<K: Keeper>(
    alloc: Global,
    row: &SheetRecord<'_>,
    desk: &Desk<K>,
) -> Result<Option<Key>, SheetFault>
    requires { length (fields_of row.now.fields.now) ≤ width_of row.now.sheet }
    ensures edit { IfOk result (λ found. IfSome found (λ key.
        IsEdit row.now.sheet (state_of desk.now.image) key (fields_of row.now.fields.now))) }
    ensures none { IfOk result (λ found. IfNone found
        (IsNoEdit row.now.sheet (state_of desk.now.image) (fields_of row.now.fields.now))) }
    ensures faults { IfErr result (IsSearchFault desk.now.must_reopen) }
{
    let (key, command) = match command_in(alloc, row) {
        Ok(said) => said,
        Err(ReadFault::Field(_)) => return Ok(None),
        Err(ReadFault::Memory) => return Err(SheetFault::Memory),
    };
    match desk.edit_of(&key, &command)? {
        Some(_) => Ok(Some(key)),
        None => Ok(None),
    }
}

/// What is decided once one more record, behind this many, was looked at: up to that one, if it is an edit under a key.
fn decided_by(before: Decided, turn: u32, key: Option<Key>) -> Decided
    requires { turn < 2 ^ 32 - 1 }
    ensures { result ≡ decided_next before turn key }
{
    match key {
        Some(_) => Decided {
            records: turn + 1,
            key,
        },
        None => before,
    }
}

/// Looks through the records under the header, to their end or to one that has another length.
fn search<R: Read, K: Keeper>(
    alloc: Global,
    sheet: Sheet,
    rows: &mut Reader<R>,
    row: &mut ByteRecord,
    desk: &Desk<K>,
) -> Result<Decided, SheetFault>
    requires plain { IsPlain rows.old }
    requires width { expected_len rows.old ≡ Some (width_of sheet) }
    ensures found { IfOk result (HasFound sheet R.remaining rows.old (state_of desk.now.image)) }
    ensures faults { IfErr result (IsSearchFault desk.now.must_reopen) }
{
    let mut decided = NOTHING;
    for turn in 0..MAX_RECORDS + 1 {
        match next_row(rows, row) {
            Ok(true) => {}
            Ok(false) => return Ok(decided),
            Err(SheetFault::BadCsv) => return Ok(decided),
            Err(SheetFault::Memory) => return Err(SheetFault::Memory),
            Err(_) => return Err(SheetFault::Read),
        }
        let read = SheetRecord { fields: row, sheet };
        let key = key_of_edit(alloc, &read, desk)?;
        decided = decided_by(decided, turn, key);
    }
    Err(SheetFault::Read)
}

/// How much of a sheet is decided: it has gone up to there at least, whoever has lost the replies. The desk is asked for
/// each record, and nothing changes.
///
/// # Errors
///
/// `Read` if the reader fails or there are more than 100,000,000 records, `Memory`, and `Desk(MustReopen)` once a commit has failed.
pub fn last_edit<R: Read + Drop, K: Keeper>(
    alloc: Global,
    sheet: Sheet,
    reader: R,
    desk: &Desk<K>,
) -> Result<Decided, SheetFault>
    ensures decided { IfSome (R.remaining reader) (λ input. IfOk result (λ found.
        (front : List (List Text)) × IsDecidedBy sheet (state_of desk.now.image) input found front)) }
    ensures faults { IfErr result (IsSearchFault desk.now.must_reopen) }
{
    let mut rows = open(alloc, reader);
    let mut row = ByteRecord::new(alloc);
    match next_row(&mut rows, &mut row) {
        Ok(true) => {}
        Ok(false) => return Ok(NOTHING),
        Err(SheetFault::Memory) => return Err(SheetFault::Memory),
        Err(_) => return Err(SheetFault::Read),
    }
    if !is_header(sheet, &row) {
        return Ok(NOTHING);
    }
    search(alloc, sheet, &mut rows, &mut row, desk)
}

/// Goes on with a sheet in which no key stands twice.
fn go_on<W: Write, K: Keeper>(
    alloc: Global,
    sheet: Sheet,
    together: usize,
    text: &[u8],
    writer: &mut W,
    desk: &mut Desk<K>,
) -> Result<Tally, SheetFault>
    requires together { 1 ≤ together }
    requires once { HasKeysOnce sheet text.now }
    ensures { IsResumedRun K.may_hold sheet together text.now desk.old desk.new
        (W.contents writer.old) (W.contents writer.new) result }
{
    desk.prove_kept();
    let found = last_edit(alloc, sheet, text, desk)?;
    let run = Run {
        sheet,
        together,
        passed: found.records,
    };
    run_behind(alloc, run, text, writer, desk)
}

/// Goes on with a sheet behind its last record that is an edit, at most this many records together. What stands up to
/// there is decided, and gets no line.
///
/// # Errors
///
/// `RepeatedKey` where two well-formed records have one key, those of `repeated_key` and of `last_edit`, and nothing is
/// done; then those of `run_sheet`.
pub fn resume_sheet<W: Write, K: Keeper>(
    alloc: Global,
    sheet: Sheet,
    together: usize,
    text: &[u8],
    writer: &mut W,
    desk: &mut Desk<K>,
) -> Result<Tally, ResumeFault>
    requires together { 1 ≤ together }
    ensures { IsResumption K.may_hold sheet together text.now desk.old desk.new
        (W.contents writer.old) (W.contents writer.new) result }
{
    desk.prove_kept();
    match repeated_key(alloc, sheet, text) {
        Ok(None) => match go_on(alloc, sheet, together, text, writer, desk) {
            Ok(tally) => Ok(tally),
            Err(fault) => Err(ResumeFault::Sheet(fault)),
        },
        Ok(Some(twice)) => Err(ResumeFault::RepeatedKey(twice)),
        Err(fault) => Err(ResumeFault::Sheet(fault)),
    }
}
