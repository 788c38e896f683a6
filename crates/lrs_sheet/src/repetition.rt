//! Sheets in which a key stands twice. They do not go on: a record that is an edit under such a key may have been done as
//! an earlier record, and those between the two would be passed over.

ghost use Rattle.std.specs.Prelude.{◌≡◌, ◌≤◌, ◌⊎◌, length, Some, IfErr, IfNone, IfOk, IfSome, OnOk};
ghost use Rattle.std.specs.BTreeMap.{IsEmpty, Updates};
ghost use Rattle.std.specs.Cmp.Lexicographic.{slice_cmp};
ghost use Rattle.std.specs.Ordering.{nat_cmp};
ghost use Rattle.csv.specs.Reading.{expected_len};
ghost use Rattle.csv.specs.Records.{fields_of};
ghost use Rattle.lrs_sheet_records.specs.Kinds.{width_of};
ghost use Rattle.lrs_sheet_records.specs.Rows.{IsPlain};
ghost use Rattle.lrs_sheet.specs.Repetition.{FindsRepetition, HasKey, HasNoKey, TakesKey, TellsRepetition, number_of};

use crate::run::MAX_RECORDS;
use csv::{ByteRecord, Reader};
use lrs_machine::Key;
use lrs_sheet_records::rows::{next_row, open};
use lrs_sheet_records::{ReadFault, Sheet, SheetFault, SheetRecord, command_in, is_header};
use std::alloc::Global;
use std::collections::BTreeMap;
use std::io::Read;

/// A key that two records of a sheet have: the first record that has the key of one before it, and that one, by their
/// numbers behind the header, from 1.
#[derive(Clone, Copy, PartialEq, Eq)]
pub struct RepeatedKey {
    pub key: Key,
    pub first: u32,
    pub second: u32,
}

/// The key of a well-formed record.
fn key_of(alloc: Global, row: &SheetRecord<'_>) -> Result<Option<Key>, SheetFault>
    requires { length (fields_of row.now.fields.now) ≤ width_of row.now.sheet }
    ensures key { IfOk result (λ found. IfSome found (λ key.
        HasKey row.now.sheet key (fields_of row.now.fields.now))) }
    ensures none { IfOk result (λ found. IfNone found
        (HasNoKey row.now.sheet (fields_of row.now.fields.now))) }
    ensures memory { IfErr result (λ e. e ≡ SheetFault.Memory) }
{
    match command_in(alloc, row) {
        Ok((key, _command)) => Ok(Some(key)),
        Err(ReadFault::Field(_)) => Ok(None),
        Err(ReadFault::Memory) => Err(SheetFault::Memory),
    }
}

/// Notes that the record of this number has a key, and answers which had it before.
fn note(seen: &mut BTreeMap<Key, u32>, key: Key, number: u32) -> Result<Option<u32>, SheetFault>
    ensures before { IfOk result (λ before. before ≡ number_of seen.old key) }
    ensures noted { OnOk result (Updates (slice_cmp nat_cmp) seen.old seen.new key (Some number)) }
    ensures memory { IfErr result (λ e. e ≡ SheetFault.Memory) }
{
    match seen.insert(key, number) {
        Ok(before) => Ok(before),
        Err(_) => Err(SheetFault::Memory),
    }
}

/// Looks at one more record, which has this number.
fn take_key(
    alloc: Global,
    row: &SheetRecord<'_>,
    number: u32,
    seen: &mut BTreeMap<Key, u32>,
) -> Result<Option<RepeatedKey>, SheetFault>
    requires { length (fields_of row.now.fields.now) ≤ width_of row.now.sheet }
    ensures taken { IfOk result (TakesKey row.now.sheet (fields_of row.now.fields.now) number
        seen.old seen.new) }
    ensures memory { IfErr result (λ e. e ≡ SheetFault.Memory) }
{
    match key_of(alloc, row) {
        Ok(Some(key)) => match note(seen, key, number) {
            Ok(Some(first)) => Ok(Some(RepeatedKey {
                key,
                first,
                second: number,
            })),
            Ok(None) => Ok(None),
            Err(fault) => Err(fault),
        },
        Ok(None) => Ok(None),
        Err(fault) => Err(fault),
    }
}

/// Looks through the records under the header for the first that has the key of one before it, to their end or to one
/// that has another length.
fn search_keys<R: Read>(
    alloc: Global,
    sheet: Sheet,
    rows: &mut Reader<R>,
    row: &mut ByteRecord,
    seen: &mut BTreeMap<Key, u32>,
) -> Result<Option<RepeatedKey>, SheetFault>
    requires plain { IsPlain rows.old }
    requires width { expected_len rows.old ≡ Some (width_of sheet) }
    requires none { IsEmpty seen.old }
    ensures found { IfOk result (FindsRepetition sheet R.remaining rows.old) }
    ensures faults { IfErr result (λ e. (e ≡ SheetFault.Read) ⊎ (e ≡ SheetFault.Memory)) }
{
    for turn in 0..MAX_RECORDS + 1 {
        match next_row(rows, row) {
            Ok(true) => {}
            Ok(false) => return Ok(None),
            Err(SheetFault::BadCsv) => return Ok(None),
            Err(SheetFault::Memory) => return Err(SheetFault::Memory),
            Err(_) => return Err(SheetFault::Read),
        }
        let read = SheetRecord { fields: row, sheet };
        match take_key(alloc, &read, turn + 1, seen) {
            Ok(None) => {}
            Ok(Some(twice)) => return Ok(Some(twice)),
            Err(_) => return Err(SheetFault::Memory),
        }
    }
    Err(SheetFault::Read)
}

/// The first record of a sheet that has the key of one before it, if there is one. Only well-formed records have keys;
/// those behind one of another length than the header play no part.
///
/// # Errors
///
/// `Read` if the reader fails or there are more than 100,000,000 records, and `Memory`.
pub fn repeated_key<R: Read + Drop>(
    alloc: Global,
    sheet: Sheet,
    reader: R,
) -> Result<Option<RepeatedKey>, SheetFault>
    ensures told { IfSome (R.remaining reader) (λ input. IfOk result (TellsRepetition sheet input)) }
    ensures faults { IfErr result (λ e. (e ≡ SheetFault.Read) ⊎ (e ≡ SheetFault.Memory)) }
{
    let mut rows = open(alloc, reader);
    let mut row = ByteRecord::new(alloc);
    match next_row(&mut rows, &mut row) {
        Ok(true) => {}
        Ok(false) => return Ok(None),
        Err(SheetFault::Memory) => return Err(SheetFault::Memory),
        Err(_) => return Err(SheetFault::Read),
    }
    if !is_header(sheet, &row) {
        return Ok(None);
    }
    let mut seen = BTreeMap::new(alloc);
    search_keys(alloc, sheet, &mut rows, &mut row, &mut seen)
}
