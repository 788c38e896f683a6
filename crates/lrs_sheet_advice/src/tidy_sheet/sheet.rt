//! Whether a sheet is tidy.

ghost use Rattle.std.specs.Prelude.{◌≡◌, ◌↔◌, IfOk, IfSome, IsTrue, Some};
ghost use Rattle.csv.specs.Reading.{expected_len};
ghost use Rattle.lrs_sheet_records.specs.Kinds.{width_of};
ghost use Rattle.lrs_sheet_records.specs.Rows.{IsPlain};
ghost use Rattle.lrs_sheet_advice.specs.TidyReadings.{TellsTidy};
ghost use Rattle.lrs_sheet_advice.specs.TidySheets.{IsTidySheet};

use crate::tidy_sheet::form::is_tidy_record;
use csv::{ByteRecord, Reader};
use lrs_sheet_records::rows::{next_row, open};
use lrs_sheet_records::{Sheet, SheetFault, SheetRecord, is_header};
use std::alloc::Global;
use std::io::Read;

/// Whether the records that a reader has left are tidy.
fn are_tidy<R: Read>(
    kind: Sheet,
    rows: &mut Reader<R>,
    row: &mut ByteRecord,
) -> Result<bool, SheetFault>
    requires plain { IsPlain rows.old }
    requires width { expected_len rows.old ≡ Some (width_of kind) }
    ensures { IfOk result (TellsTidy kind R.remaining rows.old) }
{
    for _turn in 0..u64::MAX {
        match next_row(rows, row) {
            Ok(true) => {}
            Ok(false) => return Ok(true),
            Err(SheetFault::BadCsv) => return Ok(false),
            Err(fault) => return Err(fault),
        }
        let read = SheetRecord {
            fields: row,
            sheet: kind,
        };
        if !is_tidy_record(&read) {
            return Ok(false);
        }
    }
    Err(SheetFault::Read)
}

/// Whether the text that a reader gives is a tidy sheet.
///
/// # Errors
///
/// `Memory`, or `Read` if the reader fails.
pub(crate) fn is_tidy_sheet<R: Read + Drop>(
    alloc: Global,
    kind: Sheet,
    reader: R,
) -> Result<bool, SheetFault>
    ensures { IfSome (R.remaining reader) (λ input.
        IfOk result (λ is. IsTrue is ↔ IsTidySheet kind input)) }
{
    let mut rows = open(alloc, reader);
    let mut row = ByteRecord::new(alloc);
    match next_row(&mut rows, &mut row) {
        Ok(true) => {}
        Ok(false) => return Ok(false),
        Err(fault) => return Err(fault),
    }
    if !is_header(kind, &row) {
        return Ok(false);
    }
    are_tidy(kind, &mut rows, &mut row)
}
