//! The records of a text, one at a time, for whoever reads sheets: of commands, or of questions.

ghost use Rattle.std.specs.Prelude.{◌≡◌, ◌⊎◌, ◌∷◌, [], List, true, false, length, IfOk, OnOk, IfErr, IfSome, Some, None};
ghost use Rattle.csv.specs.Records.{fields_of};
ghost use Rattle.csv.specs.Reading.{error_kind, expected_len};
ghost use Rattle.lrs_machine.specs.Lines.{Text};
ghost use Rattle.lrs_sheet_records.specs.Kinds.{width_of};
ghost use Rattle.lrs_sheet_records.specs.declared.sheet.Sheet.{Sheet};
ghost use Rattle.lrs_sheet_records.specs.Rows.{IsPlain, HasRead, Gave, EndsAfter, IsReadFault, fault_of_kind};

pub use crate::arrival::{Arrival, Arriving, Whole};
use crate::fault::SheetFault;
use csv::{ByteRecord, Error, ErrorKind, Reader, ReaderBuilder};
use std::alloc::Global;
use std::io::Read;

/// A reader of the records of a text. None has been read yet, not even the header.
pub fn open<R: Read>(alloc: Global, reader: R) -> Reader<R>
    ensures plain { IsPlain result }
    ensures first { expected_len result ≡ None }
    ensures start { IfSome (R.remaining reader) (λ input. HasRead R.remaining result input []) }
{
    ReaderBuilder::new()
        .has_headers(false)
        .from_reader(alloc, reader)
}

fn fault_of(error: Error) -> SheetFault
    ensures { result ≡ fault_of_kind (error_kind error) }
{
    match error.into_kind() {
        ErrorKind::UnequalLengths { .. } => SheetFault::BadCsv,
        ErrorKind::OutOfMemory => SheetFault::Memory,
        _ => SheetFault::Read,
    }
}

/// Reads the next record into `row`, and says whether there was one. The header counts as a record.
///
/// # Errors
///
/// `Read` if the reader fails, `Memory`, or `BadCsv` if the record has another number of fields than the one before it.
pub fn next_row<R: Read>(rows: &mut Reader<R>, row: &mut ByteRecord) -> Result<bool, SheetFault>
    requires { IsPlain rows.old }
    ensures plain { IfOk result (λ found. found ≡ true → IsPlain rows.new) }
    ensures width { IfOk result (λ found. found ≡ true
        → expected_len rows.new ≡ Some (length (fields_of row.new))) }
    ensures same_width { IfOk result (λ found. found ≡ true
        → IfSome (expected_len rows.old) (λ wanted. length (fields_of row.new) ≡ wanted)) }
    ensures found { IfOk result (λ found. found ≡ true
        → Gave R.remaining rows.old rows.new (fields_of row.new ∷ [])) }
    ensures ended { IfOk result (λ found. found ≡ false → EndsAfter R.remaining rows.old []) }
    ensures faults { IfErr result (IsReadFault R.remaining rows.old) }
{
    match rows.read_byte_record(row) {
        Ok(found) => Ok(found),
        Err(error) => Err(fault_of(error)),
    }
}

/// Reads so many records, and drops them.
///
/// # Errors
///
/// `Memory`, or `Read` where there are not so many.
pub fn skip_rows<R: Read>(
    rows: &mut Reader<R>,
    row: &mut ByteRecord,
    count: u32,
) -> Result<(), SheetFault>
    requires { IsPlain rows.old }
    ensures plain { OnOk result (IsPlain rows.new) }
    ensures width { OnOk result ((sheet : Sheet) → expected_len rows.old ≡ Some (width_of sheet)
        → expected_len rows.new ≡ Some (width_of sheet)) }
    ensures gave { OnOk result ((records : List (List Text)) × (length records ≡ count)
        × Gave R.remaining rows.old rows.new records) }
    ensures faults { IfErr result (λ e. (e ≡ SheetFault.Read) ⊎ (e ≡ SheetFault.Memory)) }
{
    for _turn in 0..count {
        match next_row(rows, row) {
            Ok(true) => {}
            Err(SheetFault::Memory) => return Err(SheetFault::Memory),
            Ok(false) | Err(_) => return Err(SheetFault::Read),
        }
    }
    Ok(())
}
