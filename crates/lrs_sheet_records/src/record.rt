//! A record as a command.

ghost use Rattle.std.specs.Prelude.{◌≤◌, length, IfOk, IfErr};
ghost use Rattle.csv.specs.Records.{fields_of};
ghost use Rattle.lrs_sheet_records.specs.Kinds.{edit_fields, width_of};
ghost use Rattle.lrs_sheet_records.specs.Records.{SaysCommand, Refuses};
ghost use Rattle.lrs_sheet_records.specs.Surveys.{SaysNewAsset, RefusesNewAsset};

use crate::arguments::new_asset_of;
use crate::fault::ReadFault;
use crate::sheet::{Sheet, SheetRecord, text_at};
use crate::verb::command_by_verb;
use csv::ByteRecord;
use lrs_machine::{Command, Field, Key, NewAsset};
use std::alloc::Global;

/// The key and the command that a record of at most eleven fields says.
///
/// # Errors
///
/// `Field` with the first field that is malformed, in the order of key, verb, a to i; or `Memory` at a list, which
/// `route`, `recalibrate` and `realign` have, behind fields that are well formed.
pub fn command_of(alloc: Global, row: &ByteRecord) -> Result<(Key, Command), ReadFault>
    requires { length (fields_of row.now) ≤ 11 }
    ensures says { IfOk result (λ said. SaysCommand (fields_of row.now) said.0 said.1) }
    ensures refuses { IfErr result (Refuses (fields_of row.now)) }
{
    let edit = SheetRecord {
        fields: row,
        sheet: Sheet::Edits,
    };
    let Some(key) = Key::new(text_at(&edit, 0)) else {
        return Err(ReadFault::Field(Field::Key));
    };
    match command_by_verb(alloc, &edit) {
        Ok(command) => Ok((key, command)),
        Err(fault) => Err(fault),
    }
}

/// The key and the new asset that a record of a survey, of at most ten fields, says: those of the command `enter`.
///
/// # Errors
///
/// `Field` with the first field that is malformed, in the order of the columns, each by the letter that it
/// has in an edit sheet.
pub fn survey_of(row: &ByteRecord) -> Result<(Key, NewAsset), ReadFault>
    requires { length (fields_of row.now) ≤ 10 }
    ensures says { IfOk result (λ said. SaysNewAsset (fields_of row.now) said.0 said.1) }
    ensures refuses { IfErr result (RefusesNewAsset (fields_of row.now)) }
{
    let surveyed = SheetRecord {
        fields: row,
        sheet: Sheet::Survey,
    };
    let Some(key) = Key::new(text_at(&surveyed, 0)) else {
        return Err(ReadFault::Field(Field::Key));
    };
    match new_asset_of(&surveyed) {
        Ok(asked) => Ok((key, asked)),
        Err(fault) => Err(fault),
    }
}

/// The key and the command that a record of a sheet says.
///
/// # Errors
///
/// As those of `command_of`, or of `survey_of`, which takes no memory.
pub fn command_in(alloc: Global, row: &SheetRecord<'_>) -> Result<(Key, Command), ReadFault>
    requires { length (fields_of row.now.fields.now) ≤ width_of row.now.sheet }
    ensures says { IfOk result (λ said. SaysCommand (edit_fields row.now) said.0 said.1) }
    ensures refuses { IfErr result (Refuses (edit_fields row.now)) }
{
    match row.sheet {
        Sheet::Edits => command_of(alloc, row.fields),
        Sheet::Survey => match survey_of(row.fields) {
            Ok((key, asked)) => Ok((key, Command::Enter(asked))),
            Err(fault) => Err(fault),
        },
    }
}
