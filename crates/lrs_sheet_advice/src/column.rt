//! The columns of sheets.

ghost use Rattle.std.specs.Prelude.{◌≡◌, ◌++◌, ◌<◌, OnOk};
ghost use Rattle.lrs_sheet_records.specs.Kinds.{width_of};
ghost use Rattle.lrs_sheet_advice.specs.Columns as spec;

use crate::line::AdviceLine;
use lrs_machine::Field;
use lrs_sheet_records::{Sheet, column, place_of};
use std::alloc::AllocError;

/// In which column a field stands, from 0. A survey has none for the verb.
pub(crate) fn column_of(kind: Sheet, field: Field) -> usize
    ensures place { result ≡ spec.column_of kind field }
    ensures within { result < width_of kind }
{
    match kind {
        Sheet::Edits => place_of(field),
        Sheet::Survey => place_of(field).saturating_sub(1),
    }
}

/// The letter of that column.
pub(crate) fn letter_of(kind: Sheet, field: Field) -> u8
    ensures { result ≡ spec.letter_of kind field }
{
    b'A' + column_of(kind, field) as u8
}

/// The name of that column in the header.
fn column_name(kind: Sheet, field: Field) -> &'static [u8]
    ensures { result.now ≡ spec.column_name kind field }
{
    column(kind, column_of(kind, field))
}

/// Says the letter and the name of a column: `C (a`.
fn say_letter(line: &mut AdviceLine, kind: Sheet, field: Field) -> Result<(), AllocError>
    ensures { OnOk result (line.new ≡ line.old ++ spec.lettered kind field) }
{
    line.say_bytes(&[letter_of(kind, field)])?;
    line.say_plain(" (")?;
    line.say_bytes(column_name(kind, field))
}

/// Says what a field is for, in an edit sheet behind the verb. Else the header says it.
fn say_use(line: &mut AdviceLine, kind: Sheet, field: Field, what: &str) -> Result<(), AllocError>
    ensures { OnOk result (line.new ≡ line.old ++ spec.use_text kind field what.now) }
{
    match kind {
        Sheet::Edits => {
            if place_of(field) < 2 {
                return Ok(());
            }
            line.say_plain(", ")?;
            line.say_bytes(what.as_bytes())
        }
        Sheet::Survey => Ok(()),
    }
}

/// Says a column, and what its field is for: `C (a, the route)`.
fn say_column(
    line: &mut AdviceLine,
    kind: Sheet,
    field: Field,
    what: &str,
) -> Result<(), AllocError>
    ensures { OnOk result (line.new ≡ line.old ++ spec.column_text kind field what.now) }
{
    say_letter(line, kind, field)?;
    say_use(line, kind, field, what)?;
    line.say_plain(")")
}

/// Says the columns of a position, that of its method first: `F (method) and G (from)`.
fn say_both(
    line: &mut AdviceLine,
    kind: Sheet,
    method: Field,
    field: Field,
    what: &str,
) -> Result<(), AllocError>
    ensures { OnOk result (line.new ≡ line.old ++ spec.both_columns kind method field what.now) }
{
    say_column(line, kind, method, "the method")?;
    line.say_plain(" and ")?;
    say_column(line, kind, field, what)
}

/// Says in which column a field stands, and what it is for: `column C (a, the route)`, or in a survey `column D (route)`.
/// Where it is read by the method that another field names, both are said: `columns F (method) and G (from)`.
pub(crate) fn say_columns(
    line: &mut AdviceLine,
    kind: Sheet,
    method: Option<Field>,
    field: Field,
    what: &str,
) -> Result<(), AllocError>
    ensures { OnOk result (line.new ≡ line.old ++ spec.columns_text kind method field what.now) }
{
    match method {
        Some(method) => {
            line.say_plain("columns ")?;
            say_both(line, kind, method, field, what)
        }
        None => {
            line.say_plain("column ")?;
            say_column(line, kind, field, what)
        }
    }
}
