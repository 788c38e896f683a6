//! Of which form each field of a record is, and whether a record is tidy.

ghost use Rattle.std.specs.Prelude.{◌≡◌, ◌<◌, ◌≤◌, ◌↔◌, IsTrue};
ghost use Rattle.csv.specs.Records.{fields_of};
ghost use Rattle.lrs_sheet_records.specs.Kinds.{edit_fields};
ghost use Rattle.lrs_sheet_records.specs.Records as records;
ghost use Rattle.lrs_sheet_records.specs.Verbs.{shapes_of};
ghost use Rattle.std.specs.Str.{bytes_eq};
ghost use Rattle.lrs_sheet_advice.specs.Slots.{shape_of, shapes_behind};
ghost use Rattle.lrs_sheet_advice.specs.TidySheets as spec;

use crate::slot::{Slot, slot_of};
use crate::tidy_sheet::cell::{CellForm, is_tidy};
use csv::ByteRecord;
use lrs_machine::Field;
use lrs_sheet_records::{Sheet, SheetRecord, Verb, place_of, read_verb, text_at};

/// The field at a place of an edit sheet.
pub(crate) fn field_of(place: usize) -> Field
    requires { place < 11 }
    ensures { records.place_of result ≡ place }
{
    match place {
        0 => Field::Key,
        1 => Field::Verb,
        2 => Field::A,
        3 => Field::B,
        4 => Field::C,
        5 => Field::D,
        6 => Field::E,
        7 => Field::F,
        8 => Field::G,
        9 => Field::H,
        _ => Field::I,
    }
}

/// The verb of this name: what its fields say is what the table of verbs has under the name.
fn verb_named(name: &[u8]) -> Option<Verb>
    ensures { shapes_behind result ≡ shapes_of name.now }
{
    read_verb(name)
}

/// The verb of a record.
pub(crate) fn verb_of(row: &SheetRecord<'_>) -> Option<Verb>
    ensures { shapes_behind result ≡ shapes_of (records.text_at (edit_fields row.now) 1) }
{
    verb_named(text_at(row, 1))
}

fn is_text(text: &[u8], word: &[u8]) -> bool
    ensures { result ≡ bytes_eq text.now word.now }
{
    text == word
}

/// The form of a position by the method of this name.
fn form_by(name: &[u8]) -> CellForm
    ensures { result ≡ spec.form_by name.now }
{
    if is_text(name, b"abs") {
        CellForm::Digits
    } else if is_text(name, b"int") {
        CellForm::Ratio
    } else if is_text(name, b"rel") {
        CellForm::Listed
    } else {
        CellForm::Words
    }
}

/// The form of a field of a record that is for this.
fn form_of(row: &SheetRecord<'_>, slot: Slot) -> CellForm
    ensures { result ≡ spec.form_of (edit_fields row.now) (shape_of slot) }
{
    match slot {
        Slot::LinkNumber
        | Slot::LinkLength
        | Slot::Asset
        | Slot::Offset
        | Slot::Chainage
        | Slot::ChainageStart
        | Slot::ChainageEnd => CellForm::Digits,
        Slot::Pieces | Slot::SomePieces | Slot::Marks => CellForm::Listed,
        Slot::At(field) | Slot::From(field) | Slot::To(field) => {
            form_by(text_at(row, place_of(field)))
        }
        Slot::Key
        | Slot::VerbName
        | Slot::ClassName
        | Slot::ClassKind
        | Slot::Route
        | Slot::NewName
        | Slot::SecondRoute
        | Slot::Referent
        | Slot::RouteSide
        | Slot::MethodName
        | Slot::Value
        | Slot::Unused => CellForm::Words,
    }
}

/// The form of the field at a place behind the verb.
fn form_behind(row: &SheetRecord<'_>, place: usize) -> CellForm
    requires within { place < 11 }
    requires behind { 2 ≤ place }
    ensures { result ≡ spec.form_at (edit_fields row.now) place }
{
    let verb = verb_of(row);
    let field = field_of(place);
    let slot = slot_of(verb, field);
    form_of(row, slot)
}

/// The form of the field at a place of a record, as an edit sheet has it.
pub(crate) fn form_at(row: &SheetRecord<'_>, place: usize) -> CellForm
    requires { place < 11 }
    ensures { result ≡ spec.form_at (edit_fields row.now) place }
{
    if place < 2 {
        CellForm::Words
    } else {
        form_behind(row, place)
    }
}

/// Whether each field of a record is tidy.
fn are_tidy_fields(row: &SheetRecord<'_>) -> bool
    ensures { IsTrue result ↔ spec.AreTidyFields (edit_fields row.now) }
{
    for place in 0..11 {
        if !is_tidy(form_at(row, place), text_at(row, place)) {
            return false;
        }
    }
    true
}

/// The field at a place of a row, as the sheet has it.
pub(crate) fn row_text(row: &ByteRecord, place: usize) -> &[u8]
    ensures { result.now ≡ records.text_at (fields_of row.now) place }
{
    let whole = SheetRecord {
        fields: row,
        sheet: Sheet::Edits,
    };
    text_at(&whole, place)
}

/// Whether all fields of a row are empty.
pub(crate) fn is_blank(row: &ByteRecord) -> bool
    ensures { IsTrue result ↔ spec.IsBlank (fields_of row.now) }
{
    for place in 0..row.len() {
        if !row_text(row, place).is_empty() {
            return false;
        }
    }
    true
}

/// Whether a record has something in it, and each of its fields is tidy.
pub(crate) fn is_tidy_record(row: &SheetRecord<'_>) -> bool
    ensures { IsTrue result ↔ spec.IsTidyRecord row.now.sheet (fields_of row.now.fields.now) }
{
    if is_blank(row.fields) {
        return false;
    }
    are_tidy_fields(row)
}
