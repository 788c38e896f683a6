//! What one field of a record says.

ghost use Rattle.std.specs.Prelude.{◌≡◌};
ghost use Rattle.lrs_sheet_records.specs.Kinds.{edit_fields};
ghost use Rattle.lrs_sheet_records.specs.Records as spec;
ghost use Rattle.lrs_sheet_records.specs.Shapes;
ghost use Rattle.lrs_sheet_records.specs.Shapes.{Number, Word, KindOf, PiecesOf, MarksOf, Whole};
ghost use Rattle.lrs_sheet_records.specs.Fields.{ReadsField, ReadsList};

use crate::fault::ReadFault;
use crate::list::{number, read_list};
use crate::sheet::{SheetRecord, text_at};
use lrs_events::{ClassName, Kind};
use lrs_machine::{Field, MarkList, PieceList};
use lrs_position::RouteName;
use std::alloc::Global;

/// Where a field stands in a record of an edit sheet.
pub fn place_of(field: Field) -> usize
    ensures { result ≡ spec.place_of field }
{
    match field {
        Field::Key => 0,
        Field::Verb => 1,
        Field::A => 2,
        Field::B => 3,
        Field::C => 4,
        Field::D => 5,
        Field::E => 6,
        Field::F => 7,
        Field::G => 8,
        Field::H => 9,
        Field::I => 10,
    }
}

/// A number from `low` to `high`.
pub(crate) fn whole_at(
    row: &SheetRecord<'_>,
    field: Field,
    low: u64,
    high: u64,
) -> Result<u64, ReadFault>
    ensures { ReadsField (Whole low high) Number (edit_fields row.now) field result }
{
    match number(text_at(row, place_of(field)), low, high) {
        Some(number) => Ok(number),
        None => Err(ReadFault::Field(field)),
    }
}

/// The name of a class.
pub(crate) fn class_name_at(row: &SheetRecord<'_>, field: Field) -> Result<ClassName, ReadFault>
    ensures { ReadsField Shapes.ClassName Word (edit_fields row.now) field result }
{
    match ClassName::new(text_at(row, place_of(field))) {
        Some(name) => Ok(name),
        None => Err(ReadFault::Field(field)),
    }
}

/// The kind of a class.
pub(crate) fn kind_at(row: &SheetRecord<'_>, field: Field) -> Result<Kind, ReadFault>
    ensures { ReadsField Shapes.ClassKind KindOf (edit_fields row.now) field result }
{
    let text = text_at(row, place_of(field));
    if text == b"point".as_slice() {
        Ok(Kind::Point)
    } else if text == b"stretch".as_slice() {
        Ok(Kind::Stretch)
    } else if text == b"exclusive".as_slice() {
        Ok(Kind::Exclusive)
    } else {
        Err(ReadFault::Field(field))
    }
}

/// The name of a route.
pub(crate) fn route_name_at(row: &SheetRecord<'_>, field: Field) -> Result<RouteName, ReadFault>
    ensures { ReadsField Shapes.RouteName Word (edit_fields row.now) field result }
{
    match RouteName::new(text_at(row, place_of(field))) {
        Some(name) => Ok(name),
        None => Err(ReadFault::Field(field)),
    }
}

/// A list of pieces.
pub(crate) fn pieces_at(
    alloc: Global,
    row: &SheetRecord<'_>,
    field: Field,
) -> Result<PieceList, ReadFault>
    ensures { ReadsList Shapes.Pieces PiecesOf (edit_fields row.now) field result }
{
    match read_list(alloc, text_at(row, place_of(field))) {
        Ok(Some(pieces)) => match PieceList::new(pieces) {
            Some(list) => Ok(list),
            None => Err(ReadFault::Field(field)),
        },
        Ok(None) => Err(ReadFault::Field(field)),
        Err(_) => Err(ReadFault::Memory),
    }
}

/// A list of marks.
pub(crate) fn marks_at(
    alloc: Global,
    row: &SheetRecord<'_>,
    field: Field,
) -> Result<MarkList, ReadFault>
    ensures { ReadsList Shapes.Marks MarksOf (edit_fields row.now) field result }
{
    match read_list(alloc, text_at(row, place_of(field))) {
        Ok(Some(marks)) => match MarkList::new(marks) {
            Some(list) => Ok(list),
            None => Err(ReadFault::Field(field)),
        },
        Ok(None) => Err(ReadFault::Field(field)),
        Err(_) => Err(ReadFault::Memory),
    }
}
