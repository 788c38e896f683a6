//! What the fields of a record say of a place that is asked about: `link` or a route, and where on it.

ghost use Rattle.std.specs.Prelude.{◌≡◌, false, IsTrue};
ghost use Rattle.lrs_sheet_records.specs.Fields.{ReadsField};
ghost use Rattle.lrs_sheet_records.specs.Kinds.{edit_fields};
ghost use Rattle.lrs_sheet_records.specs.Records as spec;
ghost use Rattle.lrs_sheet_records.specs.Shapes;
ghost use Rattle.lrs_sheet_records.specs.Shapes.{LinkOrPlace, MillimetreOrNothing, Nothing, Number, PlaceOf, Word};

use crate::fault::ReadFault;
use crate::list::number;
use crate::shape::place_of;
use crate::sheet::{SheetRecord, text_at};
use lrs_machine::{Field, Place, read_place};
use lrs_measure::limits::{GREATEST_LINK, LONGEST_LINK};
use lrs_position::RouteName;

/// Whether a text is the word `link`.
pub(crate) fn is_link_word(text: &[u8]) -> bool
    ensures { result ≡ Shapes.is_link_word text.now }
{
    text == b"link".as_slice()
}

/// The name of a route, where `link` could stand.
pub(crate) fn route_at(row: &SheetRecord<'_>, field: Field) -> Result<RouteName, ReadFault>
    requires { Shapes.is_link_word (spec.texts_of (edit_fields row.now) field) ≡ false }
    ensures { ReadsField Shapes.LinkOrRoute Word (edit_fields row.now) field result }
{
    match RouteName::new(text_at(row, place_of(field))) {
        Some(name) => Ok(name),
        None => Err(ReadFault::Field(field)),
    }
}

/// The number of a link, where the field `by` says `link`.
pub(crate) fn link_at(row: &SheetRecord<'_>, by: Field, field: Field) -> Result<u32, ReadFault>
    requires { IsTrue (Shapes.is_link_word (spec.texts_of (edit_fields row.now) by)) }
    ensures { ReadsField (LinkOrPlace by) Number (edit_fields row.now) field result }
{
    match number(text_at(row, place_of(field)), 1, u64::from(GREATEST_LINK)) {
        Some(link) => Ok(link as u32),
        None => Err(ReadFault::Field(field)),
    }
}

/// A millimetre of a link, where the field `by` says `link`.
pub(crate) fn millimetre_at(
    row: &SheetRecord<'_>,
    by: Field,
    field: Field,
) -> Result<u64, ReadFault>
    requires { IsTrue (Shapes.is_link_word (spec.texts_of (edit_fields row.now) by)) }
    ensures { ReadsField (MillimetreOrNothing by) Number (edit_fields row.now) field result }
{
    match number(text_at(row, place_of(field)), 0, u64::from(LONGEST_LINK)) {
        Some(mm) => Ok(mm),
        None => Err(ReadFault::Field(field)),
    }
}

/// A place of a route, where the field `by` does not say `link`.
pub(crate) fn place_at(row: &SheetRecord<'_>, by: Field, field: Field) -> Result<Place, ReadFault>
    requires { Shapes.is_link_word (spec.texts_of (edit_fields row.now) by) ≡ false }
    ensures { ReadsField (LinkOrPlace by) PlaceOf (edit_fields row.now) field result }
{
    match read_place(text_at(row, place_of(field))) {
        Some(place) => Ok(place),
        None => Err(ReadFault::Field(field)),
    }
}

/// Nothing, where the field `by` does not say `link`.
pub(crate) fn nothing_at(row: &SheetRecord<'_>, by: Field, field: Field) -> Result<(), ReadFault>
    requires { Shapes.is_link_word (spec.texts_of (edit_fields row.now) by) ≡ false }
    ensures { ReadsField (MillimetreOrNothing by) (λ none. Nothing)
        (edit_fields row.now) field result }
{
    if text_at(row, place_of(field)).is_empty() {
        Ok(())
    } else {
        Err(ReadFault::Field(field))
    }
}
