//! What fields of a record say that may be empty, where an empty field asks for nothing.

ghost use Rattle.std.specs.Prelude.{◌≡◌, codes, false};
ghost use Rattle.lrs_sheet_records.specs.Fields.{ReadsField};
ghost use Rattle.lrs_sheet_records.specs.Kinds.{edit_fields};
ghost use Rattle.lrs_sheet_records.specs.Questions.{gaps_argument};
ghost use Rattle.lrs_sheet_records.specs.Shapes;
ghost use Rattle.lrs_sheet_records.specs.Shapes.{LinkSideOf, OrNothing, PlaceOf, Word};
ghost use Rattle.lrs_sheet_records.specs.Verbs.{or_nothing};

use crate::fault::ReadFault;
use crate::shape::{class_name_at, place_of, route_name_at};
use crate::sheet::{SheetRecord, text_at};
use lrs_events::{ClassName, LinkSide};
use lrs_machine::{Field, Place, read_place};
use lrs_position::RouteName;

/// The name of a route.
pub(crate) fn some_route_at(
    row: &SheetRecord<'_>,
    field: Field,
) -> Result<Option<RouteName>, ReadFault>
    ensures { ReadsField (OrNothing Shapes.RouteName) (or_nothing Word)
        (edit_fields row.now) field result }
{
    if text_at(row, place_of(field)).is_empty() {
        return Ok(None);
    }
    match route_name_at(row, field) {
        Ok(route) => Ok(Some(route)),
        Err(fault) => Err(fault),
    }
}

/// The name of a class.
pub(crate) fn some_class_at(
    row: &SheetRecord<'_>,
    field: Field,
) -> Result<Option<ClassName>, ReadFault>
    ensures { ReadsField (OrNothing Shapes.ClassName) (or_nothing Word)
        (edit_fields row.now) field result }
{
    if text_at(row, place_of(field)).is_empty() {
        return Ok(None);
    }
    match class_name_at(row, field) {
        Ok(class) => Ok(Some(class)),
        Err(fault) => Err(fault),
    }
}

/// A place of a route.
fn route_place_at(row: &SheetRecord<'_>, field: Field) -> Result<Place, ReadFault>
    ensures { ReadsField Shapes.RoutePlace PlaceOf (edit_fields row.now) field result }
{
    match read_place(text_at(row, place_of(field))) {
        Some(place) => Ok(place),
        None => Err(ReadFault::Field(field)),
    }
}

/// The same, or none where the field is empty.
pub(crate) fn some_place_at(row: &SheetRecord<'_>, field: Field) -> Result<Option<Place>, ReadFault>
    ensures { ReadsField (OrNothing Shapes.RoutePlace) (or_nothing PlaceOf)
        (edit_fields row.now) field result }
{
    if text_at(row, place_of(field)).is_empty() {
        return Ok(None);
    }
    match route_place_at(row, field) {
        Ok(place) => Ok(Some(place)),
        Err(fault) => Err(fault),
    }
}

/// One side of two.
fn one_side_at(row: &SheetRecord<'_>, field: Field) -> Result<LinkSide, ReadFault>
    ensures { ReadsField Shapes.OneSide LinkSideOf (edit_fields row.now) field result }
{
    let text = text_at(row, place_of(field));
    if text == b"L".as_slice() {
        Ok(LinkSide::Left)
    } else if text == b"R".as_slice() {
        Ok(LinkSide::Right)
    } else {
        Err(ReadFault::Field(field))
    }
}

/// The same, or none where the field is empty.
pub(crate) fn some_side_at(
    row: &SheetRecord<'_>,
    field: Field,
) -> Result<Option<LinkSide>, ReadFault>
    ensures { ReadsField (OrNothing Shapes.OneSide) (or_nothing LinkSideOf)
        (edit_fields row.now) field result }
{
    if text_at(row, place_of(field)).is_empty() {
        return Ok(None);
    }
    match one_side_at(row, field) {
        Ok(side) => Ok(Some(side)),
        Err(fault) => Err(fault),
    }
}

/// Whether a field says `gaps`; an empty one does not.
pub(crate) fn gaps_at(row: &SheetRecord<'_>, field: Field) -> Result<bool, ReadFault>
    ensures { ReadsField (OrNothing Shapes.GapsWord) gaps_argument
        (edit_fields row.now) field result }
{
    let text = text_at(row, place_of(field));
    if text.is_empty() {
        Ok(false)
    } else if text == b"gaps".as_slice() {
        Ok(true)
    } else {
        Err(ReadFault::Field(field))
    }
}
