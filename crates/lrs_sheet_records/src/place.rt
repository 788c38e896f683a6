//! What the fields of a record say of sides, values, numbers and positions.

ghost use Rattle.std.specs.Prelude.{◌≡◌, IsTrue, IfSome, IfNone};
ghost use Rattle.lrs_position.specs.Expressions.{are_alike};
ghost use Rattle.lrs_sheet_records.specs.Kinds.{edit_fields};
ghost use Rattle.lrs_position.specs.Readings.{method_text};
ghost use Rattle.lrs_sheet_records.specs.Records as spec;
ghost use Rattle.lrs_measure.specs.Limits.{greatest_lateral};
ghost use Rattle.lrs_sheet_records.specs.Shapes;
ghost use Rattle.lrs_sheet_records.specs.Shapes.{Number, Word, SideOf, MethodOf, At, PiecesOf, ClassesOf, DestinationOf, PositionBy, OrNothing, IsReachable, destination_text};
ghost use Rattle.lrs_sheet_records.specs.Verbs.{asset_number, chainage, or_nothing};
ghost use Rattle.lrs_sheet_records.specs.Fields.{ReadsField, ReadsList};

use crate::fault::ReadFault;
use crate::list::read_list;
use crate::shape::{pieces_at, place_of, whole_at};
use crate::sheet::{SheetRecord, text_at};
use lrs_events::{ClassName, Side, Value, read_side};
use lrs_machine::{AssetNumber, Chainage, Destination, Field, LateralOffset, PieceList};
use lrs_measure::Rows;
use lrs_measure::limits::{GREATEST_ASSET, GREATEST_LATERAL, LONGEST_ROUTE};
use lrs_position::{
    EnteredPosition, EventLocation, Method, RefName, read_expr, read_method, read_target,
};
use std::alloc::Global;

/// The name of a referent.
pub(crate) fn referent_name_at(row: &SheetRecord<'_>, field: Field) -> Result<RefName, ReadFault>
    ensures { ReadsField Shapes.ReferentName Word (edit_fields row.now) field result }
{
    match RefName::new(text_at(row, place_of(field))) {
        Some(name) => Ok(name),
        None => Err(ReadFault::Field(field)),
    }
}

/// A value.
pub(crate) fn value_at(row: &SheetRecord<'_>, field: Field) -> Result<Value, ReadFault>
    ensures { ReadsField Shapes.AssetValue Word (edit_fields row.now) field result }
{
    match Value::new(text_at(row, place_of(field))) {
        Some(value) => Ok(value),
        None => Err(ReadFault::Field(field)),
    }
}

/// A side of a route.
pub(crate) fn side_at(row: &SheetRecord<'_>, field: Field) -> Result<Side, ReadFault>
    ensures { ReadsField Shapes.RouteSide SideOf (edit_fields row.now) field result }
{
    match read_side(text_at(row, place_of(field))) {
        Some(side) => Ok(side),
        None => Err(ReadFault::Field(field)),
    }
}

/// The number of an asset.
pub(crate) fn asset_at(row: &SheetRecord<'_>, field: Field) -> Result<AssetNumber, ReadFault>
    ensures { ReadsField asset_number Number (edit_fields row.now) field result }
{
    match AssetNumber::new(whole_at(row, field, 1, GREATEST_ASSET)?) {
        Some(asset) => Ok(asset),
        None => unreachable!(),
    }
}

/// A chainage.
pub(crate) fn chainage_at(row: &SheetRecord<'_>, field: Field) -> Result<Chainage, ReadFault>
    ensures { ReadsField chainage Number (edit_fields row.now) field result }
{
    match Chainage::new(whole_at(row, field, 0, LONGEST_ROUTE)?) {
        Some(at) => Ok(at),
        None => unreachable!(),
    }
}

/// A lateral offset.
pub(crate) fn offset_at(row: &SheetRecord<'_>, field: Field) -> Result<LateralOffset, ReadFault>
    ensures { ReadsField (Shapes.Whole 0 greatest_lateral) Number (edit_fields row.now) field result }
{
    match LateralOffset::new(whole_at(row, field, 0, u64::from(GREATEST_LATERAL))? as u32) {
        Some(offset) => Ok(offset),
        None => unreachable!(),
    }
}

/// A method.
pub(crate) fn method_at(row: &SheetRecord<'_>, field: Field) -> Result<Method, ReadFault>
    ensures { ReadsField Shapes.MethodName MethodOf (edit_fields row.now) field result }
{
    match read_method(text_at(row, place_of(field))) {
        Some(method) => Ok(method),
        None => Err(ReadFault::Field(field)),
    }
}

/// A position by the method that the field `by` names.
pub(crate) fn position_at(
    row: &SheetRecord<'_>,
    by: Field,
    method: Method,
    field: Field,
) -> Result<EnteredPosition, ReadFault>
    requires { spec.texts_of (edit_fields row.now) by ≡ method_text method }
    ensures { ReadsField (PositionBy by) At (edit_fields row.now) field result }
{
    match read_expr(method, text_at(row, place_of(field))) {
        Some(expression) => match EnteredPosition::new(expression) {
            Some(position) => Ok(position),
            None => unreachable!(),
        },
        None => Err(ReadFault::Field(field)),
    }
}

/// The same, or none where the field is empty.
pub(crate) fn end_at(
    row: &SheetRecord<'_>,
    by: Field,
    method: Method,
    field: Field,
) -> Result<Option<EnteredPosition>, ReadFault>
    requires { spec.texts_of (edit_fields row.now) by ≡ method_text method }
    ensures { ReadsField (OrNothing (PositionBy by)) (or_nothing At)
        (edit_fields row.now) field result }
{
    if text_at(row, place_of(field)).is_empty() {
        return Ok(None);
    }
    match position_at(row, by, method, field) {
        Ok(end) => Ok(Some(end)),
        Err(fault) => Err(fault),
    }
}

/// A list of pieces, or none where the field is empty.
pub(crate) fn some_pieces_at(
    alloc: Global,
    row: &SheetRecord<'_>,
    field: Field,
) -> Result<Option<PieceList>, ReadFault>
    ensures { ReadsList (OrNothing Shapes.Pieces) (or_nothing PiecesOf)
        (edit_fields row.now) field result }
{
    if text_at(row, place_of(field)).is_empty() {
        return Ok(None);
    }
    match pieces_at(alloc, row, field) {
        Ok(pieces) => Ok(Some(pieces)),
        Err(fault) => Err(fault),
    }
}

/// The destination of a text.
fn read_destination(text: &[u8]) -> Option<Destination>
    ensures read { IfSome result (λ to. (text.now ≡ destination_text to) × IsReachable to) }
    ensures unread { IfNone result ((to : _) → text.now ≡ destination_text to
        → IsReachable to → ⊥) }
{
    if text == b"link".as_slice() {
        return Some(Destination::Link);
    }
    match read_target(text) {
        Some(target) => Some(Destination::Method(target)),
        None => None,
    }
}

/// How a position is to be told.
pub(crate) fn destination_at(row: &SheetRecord<'_>, field: Field) -> Result<Destination, ReadFault>
    ensures { ReadsField Shapes.DestinationName DestinationOf (edit_fields row.now) field result }
{
    match read_destination(text_at(row, place_of(field))) {
        Some(to) => Ok(to),
        None => Err(ReadFault::Field(field)),
    }
}

/// A list of classes, one at least.
pub(crate) fn classes_at(
    alloc: Global,
    row: &SheetRecord<'_>,
    field: Field,
) -> Result<Rows<ClassName>, ReadFault>
    ensures { ReadsList Shapes.ClassNames ClassesOf (edit_fields row.now) field result }
{
    match read_list(alloc, text_at(row, place_of(field))) {
        Ok(Some(classes)) => Ok(Rows::from_vec(classes)),
        Ok(None) => Err(ReadFault::Field(field)),
        Err(_) => Err(ReadFault::Memory),
    }
}

/// The location from a position to an end by the same method.
pub(crate) fn location(start: EnteredPosition, end: Option<EnteredPosition>) -> EventLocation
    requires { IsTrue (are_alike start end) }
    ensures { result ≡ record { from = start; to = end } }
{
    match EventLocation::new(start, end) {
        Some(location) => location,
        None => unreachable!(),
    }
}
