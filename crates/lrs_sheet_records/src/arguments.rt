//! The fields of each verb.

ghost use Rattle.std.specs.Prelude.{◌≡◌, ◌≤◌, ◌∷◌, [], length, codes};
ghost use Rattle.lrs_sheet_records.specs.Kinds.{edit_fields};
ghost use Rattle.lrs_sheet_records.specs.Records as spec;
ghost use Rattle.lrs_sheet_records.specs.Fields.{NothingFrom, ReadsAll, ReadsArguments};
ghost use Rattle.lrs_sheet_records.specs.Shapes;
ghost use Rattle.lrs_sheet_records.specs.Shapes.{Word};
ghost use Rattle.lrs_sheet_records.specs.Verbs.{new_asset_arguments, new_asset_shapes};

use crate::fault::ReadFault;
use crate::place::{
    asset_at, chainage_at, end_at, location, method_at, offset_at, position_at, referent_name_at,
    side_at, some_pieces_at, value_at,
};
use crate::shape::{
    class_name_at, kind_at, marks_at, pieces_at, place_of, route_name_at, whole_at,
};
use crate::sheet::{SheetRecord, text_at};
use lrs_element::Link;
use lrs_events::Class;
use lrs_machine::{Command, Field, NewAsset};
use lrs_measure::limits::{GREATEST_LINK, LONGEST_LINK};
use lrs_position::RouteName;
use std::alloc::Global;

/// The field at a place after those of the key and the verb.
fn argument_at(place: usize) -> Field
    requires low { 2 ≤ place }
    requires high { place ≤ 10 }
    ensures { spec.place_of result ≡ place }
{
    match place {
        2 => Field::A,
        3 => Field::B,
        4 => Field::C,
        5 => Field::D,
        6 => Field::E,
        7 => Field::F,
        8 => Field::G,
        9 => Field::H,
        _ => Field::I,
    }
}

/// The fields that a verb does not use are empty.
pub(crate) fn nothing_from(row: &SheetRecord<'_>, first: Field) -> Result<(), ReadFault>
    requires eleven { length (edit_fields row.now) ≤ 11 }
    requires argument { 2 ≤ spec.place_of first }
    ensures { NothingFrom (edit_fields row.now) (spec.place_of first) result }
{
    for i in place_of(first)..11 {
        if !text_at(row, i).is_empty() {
            return Err(ReadFault::Field(argument_at(i)));
        }
    }
    Ok(())
}

pub(crate) fn link_of(row: &SheetRecord<'_>) -> Result<Command, ReadFault>
    requires { length (edit_fields row.now) ≤ 11 }
    ensures { ReadsArguments (edit_fields row.now) (codes "link") result }
{
    let number = whole_at(row, Field::A, 1, u64::from(GREATEST_LINK))? as u32;
    let length = whole_at(row, Field::B, 1, u64::from(LONGEST_LINK))? as u32;
    nothing_from(row, Field::C)?;
    Ok(Command::Link(Link { number, length }))
}

pub(crate) fn class_of(row: &SheetRecord<'_>) -> Result<Command, ReadFault>
    requires { length (edit_fields row.now) ≤ 11 }
    ensures { ReadsArguments (edit_fields row.now) (codes "class") result }
{
    let name = class_name_at(row, Field::A)?;
    let kind = kind_at(row, Field::B)?;
    nothing_from(row, Field::C)?;
    Ok(Command::Class(Class { name, kind }))
}

pub(crate) fn route_of(alloc: Global, row: &SheetRecord<'_>) -> Result<Command, ReadFault>
    requires { length (edit_fields row.now) ≤ 11 }
    ensures { ReadsArguments (edit_fields row.now) (codes "route") result }
{
    let name = route_name_at(row, Field::A)?;
    let pieces = pieces_at(alloc, row, Field::B)?;
    let marks = marks_at(alloc, row, Field::C)?;
    nothing_from(row, Field::D)?;
    Ok(Command::Route {
        name,
        pieces,
        marks,
    })
}

pub(crate) fn ref_of(row: &SheetRecord<'_>) -> Result<Command, ReadFault>
    requires { length (edit_fields row.now) ≤ 11 }
    ensures { ReadsArguments (edit_fields row.now) (codes "ref") result }
{
    let name = referent_name_at(row, Field::A)?;
    let route = route_name_at(row, Field::B)?;
    let method = method_at(row, Field::C)?;
    let at = position_at(row, Field::C, method, Field::D)?;
    nothing_from(row, Field::E)?;
    Ok(Command::Ref { name, route, at })
}

pub(crate) fn unref_of(row: &SheetRecord<'_>) -> Result<Command, ReadFault>
    requires { length (edit_fields row.now) ≤ 11 }
    ensures { ReadsArguments (edit_fields row.now) (codes "unref") result }
{
    let name = referent_name_at(row, Field::A)?;
    nothing_from(row, Field::B)?;
    Ok(Command::Unref { name })
}

/// The fields of a new asset.
pub(crate) fn new_asset_of(row: &SheetRecord<'_>) -> Result<NewAsset, ReadFault>
    requires { length (edit_fields row.now) ≤ 11 }
    ensures { ReadsAll new_asset_shapes new_asset_arguments (edit_fields row.now) result }
{
    let asset = asset_at(row, Field::A)?;
    let class = class_name_at(row, Field::B)?;
    let route = route_name_at(row, Field::C)?;
    let side = side_at(row, Field::D)?;
    let method = method_at(row, Field::E)?;
    let start = position_at(row, Field::E, method, Field::F)?;
    let end = end_at(row, Field::E, method, Field::G)?;
    let value = value_at(row, Field::H)?;
    let offset = offset_at(row, Field::I)?;
    Ok(NewAsset {
        asset,
        class,
        route,
        side,
        location: location(start, end),
        value,
        offset,
    })
}

pub(crate) fn retire_of(row: &SheetRecord<'_>) -> Result<Command, ReadFault>
    requires { length (edit_fields row.now) ≤ 11 }
    ensures { ReadsArguments (edit_fields row.now) (codes "retire") result }
{
    let asset = asset_at(row, Field::A)?;
    let route = route_name_at(row, Field::B)?;
    let method = method_at(row, Field::C)?;
    let start = position_at(row, Field::C, method, Field::D)?;
    let end = end_at(row, Field::C, method, Field::E)?;
    nothing_from(row, Field::F)?;
    Ok(Command::Retire {
        asset,
        route,
        location: location(start, end),
    })
}

pub(crate) fn split_of(row: &SheetRecord<'_>) -> Result<Command, ReadFault>
    requires { length (edit_fields row.now) ≤ 11 }
    ensures { ReadsArguments (edit_fields row.now) (codes "split") result }
{
    let route = route_name_at(row, Field::A)?;
    let at = chainage_at(row, Field::B)?;
    let name = route_name_at(row, Field::C)?;
    nothing_from(row, Field::D)?;
    Ok(Command::Split { route, at, name })
}

pub(crate) fn recalibrate_of(alloc: Global, row: &SheetRecord<'_>) -> Result<Command, ReadFault>
    requires { length (edit_fields row.now) ≤ 11 }
    ensures { ReadsArguments (edit_fields row.now) (codes "recalibrate") result }
{
    let route = route_name_at(row, Field::A)?;
    let marks = marks_at(alloc, row, Field::B)?;
    nothing_from(row, Field::C)?;
    Ok(Command::Recalibrate { route, marks })
}

pub(crate) fn realign_of(alloc: Global, row: &SheetRecord<'_>) -> Result<Command, ReadFault>
    requires { length (edit_fields row.now) ≤ 11 }
    ensures { ReadsArguments (edit_fields row.now) (codes "realign") result }
{
    let route = route_name_at(row, Field::A)?;
    let from = chainage_at(row, Field::B)?;
    let to = chainage_at(row, Field::C)?;
    let pieces = some_pieces_at(alloc, row, Field::D)?;
    let marks = marks_at(alloc, row, Field::E)?;
    nothing_from(row, Field::F)?;
    Ok(Command::Realign {
        route,
        from,
        to,
        pieces,
        marks,
    })
}

/// The one route of a verb that has no other field.
pub(crate) fn one_route(row: &SheetRecord<'_>) -> Result<RouteName, ReadFault>
    requires { length (edit_fields row.now) ≤ 11 }
    ensures { ReadsAll (Shapes.RouteName ∷ []) (λ route. Word route ∷ [])
        (edit_fields row.now) result }
{
    let route = route_name_at(row, Field::A)?;
    nothing_from(row, Field::B)?;
    Ok(route)
}

/// The two routes of a verb that has no other fields.
pub(crate) fn two_routes(row: &SheetRecord<'_>) -> Result<(RouteName, RouteName), ReadFault>
    requires { length (edit_fields row.now) ≤ 11 }
    ensures { ReadsAll (Shapes.RouteName ∷ Shapes.RouteName ∷ [])
        (λ routes. Word routes.0 ∷ Word routes.1 ∷ []) (edit_fields row.now) result }
{
    let first = route_name_at(row, Field::A)?;
    let second = route_name_at(row, Field::B)?;
    nothing_from(row, Field::C)?;
    Ok((first, second))
}
