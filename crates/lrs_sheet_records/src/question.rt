//! A record as a question.

ghost use Rattle.std.specs.Prelude.{◌≡◌, ◌≤◌, Contains, IsTrue, false, codes, length, IfSome, IfNone, IfOk, IfErr};
ghost use Rattle.csv.specs.Records.{fields_of};
ghost use Rattle.lrs_sheet_records.specs.Fields.{ReadsAsked, ReadsQuestion};
ghost use Rattle.lrs_sheet_records.specs.Kinds.{edit_fields};
ghost use Rattle.lrs_sheet_records.specs.Records as spec;
ghost use Rattle.lrs_sheet_records.specs.Shapes.{is_link_word};
ghost use Rattle.lrs_sheet_records.specs.Questions.{RefusesQuestion, SaysQuestion, all_questions, column_text, name_of};

use crate::arguments::nothing_from;
use crate::fault::ReadFault;
use crate::optional::{gaps_at, some_class_at, some_place_at, some_route_at, some_side_at};
use crate::place::{asset_at, classes_at, destination_at, method_at, position_at, side_at};
use crate::shape::{place_of, route_name_at};
use crate::sheet::{Sheet, SheetRecord, text_at};
use crate::spot::{is_link_word, link_at, millimetre_at, nothing_at, place_at, route_at};
use csv::ByteRecord;
use lrs_machine::{AskedPlace, Field, Key, Listing, OverlayAsked, Question, RowForm, RowsAsked};
use std::alloc::Global;

/// What a record of a sheet of questions asks for.
#[derive(Clone, Copy)]
enum Asked {
    At,
    Translate,
    Find,
    Segments,
    Where,
    Rows,
    Overlay,
    Lengths,
    History,
}

/// The name of a field in the header of a sheet of questions, which has the fields up to d.
pub fn column_name(field: Field) -> &'static str
    ensures { result.now ≡ column_text field }
{
    match field {
        Field::Key => "key",
        Field::Verb => "question",
        Field::A => "a",
        Field::B => "b",
        Field::C => "c",
        Field::D => "d",
        Field::E | Field::F | Field::G | Field::H | Field::I => "",
    }
}

fn at_of(row: &SheetRecord<'_>) -> Result<Question, ReadFault>
    requires { length (edit_fields row.now) ≤ 11 }
    ensures { ReadsAsked (edit_fields row.now) (codes "at") result }
{
    let route = route_name_at(row, Field::A)?;
    let method = method_at(row, Field::B)?;
    let position = position_at(row, Field::B, method, Field::C)?;
    nothing_from(row, Field::D)?;
    Ok(Question::At {
        route,
        position: position.expression(),
    })
}

fn translate_of(row: &SheetRecord<'_>) -> Result<Question, ReadFault>
    requires { length (edit_fields row.now) ≤ 11 }
    ensures { ReadsAsked (edit_fields row.now) (codes "translate") result }
{
    let route = route_name_at(row, Field::A)?;
    let method = method_at(row, Field::B)?;
    let position = position_at(row, Field::B, method, Field::C)?;
    let to = destination_at(row, Field::D)?;
    nothing_from(row, Field::E)?;
    Ok(Question::Translate {
        route,
        position: position.expression(),
        to,
    })
}

fn find_of(row: &SheetRecord<'_>) -> Result<Question, ReadFault>
    requires { length (edit_fields row.now) ≤ 11 }
    ensures { ReadsAsked (edit_fields row.now) (codes "find") result }
{
    let asset = asset_at(row, Field::A)?;
    nothing_from(row, Field::B)?;
    Ok(Question::Find { asset: asset.get() })
}

fn segments_of(alloc: Global, row: &SheetRecord<'_>) -> Result<Question, ReadFault>
    requires { length (edit_fields row.now) ≤ 11 }
    ensures { ReadsAsked (edit_fields row.now) (codes "segments") result }
{
    let route = route_name_at(row, Field::A)?;
    let side = side_at(row, Field::B)?;
    let classes = classes_at(alloc, row, Field::C)?;
    nothing_from(row, Field::D)?;
    Ok(Question::Segments {
        route,
        side,
        classes,
    })
}

fn where_on_link(row: &SheetRecord<'_>) -> Result<Question, ReadFault>
    requires width { length (edit_fields row.now) ≤ 11 }
    requires link { IsTrue (is_link_word (spec.text_at (edit_fields row.now) 2)) }
    ensures { ReadsAsked (edit_fields row.now) (codes "where") result }
{
    let link = link_at(row, Field::A, Field::B)?;
    let mm = millimetre_at(row, Field::A, Field::C)?;
    nothing_from(row, Field::D)?;
    Ok(Question::Where(AskedPlace::OnLink { link, mm }))
}

fn where_on_route(row: &SheetRecord<'_>) -> Result<Question, ReadFault>
    requires width { length (edit_fields row.now) ≤ 11 }
    requires route { is_link_word (spec.text_at (edit_fields row.now) 2) ≡ false }
    ensures { ReadsAsked (edit_fields row.now) (codes "where") result }
{
    let route = route_at(row, Field::A)?;
    let place = place_at(row, Field::A, Field::B)?;
    nothing_at(row, Field::A, Field::C)?;
    nothing_from(row, Field::D)?;
    Ok(Question::Where(AskedPlace::OnRoute { route, place }))
}

fn where_of(row: &SheetRecord<'_>) -> Result<Question, ReadFault>
    requires { length (edit_fields row.now) ≤ 11 }
    ensures { ReadsAsked (edit_fields row.now) (codes "where") result }
{
    if is_link_word(text_at(row, place_of(Field::A))) {
        where_on_link(row)
    } else {
        where_on_route(row)
    }
}

fn rows_of(row: &SheetRecord<'_>) -> Result<Question, ReadFault>
    requires { length (edit_fields row.now) ≤ 11 }
    ensures { ReadsAsked (edit_fields row.now) (codes "rows") result }
{
    let route = some_route_at(row, Field::A)?;
    let from = some_place_at(row, Field::B)?;
    let to = some_place_at(row, Field::C)?;
    let class = some_class_at(row, Field::D)?;
    nothing_from(row, Field::E)?;
    Ok(Question::Rows(RowsAsked {
        route,
        from,
        to,
        class,
        asset: None,
        form: RowForm::Decimal,
    }))
}

fn overlay_of(alloc: Global, row: &SheetRecord<'_>) -> Result<Question, ReadFault>
    requires { length (edit_fields row.now) ≤ 11 }
    ensures { ReadsAsked (edit_fields row.now) (codes "overlay") result }
{
    let route = some_route_at(row, Field::A)?;
    let side = some_side_at(row, Field::B)?;
    let classes = classes_at(alloc, row, Field::C)?;
    let gaps = gaps_at(row, Field::D)?;
    nothing_from(row, Field::E)?;
    Ok(Question::Overlay(OverlayAsked {
        classes,
        route,
        side,
        from: None,
        to: None,
        gaps,
    }))
}

fn lengths_of(row: &SheetRecord<'_>) -> Result<Question, ReadFault>
    requires { length (edit_fields row.now) ≤ 11 }
    ensures { ReadsAsked (edit_fields row.now) (codes "lengths") result }
{
    let route = some_route_at(row, Field::A)?;
    nothing_from(row, Field::B)?;
    Ok(Question::Lengths(route))
}

fn history_of(row: &SheetRecord<'_>) -> Result<Question, ReadFault>
    requires { length (edit_fields row.now) ≤ 11 }
    ensures { ReadsAsked (edit_fields row.now) (codes "history") result }
{
    let asset = asset_at(row, Field::A)?;
    nothing_from(row, Field::B)?;
    Ok(Question::List(Listing::History(asset.get())))
}

/// The question of this name.
fn read_question(name: &[u8]) -> Option<Asked>
    ensures known { IfSome result (λ asked. name.now ≡ name_of asked) }
    ensures unknown { IfNone result (Contains all_questions name.now → ⊥) }
{
    match name {
        b"at" => Some(Asked::At),
        b"translate" => Some(Asked::Translate),
        b"find" => Some(Asked::Find),
        b"segments" => Some(Asked::Segments),
        b"where" => Some(Asked::Where),
        b"rows" => Some(Asked::Rows),
        b"overlay" => Some(Asked::Overlay),
        b"lengths" => Some(Asked::Lengths),
        b"history" => Some(Asked::History),
        _ => None,
    }
}

/// What the fields a, b, .. ask.
fn question_of(alloc: Global, row: &SheetRecord<'_>, asked: Asked) -> Result<Question, ReadFault>
    requires { length (edit_fields row.now) ≤ 11 }
    ensures { ReadsAsked (edit_fields row.now) (name_of asked) result }
{
    match asked {
        Asked::At => at_of(row),
        Asked::Translate => translate_of(row),
        Asked::Find => find_of(row),
        Asked::Segments => segments_of(alloc, row),
        Asked::Where => where_of(row),
        Asked::Rows => rows_of(row),
        Asked::Overlay => overlay_of(alloc, row),
        Asked::Lengths => lengths_of(row),
        Asked::History => history_of(row),
    }
}

/// The question that the fields behind the key ask.
fn question_by_name(alloc: Global, row: &SheetRecord<'_>) -> Result<Question, ReadFault>
    requires { length (edit_fields row.now) ≤ 11 }
    ensures { ReadsQuestion (edit_fields row.now) result }
{
    match read_question(text_at(row, 1)) {
        Some(asked) => question_of(alloc, row, asked),
        None => Err(ReadFault::Field(Field::Verb)),
    }
}

/// The key and the question that a record of a sheet of questions, of at most six fields, says.
///
/// # Errors
///
/// `Field` with the first field that is malformed, in the order of key, question, a to d: the question is `Verb`. Or
/// `Memory` at the list of `segments` or `overlay`, behind fields that are well formed.
pub fn question_in(alloc: Global, row: &ByteRecord) -> Result<(Key, Question), ReadFault>
    requires { length (fields_of row.now) ≤ 6 }
    ensures says { IfOk result (λ said. SaysQuestion (fields_of row.now) said.0 said.1) }
    ensures refuses { IfErr result (RefusesQuestion (fields_of row.now)) }
{
    // the fields stand at their own places, as those of an edit sheet do
    let asked = SheetRecord {
        fields: row,
        sheet: Sheet::Edits,
    };
    let Some(key) = Key::new(text_at(&asked, 0)) else {
        return Err(ReadFault::Field(Field::Key));
    };
    match question_by_name(alloc, &asked) {
        Ok(question) => Ok((key, question)),
        Err(fault) => Err(fault),
    }
}
