//! The headers of sheets.

ghost use Rattle.std.specs.Prelude.{◌≡◌, ◌↔◌, ◌<◌, IsTrue, [], ◌∷◌, nat_eq};
ghost use Rattle.std.specs.List.{starts_with};
ghost use Rattle.csv.specs.Reading.{strip_bom};
ghost use Rattle.csv.specs.Records.{fields_of};
ghost use Rattle.lrs_sheet_records.specs.Records as spec;
ghost use Rattle.lrs_sheet_records.specs.Kinds.{IsHeader, edit_header, header_of, width_of};
ghost use Rattle.lrs_sheet_records.specs.Questions.{IsQuestionHeader, question_header};
ghost use Rattle.lrs_sheet_records.specs.Surveys.{survey_header};

use crate::sheet::{Sheet, field_text};
use csv::ByteRecord;

/// Whether a text begins with a byte order mark.
fn has_mark(text: &[u8]) -> bool
    ensures { result ≡ starts_with nat_eq text.now (239 ∷ 187 ∷ 191 ∷ []) }
{
    text.starts_with(b"\xef\xbb\xbf")
}

/// A text without a byte order mark at its start.
fn without_mark(text: &[u8]) -> &[u8]
    ensures { result.now ≡ strip_bom text.now }
{
    if has_mark(text) { &text[3..] } else { text }
}

#[tactic(auto, unfolding(csv::specs::Records::field_at))]
/// The name of a field of an edit sheet.
fn edit_column(place: usize) -> &'static [u8]
    requires { place < 11 }
    ensures { result.now ≡ spec.text_at edit_header place }
{
    match place {
        0 => b"key",
        1 => b"verb",
        2 => b"a",
        3 => b"b",
        4 => b"c",
        5 => b"d",
        6 => b"e",
        7 => b"f",
        8 => b"g",
        9 => b"h",
        _ => b"i",
    }
}

#[tactic(auto, unfolding(csv::specs::Records::field_at))]
/// The name of a field of a survey.
fn survey_column(place: usize) -> &'static [u8]
    requires { place < 10 }
    ensures { result.now ≡ spec.text_at survey_header place }
{
    match place {
        0 => b"key",
        1 => b"asset",
        2 => b"class",
        3 => b"route",
        4 => b"side",
        5 => b"method",
        6 => b"from",
        7 => b"to",
        8 => b"value",
        _ => b"offset",
    }
}

/// The name of a column of a sheet, from 0, as the header has it.
pub fn column(sheet: Sheet, place: usize) -> &'static [u8]
    requires { place < width_of sheet }
    ensures { result.now ≡ spec.text_at (header_of sheet) place }
{
    match sheet {
        Sheet::Edits => edit_column(place),
        Sheet::Survey => survey_column(place),
    }
}

/// Whether a record is the header of a sheet.
pub fn is_header(sheet: Sheet, row: &ByteRecord) -> bool
    ensures { IsTrue result ↔ IsHeader sheet (fields_of row.now) }
{
    let width = sheet.width();
    if row.len() != width {
        return false;
    }
    if without_mark(field_text(row, 0)) != column(sheet, 0) {
        return false;
    }
    for place in 1..width {
        if field_text(row, place) != column(sheet, place) {
            return false;
        }
    }
    true
}

#[tactic(auto, unfolding(csv::specs::Records::field_at))]
/// The name of a field of a sheet of questions.
fn question_column(place: usize) -> &'static [u8]
    requires { place < 6 }
    ensures { result.now ≡ spec.text_at question_header place }
{
    match place {
        0 => b"key",
        1 => b"question",
        2 => b"a",
        3 => b"b",
        4 => b"c",
        _ => b"d",
    }
}

/// Whether a record is the header of a sheet of questions.
pub fn is_question_header(row: &ByteRecord) -> bool
    ensures { IsTrue result ↔ IsQuestionHeader (fields_of row.now) }
{
    if row.len() != 6 {
        return false;
    }
    if without_mark(field_text(row, 0)) != question_column(0) {
        return false;
    }
    for place in 1..6 {
        if field_text(row, place) != question_column(place) {
            return false;
        }
    }
    true
}
