//! The two kinds of sheets, and their records.

ghost use Rattle.std.specs.Prelude.{◌≡◌};
ghost use Rattle.csv.specs.Records.{fields_of};
ghost use Rattle.lrs_sheet_records.specs.Records as spec;
ghost use Rattle.lrs_sheet_records.specs.Kinds.{edit_fields, width_of};
ghost use Rattle.lrs_sheet_records.specs.Surveys.{as_edit};

use csv::ByteRecord;

/// Which kind a sheet is.
#[derive(Clone, Copy, PartialEq, Eq)]
pub enum Sheet {
    /// Commands of all verbs.
    Edits,
    /// Entries, by their own columns.
    Survey,
}

impl Sheet {
    /// How many fields each record has.
    pub fn width(self) -> usize
        ensures { result ≡ width_of self }
    {
        match self {
            Sheet::Edits => 11,
            Sheet::Survey => 10,
        }
    }
}

/// A record of a sheet. Its fields are found at their places in an edit sheet, of either kind of sheet.
#[derive(Clone, Copy)]
pub struct SheetRecord<'a> {
    pub fields: &'a ByteRecord,
    pub sheet: Sheet,
}

/// The field at a place of a row, which is empty past the end.
pub(crate) fn field_text(row: &ByteRecord, place: usize) -> &[u8]
    ensures { result.now ≡ spec.text_at (fields_of row.now) place }
{
    match row.get(place) {
        Some(text) => text,
        None => b"",
    }
}

/// The same of a row of a survey, at the place that the field has in an edit sheet.
fn survey_text(row: &ByteRecord, place: usize) -> &[u8]
    ensures { result.now ≡ spec.text_at (as_edit (fields_of row.now)) place }
{
    match place {
        0 => field_text(row, 0),
        1 if row.is_empty() => b"",
        1 => b"enter",
        _ => field_text(row, place - 1),
    }
}

/// The field at a place of an edit sheet, which is empty past the end.
pub fn text_at<'a>(row: &SheetRecord<'a>, place: usize) -> &'a [u8]
    ensures { result.now ≡ spec.text_at (edit_fields row.now) place }
{
    match row.sheet {
        Sheet::Edits => field_text(row.fields, place),
        Sheet::Survey => survey_text(row.fields, place),
    }
}
