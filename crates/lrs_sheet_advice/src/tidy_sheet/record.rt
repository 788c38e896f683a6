//! A record of a sheet, made of a row of a text.

ghost use Rattle.std.specs.Prelude.{◌<◌};

use crate::column::column_of;
use crate::line::AdviceLine;
use crate::slot::{Slot, slot_of};
use crate::tidy_sheet::cell::{CellForm, is_plain, is_tidy};
use crate::tidy_sheet::columns::{Columns, say_letter, say_line};
use crate::tidy_sheet::form::{field_of, form_at, is_blank, row_text, verb_of};
use crate::tidy_sheet::notes::Notes;
use crate::tidy_sheet::sign::{mend_text, without_noughts};
use crate::wanted::say_wanted;
use csv::ByteRecord;
use lrs_machine::Field;
use lrs_position::{Method, read_method};
use lrs_sheet_records::{Sheet, SheetRecord, column, place_of, text_at};
use std::alloc::{AllocError, Global};

/// A row of a text, and where it stands.
#[derive(Clone, Copy)]
pub(crate) struct Row<'a> {
    pub kind: Sheet,
    pub columns: &'a Columns,
    /// Its fields, as they stand in the text.
    pub given: &'a ByteRecord,
    pub line: usize,
}

/// What rows are put together in, one after the other.
#[derive(Drop)]
pub(crate) struct Bench {
    /// The fields of a row in the order of the sheet, each mended.
    pub record: ByteRecord,
    pub cell: Vec<u8>,
    pub note: AdviceLine,
}

impl Bench {
    pub(crate) fn new(alloc: Global) -> Bench {
        Bench {
            record: ByteRecord::new(alloc),
            cell: Vec::new(alloc),
            note: AdviceLine::new(alloc),
        }
    }

    /// Takes the fields of a row as they stand, each mended.
    pub(crate) fn take_header(&mut self, given: &ByteRecord) -> Result<(), AllocError> {
        self.record.clear();
        for place in 0..given.len() {
            mend_text(row_text(given, place), &mut self.cell)?;
            self.record.push_field(self.cell.as_slice())?;
        }
        Ok(())
    }

    /// Takes the fields of a row in the order of the sheet, each mended.
    fn take_row(&mut self, row: &Row<'_>) -> Result<(), AllocError> {
        self.record.clear();
        for place in 0..row.kind.width() {
            mend_text(row.given_text(place), &mut self.cell)?;
            self.record.push_field(self.cell.as_slice())?;
        }
        Ok(())
    }
}

/// Writes a field of a record.
fn push_field(sheet: &mut Vec<u8>, text: &[u8]) -> Result<(), AllocError> {
    if !text.contains(&b',') && !text.contains(&b'"') {
        return sheet.extend_from_slice(text);
    }
    sheet.push(b'"')?;
    for byte in text {
        if *byte == b'"' {
            sheet.push(b'"')?;
        }
        sheet.push(*byte)?;
    }
    sheet.push(b'"')?;
    Ok(())
}

/// Writes the header of a kind of sheet.
pub(crate) fn push_header(sheet: &mut Vec<u8>, kind: Sheet) -> Result<(), AllocError> {
    for place in 0..kind.width() {
        if place > 0 {
            sheet.push(b',')?;
        }
        sheet.extend_from_slice(column(kind, place))?;
    }
    sheet.push(b'\n')?;
    Ok(())
}

/// The method of a position, where a field is one.
fn method_of(record: &SheetRecord<'_>, slot: Slot) -> Option<Method> {
    match slot {
        Slot::At(field) | Slot::From(field) | Slot::To(field) => {
            read_method(text_at(record, place_of(field)))
        }
        _ => None,
    }
}

/// Why a text is left as it is.
fn doubt_words(form: CellForm, text: &[u8]) -> &'static str {
    match form {
        _ if !is_plain(text) => " has a character that no sheet takes; ",
        CellForm::Ratio => " may be a date that was made of a proportion; ",
        CellForm::Digits | CellForm::Listed | CellForm::Words => " can be read in two ways; ",
    }
}

/// The text that a field gets.
fn tidied_text<'a>(form: CellForm, text: &'a [u8]) -> &'a [u8] {
    match form {
        CellForm::Digits => without_noughts(text),
        _ => text,
    }
}

impl<'a> Row<'a> {
    /// The text of the field at a place of the sheet, as it stands in the row; empty where there is none.
    fn given_text(&self, place: usize) -> &'a [u8] {
        match self.columns.source(place) {
            Some(column) => row_text(self.given, column),
            None => b"",
        }
    }

    /// Says where the field at a place of the sheet stands: its line and its column.
    fn say_place(
        &self,
        alloc: Global,
        note: &mut AdviceLine,
        field: Field,
    ) -> Result<(), AllocError> {
        let place = column_of(self.kind, field);
        say_line(alloc, note, self.line)?;
        note.say(", ")?;
        say_letter(alloc, note, self.columns.source(place).unwrap_or(place))?;
        note.say(" (")?;
        note.say_bytes(column(self.kind, place))?;
        note.say("): ")
    }

    /// Names a text that stands under no column of the sheet.
    fn doubt_stray(
        &self,
        alloc: Global,
        note: &mut AdviceLine,
        notes: &mut Notes,
        column: usize,
    ) -> Result<(), AllocError> {
        say_line(alloc, note, self.line)?;
        note.say(", ")?;
        say_letter(alloc, note, column)?;
        note.say(": ")?;
        note.quote(row_text(self.given, column))?;
        note.say(" stands under no column of the sheet")?;
        notes.add_doubt(note)
    }

    /// Looks for texts under no column of the sheet.
    fn look_for_strays(
        &self,
        alloc: Global,
        bench: &mut Bench,
        notes: &mut Notes,
    ) -> Result<(), AllocError> {
        for column in 0..self.given.len() {
            if self.columns.has(column) {
                continue;
            }
            mend_text(row_text(self.given, column), &mut bench.cell)?;
            if !bench.cell.is_empty() {
                self.doubt_stray(alloc, &mut bench.note, notes, column)?;
            }
        }
        Ok(())
    }

    /// Names a text that could be read in two ways.
    fn doubt_field(
        &self,
        alloc: Global,
        record: &SheetRecord<'_>,
        note: &mut AdviceLine,
        notes: &mut Notes,
        field: Field,
        form: CellForm,
    ) -> Result<(), AllocError> {
        let slot = slot_of(verb_of(record), field);
        let text = text_at(record, place_of(field));
        self.say_place(alloc, note, field)?;
        note.quote(text)?;
        note.say(doubt_words(form, text))?;
        say_wanted(note, slot, method_of(record, slot))?;
        notes.add_doubt(note)
    }

    /// Says what a text became, where it is another.
    fn tell_field(
        &self,
        alloc: Global,
        note: &mut AdviceLine,
        notes: &mut Notes,
        field: Field,
        text: &[u8],
    ) -> Result<(), AllocError> {
        let given = self.given_text(column_of(self.kind, field));
        if given == text {
            return Ok(());
        }
        self.say_place(alloc, note, field)?;
        note.quote(given)?;
        note.say(" became ")?;
        note.quote(text)?;
        notes.add_change(note)
    }

    /// Writes a field of a record, and says what became of it.
    fn push_text(
        &self,
        alloc: Global,
        record: &SheetRecord<'_>,
        note: &mut AdviceLine,
        notes: &mut Notes,
        place: usize,
        sheet: &mut Vec<u8>,
    ) -> Result<(), AllocError>
        requires { place < 11 }
    {
        let field = field_of(place);
        let form = form_at(record, place);
        let text = tidied_text(form, text_at(record, place));
        if !is_tidy(form, text) {
            return self.doubt_field(alloc, record, note, notes, field, form);
        }
        self.tell_field(alloc, note, notes, field, text)?;
        if place > 0 {
            sheet.push(b',')?;
        }
        push_field(sheet, text)
    }

    /// Writes a record with its end. A survey has no field for the verb.
    fn push_record(
        &self,
        alloc: Global,
        record: &SheetRecord<'_>,
        note: &mut AdviceLine,
        notes: &mut Notes,
        sheet: &mut Vec<u8>,
    ) -> Result<(), AllocError> {
        for place in 0..11 {
            if place == 1 && self.kind == Sheet::Survey {
                continue;
            }
            self.push_text(alloc, record, note, notes, place, sheet)?;
        }
        sheet.push(b'\n')?;
        Ok(())
    }

    /// Says what became of a row as a whole.
    fn tell_row(
        &self,
        alloc: Global,
        note: &mut AdviceLine,
        notes: &mut Notes,
        words: &str,
    ) -> Result<(), AllocError> {
        say_line(alloc, note, self.line)?;
        note.say(words)?;
        notes.add_change(note)
    }

    /// Says that fields were added at the end of a row, where it has too few.
    fn tell_width(
        &self,
        alloc: Global,
        note: &mut AdviceLine,
        notes: &mut Notes,
    ) -> Result<(), AllocError> {
        let missing = self.columns.missing_in(self.given.len());
        if missing == 0 {
            return Ok(());
        }
        say_line(alloc, note, self.line)?;
        note.say(": empty fields were added at the end: ")?;
        note.say_number(alloc, missing as u64)?;
        notes.add_change(note)
    }

    /// Writes the record that a row is, and says what became of its fields. A row of empty cells is none.
    pub(crate) fn push(
        &self,
        alloc: Global,
        bench: &mut Bench,
        notes: &mut Notes,
        sheet: &mut Vec<u8>,
    ) -> Result<(), AllocError> {
        self.look_for_strays(alloc, bench, notes)?;
        bench.take_row(self)?;
        if is_blank(&bench.record) {
            let words = ": a row of empty cells was left out";
            return self.tell_row(alloc, &mut bench.note, notes, words);
        }
        self.tell_width(alloc, &mut bench.note, notes)?;
        let record = SheetRecord {
            fields: &bench.record,
            sheet: self.kind,
        };
        self.push_record(alloc, &record, &mut bench.note, notes, sheet)
    }
}
