//! In which column of a text each field of a sheet stands.

use crate::line::AdviceLine;
use crate::tidy_sheet::form::row_text;
use crate::tidy_sheet::notes::Notes;
use csv::ByteRecord;
use lrs_sheet_records::{Sheet, column, is_header};
use std::alloc::{AllocError, Global};

/// In which column of a text each field of a sheet stands, from 0, in the order of the sheet. The last fields may stand in
/// none.
#[derive(Drop)]
pub(crate) struct Columns {
    found: Vec<usize>,
}

impl Columns {
    /// The column of the field at this place of the sheet.
    pub(crate) fn source(&self, place: usize) -> Option<usize> {
        self.found.get(place).copied()
    }

    /// Whether a field stands in this column.
    pub(crate) fn has(&self, column: usize) -> bool {
        self.found.iter().any(|other| *other == column)
    }

    /// How many fields that stand in a column have none in a row of so many.
    pub(crate) fn missing_in(&self, width: usize) -> usize {
        self.found.iter().filter(|other| width <= **other).count()
    }
}

/// The first column with this name, whatever its case.
fn column_named(header: &ByteRecord, name: &[u8]) -> Option<usize> {
    for place in 0..header.len() {
        if row_text(header, place).eq_ignore_ascii_case(name) {
            return Some(place);
        }
    }
    None
}

/// At which place of a sheet a field of this name stands, whatever its case.
fn place_named(kind: Sheet, name: &[u8]) -> Option<usize> {
    for place in 0..kind.width() {
        if column(kind, place).eq_ignore_ascii_case(name) {
            return Some(place);
        }
    }
    None
}

/// How many columns have names of this kind of sheet.
fn known_columns(kind: Sheet, header: &ByteRecord) -> usize {
    let mut count: usize = 0;
    for place in 0..header.len() {
        if place_named(kind, row_text(header, place)).is_some() {
            count = count.saturating_add(1);
        }
    }
    count
}

/// Whether more columns have names of another kind of sheet than of this one.
fn is_of_kind(other: Sheet, kind: Sheet, header: &ByteRecord) -> bool {
    known_columns(kind, header) < known_columns(other, header)
}

/// Says the letter of a column, as spreadsheets name it.
pub(crate) fn say_letter(
    alloc: Global,
    note: &mut AdviceLine,
    column: usize,
) -> Result<(), AllocError> {
    note.say("column ")?;
    if column < 26 {
        note.say_bytes(&[b'A' + column as u8])
    } else {
        note.say_number(alloc, (column as u64).saturating_add(1))
    }
}

/// Begins a note on a line of the text.
pub(crate) fn say_line(
    alloc: Global,
    note: &mut AdviceLine,
    line: usize,
) -> Result<(), AllocError> {
    note.clear();
    note.say("line ")?;
    note.say_number(alloc, line as u64)
}

/// Says the header of a kind of sheet.
fn say_header(note: &mut AdviceLine, kind: Sheet) -> Result<(), AllocError> {
    for place in 0..kind.width() {
        if place > 0 {
            note.say(",")?;
        }
        note.say_bytes(column(kind, place))?;
    }
    Ok(())
}

fn say_kind(note: &mut AdviceLine, kind: Sheet, header: &ByteRecord) -> Result<(), AllocError> {
    match kind {
        Sheet::Edits if is_of_kind(Sheet::Survey, kind, header) => {
            note.say("; these are columns of a survey, which is tidied with --survey")
        }
        Sheet::Survey if is_of_kind(Sheet::Edits, kind, header) => {
            note.say("; these are columns of an edit sheet, which is tidied without --survey")
        }
        _ => Ok(()),
    }
}

/// The header of a text, whose columns are looked for.
#[derive(Clone, Copy)]
pub(crate) struct Header<'a> {
    pub kind: Sheet,
    /// Its fields, each mended.
    pub row: &'a ByteRecord,
    pub line: usize,
}

impl<'a> Header<'a> {
    /// Names a column that is not there, though one behind it is.
    fn doubt_missing(
        &self,
        alloc: Global,
        note: &mut AdviceLine,
        notes: &mut Notes,
        name: &[u8],
    ) -> Result<(), AllocError> {
        say_line(alloc, note, self.line)?;
        note.say(": no column is called ")?;
        note.say_bytes(name)?;
        note.say("; the header ")?;
        say_header(note, self.kind)?;
        note.say(" is wanted")?;
        say_kind(note, self.kind, self.row)?;
        notes.add_doubt(note)
    }

    /// Names a column that no sheet of this kind has, or that stands there before.
    fn doubt_column(
        &self,
        alloc: Global,
        note: &mut AdviceLine,
        notes: &mut Notes,
        column: usize,
        words: &str,
    ) -> Result<(), AllocError> {
        say_line(alloc, note, self.line)?;
        note.say(", ")?;
        say_letter(alloc, note, column)?;
        note.say(": ")?;
        note.quote(row_text(self.row, column))?;
        note.say(words)?;
        notes.add_doubt(note)
    }

    /// Looks at each column that is named: whether a sheet has it, and once.
    fn look_at_columns(
        &self,
        alloc: Global,
        note: &mut AdviceLine,
        notes: &mut Notes,
    ) -> Result<(), AllocError> {
        for column in 0..self.row.len() {
            let name = row_text(self.row, column);
            if name.is_empty() {
                continue;
            }
            if place_named(self.kind, name).is_none() {
                let words = " is no column of this kind of sheet";
                self.doubt_column(alloc, note, notes, column, words)?;
            } else if column_named(self.row, name) != Some(column) {
                let words = " is the name of a column before it too";
                self.doubt_column(alloc, note, notes, column, words)?;
            }
        }
        Ok(())
    }

    /// Finds the column of each field. The key and what comes next have to be there; the last ones may be missing.
    fn find_columns(
        &self,
        alloc: Global,
        note: &mut AdviceLine,
        notes: &mut Notes,
        found: &mut Vec<usize>,
    ) -> Result<(), AllocError> {
        for place in 0..self.kind.width() {
            let name = column(self.kind, place);
            match column_named(self.row, name) {
                Some(column) if found.len() == place => found.push(column)?,
                Some(_) => {}
                None if place < 2 || self.has_behind(place) => {
                    self.doubt_missing(alloc, note, notes, name)?;
                }
                None => {}
            }
        }
        Ok(())
    }

    /// Whether a field behind this place has a column.
    fn has_behind(&self, place: usize) -> bool {
        for other in place..self.kind.width() {
            if column_named(self.row, column(self.kind, other)).is_some() {
                return true;
            }
        }
        false
    }

    /// Says what the header was made, where it is another.
    fn tell_change(
        &self,
        alloc: Global,
        note: &mut AdviceLine,
        notes: &mut Notes,
        given: &ByteRecord,
    ) -> Result<(), AllocError> {
        if is_header(self.kind, given) {
            return Ok(());
        }
        say_line(alloc, note, self.line)?;
        note.say(": the header became ")?;
        say_header(note, self.kind)?;
        notes.add_change(note)
    }

    /// Finds the columns, and says what the header was made. What is wrong with it is a doubt.
    fn read(
        &self,
        alloc: Global,
        note: &mut AdviceLine,
        notes: &mut Notes,
        given: &ByteRecord,
        found: &mut Vec<usize>,
    ) -> Result<(), AllocError> {
        self.find_columns(alloc, note, notes, found)?;
        self.look_at_columns(alloc, note, notes)?;
        self.tell_change(alloc, note, notes, given)
    }

    /// In which column each field stands. What is wrong with the header is a doubt. `given` is the header as it stands in
    /// the text.
    pub(crate) fn columns(
        &self,
        alloc: Global,
        note: &mut AdviceLine,
        notes: &mut Notes,
        given: &ByteRecord,
    ) -> Result<Columns, AllocError> {
        let mut found = Vec::new(alloc);
        self.read(alloc, note, notes, given, &mut found)?;
        Ok(Columns { found })
    }
}
