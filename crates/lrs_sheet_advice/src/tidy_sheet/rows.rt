//! The rows of a text that is tidied.

use crate::place::Place;
use crate::tidy_sheet::columns::{Columns, Header};
use crate::tidy_sheet::fault::TidyFault;
use crate::tidy_sheet::form::is_blank;
use crate::tidy_sheet::lead::Lead;
use crate::tidy_sheet::notes::Notes;
use crate::tidy_sheet::record::{Bench, Row, push_header};
use csv::{ByteRecord, ErrorKind, Reader, ReaderBuilder};
use lrs_sheet_records::Sheet;
use std::alloc::{AllocError, Global};

/// A reader of the rows of a text, however many fields each has.
fn open<'a>(alloc: Global, lead: Lead<'a>) -> Reader<&'a [u8]> {
    ReaderBuilder::new()
        .has_headers(false)
        .flexible(true)
        .delimiter(lead.separator)
        .from_reader(alloc, lead.records)
}

/// The rows of a text, at one of them.
#[derive(Drop)]
pub(crate) struct Rows<'a> {
    rows: Reader<&'a [u8]>,
    row: ByteRecord,
    place: Place<'a>,
    /// How many lines stand before the rows.
    before: usize,
}

impl<'a> Rows<'a> {
    pub(crate) fn new(alloc: Global, lead: Lead<'a>) -> Rows<'a> {
        Rows {
            rows: open(alloc, lead),
            row: ByteRecord::new(alloc),
            place: Place::start(lead.records),
            before: if lead.is_named { 1 } else { 0 },
        }
    }

    /// Goes on to the next row, and says whether there is one.
    fn go_on(&mut self) -> Result<bool, TidyFault> {
        match self.rows.read_byte_record(&mut self.row) {
            Ok(is_found) => Ok(is_found),
            Err(error) => match error.into_kind() {
                ErrorKind::OutOfMemory => Err(TidyFault::Memory),
                _ => Err(TidyFault::Read),
            },
        }
    }

    /// Goes on to the first row that has something in it, and says whether there is one.
    fn go_to_header(&mut self, bench: &mut Bench) -> Result<bool, TidyFault> {
        for _turn in 0..u64::MAX {
            if !self.go_on()? {
                return Ok(false);
            }
            bench.take_header(&self.row)?;
            if !is_blank(&bench.record) {
                return Ok(true);
            }
        }
        Err(TidyFault::Read)
    }

    /// The line on which the row starts.
    fn line(&mut self) -> usize {
        let bytes = match self.row.position() {
            Some(position) => position.byte,
            None => 0,
        };
        self.place = self.place.record_from(bytes);
        self.place.line.saturating_add(self.before)
    }

    /// Finds the columns in the header.
    fn columns(
        &mut self,
        alloc: Global,
        kind: Sheet,
        bench: &mut Bench,
        notes: &mut Notes,
    ) -> Result<Columns, TidyFault> {
        let line = self.line();
        let header = Header {
            kind,
            row: &bench.record,
            line,
        };
        match header.columns(alloc, &mut bench.note, notes, &self.row) {
            Ok(columns) => Ok(columns),
            Err(AllocError) => Err(TidyFault::Memory),
        }
    }

    /// Writes a record for each row that is left.
    fn push_records(
        &mut self,
        alloc: Global,
        kind: Sheet,
        columns: &Columns,
        bench: &mut Bench,
        notes: &mut Notes,
        sheet: &mut Vec<u8>,
    ) -> Result<(), TidyFault> {
        for _turn in 0..u64::MAX {
            if !self.go_on()? {
                return Ok(());
            }
            let line = self.line();
            let row = Row {
                kind,
                columns,
                given: &self.row,
                line,
            };
            row.push(alloc, bench, notes, sheet)?;
        }
        Err(TidyFault::Read)
    }

    /// Writes a sheet of the rows behind the header, where nothing in that is in doubt.
    fn push_behind(
        &mut self,
        alloc: Global,
        kind: Sheet,
        columns: &Columns,
        bench: &mut Bench,
        notes: &mut Notes,
        sheet: &mut Vec<u8>,
    ) -> Result<(), TidyFault> {
        if notes.has_doubts() {
            return Ok(());
        }
        push_header(sheet, kind)?;
        self.push_records(alloc, kind, columns, bench, notes, sheet)
    }

    /// Writes a sheet of the rows: a header, and a record for each row with something in it. Says what became of them.
    pub(crate) fn push_sheet(
        &mut self,
        alloc: Global,
        kind: Sheet,
        bench: &mut Bench,
        notes: &mut Notes,
        sheet: &mut Vec<u8>,
    ) -> Result<(), TidyFault> {
        if !self.go_to_header(bench)? {
            bench.note.clear();
            bench.note.say("line 1: the sheet is empty")?;
            notes.add_doubt(&bench.note)?;
            return Ok(());
        }
        let columns = self.columns(alloc, kind, bench, notes)?;
        self.push_behind(alloc, kind, &columns, bench, notes, sheet)
    }
}
