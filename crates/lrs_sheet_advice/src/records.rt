//! The records of a sheet while its replies are gone through, one record a reply.

use crate::fault::AdviceFault;
use crate::place::Place;
use csv::{ByteRecord, ErrorKind, Reader, ReaderBuilder};
use lrs_machine::Field;
use lrs_position::{Method, read_method};
use lrs_sheet_records::{Sheet, SheetRecord, Verb, place_of, read_verb, text_at};
use std::alloc::Global;

/// A reader of the records of a sheet.
pub(crate) fn open(alloc: Global, sheet: &[u8]) -> Reader<&[u8]> {
    ReaderBuilder::new()
        .has_headers(false)
        .from_reader(alloc, sheet)
}

/// The records of a sheet, at one of them.
#[derive(Drop)]
pub(crate) struct Records<'a> {
    kind: Sheet,
    rows: Reader<&'a [u8]>,
    row: ByteRecord,
    is_found: bool,
    place: Place<'a>,
}

impl<'a> Records<'a> {
    /// The records of a sheet, before its header.
    pub(crate) fn new(alloc: Global, kind: Sheet, sheet: &'a [u8]) -> Records<'a> {
        Records {
            kind,
            rows: open(alloc, sheet),
            row: ByteRecord::new(alloc),
            is_found: false,
            place: Place::start(sheet),
        }
    }

    /// Goes on to the next record.
    pub(crate) fn go_on(&mut self) -> Result<(), AdviceFault> {
        match self.rows.read_byte_record(&mut self.row) {
            Ok(is_found) => {
                self.is_found = is_found;
                Ok(())
            }
            Err(error) => match error.into_kind() {
                ErrorKind::OutOfMemory => Err(AdviceFault::Memory),
                _ => {
                    self.is_found = false;
                    Ok(())
                }
            },
        }
    }

    /// Which kind the sheet is.
    pub(crate) fn kind(&self) -> Sheet {
        self.kind
    }

    /// The record as the sheet has it.
    pub(crate) fn row(&self) -> &ByteRecord {
        &self.row
    }

    /// The line on which the record starts, where there is a record.
    pub(crate) fn line(&mut self) -> Option<usize> {
        if !self.is_found {
            return None;
        }
        let bytes = match self.row.position() {
            Some(position) => position.byte,
            None => return None,
        };
        self.place = self.place.record_from(bytes);
        Some(self.place.line)
    }

    /// The text of a field, as an edit sheet has it, where there is a record.
    pub(crate) fn text_found(&self, field: Field) -> Option<&[u8]> {
        if !self.is_found {
            return None;
        }
        let record = SheetRecord {
            fields: &self.row,
            sheet: self.kind,
        };
        Some(text_at(&record, place_of(field)))
    }

    /// The same, and nothing where there is none.
    pub(crate) fn text_of(&self, field: Field) -> &[u8] {
        self.text_found(field).unwrap_or(b"")
    }

    /// The verb of the record. A record of a survey enters an asset.
    pub(crate) fn verb(&self) -> Option<Verb> {
        match self.kind {
            Sheet::Survey => Some(Verb::Enter),
            Sheet::Edits => read_verb(self.text_of(Field::Verb)),
        }
    }

    /// The method that a field of the record names.
    pub(crate) fn method_in(&self, field: Field) -> Option<Method> {
        read_method(self.text_of(field))
    }
}
