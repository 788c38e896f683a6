//! Advice about a sheet that cannot be read to its end.

ghost use Rattle.std.specs.Prelude.{OnOk};
ghost use Rattle.lrs_sheet_advice.specs.AdviceLines.{WritesOneLine};

use crate::fault::AdviceFault;
use crate::line::{AdviceLine, write_line};
use crate::place::Place;
use crate::records::{Records, open};
use csv::{ByteRecord, Error, ErrorKind, Reader};
use lrs_sheet_records::{Sheet, column, is_header};
use std::alloc::{AllocError, Global};
use std::io::Write;

/// What is wrong with a whole sheet.
#[derive(Clone, Copy)]
pub enum SheetFlaw {
    /// The first record is not the header: the fault `BadHeader` of a sheet.
    Header,
    /// A record has not as many fields as the header: the fault `BadCsv` of a sheet.
    Width,
}

/// How many fields of a header are shown, at most.
const MOST_FIELDS: usize = 12;

/// The other kind of sheet, and the word that does one.
fn other_kind(kind: Sheet) -> (Sheet, &'static str) {
    match kind {
        Sheet::Edits => (Sheet::Survey, "this is the header of a survey"),
        Sheet::Survey => (Sheet::Edits, "this is the header of an edit sheet"),
    }
}

/// Says the fields of a header that was found, with commas between them.
fn say_fields(line: &mut AdviceLine, row: &ByteRecord) -> Result<(), AllocError> {
    for place in 0..MOST_FIELDS {
        let Some(text) = row.get(place) else {
            return Ok(());
        };
        if place > 0 {
            line.say(", ")?;
        }
        line.quote(text)?;
    }
    line.say(", ...")
}

/// Says what kind of header was found, if that is seen.
fn say_kind(line: &mut AdviceLine, kind: Sheet, row: &ByteRecord) -> Result<(), AllocError> {
    let (other, words) = other_kind(kind);
    if is_header(other, row) {
        line.say("; ")?;
        line.say(words)?;
    } else if row.len() == 1 {
        line.say("; between two fields stands a comma, and nothing else")?;
    }
    Ok(())
}

/// Says which header was found, and which is wanted; gives the line on which one was found.
fn say_header(
    alloc: Global,
    line: &mut AdviceLine,
    kind: Sheet,
    records: &mut Records<'_>,
) -> Result<Option<usize>, AdviceFault> {
    records.go_on()?;
    let start = records.line();
    match start {
        Some(number) => {
            line.say("line ")?;
            line.say_number(alloc, number as u64)?;
            line.say(": the header has the fields ")?;
            say_fields(line, records.row())?;
            say_kind(line, kind, records.row())?;
        }
        None => line.say("line 1: the sheet is empty")?,
    }
    line.say("; the header ")?;
    for place in 0..kind.width() {
        if place > 0 {
            line.say(",")?;
        }
        line.say_bytes(column(kind, place))?;
    }
    line.say(" is wanted")?;
    Ok(start)
}

/// Why a sheet cannot be read to its end.
#[derive(Clone, Copy)]
enum Stop {
    Memory,
    /// The record at this byte has so many fields, and not as many as are wanted.
    Width { byte: u64, wanted: u64, found: u64 },
    Other,
}

/// What an error of the reader says.
fn stop_by(error: Error) -> Stop {
    match error.into_kind() {
        ErrorKind::OutOfMemory => Stop::Memory,
        ErrorKind::UnequalLengths {
            pos: Some(position),
            expected_len,
            len,
        } => Stop::Width {
            byte: position.byte,
            wanted: expected_len,
            found: len,
        },
        _ => Stop::Other,
    }
}

/// Why the records that are left cannot all be read.
fn stop_behind(rows: &mut Reader<&[u8]>, row: &mut ByteRecord) -> Stop {
    for _turn in 0..u64::MAX {
        match rows.read_byte_record(row) {
            Ok(true) => {}
            Ok(false) => return Stop::Other,
            Err(error) => return stop_by(error),
        }
    }
    Stop::Other
}

/// Why a sheet cannot be read to its end.
fn stop_of(alloc: Global, sheet: &[u8]) -> Stop {
    let mut rows = open(alloc, sheet);
    let mut row = ByteRecord::new(alloc);
    stop_behind(&mut rows, &mut row)
}

/// Says how many fields the record at a place has, and how many are wanted.
fn say_lengths(
    alloc: Global,
    line: &mut AdviceLine,
    start: Place<'_>,
    found: u64,
    wanted: u64,
) -> Result<(), AllocError> {
    line.say("line ")?;
    line.say_number(alloc, start.line as u64)?;
    line.say(": the record has ")?;
    line.say_number(alloc, found)?;
    line.say(if found == 1 {
        " field, and "
    } else {
        " fields, and "
    })?;
    line.say_number(alloc, wanted)?;
    line.say(
        " are wanted: write a comma between two fields, also between empty ones, and quotes around a field that has a comma itself",
    )
}

/// Says which record has the wrong number of fields; gives the line on which it starts.
fn say_width(
    alloc: Global,
    line: &mut AdviceLine,
    sheet: &[u8],
) -> Result<Option<usize>, AdviceFault> {
    match stop_of(alloc, sheet) {
        Stop::Memory => Err(AdviceFault::Memory),
        Stop::Width {
            byte,
            wanted,
            found,
        } => {
            let start = Place::start(sheet).record_from(byte);
            say_lengths(alloc, line, start, found, wanted)?;
            Ok(Some(start.line))
        }
        Stop::Other => {
            line.say("the sheet cannot be read to its end")?;
            Ok(None)
        }
    }
}

/// Says what is wrong with a whole sheet; gives the line at which it stops, where that is known.
pub(crate) fn say_flaw(
    alloc: Global,
    line: &mut AdviceLine,
    flaw: SheetFlaw,
    kind: Sheet,
    sheet: &[u8],
) -> Result<Option<usize>, AdviceFault> {
    match flaw {
        SheetFlaw::Header => {
            let mut records = Records::new(alloc, kind, sheet);
            say_header(alloc, line, kind, &mut records)
        }
        SheetFlaw::Width => say_width(alloc, line, sheet),
    }
}

/// Writes the line about a flaw, and nothing behind it.
fn write_flaw<W: Write>(
    alloc: Global,
    writer: &mut W,
    line: &mut AdviceLine,
    nothing: &AdviceLine,
    flaw: SheetFlaw,
    kind: Sheet,
    sheet: &[u8],
) -> Result<(), AdviceFault>
    ensures { OnOk result (WritesOneLine (W.contents writer.old) (W.contents writer.new)) }
{
    say_flaw(alloc, line, flaw, kind, sheet)?;
    write_line(writer, line, nothing)
}

/// Writes one line about a sheet that cannot be read to its end: where it stops, what was found there, and what is wanted.
///
/// # Errors
///
/// `Write` if the writer fails, and `Memory`.
pub fn write_fault_advice<W: Write>(
    alloc: Global,
    writer: &mut W,
    flaw: SheetFlaw,
    kind: Sheet,
    sheet: &[u8],
) -> Result<(), AdviceFault>
    ensures { OnOk result (WritesOneLine (W.contents writer.old) (W.contents writer.new)) }
{
    let mut line = AdviceLine::new(alloc);
    let nothing = AdviceLine::new(alloc);
    write_flaw(alloc, writer, &mut line, &nothing, flaw, kind, sheet)
}
