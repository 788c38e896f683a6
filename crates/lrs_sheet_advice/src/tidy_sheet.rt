//! What spreadsheets write, made a sheet.

ghost use Rattle.std.specs.Prelude.{◌≡◌, ◌↔◌, IfOk, IsTrue, true, false};
ghost use Rattle.lrs_sheet_advice.specs.TidySheets.{IsTidied, IsTidySheet, IsUntidy};

mod cell;
mod charset;
mod columns;
mod fault;
mod form;
mod lead;
mod notes;
mod record;
mod rows;
mod sheet;
mod sign;

use crate::place::Place;
use charset::{Encoding, broken_from, decoded, encoding_of};
pub use fault::TidyFault;
use fault::fault_of;
use lead::{Lead, lead_of};
use lrs_sheet_records::Sheet;
use notes::Notes;
use record::Bench;
use rows::Rows;
use sheet::is_tidy_sheet;
use std::alloc::{AllocError, Global};

/// Whether a text is a tidy sheet.
fn is_tidy_text(alloc: Global, kind: Sheet, text: &[u8]) -> Result<bool, TidyFault>
    ensures { IfOk result (λ is. IsTrue is ↔ IsTidySheet kind text.now) }
{
    match is_tidy_sheet(alloc, kind, text) {
        Ok(is) => Ok(is),
        Err(fault) => Err(fault_of(fault)),
    }
}

/// Names the line from which on a text is not UTF-8.
fn doubt_bytes(
    alloc: Global,
    bench: &mut Bench,
    notes: &mut Notes,
    text: &[u8],
    broken: usize,
) -> Result<(), AllocError> {
    let line = Place::start(text).record_from(broken as u64).line;
    bench.note.clear();
    bench.note.say("line ")?;
    bench.note.say_number(alloc, line as u64)?;
    bench
        .note
        .say(": this is not UTF-8: save it as CSV in UTF-8")?;
    notes.add_doubt(&bench.note)
}

fn add_words(bench: &mut Bench, notes: &mut Notes, words: &str) -> Result<(), AllocError> {
    bench.note.clear();
    bench.note.say(words)?;
    notes.add_change(&bench.note)
}

/// Says what stood before the records and between their fields, where a sheet has it otherwise.
fn tell_lead(bench: &mut Bench, notes: &mut Notes, lead: Lead<'_>) -> Result<(), AllocError> {
    if lead.is_named {
        add_words(bench, notes, "line 1: the line sep= was left out")?;
    }
    match lead.separator {
        b',' => {}
        b';' => add_words(bench, notes, "semicolons between fields became commas")?,
        b'\t' => add_words(bench, notes, "tabs between fields became commas")?,
        _ => add_words(bench, notes, "bars between fields became commas")?,
    }
    if lead.records.contains(&b'\r') {
        add_words(bench, notes, "carriage returns at line ends were left out")?;
    }
    Ok(())
}

/// Writes a sheet of a text in UTF-8, and notes what became of it.
fn push_text(
    alloc: Global,
    kind: Sheet,
    text: &[u8],
    bench: &mut Bench,
    notes: &mut Notes,
    tidied: &mut Vec<u8>,
) -> Result<(), TidyFault> {
    if let Some(broken) = broken_from(text) {
        doubt_bytes(alloc, bench, notes, text, broken)?;
        return Ok(());
    }
    let lead = lead_of(text);
    tell_lead(bench, notes, lead)?;
    let mut rows = Rows::new(alloc, lead);
    rows.push_sheet(alloc, kind, bench, notes, tidied)
}

fn doubt_units(bench: &mut Bench, notes: &mut Notes) -> Result<(), TidyFault> {
    bench.note.clear();
    bench.note.say("this is no UTF-16, though it begins so: save it as CSV in UTF-8")?;
    notes.add_doubt(&bench.note)?;
    Ok(())
}

/// The same of a text in UTF-16. What was changed is not told where there is a doubt.
fn push_units(
    alloc: Global,
    kind: Sheet,
    units: &[u8],
    is_big: bool,
    bench: &mut Bench,
    notes: &mut Notes,
    tidied: &mut Vec<u8>,
) -> Result<(), TidyFault> {
    add_words(bench, notes, "UTF-16 became UTF-8")?;
    match decoded(alloc, units, is_big)? {
        Some(text) => push_text(alloc, kind, text.as_bytes(), bench, notes, tidied),
        None => doubt_units(bench, notes),
    }
}

/// The same of the bytes of a file.
fn push_bytes(
    alloc: Global,
    kind: Sheet,
    bytes: &[u8],
    bench: &mut Bench,
    notes: &mut Notes,
    tidied: &mut Vec<u8>,
) -> Result<(), TidyFault> {
    match encoding_of(bytes) {
        Encoding::Utf8(text) => push_text(alloc, kind, text, bench, notes, tidied),
        Encoding::MarkedUtf8(text) => {
            add_words(bench, notes, "the byte order mark was left out")?;
            push_text(alloc, kind, text, bench, notes, tidied)
        }
        Encoding::BigUtf16(units) => push_units(alloc, kind, units, true, bench, notes, tidied),
        Encoding::LittleUtf16(units) => push_units(alloc, kind, units, false, bench, notes, tidied),
    }
}

/// Writes a sheet of the bytes of a file, and says what became of it, in lines. Whether there is nothing that could be read
/// in two ways; if there is, each such text is named, and nothing else is said.
fn mend_at(
    alloc: Global,
    kind: Sheet,
    bytes: &[u8],
    bench: &mut Bench,
    notes: &mut Notes,
    tidied: &mut Vec<u8>,
    said: &mut Vec<u8>,
) -> Result<bool, TidyFault> {
    push_bytes(alloc, kind, bytes, bench, notes, tidied)?;
    said.extend_from_slice(notes.lines())?;
    if notes.has_doubts() {
        said.extend_from_slice(b"nothing is written\n")?;
        return Ok(false);
    }
    Ok(true)
}

/// The same at a bench of its own. What may fail only borrows it, so that there is one place where it is dropped.
fn mend(
    alloc: Global,
    kind: Sheet,
    bytes: &[u8],
    tidied: &mut Vec<u8>,
    said: &mut Vec<u8>,
) -> Result<bool, TidyFault> {
    let mut bench = Bench::new(alloc);
    let mut notes = Notes::new(alloc);
    mend_at(alloc, kind, bytes, &mut bench, &mut notes, tidied, said)
}

#[tactic(auto, using(crate::proofs::TidyRows::tidied_same, crate::proofs::TidyRows::tidied_other, crate::proofs::TidyRows::untidy))]
/// Makes a tidy sheet of the bytes of a file, and says in lines what was changed. A tidy sheet is left as it is, byte for
/// byte. Where a text could be read in two ways, nothing is made of it: `said` names each such text, and the answer is no.
///
/// # Errors
///
/// `Memory`, or `Read` where there are too many records.
pub fn tidy(
    alloc: Global,
    kind: Sheet,
    bytes: &[u8],
    tidied: &mut Vec<u8>,
    said: &mut Vec<u8>,
) -> Result<bool, TidyFault>
    ensures done { IfOk result (λ is. is ≡ true → IsTidied kind bytes.now tidied.new.items) }
    ensures refused { IfOk result (λ is. is ≡ false → IsUntidy kind bytes.now) }
{
    tidied.clear();
    if is_tidy_text(alloc, kind, bytes)? {
        tidied.extend_from_slice(bytes)?;
        return Ok(true);
    }
    if !mend(alloc, kind, bytes, tidied, said)? {
        return Ok(false);
    }
    is_tidy_text(alloc, kind, tidied.as_slice())
}
