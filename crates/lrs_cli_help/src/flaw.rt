//! What is wrong with a sheet that cannot be read on.

use crate::job_texts::{sheet_kind, sheet_of, wanted_header};
use crate::lines::{say, say_of};
use crate::shown::shown;
use crate::spreadsheet::{WORKBOOK, first_line, last_line, trace_in};
use lrs_cli_words::Job;
use lrs_sheet_advice::{SheetFlaw, tidy, write_fault_advice};
use lrs_sheet_records::Sheet;
use std::fs;
use std::rt::HostRuntime;

// A larger sheet is not read again.
const MOST_BYTES: u64 = 1 << 28;

// The bytes of a sheet that is in a file, which can be read once more.
fn bytes_of(rt: &HostRuntime, sheet: &str) -> Option<Vec<u8>> {
    let found = fs::metadata(rt, sheet).ok()?;
    if sheet == "stdin" || !found.is_file() || found.len() > MOST_BYTES {
        return None;
    }
    fs::read(rt, sheet).ok()
}

fn say_text(rt: &HostRuntime, sheet: &str, text: &[u8]) -> Option<()> {
    let line = str::from_utf8(text).ok()?;
    say_of(rt, sheet, line.trim());
    Some(())
}

// Says which line of a sheet is wrong, what stands there and what is wanted.
fn tell_line(
    rt: &HostRuntime,
    sheet: &str,
    kind: Sheet,
    flaw: SheetFlaw,
    text: &[u8],
) -> Option<()> {
    let mut said = Vec::new(rt.alloc());
    let done = write_fault_advice(rt.alloc(), &mut said, flaw, kind, text);
    done.ok()?;
    say_text(rt, sheet, said.as_slice())
}

// The same of the header of a sheet of questions.
fn tell_question_header(rt: &HostRuntime, sheet: &str, header: &str, text: &[u8]) -> Option<()> {
    let line = shown(rt.alloc(), first_line(text))?;
    let _ = eprintln!(rt;
        "explain: {sheet}: line 1: \"{line}\" stands there; the header {header} is wanted"
    );
    Some(())
}

fn tell_header(rt: &HostRuntime, job: &Job<'_>, sheet: &str, text: &[u8]) -> Option<()> {
    let header = wanted_header(job);
    match sheet_kind(job) {
        Some(kind) => tell_line(rt, sheet, kind, SheetFlaw::Header, text)?,
        None => tell_question_header(rt, sheet, header, text)?,
    }
    if let Some(trace) = trace_in(text, header) {
        say(rt, trace);
    }
    Some(())
}

// How many fields the records of a sheet have does not depend on its kind: as many as its header.
fn tell_record(rt: &HostRuntime, job: &Job<'_>, sheet: &str, text: &[u8]) -> Option<()> {
    let kind = sheet_kind(job).unwrap_or(Sheet::Edits);
    tell_line(rt, sheet, kind, SheetFlaw::Width, text)
}

// Whether the header of a sheet of this kind can be tidied, whatever stands below it.
fn can_tidy(rt: &HostRuntime, kind: Sheet, header: &[u8]) -> bool {
    let mut tidied = Vec::new(rt.alloc());
    let mut said = Vec::new(rt.alloc());
    matches!(
        tidy(rt.alloc(), kind, header, &mut tidied, &mut said),
        Ok(true)
    )
}

// Whether a text is nearly a sheet of this kind: spreadsheets write it so, or its header can be tidied.
fn is_near(rt: &HostRuntime, kind: Sheet, header: &str, text: &[u8]) -> bool {
    match trace_in(text, header) {
        Some(trace) => trace != WORKBOOK,
        None => can_tidy(rt, kind, first_line(text)),
    }
}

fn name_tidying(rt: &HostRuntime, kind: Sheet, sheet: &str) {
    let option = match kind {
        Sheet::Edits => "",
        Sheet::Survey => " --survey",
    };
    let _ = eprintln!(rt; "explain: roadlrs tidy {sheet}{option} > NEW.csv makes a sheet of it");
}

/// Says what makes a sheet of what a spreadsheet wrote, where the sheet of a job is in a file and nearly one.
pub(crate) fn tell_tidying(rt: &HostRuntime, job: &Job<'_>) -> Option<()> {
    let kind = sheet_kind(job)?;
    let sheet = sheet_of(job)?;
    let text = bytes_of(rt, sheet)?;
    if is_near(rt, kind, wanted_header(job), text.as_slice()) {
        name_tidying(rt, kind, sheet);
        Some(())
    } else {
        None
    }
}

/// Reads the sheet of a job once more, if it is in a file, and says which line is the first that is wrong. None where
/// that is not said.
pub(crate) fn tell_flaw(rt: &HostRuntime, job: &Job<'_>, flaw: SheetFlaw) -> Option<()> {
    let sheet = sheet_of(job)?;
    let text = bytes_of(rt, sheet)?;
    match flaw {
        SheetFlaw::Header => tell_header(rt, job, sheet, text.as_slice()),
        SheetFlaw::Width => tell_record(rt, job, sheet, text.as_slice()),
    }
}

fn show_last_line(rt: &HostRuntime, sheet: &str, line: &[u8]) -> Option<()> {
    let line = shown(rt.alloc(), line)?;
    let _ = eprintln!(rt; "explain: {sheet}: its last line has no end: \"{line}\"");
    Some(())
}

/// Reads the sheet of a job once more, if it is in a file, and says what stands in its last line, which has no end. None
/// where that is not said.
pub(crate) fn tell_last_line(rt: &HostRuntime, job: &Job<'_>) -> Option<()> {
    let sheet = sheet_of(job)?;
    let text = bytes_of(rt, sheet)?;
    show_last_line(rt, sheet, last_line(text.as_slice()))
}
