//! What is said on standard error about a sheet that was tried.

use lrs_sheet::{Sheet, SheetFault, Trial};
use lrs_sheet_advice::{AdviceFault, SheetFlaw, write_advice, write_fault_advice, write_summary};
use std::alloc::{AllocError, Global};
use std::rt::Runtime;

/// A sheet that was tried behind its first records: its bytes, and what it is answered.
#[derive(Drop)]
pub(crate) struct TriedSheet<'a> {
    pub(crate) kind: Sheet,
    pub(crate) text: &'a [u8],
    pub(crate) passed: u32,
    pub(crate) trial: &'a Trial,
}

// A line for each record: an empty one where it was passed over.
fn push_lines(lines: &mut Vec<u8>, sheet: &TriedSheet<'_>) -> Result<(), AllocError> {
    for _ in 0..sheet.passed {
        lines.push(b'\n')?;
    }
    lines.extend_from_slice(sheet.trial.replies.as_slice())
}

// Writes what to do about each record that is refused, and about the sheet where it cannot be read on; and how many
// records there are of each kind. Whatever may fail only borrows the lines, here and below, so that there is one place
// where they are dropped.
fn write_said(
    alloc: Global,
    said: &mut Vec<u8>,
    sheet: &TriedSheet<'_>,
    lines: &mut Vec<u8>,
) -> Result<(), AdviceFault> {
    push_lines(lines, sheet)?;
    write_advice(alloc, said, sheet.kind, sheet.text, lines.as_slice())?;
    let flaw = match sheet.trial.outcome {
        Ok(tally) => return write_summary(said, tally.done, tally.again, tally.refused),
        Err(SheetFault::BadHeader) => SheetFlaw::Header,
        Err(SheetFault::BadCsv) => SheetFlaw::Width,
        Err(_) => return Ok(()),
    };
    write_fault_advice(alloc, said, flaw, sheet.kind, sheet.text)
}

fn push_said(alloc: Global, said: &mut Vec<u8>, sheet: &TriedSheet<'_>) -> Result<(), AdviceFault> {
    let mut lines = Vec::new(alloc);
    write_said(alloc, said, sheet, &mut lines)
}

/// Says on standard error how many records would be done, and what to do about each one that would be refused. Where
/// standard error takes nothing, or memory runs out, the status alone tells.
pub(crate) fn advise<R: Runtime<A = Global>>(rt: &R, sheet: &TriedSheet<'_>) {
    let mut said = Vec::new(rt.alloc());
    if push_said(rt.alloc(), &mut said, sheet).is_ok() {
        if let Ok(text) = str::from_utf8(said.as_slice()) {
            let _ = eprint!(rt; "{text}");
        }
    }
}
