//! The answers to a sheet, summed up.

ghost use Rattle.std.specs.Prelude.{◌≡◌, ◌+◌, ◌<◌, ◌^◌, OnOk, IfErr};
ghost use Rattle.std.specs.Io.KnownBytes.{Appends};
ghost use Rattle.lrs_sheet_advice.specs.Summary as spec;

use crate::fault::AdviceFault;
use std::io;
use std::io::Write;

fn records_word(count: u64) -> &'static str
    ensures { result.now ≡ spec.records_word count }
{
    if count == 1 { "record" } else { "records" }
}

fn write_total<W: Write>(writer: &mut W, count: u64, done: u64) -> io::Result<()>
    ensures { OnOk result (Appends (W.contents writer.old) (W.contents writer.new)
        (spec.total_text count done)) }
{
    let records = records_word(count);
    write!(writer, "{count} {records}: {done} would be done, ")
}

fn write_rest<W: Write>(writer: &mut W, again: u64, refused: u64) -> io::Result<()>
    ensures { OnOk result (Appends (W.contents writer.old) (W.contents writer.new)
        (spec.rest_text again refused)) }
{
    write!(writer, "{again} again, {refused} refused\n")
}

fn write_both<W: Write>(
    writer: &mut W,
    count: u64,
    done: u64,
    again: u64,
    refused: u64,
) -> io::Result<()>
    ensures { OnOk result (Appends (W.contents writer.old) (W.contents writer.new)
        (spec.summary_text count done again refused)) }
{
    write_total(writer, count, done)?;
    write_rest(writer, again, refused)
}

/// Writes how many records would be done, how many were done before, and how many are refused:
/// `12 records: 9 would be done, 1 again, 2 refused`.
///
/// # Errors
///
/// `Write` if the writer fails.
pub fn write_summary<W: Write>(
    writer: &mut W,
    done: u64,
    again: u64,
    refused: u64,
) -> Result<(), AdviceFault>
    ensures written { done + again + refused < 2 ^ 64 → OnOk result (Appends (W.contents writer.old)
        (W.contents writer.new) (spec.summary_text (done + again + refused) done again refused)) }
    ensures fault { IfErr result (λ e. e ≡ AdviceFault.Write) }
{
    let count = done.saturating_add(again).saturating_add(refused);
    match write_both(writer, count, done, again, refused) {
        Ok(()) => Ok(()),
        Err(_) => Err(AdviceFault::Write),
    }
}
