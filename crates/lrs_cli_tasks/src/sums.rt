//! The sum of a log, printed.

ghost use Rattle.std.specs.Prelude.{◌≡◌, ◌⊎◌, IfOk, IfErr, OnOk};
ghost use Rattle.std.specs.Io.KnownBytes.{Appends};
ghost use Rattle.lrs_machine.specs.Image.{state_of};
ghost use Rattle.lrs_image.specs.OpenLists.{image_of};
ghost use Rattle.lrs_cli_tasks.specs.Sums.{EndsSum, sum_line, summed_count};

use crate::buffer::{behind, buffered};
use crate::endings::Ending;
use crate::fault::ProgramFault;
use lrs_desk::{Desk, Keeper};
use lrs_image::ImageLists;
use lrs_machine::Missing;
use lrs_report_answers::AskCause;
use lrs_sheet_log::sum_of_log;
use std::alloc::Global;
use std::io;
use std::io::Write;

// How many edits are summed, of so many.
fn summed_count(wanted: Option<u64>, there: u64) -> Option<u64>
    ensures { result ≡ summed_count wanted there }
{
    match wanted {
        Some(wanted) if wanted <= there => Some(wanted),
        Some(_) => None,
        None => Some(there),
    }
}

// Writes a number, and the sum of so many edits.
fn write_sum<W: Write>(writer: &mut W, kept: &ImageLists, count: u64) -> io::Result<()>
    ensures { OnOk result (Appends (W.contents writer.old) (W.contents writer.new)
        (sum_line count (state_of (image_of kept.now)).done)) }
{
    let sum = sum_of_log(kept, count);
    write!(writer, "{count} ")?;
    writer.write_all(&sum)?;
    writer.write_all(b"\n")
}

// The same through a buffer in front of the writer, which is given back.
fn print_sum<W: Write + Drop>(
    alloc: Global,
    kept: &ImageLists,
    count: u64,
    to: W,
) -> Result<W, ProgramFault>
    ensures written { IfOk result (λ w. Appends (W.contents to) (W.contents w)
        (sum_line count (state_of (image_of kept.now)).done)) }
    ensures faults { IfErr result (λ e. (e ≡ ProgramFault.Memory) ⊎ (e ≡ ProgramFault.Write)) }
{
    let mut writer = buffered(alloc, to)?;
    match write_sum(&mut writer, kept, count) {
        Ok(()) => behind(writer),
        Err(_) => Err(ProgramFault::Write),
    }
}

/// Writes how many edits a desk's inventory has and the sum of its log, or a number of edits and the sum of so many, and
/// gives the writer back. It changes nothing.
///
/// # Errors
/// `Write` where the line was not written, and `Memory` where there is none for it.
pub fn answer_sum<K: Keeper, W: Write + Drop>(
    alloc: Global,
    desk: &Desk<K>,
    up_to: Option<u64>,
    to: W,
) -> Result<(W, Ending), ProgramFault>
    ensures ended { IfOk result (λ done. EndsSum desk.now.image up_to
        (W.contents to) (W.contents done.0) done.1) }
    ensures faults { IfErr result (λ e. (e ≡ ProgramFault.Memory) ⊎ (e ≡ ProgramFault.Write)) }
{
    let inventory = desk.inventory();
    match summed_count(up_to, inventory.edits()) {
        Some(count) => Ok((print_sum(alloc, inventory.kept(), count, to)?, Ending::Done)),
        None => Ok((
            to,
            Ending::QuestionRefused(AskCause::Missing(Missing::Edit)),
        )),
    }
}
