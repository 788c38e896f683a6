//! What a spreadsheet wrote, made a sheet.

ghost use Rattle.std.specs.Prelude.{◌≡◌, IfErr, IfOk, Some};
ghost use Rattle.std.specs.Io.KnownBytes.{Appends};
ghost use Rattle.lrs_sheet_advice.specs.TidySheets.{IsTidied};
ghost use Rattle.lrs_cli_sheets.specs.Tidyings.{EndsTidy};

use crate::sheets::{read_whole, unopened};
use crate::world::{Sheets, World};
use lrs_cli_tasks::{Ending, ProgramFault};
use lrs_sheet::Sheet;
use lrs_sheet_advice::{TidyFault, tidy};
use std::alloc::Global;
use std::io::Write;
use std::rt::Runtime;

// Says what was changed, or what could be read in two ways. Where standard error takes nothing, the status alone tells.
fn tell<R: Runtime<A = Global>>(rt: &R, said: &[u8]) {
    if let Ok(text) = str::from_utf8(said) {
        let _ = eprint!(rt; "{text}");
    }
}

/// Writes a text whole, and gives the writer back.
pub(crate) fn write_text<W: Write + Drop>(text: &[u8], to: W) -> Result<W, ProgramFault>
    ensures written { IfOk result (λ done. Appends (W.contents to) (W.contents done) text.now) }
    ensures failed { IfErr result (λ e. e ≡ ProgramFault.Write) }
{
    let mut to = to;
    match to.write_all(text) {
        Ok(()) => Ok(to),
        Err(_) => Err(ProgramFault::Write),
    }
}

// Tidies the bytes of a file into one list, and writes what they became. What is said is put together in the other one.
#[tactic(auto, using(crate::proofs::Tidied::has_tidied, crate::proofs::Tidied::has_not_tidied))]
fn tidy_by<R: Runtime<A = Global>, W: Write + Drop>(
    rt: &R,
    kind: Sheet,
    bytes: &[u8],
    tidied: &mut Vec<u8>,
    said: &mut Vec<u8>,
    to: W,
) -> Result<(W, Ending), ProgramFault>
    ensures ended { IfOk result (λ done. EndsTidy kind (Some bytes.now)
        (W.contents to) (W.contents done.0) done.1) }
    ensures failed { IfErr result (λ e. e ≡ ProgramFault.Write) }
{
    match tidy(rt.alloc(), kind, bytes, tidied, said) {
        Ok(true) => {
            tell(rt, said.as_slice());
            match write_text(tidied.as_slice(), to) {
                Ok(to) => Ok((to, Ending::Done)),
                Err(fault) => Err(fault),
            }
        }
        Ok(false) => {
            tell(rt, said.as_slice());
            Ok((to, Ending::RecordsRefused))
        }
        Err(TidyFault::Memory) => Ok((to, Ending::Stopped(ProgramFault::Memory))),
        Err(TidyFault::Read) => Ok((to, Ending::Stopped(ProgramFault::Read))),
    }
}

// The same, with lists of its own.
fn tidy_bytes<R: Runtime<A = Global>, W: Write + Drop>(
    rt: &R,
    kind: Sheet,
    bytes: &[u8],
    to: W,
) -> Result<(W, Ending), ProgramFault>
    ensures ended { IfOk result (λ done. EndsTidy kind (Some bytes.now)
        (W.contents to) (W.contents done.0) done.1) }
    ensures failed { IfErr result (λ e. e ≡ ProgramFault.Write) }
{
    let mut tidied = Vec::new(rt.alloc());
    let mut said = Vec::new(rt.alloc());
    tidy_by(rt, kind, bytes, &mut tidied, &mut said, to)
}

/// Writes the sheet of this kind that the file of a name becomes, and on standard error what was changed. A tidy sheet is
/// written as it is. Where a text in it could be read in two ways, standard error names each, and nothing is written.
///
/// # Errors
/// `Write` where not all of it was written.
pub fn do_tidy<R: Runtime<A = Global>, S: Sheets, W: Write + Drop>(
    world: &World<'_, R, S>,
    kind: Sheet,
    name: &str,
    to: W,
) -> Result<(W, Ending), ProgramFault>
    ensures ended { IfOk result (λ done. EndsTidy kind
        (S.text_of world.now.sheets.now name.now)
        (W.contents to) (W.contents done.0) done.1) }
    ensures failed { IfErr result (λ e. e ≡ ProgramFault.Write) }
{
    match read_whole(world, name) {
        Ok(text) => tidy_bytes(world.rt, kind, text.as_slice(), to),
        Err(error) => Ok((to, unopened(world.rt, name, error))),
    }
}
