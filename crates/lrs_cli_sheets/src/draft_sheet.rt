//! Sheets that are drafted for somebody.

ghost use Rattle.std.specs.Prelude.{◌≡◌, ◌⊎◌, IfOk, IfErr};
ghost use Rattle.lrs_drafts.specs.Drafts.{IsDraft};
ghost use Rattle.lrs_drafts.specs.declared.draft.Draft.{Draft as DraftValue};
ghost use Rattle.lrs_cli_sheets.specs.Drafts.{EndsDraft, IsDraftOf};

use crate::tidy_sheet::write_text;
use lrs_cli_tasks::{DraftWords, Ending, ProgramFault};
use lrs_cli_words::BadWord;
use lrs_drafts::{DraftFault, draft_sheet, read_draft};
use lrs_sheet::{Desk, Keeper};
use std::alloc::Global;
use std::io::Write;
use std::rt::Runtime;

// The sheet that does what the words say.
fn drafted<K: Keeper>(
    alloc: Global,
    desk: &Desk<K>,
    words: DraftWords<'_>,
) -> Result<Vec<u8>, DraftFault>
    ensures { IfOk result (λ sheet. (draft : DraftValue) × IsDraftOf words.entry draft
        × IsDraft draft desk.now.image sheet.items) }
{
    match read_draft(alloc, words.what, words.words, words.number) {
        Ok(draft) => draft_sheet(alloc, desk, &draft, words.key),
        Err(fault) => Err(fault),
    }
}

// Says on standard error why there is no draft. Where that takes nothing, the status alone tells.
fn tell_fault<R: Runtime<A = Global>>(rt: &R, fault: &DraftFault) {
    let _ = eprintln!(rt; "{fault}");
}

// How the program ends where there is no draft. Why there is none is told, unless memory has run out.
fn undrafted<R: Runtime<A = Global>>(rt: &R, fault: &DraftFault) -> Ending
    ensures { (result ≡ Ending.NotDrafted) ⊎ ((result ≡ Ending.Unreadable BadWord.Draft)
        ⊎ (result ≡ Ending.Stopped ProgramFault.Memory)) }
{
    match fault {
        DraftFault::Memory => Ending::Stopped(ProgramFault::Memory),
        DraftFault::Unreadable(_) => {
            tell_fault(rt, fault);
            Ending::Unreadable(BadWord::Draft)
        }
        DraftFault::Impossible(_) => {
            tell_fault(rt, fault);
            Ending::NotDrafted
        }
    }
}

/// Writes an edit sheet that does what the words say to the inventory of a desk, where it does on a copy. Nothing is done at
/// the desk. Where there is no such sheet, standard error says why, and nothing is written. The writer is given back with
/// how the program ends: `NotDrafted` where it cannot be done, `Unreadable` where the words say no draft, and `Stopped`
/// where memory runs out.
///
/// # Errors
/// `Write` where not all of the sheet was written.
#[tactic(auto, using(crate::proofs::Drafted::undrafted))]
pub fn do_draft<R: Runtime<A = Global>, W: Write + Drop, K: Keeper>(
    rt: &R,
    desk: &Desk<K>,
    words: DraftWords<'_>,
    to: W,
) -> Result<(W, Ending), ProgramFault>
    ensures ended { IfOk result (λ done. EndsDraft desk.now.image words.entry
        (W.contents to) (W.contents done.0) done.1) }
    ensures failed { IfErr result (λ e. e ≡ ProgramFault.Write) }
{
    match drafted(rt.alloc(), desk, words) {
        Ok(sheet) => match write_text(sheet.as_slice(), to) {
            Ok(to) => Ok((to, Ending::Done)),
            Err(fault) => Err(fault),
        },
        Err(fault) => Ok((to, undrafted(rt, &fault))),
    }
}
