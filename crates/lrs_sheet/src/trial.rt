//! A sheet that is tried.

ghost use Rattle.std.specs.Prelude.{IfOk, IfSome};
ghost use Rattle.lrs_machine.specs.Image.{state_of};
ghost use Rattle.lrs_sheet.specs.Sheets.{IsAfterCommands};
ghost use Rattle.lrs_sheet.specs.Trials.{IsFull, IsTried};

use crate::reply::Tally;
use crate::run::{Run, run_behind};
use lrs_desk::{Desk, Keeper};
use lrs_sheet_records::{Sheet, SheetFault};
use std::alloc::{AllocError, Global};
use std::io::Read;

/// What a sheet is answered that is tried: the lines of its replies, and how it ended.
#[derive(Drop)]
pub struct Trial {
    pub replies: Vec<u8>,
    pub outcome: Result<Tally, SheetFault>,
}

/// Does the records of a sheet behind its first ones at a desk over a copy, one after another: the copy has then what
/// they made.
///
/// # Errors
/// When memory runs out for the replies. Some of the records may be done then.
pub fn try_sheet<S: Read + Drop, K: Keeper>(
    alloc: Global,
    kind: Sheet,
    passed: u32,
    sheet: S,
    copy: &mut Desk<K>,
) -> Result<Trial, AllocError>
    requires full { IsFull copy.old.limits }
    ensures tried { IfOk result (λ trial. IfSome (S.remaining sheet) (λ text. IsTried kind passed
        text (state_of copy.old.image) (state_of copy.new.image) trial.replies.items
        trial.outcome)) }
    ensures left { IsAfterCommands copy.old.limits (state_of copy.old.image)
        (state_of copy.new.image) }
{
    let run = Run {
        sheet: kind,
        together: 1,
        passed,
    };
    let mut replies = Vec::new(alloc);
    let outcome = run_behind(alloc, run, sheet, &mut replies, copy);
    match outcome {
        Err(SheetFault::Write) => Err(AllocError),
        outcome => Ok(Trial { replies, outcome }),
    }
}
