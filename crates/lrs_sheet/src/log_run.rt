//! A log that is done from the beginning.

ghost use Rattle.std.specs.Prelude.{◌≡◌, IfSome};
ghost use Rattle.lrs_machine.specs.Image.{nothing};
ghost use Rattle.lrs_sheet.specs.MadeLogs.{IsMadeWith};
ghost use Rattle.lrs_sheet.specs.Trials.{IsFull};

use crate::reply::Tally;
use crate::run::run_edits;
use lrs_desk::{Desk, Keeper};
use lrs_sheet_records::SheetFault;
use std::alloc::Global;
use std::io;
use std::io::Read;

/// Does an edit sheet at a desk over the empty inventory, which has then what the sheet made. Its replies are dropped.
///
/// # Errors
/// Those of `run_edits`, but for `Write`.
pub fn run_log<S: Read + Drop, K: Keeper>(
    alloc: Global,
    sheet: S,
    desk: &mut Desk<K>,
) -> Result<Tally, SheetFault>
    requires fresh { desk.old.image ≡ nothing }
    requires full { IsFull desk.old.limits }
    ensures made { IfSome (S.remaining sheet) (λ text. IsMadeWith text result desk.new.image) }
{
    let mut replies = io::sink();
    run_edits(alloc, sheet, &mut replies, desk)
}
