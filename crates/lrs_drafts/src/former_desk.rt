//! The inventory before an edit.

ghost use Rattle.std.specs.Prelude.{◌≡◌, ◌-◌, IfOk, Some};
ghost use Rattle.lrs_image.specs.OpenLists.{image_of};
ghost use Rattle.lrs_machine.specs.Image.{nothing};
ghost use Rattle.lrs_sheet.specs.MadeLogs.{IsMadeBy};
ghost use Rattle.lrs_sheet.specs.Trials.{IsFull};
ghost use Rattle.lrs_sheet_log.specs.Log.{log_text};

use lrs_desk::{Desk, Keeper, Plain};
use lrs_image::ImageLists;
use lrs_sheet::{empty_desk, run_edits, run_log};
use lrs_sheet_log::write_log;
use std::alloc::{AllocError, Global};
use std::io;

/// The edits from the one of a number up to another, as a log.
fn log_between(
    alloc: Global,
    kept: &ImageLists,
    from: u64,
    until: u64,
) -> Result<Vec<u8>, AllocError>
    ensures { IfOk result (λ text. text.items
        ≡ log_text from (Some until) (image_of kept.now)) }
{
    let mut text = Vec::new(alloc);
    match write_log(&mut text, kept, from, Some(until)) {
        Ok(()) => Ok(text),
        Err(_) => Err(AllocError),
    }
}

/// The log up to the edit before the one of a number.
fn former_log(alloc: Global, kept: &ImageLists, edit: u64) -> Result<Vec<u8>, AllocError>
    ensures { IfOk result (λ text. text.items
        ≡ log_text 1 (Some (edit - 1)) (image_of kept.now)) }
{
    log_between(alloc, kept, 1, edit.saturating_sub(1))
}

/// Does a log at a desk over the empty inventory.
fn run_at<K: Keeper>(alloc: Global, text: &[u8], desk: &mut Desk<K>)
    requires fresh { desk.old.image ≡ nothing }
    requires full { IsFull desk.old.limits }
    ensures { IsMadeBy text.now desk.new.image }
{
    let _ = run_log(alloc, text, desk);
}

/// A desk over what the edits before the one of a number made, in memory.
///
/// # Errors
/// When memory runs out.
pub(crate) fn former_desk(
    alloc: Global,
    kept: &ImageLists,
    edit: u64,
) -> Result<Desk<Plain>, AllocError>
    ensures { IfOk result (λ desk. IsMadeBy (log_text 1 (Some (edit - 1)) (image_of kept.now))
        desk.image) }
{
    let text = former_log(alloc, kept, edit)?;
    let mut desk = empty_desk(alloc)?;
    run_at(alloc, text.as_slice(), &mut desk);
    Ok(desk)
}

/// Does an edit sheet at a desk in memory.
///
/// # Errors
/// When memory runs out.
pub(crate) fn do_text<K: Keeper>(
    alloc: Global,
    sheet: &[u8],
    desk: &mut Desk<K>,
) -> Result<(), AllocError> {
    let mut replies = io::sink();
    match run_edits(alloc, sheet, &mut replies, desk) {
        Ok(_) => Ok(()),
        Err(_) => Err(AllocError),
    }
}

/// Does the edit of a number at a desk over what those before it made.
///
/// # Errors
/// When memory runs out.
pub(crate) fn do_edit<K: Keeper>(
    alloc: Global,
    kept: &ImageLists,
    edit: u64,
    desk: &mut Desk<K>,
) -> Result<(), AllocError> {
    let text = log_between(alloc, kept, edit, edit)?;
    do_text(alloc, text.as_slice(), desk)
}
