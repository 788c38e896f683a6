//! The sheet of a draft.

ghost use Rattle.std.specs.Prelude.{IfOk};
ghost use Rattle.lrs_machine.specs.Sound.{IsSound};
ghost use Rattle.lrs_image.specs.OpenLists.{image_of};
ghost use Rattle.lrs_drafts.specs.Drafts.{IsDraft};

use crate::asset_drafts::{write_move, write_replace, write_retire};
use crate::confirmation::confirmed;
use crate::draft::Draft;
use crate::fault::DraftFault;
use crate::keys::SheetWriter;
use crate::route_drafts::{write_bypass, write_merge, write_split};
use crate::undo::write_undo;
use lrs_image::ImageLists;
use lrs_sheet::{Desk, Keeper};
use std::alloc::Global;

/// Adds the records that do what a draft is for.
fn write_records(
    alloc: Global,
    sheet: &mut SheetWriter<'_>,
    kept: &ImageLists,
    draft: &Draft,
) -> Result<(), DraftFault>
    requires sound { IsSound (image_of kept.now) }
{
    match draft {
        Draft::Split { route, place, new } => write_split(alloc, sheet, kept, route, *place, new),
        Draft::Bypass {
            route,
            from,
            to,
            pieces,
            old,
        } => write_bypass(alloc, sheet, kept, route, *from, *to, pieces, old),
        Draft::Retire { asset } => write_retire(alloc, sheet, kept, *asset),
        Draft::Replace {
            asset,
            number,
            value,
        } => write_replace(alloc, sheet, kept, *asset, *number, *value),
        Draft::Move {
            asset,
            number,
            route,
            from,
            to,
        } => write_move(alloc, sheet, kept, *asset, *number, route, *from, *to),
        Draft::Merge { routes } => write_merge(alloc, sheet, kept, routes.as_slice()),
        Draft::Undo { from, number } => write_undo(alloc, sheet, kept, *from, *number),
    }
}

/// The records that do what a draft is for, as a sheet.
fn written(
    alloc: Global,
    kept: &ImageLists,
    draft: &Draft,
    key_front: Option<&str>,
) -> Result<Vec<u8>, DraftFault>
    requires sound { IsSound (image_of kept.now) }
{
    let mut sheet = SheetWriter::new(alloc, key_front, kept.edits.len());
    write_records(alloc, &mut sheet, kept, draft)?;
    sheet.text(alloc)
}

/// An edit sheet that does what a draft is for: each of its records is done at a copy of the inventory, and makes what is
/// intended there. Its keys are `key_front`, or `DRAFT-` where there is none, the number of the next edit, a dash, and a count
/// from 1.
///
/// # Errors
/// `Impossible` where no sheet is found that does it, `Unreadable` where `key_front` makes no keys, and `Memory`.
pub fn draft_sheet<K: Keeper>(
    alloc: Global,
    desk: &Desk<K>,
    draft: &Draft,
    key_front: Option<&str>,
) -> Result<Vec<u8>, DraftFault>
    ensures { IfOk result (λ sheet. IsDraft draft.now desk.now.image sheet.items) }
{
    let sheet = written(alloc, desk.inventory().kept(), draft, key_front)?;
    confirmed(alloc, desk, draft, sheet)
}
