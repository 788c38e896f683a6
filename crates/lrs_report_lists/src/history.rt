//! The history of an asset: what was entered of it, and what was retired or abandoned.

ghost use Rattle.std.specs.Prelude.{◌≡◌, OnOk};
ghost use Rattle.std.specs.List.{flat_map};
ghost use Rattle.std.specs.Io.KnownBytes.{Appends};
ghost use Rattle.lrs_image.specs.OpenLists.{image_of};
ghost use Rattle.lrs_report_lists.specs.Lines.{event_line};
ghost use Rattle.lrs_report_lists.specs.Lists.{entered_of, gone_of, history_text};
ghost use Rattle.lrs_report_lists.specs.Parts.{entered_line_of, left_line_of};
ghost use Rattle.lrs_report_lists.specs.WantedRows.{is_part_of};

use crate::edits::write_numbered;
use crate::ledger::{reason_text, write_ground};
use lrs_events::{Gone, Part};
use lrs_image::ImageLists;
use lrs_machine::Edit;
use std::io;
use std::io::Write;

/// Whether the part is of the asset.
pub fn is_part_of(asset: u64, part: &Part) -> bool
    ensures { result ≡ is_part_of asset part.now }
{
    part.asset == asset
}

/// Writes the line of an event: what became of a part by its edit.
fn write_event<W: Write>(writer: &mut W, edits: &[Edit], event: &str, part: &Part) -> io::Result<()>
    ensures { OnOk result (Appends (W.contents writer.old) (W.contents writer.new)
        (event_line edits.now event.now part.now)) }
{
    write_numbered(writer, edits, part.edit)?;
    write!(writer, "{event},")?;
    write_ground(writer, part)
}

/// Writes the line of an entered part if it is of the asset.
fn write_entered<W: Write>(
    writer: &mut W,
    asset: u64,
    edits: &[Edit],
    part: &Part,
) -> io::Result<()>
    ensures { OnOk result (Appends (W.contents writer.old) (W.contents writer.new)
        (entered_line_of asset edits.now part.now)) }
{
    if is_part_of(asset, part) {
        return write_event(writer, edits, "entered", part);
    }
    Ok(())
}

/// Writes the line of a part that is gone if it is of the asset.
fn write_left<W: Write>(writer: &mut W, asset: u64, edits: &[Edit], gone: &Gone) -> io::Result<()>
    ensures { OnOk result (Appends (W.contents writer.old) (W.contents writer.new)
        (left_line_of asset edits.now gone.now)) }
{
    if is_part_of(asset, &gone.part) {
        return write_event(writer, edits, reason_text(gone.abandoned), &gone.part);
    }
    Ok(())
}

fn write_each_entered<W: Write>(
    writer: &mut W,
    asset: u64,
    edits: &[Edit],
    entered: &[Part],
) -> io::Result<()>
    ensures { OnOk result (Appends (W.contents writer.old) (W.contents writer.new)
        (flat_map (entered_line_of asset edits.now) entered.now)) }
{
    for part in entered {
        write_entered(writer, asset, edits, part)?;
    }
    Ok(())
}

fn write_each_left<W: Write>(
    writer: &mut W,
    asset: u64,
    edits: &[Edit],
    ledger: &[Gone],
) -> io::Result<()>
    ensures { OnOk result (Appends (W.contents writer.old) (W.contents writer.new)
        (flat_map (left_line_of asset edits.now) ledger.now)) }
{
    for gone in ledger {
        write_left(writer, asset, edits, gone)?;
    }
    Ok(())
}

fn write_entered_of<W: Write>(writer: &mut W, kept: &ImageLists, asset: u64) -> io::Result<()>
    ensures { OnOk result (Appends (W.contents writer.old) (W.contents writer.new)
        (entered_of asset (image_of kept.now))) }
{
    let edits = kept.edits.as_slice();
    write_each_entered(writer, asset, edits, kept.entered.as_slice())
}

fn write_gone_of<W: Write>(writer: &mut W, kept: &ImageLists, asset: u64) -> io::Result<()>
    ensures { OnOk result (Appends (W.contents writer.old) (W.contents writer.new)
        (gone_of asset (image_of kept.now))) }
{
    let edits = kept.edits.as_slice();
    write_each_left(writer, asset, edits, kept.gone.as_slice())
}

/// Writes all that was entered of an asset, by link, start and side, and then all that was retired or abandoned of it, by edit,
/// reason, link, start and side: `edit,key,verb,event,link,from,to,side`. Key and verb are those of the edit, and the event is
/// `entered`, `retired` or `abandoned`; from and to are millimetres of the link, and the side is `L` or `R`, seen along the
/// link. It reads both ledgers whole, takes no memory beyond the writer's, and does not flush the writer.
///
/// # Errors
/// That of the writer. Part of the list may be written then. An asset that is not known has no history.
pub fn write_history<W: Write>(writer: &mut W, kept: &ImageLists, asset: u64) -> io::Result<()>
    ensures { OnOk result (Appends (W.contents writer.old) (W.contents writer.new)
        (history_text asset (image_of kept.now))) }
{
    writer.write_all(b"edit,key,verb,event,link,from,to,side\n")?;
    write_entered_of(writer, kept, asset)?;
    write_gone_of(writer, kept, asset)
}
