//! The list of parts that are gone.

ghost use Rattle.std.specs.Prelude.{◌≡◌, OnOk};
ghost use Rattle.std.specs.List.{flat_map};
ghost use Rattle.std.specs.Option.{option_map};
ghost use Rattle.std.specs.Io.KnownBytes.{Appends};
ghost use Rattle.lrs_machine.specs.Sound.{IsSound};
ghost use Rattle.lrs_image.specs.OpenLists.{image_of};
ghost use Rattle.lrs_report_lists.specs.Lines.{edit_numbered, gone_line_with, link_side_text, reason_text};
ghost use Rattle.lrs_report_lists.specs.Lists.{gone_text};
ghost use Rattle.lrs_report_lists.specs.Parts.{class_part, gone_line_if, gone_line_of, ground_part, reason_part};

use crate::assets::asset_numbered;
use crate::edits::write_numbered;
use crate::wanted::is_gone_wanted;
use lrs_events::{Asset, Gone, LinkSide, Part};
use lrs_image::ImageLists;
use lrs_machine::{Edit, GoneWanted};
use std::io;
use std::io::Write;

/// Why a part is gone: `abandoned`, or else `retired`.
pub fn reason_text(abandoned: bool) -> &'static str
    ensures { result.now ≡ reason_text abandoned }
{
    if abandoned { "abandoned" } else { "retired" }
}

/// A side of a link, seen along the link: `L` or `R`.
pub fn link_side_text(side: LinkSide) -> &'static str
    ensures { result.now ≡ link_side_text side }
{
    match side {
        LinkSide::Left => "L",
        LinkSide::Right => "R",
    }
}

fn write_reason<W: Write>(writer: &mut W, gone: &Gone) -> io::Result<()>
    ensures { OnOk result (Appends (W.contents writer.old) (W.contents writer.new)
        (reason_part gone.now)) }
{
    let reason = reason_text(gone.abandoned);
    let asset = gone.part.asset;
    write!(writer, "{reason},{asset},")
}

fn write_class_of<W: Write>(writer: &mut W, asset: Option<&Asset>) -> io::Result<()>
    ensures { OnOk result (Appends (W.contents writer.old) (W.contents writer.new)
        (class_part (option_map (λ a. a.now) asset.entry))) }
{
    match asset {
        Some(asset) => {
            let class = asset.class;
            let value = asset.value;
            write!(writer, "{class},{value},")
        }
        None => writer.write_all(b",,"),
    }
}

/// Writes the link, the millimetres from and to, the side of a part, and the end of its line.
pub(crate) fn write_ground<W: Write>(writer: &mut W, part: &Part) -> io::Result<()>
    ensures { OnOk result (Appends (W.contents writer.old) (W.contents writer.new)
        (ground_part part.now)) }
{
    let link = part.link;
    let from = part.from;
    let to = part.to;
    let side = link_side_text(part.side);
    writeln!(writer, "{link},{from},{to},{side}")
}

/// Writes the line of a part of a known asset, or of none.
fn write_part_of<W: Write>(
    writer: &mut W,
    edits: &[Edit],
    asset: Option<&Asset>,
    gone: &Gone,
) -> io::Result<()>
    ensures { OnOk result (Appends (W.contents writer.old) (W.contents writer.new)
        (gone_line_with (edit_numbered edits.now gone.now.part.edit)
        (option_map (λ a. a.now) asset.entry) gone.now)) }
{
    write_numbered(writer, edits, gone.part.edit)?;
    write_reason(writer, gone)?;
    write_class_of(writer, asset)?;
    write_ground(writer, &gone.part)
}

/// Writes the line of a part of a known asset, or of none, where the part is asked for.
fn write_part_if<W: Write>(
    writer: &mut W,
    wanted: &GoneWanted,
    edits: &[Edit],
    asset: Option<&Asset>,
    gone: &Gone,
) -> io::Result<()>
    ensures { OnOk result (Appends (W.contents writer.old) (W.contents writer.new)
        (gone_line_if wanted.now (edit_numbered edits.now gone.now.part.edit)
        (option_map (λ a. a.now) asset.entry) gone.now)) }
{
    if is_gone_wanted(wanted, asset, gone) {
        return write_part_of(writer, edits, asset, gone);
    }
    Ok(())
}

fn write_part<W: Write>(
    writer: &mut W,
    kept: &ImageLists,
    wanted: &GoneWanted,
    gone: &Gone,
) -> io::Result<()>
    requires sound { IsSound (image_of kept.now) }
    ensures { OnOk result (Appends (W.contents writer.old) (W.contents writer.new)
        (gone_line_of wanted.now (image_of kept.now) gone.now)) }
{
    let asset = asset_numbered(&kept.assets, gone.part.asset);
    write_part_if(writer, wanted, kept.edits.as_slice(), asset, gone)
}

fn write_each_part<W: Write>(
    writer: &mut W,
    kept: &ImageLists,
    wanted: &GoneWanted,
    ledger: &[Gone],
) -> io::Result<()>
    requires sound { IsSound (image_of kept.now) }
    ensures { OnOk result (Appends (W.contents writer.old) (W.contents writer.new)
        (flat_map (gone_line_of wanted.now (image_of kept.now)) ledger.now)) }
{
    for gone in ledger {
        write_part(writer, kept, wanted, gone)?;
    }
    Ok(())
}

/// Writes each part that is gone and is asked for, in the order of the ledger: by edit, reason, asset, link, start and side. The
/// header says what a line has: `edit,key,verb,reason,asset,class,value,link,from,to,side`. Key and verb are those of the edit,
/// and the reason is `retired` or `abandoned`; from and to are millimetres of the link, and the side is `L` or `R`, seen along
/// the link. It takes no memory beyond the writer's, and does not flush the writer.
///
/// # Errors
/// That of the writer. Part of the list may be written then. An edit that is not known took nothing away.
pub fn write_gone<W: Write>(
    writer: &mut W,
    kept: &ImageLists,
    wanted: &GoneWanted,
) -> io::Result<()>
    requires sound { IsSound (image_of kept.now) }
    ensures { OnOk result (Appends (W.contents writer.old) (W.contents writer.new)
        (gone_text wanted.now (image_of kept.now))) }
{
    writer.write_all(b"edit,key,verb,reason,asset,class,value,link,from,to,side\n")?;
    write_each_part(writer, kept, wanted, kept.gone.as_slice())
}
