//! What assets hold in one inventory alone, and the whole difference.

ghost use Rattle.std.specs.Prelude.{◌≡◌, ◌++◌, true, map, OnOk, IfOk};
ghost use Rattle.std.specs.List.{flat_map};
ghost use Rattle.std.specs.Io.KnownBytes.{Appends};
ghost use Rattle.lrs_measure.specs.Lists.{each_two};
ghost use Rattle.lrs_machine.specs.Image.{state_of};
ghost use Rattle.lrs_machine.specs.Sound.{IsSound, asset_before};
ghost use Rattle.lrs_image.specs.OpenLists.{image_of};
ghost use Rattle.lrs_difference.specs.Difference.{stretches};
ghost use Rattle.lrs_difference.specs.HeldRows.{held_item, known_row};
ghost use Rattle.lrs_difference.specs.Text.{difference_text, group_text};

use crate::alone::held_alone;
use crate::entries::facts_of;
use crate::groups::write_listed_differences;
use crate::held_rows::{HeldRow, write_rows};
use crate::link_stretches::{HeldStretch, held_stretches};
use lrs_events::Asset;
use lrs_image::ImageLists;
use lrs_ordered::Chunked;
use lrs_report_lists::asset_numbered;
use std::alloc::{AllocError, Global};
use std::io;
use std::io::Write;

/// Adds a stretch with what is known of its asset.
fn push_known(
    rows: &mut Chunked<HeldRow>,
    assets: &Chunked<Asset>,
    held: &HeldStretch,
) -> Result<(), AllocError>
    requires order { each_two asset_before assets.now.rows ≡ true }
    ensures { OnOk result (rows.new.rows ≡ rows.old.rows
        ++ known_row assets.now.rows held.now) }
{
    match asset_numbered(assets, held.asset) {
        Some(asset) => {
            let asset = facts_of(asset);
            let stretch = held.stretch;
            rows.push(HeldRow { asset, stretch })
        }
        None => Ok(()),
    }
}

/// Stretches with what is known of their assets.
fn known_rows(
    alloc: Global,
    assets: &Chunked<Asset>,
    held: &[HeldStretch],
) -> Result<Chunked<HeldRow>, AllocError>
    requires order { each_two asset_before assets.now.rows ≡ true }
    ensures { IfOk result (λ rows. rows.rows ≡ flat_map (known_row assets.now.rows) held.now) }
{
    let mut rows = Chunked::new(alloc);
    for stretch in held {
        push_known(&mut rows, assets, stretch)?;
    }
    Ok(rows)
}

/// What assets hold in one inventory and not in another, by asset, link and start.
///
/// # Errors
/// When memory runs out.
pub fn only_held(
    alloc: Global,
    one: &ImageLists,
    other: &ImageLists,
) -> Result<Chunked<HeldRow>, AllocError>
    requires sound { IsSound (image_of one.now) }
    ensures { IfOk result (λ rows. map held_item rows.rows
        ≡ stretches (state_of (image_of one.now)) (state_of (image_of other.now))) }
{
    let left = held_stretches(alloc, one)?;
    let right = held_stretches(alloc, other)?;
    let alone = held_alone(alloc, &left, &right)?;
    known_rows(alloc, &one.assets, &alone)
}

/// Writes the lines of what assets hold. It takes memory for what both hold, and gives it back.
fn write_held_differences<W: Write>(
    alloc: Global,
    writer: &mut W,
    before: &ImageLists,
    after: &ImageLists,
) -> io::Result<()>
    requires before { IsSound (image_of before.now) }
    requires after { IsSound (image_of after.now) }
    ensures { OnOk result (Appends (W.contents writer.old) (W.contents writer.new)
        (group_text 5 (image_of before.now) (image_of after.now))) }
{
    let left = only_held(alloc, before, after)?;
    let right = only_held(alloc, after, before)?;
    write_rows(writer, &left, &right)
}

/// Writes the difference of two inventories, line by line: by kind, and of each kind by key, and of two with one key the
/// removed one first.
///
/// It takes memory for the referents and for what assets hold in both, and gives it back. It does not flush the writer.
///
/// # Errors
/// That of the writer, and `OutOfMemory` when memory runs out. Part of the lines may be written then.
pub fn write_difference<W: Write>(
    alloc: Global,
    writer: &mut W,
    before: &ImageLists,
    after: &ImageLists,
) -> io::Result<()>
    requires before { IsSound (image_of before.now) }
    requires after { IsSound (image_of after.now) }
    ensures { OnOk result (Appends (W.contents writer.old) (W.contents writer.new)
        (difference_text (image_of before.now) (image_of after.now))) }
{
    write_listed_differences(alloc, writer, before, after)?;
    write_held_differences(alloc, writer, before, after)
}
