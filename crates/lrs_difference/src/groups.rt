//! The groups of a difference, and those that are lists of an image.

ghost use Rattle.std.specs.Prelude.{OnOk};
ghost use Rattle.std.specs.Io.KnownBytes.{Appends};
ghost use Rattle.lrs_machine.specs.Sound.{IsSound};
ghost use Rattle.lrs_image.specs.OpenLists.{image_of};
ghost use Rattle.lrs_difference.specs.Text.{DifferenceIsItsGroups, group_text, groups_text, listed_groups};

use crate::merge::write_between;
use crate::referent_list::referents_by_name;
use lrs_image::ImageLists;
use std::alloc::Global;
use std::io;
use std::io::Write;

/// Writes the lines of links.
pub(crate) fn write_links<W: Write>(
    writer: &mut W,
    before: &ImageLists,
    after: &ImageLists,
) -> io::Result<()>
    requires before { IsSound (image_of before.now) }
    requires after { IsSound (image_of after.now) }
    ensures { OnOk result (Appends (W.contents writer.old) (W.contents writer.new)
        (group_text 0 (image_of before.now) (image_of after.now))) }
{
    write_between(writer, &before.links, &after.links)
}

/// Writes the lines of classes.
pub(crate) fn write_classes<W: Write>(
    writer: &mut W,
    before: &ImageLists,
    after: &ImageLists,
) -> io::Result<()>
    requires before { IsSound (image_of before.now) }
    requires after { IsSound (image_of after.now) }
    ensures { OnOk result (Appends (W.contents writer.old) (W.contents writer.new)
        (group_text 1 (image_of before.now) (image_of after.now))) }
{
    write_between(writer, &before.classes, &after.classes)
}

/// Writes the lines of routes.
pub(crate) fn write_routes<W: Write>(
    writer: &mut W,
    before: &ImageLists,
    after: &ImageLists,
) -> io::Result<()>
    requires before { IsSound (image_of before.now) }
    requires after { IsSound (image_of after.now) }
    ensures { OnOk result (Appends (W.contents writer.old) (W.contents writer.new)
        (group_text 2 (image_of before.now) (image_of after.now))) }
{
    write_between(writer, &before.routes, &after.routes)
}

/// Writes the lines of referents. It takes memory for the referents of both, and gives it back.
pub(crate) fn write_referents<W: Write>(
    alloc: Global,
    writer: &mut W,
    before: &ImageLists,
    after: &ImageLists,
) -> io::Result<()>
    requires before { IsSound (image_of before.now) }
    requires after { IsSound (image_of after.now) }
    ensures { OnOk result (Appends (W.contents writer.old) (W.contents writer.new)
        (group_text 3 (image_of before.now) (image_of after.now))) }
{
    let left = referents_by_name(alloc, before)?;
    let right = referents_by_name(alloc, after)?;
    write_between(writer, &left, &right)
}

/// Writes the lines of assets.
pub(crate) fn write_assets<W: Write>(
    writer: &mut W,
    before: &ImageLists,
    after: &ImageLists,
) -> io::Result<()>
    requires before { IsSound (image_of before.now) }
    requires after { IsSound (image_of after.now) }
    ensures { OnOk result (Appends (W.contents writer.old) (W.contents writer.new)
        (group_text 4 (image_of before.now) (image_of after.now))) }
{
    write_between(writer, &before.assets, &after.assets)
}

/// Writes the lines of the difference of two inventories that tell of links, classes, routes, referents and assets, and not
/// those of what assets hold: by kind in this order, then by number or name, and of two with one key the removed one first.
///
/// It takes memory for the referents of both, and gives it back. It does not flush the writer.
///
/// # Errors
/// That of the writer, and `OutOfMemory` when memory runs out. Part of the lines may be written then.
pub fn write_listed_differences<W: Write>(
    alloc: Global,
    writer: &mut W,
    before: &ImageLists,
    after: &ImageLists,
) -> io::Result<()>
    requires before { IsSound (image_of before.now) }
    requires after { IsSound (image_of after.now) }
    ensures { OnOk result (Appends (W.contents writer.old) (W.contents writer.new)
        (groups_text listed_groups (image_of before.now) (image_of after.now))) }
{
    write_links(writer, before, after)?;
    write_classes(writer, before, after)?;
    write_routes(writer, before, after)?;
    write_referents(alloc, writer, before, after)?;
    write_assets(writer, before, after)
}

/// The text of a difference is that of its groups, one behind the other.
pub fn a_difference_is_its_groups()
    ensures { DifferenceIsItsGroups }
{}
