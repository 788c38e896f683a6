//! What the stored rows of a table give: each says something, and together they pass the table's test.

ghost use Rattle.std.specs.Prelude.{◌≡◌, [], ◌∷◌, ◌&&◌, map, length, nat_eq, true};
ghost use Rattle.std.specs.List.{list_all};
ghost use Rattle.lrs_measure.specs.Lists.{each_two, is_from_to};
ghost use Rattle.lrs_events.specs.Parts.{part_before};
ghost use Rattle.lrs_machine.specs.Sound.{link_before, are_links, class_before, are_classes, asset_before, are_assets, are_courses, are_entered, gone_before, are_gone, are_edits, are_origins};
ghost use Rattle.lrs_machine.specs.declared.table.Table.TheVariants as table;
ghost use Rattle.lrs_image_sound.specs.Tables.{fits_route, route_courses, route_spans};
ghost use Rattle.lrs_store_tables.specs.Contents.Decoders.{each_sorted, link_of, class_of, asset_of, part_of, gone_of, origin_of};
ghost use Rattle.lrs_store_tables.specs.Contents.Content.{read, edits_of, version_of, origin_before, has_origins};
ghost use Rattle.lrs_store_tables.specs.StoredRows.{link_in, class_in, asset_in, entered_in, gone_in, edit_in, version_in, origin_in};
ghost use Rattle.lrs_store_image.specs.TableReadings.{Reads};

use crate::edits::all_said;
use crate::origins::Origin;
use crate::table_fault::as_read;
use crate::tests;
use lrs_element::Link;
use lrs_events::{Asset, Class, Gone, Part};
use lrs_image::LoadFault;
use lrs_machine::{Edit, RouteRow, Table};
use lrs_measure::Rows;
use lrs_store_tables::decode::{number_at, said_all};
use sqlite::Row;
use std::alloc::Global;

/// The links of rows, in order.
///
/// # Errors
/// When the table is unsound, or memory runs out.
pub fn links(alloc: Global, rows: &[Row]) -> Result<Rows<Link>, LoadFault>
    ensures { Reads (read table.Link (each_sorted link_before link_of
        (map link_in rows.now)) are_links) result }
{
    let Some(found) = said_all::<Link>(alloc, rows)? else {
        return Err(LoadFault::Unsound(Table::Link));
    };
    as_read(tests::links(found))
}

/// The classes of rows, in order.
///
/// # Errors
/// When the table is unsound, or memory runs out.
pub fn classes(alloc: Global, rows: &[Row]) -> Result<Rows<Class>, LoadFault>
    ensures { Reads (read table.Class (each_sorted class_before class_of
        (map class_in rows.now)) are_classes) result }
{
    let Some(found) = said_all::<Class>(alloc, rows)? else {
        return Err(LoadFault::Unsound(Table::Class));
    };
    as_read(tests::classes(found))
}

/// The assets of rows, in order. Which edit entered an asset its row does not tell.
///
/// # Errors
/// When the table is unsound, or memory runs out.
pub fn assets(alloc: Global, classes: &[Class], rows: &[Row]) -> Result<Rows<Asset>, LoadFault>
    requires { are_classes classes.now ≡ true }
    ensures { Reads (read table.Asset (each_sorted asset_before asset_of (map asset_in rows.now))
        (are_assets classes.now)) result }
{
    let Some(found) = said_all::<Asset>(alloc, rows)? else {
        return Err(LoadFault::Unsound(Table::Asset));
    };
    as_read(tests::assets(classes, found))
}

/// What was entered, in order.
///
/// # Errors
/// When the table is unsound, or memory runs out.
pub fn entered(
    alloc: Global,
    links: &[Link],
    assets: &[Asset],
    rows: &[Row],
) -> Result<Rows<Part>, LoadFault>
    requires links { are_links links.now ≡ true }
    requires assets { each_two asset_before assets.now ≡ true }
    ensures { Reads (read table.Entered (each_sorted part_before part_of (map entered_in rows.now))
        (are_entered links.now assets.now)) result }
{
    let Some(found) = said_all::<Part>(alloc, rows)? else {
        return Err(LoadFault::Unsound(Table::Entered));
    };
    tests::entered(alloc, links, assets, found)
}

/// What is gone, in order.
///
/// # Errors
/// When the table is unsound, or memory runs out.
pub fn gone(
    alloc: Global,
    links: &[Link],
    assets: &[Asset],
    routes: &[RouteRow],
    entered: &[Part],
    rows: &[Row],
) -> Result<Rows<Gone>, LoadFault>
    requires links { are_links links.now ≡ true }
    requires assets { each_two asset_before assets.now ≡ true }
    requires courses { are_courses links.now (route_courses routes.now) ≡ true }
    requires spans { list_all (fits_route assets.now) routes.now ≡ true }
    requires entered { are_entered links.now assets.now entered.now ≡ true }
    ensures { Reads (read table.Gone (each_sorted gone_before gone_of (map gone_in rows.now))
        (are_gone links.now assets.now (route_spans routes.now) entered.now)) result }
{
    let Some(found) = said_all::<Gone>(alloc, rows)? else {
        return Err(LoadFault::Unsound(Table::Gone));
    };
    tests::gone(alloc, links, assets, routes, entered, found)
}

/// The edits of rows, in order. The rows are dropped before the edits are put in order, since both have their texts.
///
/// # Errors
/// When the table is unsound, or memory runs out.
pub fn edits(
    alloc: Global,
    entered: &[Part],
    gone: &[Gone],
    rows: Vec<Row>,
) -> Result<Rows<Edit>, LoadFault>
    ensures { Reads (read table.Edit (edits_of (map edit_in rows.items))
        (are_edits entered.now gone.now)) result }
{
    let Some(found) = all_said(alloc, rows.as_slice())? else {
        return Err(LoadFault::Unsound(Table::Edit));
    };
    drop(rows);
    tests::edits(alloc, entered, gone, found)
}

fn is_version(version: u64) -> bool
    ensures { result ≡ is_from_to 1 2 version }
{
    1 <= version && version <= 2
}

/// The version that a row says.
fn version_in(row: &Row) -> Option<u64>
    ensures { result ≡ version_of (version_in row.now ∷ []) }
{
    let version = number_at(row, 0)?;
    if !is_version(version) {
        return None;
    }
    Some(version)
}

fn is_one(rows: &[Row]) -> bool
    ensures { result ≡ nat_eq (length rows.now) 1 }
{
    rows.len() == 1
}

/// The version that the rows of its table say.
///
/// # Errors
/// When the table is unsound.
pub fn version(rows: &[Row]) -> Result<u64, Table>
    ensures { result ≡ read table.Version (version_of (map version_in rows.now)) (λ v. true) }
{
    if !is_one(rows) {
        return Err(Table::Version);
    }
    match version_in(&rows[0]) {
        Some(version) => Ok(version),
        None => Err(Table::Version),
    }
}

/// The origins of rows, in order.
///
/// # Errors
/// When the table is unsound, or memory runs out.
pub fn origins(
    alloc: Global,
    version: u64,
    assets: &[Asset],
    entered: &[Part],
    rows: &[Row],
) -> Result<Rows<Origin>, LoadFault>
    requires { each_two asset_before assets.now ≡ true }
    ensures { Reads (read table.Origin (each_sorted origin_before origin_of
        (map origin_in rows.now)) (λ os. are_origins entered.now assets.now
        && has_origins version assets.now os)) result }
{
    let Some(found) = said_all::<Origin>(alloc, rows)? else {
        return Err(LoadFault::Unsound(Table::Origin));
    };
    tests::origins(alloc, version, assets, entered, found)
}
