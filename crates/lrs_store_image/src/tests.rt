//! What the rows of a table say, in whatever order they were read: put in order, and tested beside the tables
//! before it.

ghost use Rattle.std.specs.Prelude.{◌≡◌, ◌&&◌, Some, true};
ghost use Rattle.std.specs.List.{list_all};
ghost use Rattle.lrs_measure.specs.Lists.{each_two};
ghost use Rattle.lrs_events.specs.Parts.{part_before};
ghost use Rattle.lrs_machine.specs.Sound.{link_before, are_links, class_before, are_classes, asset_before, are_assets, are_courses, are_entered, gone_before, are_gone, are_edits, are_origins};
ghost use Rattle.lrs_machine.specs.declared.table.Table.TheVariants as table;
ghost use Rattle.lrs_image_sound.specs.Tables.{fits_route, route_courses, route_spans};
ghost use Rattle.lrs_store_tables.specs.Contents.Decoders.{sorted, number_before, counted};
ghost use Rattle.lrs_store_tables.specs.Contents.Content.{read, origin_before, has_origins};
ghost use Rattle.lrs_store_image.specs.TableReadings.{Reads};

use crate::edits::{NumberedEdit, counted};
use crate::order::{
    sorted_assets, sorted_classes, sorted_edits, sorted_gone, sorted_links, sorted_origins,
    sorted_parts,
};
use crate::origins::{Origin, are_sound};
use lrs_element::Link;
use lrs_events::{Asset, Class, Gone, Part};
use lrs_image::LoadFault;
use lrs_machine::{Edit, RouteRow, Table};
use lrs_measure::Rows;
use std::alloc::Global;

/// The links in order, if the table of links is sound.
///
/// # Errors
/// When it is unsound.
pub fn links(found: Vec<Link>) -> Result<Rows<Link>, Table>
    ensures { result ≡ read table.Link (Some (sorted link_before found.items)) are_links }
{
    let links = sorted_links(found);
    if !lrs_image_sound::are_links(&links) {
        return Err(Table::Link);
    }
    Ok(Rows::from_vec(links))
}

/// The classes in order, if the table of classes is sound.
///
/// # Errors
/// When it is unsound.
pub fn classes(found: Vec<Class>) -> Result<Rows<Class>, Table>
    ensures { result ≡ read table.Class (Some (sorted class_before found.items)) are_classes }
{
    let classes = sorted_classes(found);
    if !lrs_image_sound::are_classes(&classes) {
        return Err(Table::Class);
    }
    Ok(Rows::from_vec(classes))
}

/// The assets in order, if the table of assets is sound beside these classes.
///
/// # Errors
/// When it is unsound.
pub fn assets(classes: &[Class], found: Vec<Asset>) -> Result<Rows<Asset>, Table>
    requires { are_classes classes.now ≡ true }
    ensures { result ≡ read table.Asset (Some (sorted asset_before found.items))
        (are_assets classes.now) }
{
    let assets = sorted_assets(found);
    if !lrs_image_sound::are_assets(classes, &assets) {
        return Err(Table::Asset);
    }
    Ok(Rows::from_vec(assets))
}

/// What was entered, in order, if the table of it is sound beside these links and assets.
///
/// # Errors
/// When it is unsound, or memory runs out.
pub fn entered(
    alloc: Global,
    links: &[Link],
    assets: &[Asset],
    found: Vec<Part>,
) -> Result<Rows<Part>, LoadFault>
    requires links { are_links links.now ≡ true }
    requires assets { each_two asset_before assets.now ≡ true }
    ensures { Reads (read table.Entered (Some (sorted part_before found.items))
        (are_entered links.now assets.now)) result }
{
    let entered = sorted_parts(found);
    let sound = lrs_image_sound::are_entered(alloc, links, assets, &entered)?;
    if !sound {
        return Err(LoadFault::Unsound(Table::Entered));
    }
    Ok(Rows::from_vec(entered))
}

/// What is gone, in order, if the table of it is sound beside these links, assets, routes and what was entered.
///
/// # Errors
/// When it is unsound, or memory runs out.
pub fn gone(
    alloc: Global,
    links: &[Link],
    assets: &[Asset],
    routes: &[RouteRow],
    entered: &[Part],
    found: Vec<Gone>,
) -> Result<Rows<Gone>, LoadFault>
    requires links { are_links links.now ≡ true }
    requires assets { each_two asset_before assets.now ≡ true }
    requires courses { are_courses links.now (route_courses routes.now) ≡ true }
    requires spans { list_all (fits_route assets.now) routes.now ≡ true }
    requires entered { are_entered links.now assets.now entered.now ≡ true }
    ensures { Reads (read table.Gone (Some (sorted gone_before found.items))
        (are_gone links.now assets.now (route_spans routes.now) entered.now)) result }
{
    let gone = sorted_gone(found);
    let sound = lrs_image_sound::are_gone(alloc, links, assets, routes, entered, &gone)?;
    if !sound {
        return Err(LoadFault::Unsound(Table::Gone));
    }
    Ok(Rows::from_vec(gone))
}

/// The edits in order, if the table of edits is sound beside both ledgers.
///
/// # Errors
/// When it is unsound, or memory runs out.
pub fn edits(
    alloc: Global,
    entered: &[Part],
    gone: &[Gone],
    found: Vec<NumberedEdit>,
) -> Result<Rows<Edit>, LoadFault>
    ensures { Reads (read table.Edit (counted 1 (sorted number_before found.items))
        (are_edits entered.now gone.now)) result }
{
    let sorted = sorted_edits(found);
    let Some(edits) = counted(alloc, sorted)? else {
        return Err(LoadFault::Unsound(Table::Edit));
    };
    let sound = lrs_image_sound::are_edits(alloc, entered, gone, &edits)?;
    if !sound {
        return Err(LoadFault::Unsound(Table::Edit));
    }
    Ok(Rows::from_vec(edits))
}

/// The origins in order, if the table of origins is sound in a store of this version beside these assets and
/// what was entered.
///
/// # Errors
/// When it is unsound, or memory runs out.
pub fn origins(
    alloc: Global,
    version: u64,
    assets: &[Asset],
    entered: &[Part],
    found: Vec<Origin>,
) -> Result<Rows<Origin>, LoadFault>
    requires assets { each_two asset_before assets.now ≡ true }
    ensures { Reads (read table.Origin (Some (sorted origin_before found.items)) (λ os.
        are_origins entered.now assets.now && has_origins version assets.now os)) result }
{
    let origins = sorted_origins(found);
    let sound = are_sound(alloc, version, assets, entered, &origins)?;
    if !sound {
        return Err(LoadFault::Unsound(Table::Origin));
    }
    Ok(Rows::from_vec(origins))
}
