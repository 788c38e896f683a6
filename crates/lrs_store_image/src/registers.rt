//! Links, classes and assets.

ghost use Rattle.std.specs.Prelude.{◌≡◌, map, true, IfOk};
ghost use Rattle.lrs_machine.specs.Sound.{are_links, are_classes, are_assets};
ghost use Rattle.lrs_store_tables.specs.StoredRows.{link_in, class_in, asset_in};
ghost use Rattle.lrs_store_image.specs.TableReadings.{Reads};
ghost use Rattle.lrs_store_image.specs.Readings.{named_read};

use crate::rows;
use lrs_element::Link;
use lrs_events::{Asset, Class};
use lrs_image::LoadFault;
use lrs_measure::Rows;
use sqlite::Row;
use std::alloc::Global;

/// What has a name or a number of its own. Which edit entered an asset is not told here.
#[derive(Drop)]
pub struct Named {
    pub links: Rows<Link>,
    pub classes: Rows<Class>,
    pub assets: Rows<Asset>,
}

/// The links, classes and assets of rows, each in its order.
///
/// # Errors
/// When one of their tables is unsound, or memory runs out.
pub(crate) fn read_named(
    alloc: Global,
    links: Vec<Row>,
    classes: Vec<Row>,
    assets: Vec<Row>,
) -> Result<Named, LoadFault>
    ensures named { Reads (named_read (map link_in links.items) (map class_in classes.items)
        (map asset_in assets.items)) result }
    ensures links { IfOk result (λ named. are_links named.links ≡ true) }
    ensures classes { IfOk result (λ named. are_classes named.classes ≡ true) }
    ensures assets { IfOk result (λ named. are_assets named.classes named.assets ≡ true) }
{
    let links = rows::links(alloc, links.as_slice())?;
    let classes = rows::classes(alloc, classes.as_slice())?;
    let assets = rows::assets(alloc, classes.as_slice(), assets.as_slice())?;
    Ok(Named {
        links,
        classes,
        assets,
    })
}
