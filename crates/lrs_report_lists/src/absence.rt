//! What a list is asked for, and the inventory does not have.

ghost use Rattle.std.specs.Prelude.{◌≡◌};
ghost use Rattle.lrs_machine.specs.Sound.{IsSound};
ghost use Rattle.lrs_image.specs.OpenLists.{image_of};
ghost use Rattle.lrs_report_lists.specs.Absence.{has_asset, has_class, has_edit, has_route, lacks, missing_row};

use crate::presence::{knows_asset, knows_class, knows_edit, knows_route};
use lrs_events::ClassName;
use lrs_image::ImageLists;
use lrs_machine::{Missing, RowsWanted};
use lrs_position::RouteName;

/// Whether a route is named, and there is none of the name.
pub fn lacks_route(kept: &ImageLists, route: Option<RouteName>) -> bool
    requires sound { IsSound (image_of kept.now) }
    ensures { result ≡ lacks (has_route (image_of kept.now)) route }
{
    match route {
        Some(name) => !knows_route(kept, &name),
        None => false,
    }
}

/// Whether a class is named, and there is none of the name.
pub fn lacks_class(kept: &ImageLists, class: Option<ClassName>) -> bool
    requires sound { IsSound (image_of kept.now) }
    ensures { result ≡ lacks (has_class (image_of kept.now)) class }
{
    match class {
        Some(name) => !knows_class(kept, &name),
        None => false,
    }
}

/// Whether an asset is named, and there is none of the number.
pub fn lacks_asset(kept: &ImageLists, asset: Option<u64>) -> bool
    requires sound { IsSound (image_of kept.now) }
    ensures { result ≡ lacks (has_asset (image_of kept.now)) asset }
{
    match asset {
        Some(number) => !knows_asset(kept, number),
        None => false,
    }
}

/// Whether an edit is named, and there is none of the number.
pub fn lacks_edit(kept: &ImageLists, edit: Option<u64>) -> bool
    ensures { result ≡ lacks (has_edit (image_of kept.now)) edit }
{
    match edit {
        Some(number) => !knows_edit(kept, number),
        None => false,
    }
}

/// The first of the things that are asked of rows, and are not there: the route, then the class, then the asset.
pub fn missing_row(kept: &ImageLists, wanted: &RowsWanted) -> Option<Missing>
    requires sound { IsSound (image_of kept.now) }
    ensures { result ≡ missing_row (image_of kept.now) wanted.now }
{
    if lacks_route(kept, wanted.route) {
        Some(Missing::Route)
    } else if lacks_class(kept, wanted.class) {
        Some(Missing::Class)
    } else if lacks_asset(kept, wanted.asset) {
        Some(Missing::Asset)
    } else {
        None
    }
}
