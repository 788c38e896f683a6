//! The lengths of values on one route, or on all.

ghost use Rattle.std.specs.Prelude.{IfOk};
ghost use Rattle.std.specs.Option.{option_map};
ghost use Rattle.lrs_machine.specs.Sound.{IsSound};
ghost use Rattle.lrs_image.specs.OpenLists.{image_of};
ghost use Rattle.lrs_report_lists.specs.Length.Lengths.{AreLengths};

use crate::length_lists::entries::wanted_entries;
use crate::length_lists::order::sort;
use crate::length_lists::table::{ValueLength, table_of};
use lrs_image::ImageLists;
use lrs_measure::Rows;
use lrs_position::RouteName;
use std::alloc::{AllocError, Global};

/// The lengths in millimetres of each class and value, by class and then by value, on one route or on all, and how many assets of
/// the class and the value have a row there: each asset once, however many rows it has. A class and a value that hold nothing
/// there are not among them. A point counts as the one millimetre that it holds. There are none on a route that is not known.
///
/// # Errors
/// When memory runs out.
pub fn lengths(
    alloc: Global,
    kept: &ImageLists,
    route: Option<&RouteName>,
) -> Result<Rows<ValueLength>, AllocError>
    requires sound { IsSound (image_of kept.now) }
    ensures { IfOk result (AreLengths (option_map (λ r. r.now) route.entry) (image_of kept.now)) }
{
    let mut entries = wanted_entries(alloc, &kept.assets, &kept.routes, route)?;
    sort(&mut entries);
    table_of(alloc, &entries)
}
