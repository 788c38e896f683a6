//! The routes with all that lies on them.

ghost use Rattle.std.specs.Prelude.{◌≡◌, map, true, IfOk};
ghost use Rattle.std.specs.List.{list_all};
ghost use Rattle.lrs_machine.specs.Sound.{are_links, are_classes, are_assets, are_courses};
ghost use Rattle.lrs_image_sound.specs.Tables.{fits_route, route_courses};
ghost use Rattle.lrs_store_tables.specs.StoredRows.{piece_in, mark_in, ref_in, span_in};
ghost use Rattle.lrs_store_image.specs.TableReadings.{Reads};
ghost use Rattle.lrs_store_image.specs.Readings.{entries_read};

use crate::registers::Named;
use crate::routes::{courses, measured, routes, spans};
use lrs_image::LoadFault;
use lrs_machine::RouteRow;
use lrs_measure::Rows;
use lrs_store_tables::stored_rows::RouteRows;
use std::alloc::Global;

/// The routes in the order of their names, with their courses, marks, referents and spans. The rows of a table
/// are dropped before those of the next are read.
///
/// # Errors
/// When one of their tables is unsound, or memory runs out.
pub(crate) fn read_entries(
    alloc: Global,
    named: &Named,
    rows: RouteRows,
) -> Result<Rows<RouteRow>, LoadFault>
    requires links { are_links named.now.links ≡ true }
    requires classes { are_classes named.now.classes ≡ true }
    requires assets { are_assets named.now.classes named.now.assets ≡ true }
    ensures entries { Reads (entries_read named.now (map piece_in rows.piece.items)
        (map mark_in rows.mark.items) (map ref_in rows.referent.items)
        (map span_in rows.span.items)) result }
    ensures courses { IfOk result (λ entries. are_courses named.now.links (route_courses entries)
        ≡ true) }
    ensures spans { IfOk result (λ entries. list_all (fits_route named.now.assets) entries ≡ true) }
{
    let courses = courses(alloc, named.links.as_slice(), rows.piece)?;
    let measured = measured(alloc, rows.mark, courses)?;
    let routes = routes(alloc, rows.referent, measured)?;
    let classes = named.classes.as_slice();
    let assets = named.assets.as_slice();
    spans(alloc, classes, assets, rows.span, routes)
}
