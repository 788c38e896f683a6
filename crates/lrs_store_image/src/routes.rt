//! The tables of routes, each read beside the tables before it.

ghost use Rattle.std.specs.Prelude.{◌≡◌, List, map, true, IfOk};
ghost use Rattle.lrs_measure.specs.Lists.{each_two};
ghost use Rattle.lrs_element.specs.declared.link.Link.{Link as DeclaredLink};
ghost use Rattle.lrs_machine.specs.Sound.{are_links, are_courses, class_before, asset_before};
ghost use Rattle.lrs_machine.specs.declared.table.Table.TheVariants as table;
ghost use Rattle.lrs_store_tables.specs.Contents.Content.{read, courses_of, measured_of, routes_of, entries_of};
ghost use Rattle.lrs_store_tables.specs.StoredRows.{piece_in, mark_in, ref_in, span_in};
ghost use Rattle.lrs_store_image.specs.TableReadings.{Reads};
ghost use Rattle.lrs_store_image.specs.DecodedRoutes.Marks.{are_route_courses, courses_of_measured, are_all_measured};
ghost use Rattle.lrs_store_image.specs.DecodedRoutes.Referents.{are_all_referred, courses_of_routes};
ghost use Rattle.lrs_store_image.specs.DecodedRoutes.Spans.{named_before, courses_over, are_sound};

use crate::fault::as_loaded;
use crate::{Measured, RouteCourse, cells, read_courses, read_marks, read_referents, read_spans};
use lrs_element::Link;
use lrs_events::{Asset, Class};
use lrs_image::LoadFault;
use lrs_machine::RouteRow;
use lrs_measure::Rows;
use lrs_position::Route;
use sqlite::Row;
use std::alloc::Global;

/// The courses of routes in the order of their names.
///
/// # Errors
/// When the table of pieces is unsound, or memory runs out.
pub(crate) fn courses(
    alloc: Global,
    links: &[Link],
    rows: Vec<Row>,
) -> Result<Rows<RouteCourse>, LoadFault>
    requires links { are_links links.now ≡ true }
    ensures courses { Reads (read table.Piece (courses_of (map piece_in rows.items))
        (are_courses links.now)) result }
    ensures fit { IfOk result (λ courses. are_route_courses courses ≡ true) }
{
    let cells = cells::pieces(alloc, rows.as_slice())?;
    as_loaded(read_courses(alloc, links, &cells))
}

/// The routes with their marks.
///
/// # Errors
/// When the table of marks is unsound, or memory runs out.
pub(crate) fn measured(
    alloc: Global,
    rows: Vec<Row>,
    courses: Rows<RouteCourse>,
) -> Result<Rows<Measured>, LoadFault>
    requires courses { are_route_courses courses ≡ true }
    ensures measured { Reads (read table.Mark (measured_of
        (map mark_in rows.items) courses) are_all_measured) result }
    ensures courses { IfOk result (λ measured. courses_of_measured measured ≡ courses) }
    ensures marks { IfOk result (λ measured. are_all_measured measured ≡ true) }
{
    let cells = cells::marks(alloc, rows.as_slice())?;
    as_loaded(read_marks(alloc, &cells, courses.into_vec()))
}

/// The routes with their referents.
///
/// # Errors
/// When the table of referents is unsound, or memory runs out.
pub(crate) fn routes(
    alloc: Global,
    rows: Vec<Row>,
    measured: Rows<Measured>,
) -> Result<Rows<Route>, LoadFault>
    requires courses { are_route_courses (courses_of_measured measured) ≡ true }
    requires marks { are_all_measured measured ≡ true }
    ensures routes { Reads (read table.Ref (routes_of
        (map ref_in rows.items) measured) are_all_referred) result }
    ensures courses { IfOk result (λ routes. courses_of_routes routes
        ≡ courses_of_measured measured) }
{
    let cells = cells::referents(alloc, rows.as_slice())?;
    as_loaded(read_referents(alloc, &cells, measured.into_vec()))
}

/// The routes with their spans.
///
/// # Errors
/// When the table of spans is unsound, or memory runs out.
pub(crate) fn spans(
    alloc: Global,
    classes: &[Class],
    assets: &[Asset],
    rows: Vec<Row>,
    routes: Rows<Route>,
) -> Result<Rows<RouteRow>, LoadFault>
    requires classes { each_two class_before classes.now ≡ true }
    requires assets { each_two asset_before assets.now ≡ true }
    requires routes { each_two named_before routes ≡ true }
    ensures entries { (links : List DeclaredLink) → are_courses links (courses_over routes) ≡ true
        → Reads (read table.Span (entries_of assets.now (map span_in rows.items) routes)
        (are_sound links classes.now assets.now)) result }
{
    let cells = cells::spans(alloc, rows.as_slice())?;
    as_loaded(read_spans(alloc, classes, assets, &cells, routes.into_vec()))
}
