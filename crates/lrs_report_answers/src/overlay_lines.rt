//! The list of the values of exclusive classes side by side.

ghost use Rattle.std.specs.Prelude.{◌≡◌, ◌∷◌, false, OnOk, Some, map};
ghost use Rattle.std.specs.List.{flat_map};
ghost use Rattle.std.specs.Io.KnownBytes.{Appends};
ghost use Rattle.std.specs.IoError.{error_kind};
ghost use Rattle.lrs_measure.specs.Lists.{In};
ghost use Rattle.lrs_report.specs.Sweep.{run_of};
ghost use Rattle.lrs_report_lists.specs.Lists.{routes_named};
ghost use Rattle.lrs_report_lists.specs.Measures.{measure_field};
ghost use Rattle.lrs_report_answers.specs.Overlay.{line_if_wanted, next_fields, overlay_header, overlay_line, overlay_of, overlay_on, overlay_text, refused_kind, segment_place, value_field};

use crate::overlay::{is_segment_wanted, overlay_segments};
use crate::segmentation::RouteSegments;
use lrs_events::{ClassName, LinkSide, Value};
use lrs_inventory::Inventory;
use lrs_machine::{OverlayWanted, RouteRow, SegFault, Segment};
use lrs_measure::Metres;
use lrs_position::{Route, RouteName};
use lrs_report_lists::{link_side_text, thousandths_on};
use std::alloc::Global;
use std::io;
use std::io::{ErrorKind, Write};

/// Writes a comma and then a field.
fn write_next<W: Write>(writer: &mut W, field: &[u8]) -> io::Result<()>
    ensures { OnOk result (Appends (W.contents writer.old) (W.contents writer.new)
        (44 ∷ field.now)) }
{
    writer.write_all(b",")?;
    writer.write_all(field)
}

fn write_names<W: Write>(writer: &mut W, classes: &[ClassName]) -> io::Result<()>
    ensures { OnOk result (Appends (W.contents writer.old) (W.contents writer.new)
        (next_fields classes.now)) }
{
    for class in classes {
        write_next(writer, class.bytes())?;
    }
    Ok(())
}

fn write_header<W: Write>(writer: &mut W, classes: &[ClassName]) -> io::Result<()>
    ensures { OnOk result (Appends (W.contents writer.old) (W.contents writer.new)
        (overlay_header classes.now)) }
{
    writer.write_all(b"route,from,to,from_measure,to_measure,side")?;
    write_names(writer, classes)?;
    writer.write_all(b"\n")
}

/// Writes a comma, and then a value if there is one.
fn write_value<W: Write>(writer: &mut W, value: Option<Value>) -> io::Result<()>
    ensures { OnOk result (Appends (W.contents writer.old) (W.contents writer.new)
        (44 ∷ value_field value)) }
{
    match value {
        Some(value) => write_next(writer, value.bytes()),
        None => writer.write_all(b","),
    }
}

fn write_values<W: Write>(writer: &mut W, values: &[Option<Value>]) -> io::Result<()>
    ensures { OnOk result (Appends (W.contents writer.old) (W.contents writer.new)
        (next_fields (map value_field values.now))) }
{
    for value in values {
        write_value(writer, *value)?;
    }
    Ok(())
}

/// Writes a comma, and then the measure at a chainage of a route as a decimal with three places; none behind the route.
fn write_measure<W: Write>(writer: &mut W, route: &Route, chainage: u64) -> io::Result<()>
    ensures { OnOk result (Appends (W.contents writer.old) (W.contents writer.new)
        (44 ∷ measure_field false route.now.marks chainage)) }
{
    match thousandths_on(route, chainage) {
        Some(count) => {
            let measure = Metres::new(count);
            write!(writer, ",{measure}")
        }
        None => writer.write_all(b","),
    }
}

fn write_place<W: Write>(writer: &mut W, route: &Route, segment: &Segment) -> io::Result<()>
    ensures { OnOk result (Appends (W.contents writer.old) (W.contents writer.new)
        (segment_place route.now segment.now)) }
{
    let from = segment.from;
    let to = segment.to;
    writer.write_all(route.name.bytes())?;
    write!(writer, ",{from},{to}")?;
    write_measure(writer, route, from)?;
    write_measure(writer, route, to)
}

/// Writes the line of a segment of a route.
fn write_segment<W: Write>(
    writer: &mut W,
    route: &Route,
    side: LinkSide,
    segment: &Segment,
) -> io::Result<()>
    ensures { OnOk result (Appends (W.contents writer.old) (W.contents writer.new)
        (overlay_line route.now side (run_of segment.now))) }
{
    write_place(writer, route, segment)?;
    write_next(writer, link_side_text(side).as_bytes())?;
    write_values(writer, segment.values.as_slice())?;
    writer.write_all(b"\n")
}

/// Writes the line of a segment where it is asked for.
fn write_if_wanted<W: Write>(
    writer: &mut W,
    wanted: &OverlayWanted,
    route: &Route,
    side: LinkSide,
    segment: &Segment,
) -> io::Result<()>
    ensures { OnOk result (Appends (W.contents writer.old) (W.contents writer.new)
        (line_if_wanted wanted.now route.now side segment.now)) }
{
    if is_segment_wanted(wanted, segment) {
        return write_segment(writer, route, side, segment);
    }
    Ok(())
}

/// Writes the lines of the segments of a route that are asked for, which are made one by one.
fn write_each<W: Write>(
    writer: &mut W,
    wanted: &OverlayWanted,
    route: &Route,
    side: LinkSide,
    mut segments: RouteSegments<'_>,
) -> io::Result<()>
    ensures { OnOk result (Appends (W.contents writer.old) (W.contents writer.new)
        (flat_map (line_if_wanted wanted.now route.now side) segments.entry)) }
{
    while let Some(segment) = segments.first() {
        write_if_wanted(writer, wanted, route, side, segment)?;
        segments.pass();
    }
    Ok(())
}

/// The error of a writer whose segments are refused.
fn refused(fault: SegFault) -> io::Error
    ensures { error_kind result ≡ refused_kind fault }
{
    match fault {
        SegFault::Memory => io::Error::from(ErrorKind::OutOfMemory),
        SegFault::NoClass(_) | SegFault::NotExclusive(_) | SegFault::SideB => {
            io::Error::from(ErrorKind::InvalidInput)
        }
    }
}

fn write_on_side<W: Write>(
    alloc: Global,
    writer: &mut W,
    inventory: &Inventory,
    wanted: &OverlayWanted,
    route_row: &RouteRow,
    side: LinkSide,
) -> io::Result<()>
    requires known { In route_row.now inventory.now.routes }
    ensures { OnOk result (Appends (W.contents writer.old) (W.contents writer.new)
        (overlay_on inventory.now wanted.now route_row.now side)) }
{
    let classes = wanted.classes.as_slice();
    match overlay_segments(alloc, inventory, route_row, classes, side) {
        Ok(segments) => write_each(writer, wanted, &route_row.route, side, segments),
        Err(fault) => Err(refused(fault)),
    }
}

/// Writes the lines of a route, of the left side and then of the right one, or of the side that is asked for.
fn write_on_route<W: Write>(
    alloc: Global,
    writer: &mut W,
    inventory: &Inventory,
    wanted: &OverlayWanted,
    route_row: &RouteRow,
) -> io::Result<()>
    requires known { In route_row.now inventory.now.routes }
    ensures { OnOk result (Appends (W.contents writer.old) (W.contents writer.new)
        (overlay_of inventory.now wanted.now route_row.now)) }
{
    match wanted.side {
        Some(side) => write_on_side(alloc, writer, inventory, wanted, route_row, side),
        None => {
            write_on_side(alloc, writer, inventory, wanted, route_row, LinkSide::Left)?;
            write_on_side(alloc, writer, inventory, wanted, route_row, LinkSide::Right)
        }
    }
}

fn write_on_each<W: Write>(
    alloc: Global,
    writer: &mut W,
    inventory: &Inventory,
    wanted: &OverlayWanted,
) -> io::Result<()>
    ensures { OnOk result (Appends (W.contents writer.old) (W.contents writer.new)
        (flat_map (overlay_of inventory.now wanted.now) inventory.now.routes)) }
{
    for route_row in inventory.kept().routes.iter() {
        write_on_route(alloc, writer, inventory, wanted, route_row)?;
    }
    Ok(())
}

/// Writes the lines of the route of a name, if there is one.
fn write_on_named<W: Write>(
    alloc: Global,
    writer: &mut W,
    inventory: &Inventory,
    wanted: &OverlayWanted,
    name: &RouteName,
) -> io::Result<()>
    ensures { OnOk result (Appends (W.contents writer.old) (W.contents writer.new)
        (flat_map (overlay_of inventory.now wanted.now)
        (routes_named (Some name.now) inventory.now))) }
{
    inventory.prove_sound();
    match inventory.route(name) {
        Some(route_row) => write_on_route(alloc, writer, inventory, wanted, route_row),
        None => Ok(()),
    }
}

/// Writes the lines of the routes that are asked for. A route that is named is found by search.
fn write_on_asked<W: Write>(
    alloc: Global,
    writer: &mut W,
    inventory: &Inventory,
    wanted: &OverlayWanted,
) -> io::Result<()>
    ensures { OnOk result (Appends (W.contents writer.old) (W.contents writer.new)
        (flat_map (overlay_of inventory.now wanted.now)
        (routes_named wanted.now.route inventory.now))) }
{
    match &wanted.route {
        Some(name) => write_on_named(alloc, writer, inventory, wanted, name),
        None => write_on_each(alloc, writer, inventory, wanted),
    }
}

/// Writes the segments that are asked for, with the values of the classes side by side: by route, the left side and then the
/// right one, from the start of the route to its end:
/// `route,from,to,from_measure,to_measure,side`, and a column for each class in the order in which they are asked for.
///
/// From and to are chainages in millimetres, the measures there are decimals of three places, a half going up. The side is `L`
/// or `R`, seen along the route. A field is empty where the class has no value. A segment is not cut where the stretch that is
/// asked for begins or ends.
///
/// It takes memory for the columns of one route, which grows with the classes alone, and does not flush the writer.
///
/// # Errors
/// That of the writer; one of the kind `OutOfMemory` when memory runs out, and of the kind `InvalidInput` where a class is not
/// there or not exclusive. Part of the list may be written then. A route that is not known has no segments.
pub fn write_overlay<W: Write>(
    alloc: Global,
    writer: &mut W,
    inventory: &Inventory,
    wanted: &OverlayWanted,
) -> io::Result<()>
    ensures { OnOk result (Appends (W.contents writer.old) (W.contents writer.new)
        (overlay_text wanted.now inventory.now)) }
{
    write_header(writer, wanted.classes.as_slice())?;
    write_on_asked(alloc, writer, inventory, wanted)
}
