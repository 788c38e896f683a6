//! The list of routes.

ghost use Rattle.std.specs.Prelude.{◌≡◌, OnOk};
ghost use Rattle.std.specs.List.{flat_map};
ghost use Rattle.std.specs.Io.KnownBytes.{Appends};
ghost use Rattle.lrs_element.specs.Marks.{first_mark, last_mark};
ghost use Rattle.lrs_image.specs.OpenLists.{image_of};
ghost use Rattle.lrs_report_lists.specs.Lines.{route_line};
ghost use Rattle.lrs_report_lists.specs.Lists.{routes_text};

use lrs_element::Marks;
use lrs_image::ImageLists;
use lrs_machine::RouteRow;
use lrs_ordered::Chunked;
use lrs_position::Route;
use std::io;
use std::io::Write;

/// The measure at the start of a route with these marks.
fn first_measure(marks: &Marks) -> u64
    ensures { result ≡ (first_mark marks.now).measure }
{
    match marks.list() {
        [first, ..] => first.measure,
        [] => 0,
    }
}

/// The measure at its end.
fn last_measure(marks: &Marks) -> u64
    ensures { result ≡ (last_mark marks.now).measure }
{
    match marks.list() {
        [.., last] => last.measure,
        [] => 0,
    }
}

fn write_route<W: Write>(writer: &mut W, route: &Route) -> io::Result<()>
    ensures { OnOk result (Appends (W.contents writer.old) (W.contents writer.new)
        (route_line route.now)) }
{
    let length = route.length();
    let from = first_measure(&route.marks);
    let to = last_measure(&route.marks);
    writer.write_all(route.name.bytes())?;
    writeln!(writer, ",{length},{from},{to}")
}

fn write_each_route<W: Write>(writer: &mut W, routes: &Chunked<RouteRow>) -> io::Result<()>
    ensures { OnOk result (Appends (W.contents writer.old) (W.contents writer.new)
        (flat_map (λ e. route_line e.route) routes.now.rows)) }
{
    for route_row in routes.iter() {
        write_route(writer, &route_row.route)?;
    }
    Ok(())
}

/// Writes each route, by name: `route,length,from,to`, the length in millimetres, and the measures at the start and at the end.
/// It takes no memory beyond the writer's, and does not flush the writer.
///
/// # Errors
/// That of the writer. Part of the list may be written then.
pub fn write_routes<W: Write>(writer: &mut W, kept: &ImageLists) -> io::Result<()>
    ensures { OnOk result (Appends (W.contents writer.old) (W.contents writer.new)
        (routes_text (image_of kept.now))) }
{
    writer.write_all(b"route,length,from,to\n")?;
    write_each_route(writer, &kept.routes)
}
