//! The list of marks.

ghost use Rattle.std.specs.Prelude.{OnOk};
ghost use Rattle.std.specs.List.{flat_map};
ghost use Rattle.std.specs.Option.{option_map};
ghost use Rattle.std.specs.Io.KnownBytes.{Appends};
ghost use Rattle.lrs_image.specs.OpenLists.{image_of};
ghost use Rattle.lrs_report_lists.specs.Lines.{mark_line};
ghost use Rattle.lrs_report_lists.specs.Lists.{marks_text};

use crate::route_lines::{RouteLines, write_route_lines};
use lrs_element::Mark;
use lrs_image::ImageLists;
use lrs_machine::RouteRow;
use lrs_position::{Route, RouteName};
use std::io;
use std::io::Write;

fn write_mark<W: Write>(writer: &mut W, route: &Route, mark: &Mark) -> io::Result<()>
    ensures { OnOk result (Appends (W.contents writer.old) (W.contents writer.new)
        (mark_line route.now mark.now)) }
{
    let chainage = mark.chainage;
    let measure = mark.measure;
    writer.write_all(route.name.bytes())?;
    writeln!(writer, ",{chainage},{measure}")
}

fn write_marks_on<W: Write>(writer: &mut W, route: &Route, marks: &[Mark]) -> io::Result<()>
    ensures { OnOk result (Appends (W.contents writer.old) (W.contents writer.new)
        (flat_map (mark_line route.now) marks.now)) }
{
    for mark in marks {
        write_mark(writer, route, mark)?;
    }
    Ok(())
}

#[derive(Drop)]
struct MarkLines;

impl RouteLines for MarkLines {
    ghost use Rattle.lrs_report_lists.specs.Lists.{marks_of};

    ghost lines = { λ _ e. marks_of e };

    fn write<W: Write>(&self, writer: &mut W, route_row: &RouteRow) -> io::Result<()> {
        let route = &route_row.route;
        write_marks_on(writer, route, route.marks.list())
    }
}

/// Writes each mark of each route, or of the route of a name, by route and then by chainage: `route,chainage,measure`, the
/// chainage in millimetres. It takes no memory beyond the writer's, and does not flush the writer.
///
/// # Errors
/// That of the writer. Part of the list may be written then. A route that is not known has no marks.
pub fn write_marks<W: Write>(
    writer: &mut W,
    kept: &ImageLists,
    route: Option<&RouteName>,
) -> io::Result<()>
    ensures { OnOk result (Appends (W.contents writer.old) (W.contents writer.new)
        (marks_text (option_map (λ n. n.now) route.entry) (image_of kept.now))) }
{
    writer.write_all(b"route,chainage,measure\n")?;
    write_route_lines(writer, &MarkLines, route, &kept.routes)
}
