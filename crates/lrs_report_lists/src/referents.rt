//! The list of referents.

ghost use Rattle.std.specs.Prelude.{OnOk};
ghost use Rattle.std.specs.List.{flat_map};
ghost use Rattle.std.specs.Option.{option_map};
ghost use Rattle.std.specs.Io.KnownBytes.{Appends};
ghost use Rattle.lrs_image.specs.OpenLists.{image_of};
ghost use Rattle.lrs_report_lists.specs.Lines.{ref_line};
ghost use Rattle.lrs_report_lists.specs.Lists.{refs_text};

use crate::measures::write_measure;
use crate::route_lines::{RouteLines, write_route_lines};
use lrs_image::ImageLists;
use lrs_machine::RouteRow;
use lrs_position::{Referent, Route, RouteName};
use std::io;
use std::io::Write;

fn write_ref<W: Write>(
    writer: &mut W,
    exact: bool,
    route: &Route,
    referent: &Referent,
) -> io::Result<()>
    ensures { OnOk result (Appends (W.contents writer.old) (W.contents writer.new)
        (ref_line exact route.now referent.now)) }
{
    let name = referent.name;
    let at = referent.at;
    write!(writer, "{name},")?;
    writer.write_all(route.name.bytes())?;
    write!(writer, ",{at},")?;
    write_measure(writer, route, at, exact)?;
    writer.write_all(b"\n")
}

fn write_refs_on<W: Write>(
    writer: &mut W,
    exact: bool,
    route: &Route,
    refs: &[Referent],
) -> io::Result<()>
    ensures { OnOk result (Appends (W.contents writer.old) (W.contents writer.new)
        (flat_map (ref_line exact route.now) refs.now)) }
{
    for referent in refs {
        write_ref(writer, exact, route, referent)?;
    }
    Ok(())
}

#[derive(Drop)]
struct RefLines {
    exact: bool,
}

impl RouteLines for RefLines {
    ghost use Rattle.lrs_report_lists.specs.Lists.{refs_of};

    ghost lines = { λ list e. refs_of list.exact e };

    fn write<W: Write>(&self, writer: &mut W, route_row: &RouteRow) -> io::Result<()> {
        let route = &route_row.route;
        write_refs_on(writer, self.exact, route, route.refs.as_slice())
    }
}

/// Writes each referent of each route, or of the route of a name, by route and then by name: `ref,route,chainage,measure`, the
/// chainage of its millimetre, and the measure where that begins: `exact`, as a whole number or a fraction, or else a decimal
/// of three places, a half going up. It takes no memory beyond the writer's, and does not flush the writer.
///
/// # Errors
/// That of the writer. Part of the list may be written then. A route that is not known has no referents.
pub fn write_refs<W: Write>(
    writer: &mut W,
    kept: &ImageLists,
    route: Option<&RouteName>,
    exact: bool,
) -> io::Result<()>
    ensures { OnOk result (Appends (W.contents writer.old) (W.contents writer.new)
        (refs_text (option_map (λ n. n.now) route.entry) exact (image_of kept.now))) }
{
    let list = RefLines { exact };
    writer.write_all(b"ref,route,chainage,measure\n")?;
    write_route_lines(writer, &list, route, &kept.routes)
}
