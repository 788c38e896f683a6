//! Lists that have lines of each route.

ghost use Rattle.std.specs.Prelude.{◌≡◌, [], OnOk, filter, if◌then◌else◌};
ghost use Rattle.std.specs.List.{flat_map};
ghost use Rattle.std.specs.Option.{option_map};
ghost use Rattle.std.specs.Io.KnownBytes.{Appends};
ghost use Rattle.lrs_report_lists.specs.WantedRows.{is_of_route};

use lrs_machine::RouteRow;
use lrs_ordered::Chunked;
use lrs_position::RouteName;
use std::io;
use std::io::Write;

/// A list with lines of each route.
pub(crate) trait RouteLines {
    ghost use Rattle.std.specs.Prelude.{List, ℕ};
    ghost use Rattle.lrs_machine.specs.declared.image.RouteRow.{RouteRow as RouteValue};

    ghost lines: { Self → RouteValue → List ℕ };

    /// Writes the lines of a route.
    fn write<W: Write>(&self, writer: &mut W, route_row: &RouteRow) -> io::Result<()>
        ensures { OnOk result (Appends (W.contents writer.old) (W.contents writer.new)
            (lines self.now route_row.now)) };
}

/// Whether the route is of the name, where one is given.
fn is_of_route(route: Option<&RouteName>, route_row: &RouteRow) -> bool
    ensures { result ≡ is_of_route (option_map (λ n. n.now) route.entry) route_row.now }
{
    match route {
        Some(name) => route_row.route.name == *name,
        None => true,
    }
}

fn write_if_named<W: Write, L: RouteLines>(
    writer: &mut W,
    list: &L,
    route: Option<&RouteName>,
    route_row: &RouteRow,
) -> io::Result<()>
    ensures { OnOk result (Appends (W.contents writer.old) (W.contents writer.new)
        (if is_of_route (option_map (λ n. n.now) route.entry) route_row.now
        then L.lines list.now route_row.now else [])) }
{
    if is_of_route(route, route_row) {
        return list.write(writer, route_row);
    }
    Ok(())
}

/// Writes the lines of each route in the order of the routes, or of the route of the name alone.
pub(crate) fn write_route_lines<W: Write, L: RouteLines>(
    writer: &mut W,
    list: &L,
    route: Option<&RouteName>,
    routes: &Chunked<RouteRow>,
) -> io::Result<()>
    ensures { OnOk result (Appends (W.contents writer.old) (W.contents writer.new)
        (flat_map (L.lines list.now)
        (filter (is_of_route (option_map (λ n. n.now) route.entry)) routes.now.rows))) }
{
    for route_row in routes.iter() {
        write_if_named(writer, list, route, route_row)?;
    }
    Ok(())
}
