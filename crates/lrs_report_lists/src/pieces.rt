//! The list of pieces.

ghost use Rattle.std.specs.Prelude.{◌≡◌, ◌≤◌, ◌+◌, OnOk, length};
ghost use Rattle.std.specs.List.{flat_map, AllByRecursion};
ghost use Rattle.std.specs.Option.{option_map};
ghost use Rattle.std.specs.Io.KnownBytes.{Appends};
ghost use Rattle.lrs_element.specs.Pieces.{IsFilled, piece_len};
ghost use Rattle.lrs_image.specs.OpenLists.{image_of};
ghost use Rattle.lrs_report_lists.specs.Lines.{direction_text, piece_line};
ghost use Rattle.lrs_report_lists.specs.Lists.{pieces_text};
ghost use Rattle.lrs_report_lists.specs.Parts.{chainages_part, stretch_part};
ghost use Rattle.lrs_report_lists.specs.PlacedPieces.{placed_from, placed_pieces};

use crate::route_lines::{RouteLines, write_route_lines};
use lrs_element::{Course, Piece};
use lrs_image::ImageLists;
use lrs_machine::RouteRow;
use lrs_position::RouteName;
use std::io;
use std::io::Write;

/// A direction along a link: `+`, or `-` against it.
pub fn direction_text(forward: bool) -> &'static str
    ensures { result.now ≡ direction_text forward }
{
    if forward { "+" } else { "-" }
}

fn write_chainages<W: Write>(writer: &mut W, route: &RouteName, at: u64, end: u64) -> io::Result<()>
    ensures { OnOk result (Appends (W.contents writer.old) (W.contents writer.new)
        (chainages_part route.now at end)) }
{
    writer.write_all(route.bytes())?;
    write!(writer, ",{at},{end},")
}

fn write_stretch<W: Write>(writer: &mut W, piece: &Piece) -> io::Result<()>
    ensures { OnOk result (Appends (W.contents writer.old) (W.contents writer.new)
        (stretch_part piece.now)) }
{
    let Piece { link, from, to, .. } = *piece;
    let direction = direction_text(piece.forward);
    writeln!(writer, "{link},{from},{to},{direction}")
}

/// Writes the line of a piece that lies between two chainages.
fn write_piece<W: Write>(
    writer: &mut W,
    route: &RouteName,
    at: u64,
    end: u64,
    piece: &Piece,
) -> io::Result<()>
    requires end { end ≡ at + piece_len piece.now }
    ensures { OnOk result (Appends (W.contents writer.old) (W.contents writer.new)
        (piece_line route.now (at, piece.now))) }
{
    write_chainages(writer, route, at, end)?;
    write_stretch(writer, piece)
}

/// Writes the lines of pieces that lie one behind the other from the start of a route.
fn write_pieces_in<W: Write>(writer: &mut W, route: &RouteName, pieces: &[Piece]) -> io::Result<()>
    requires few { length pieces.now ≤ 1_000 }
    requires filled { AllByRecursion IsFilled pieces.now }
    ensures { OnOk result (Appends (W.contents writer.old) (W.contents writer.new)
        (flat_map (piece_line route.now) (placed_from 0 pieces.now))) }
{
    let mut at = 0;
    for piece in pieces {
        let end = at + piece.len();
        write_piece(writer, route, at, end, piece)?;
        at = end;
    }
    Ok(())
}

fn write_pieces_on<W: Write>(writer: &mut W, route: &RouteName, course: &Course) -> io::Result<()>
    ensures { OnOk result (Appends (W.contents writer.old) (W.contents writer.new)
        (flat_map (piece_line route.now) (placed_pieces course.now))) }
{
    write_pieces_in(writer, route, course.pieces())
}

#[derive(Drop)]
struct PieceLines;

impl RouteLines for PieceLines {
    ghost use Rattle.lrs_report_lists.specs.Lists.{pieces_on};

    ghost lines = { λ _ e. pieces_on e };

    fn write<W: Write>(&self, writer: &mut W, route_row: &RouteRow) -> io::Result<()> {
        let route = &route_row.route;
        write_pieces_on(writer, &route.name, &route.course)
    }
}

/// Writes each piece of each route, or of the route of a name, by route and then in its order:
/// `route,from,to,link,link_from,link_to,direction`. From and to are chainages in millimetres, `link_from` is less than
/// `link_to`, both millimetres of the link, and the direction is `+`, or `-` where the route runs against the link. A route has
/// the fewest pieces that its course can be written in. It takes no memory beyond the writer's, and does not flush the writer.
///
/// # Errors
/// That of the writer. Part of the list may be written then. A route that is not known has no pieces.
pub fn write_pieces<W: Write>(
    writer: &mut W,
    kept: &ImageLists,
    route: Option<&RouteName>,
) -> io::Result<()>
    ensures { OnOk result (Appends (W.contents writer.old) (W.contents writer.new)
        (pieces_text (option_map (λ n. n.now) route.entry) (image_of kept.now))) }
{
    writer.write_all(b"route,from,to,link,link_from,link_to,direction\n")?;
    write_route_lines(writer, &PieceLines, route, &kept.routes)
}
