//! Rows on the links under them.

ghost use Rattle.std.specs.Prelude.{◌≡◌, ◌<◌, ◌≤◌, length, OnOk};
ghost use Rattle.std.specs.List.{AllByRecursion, flat_map};
ghost use Rattle.std.specs.Option.{option_map};
ghost use Rattle.std.specs.Io.KnownBytes.{Appends};
ghost use Rattle.lrs_element.specs.Pieces.{IsFilled, piece_len};
ghost use Rattle.lrs_report_lists.specs.LinkRows.{asset_part, link_row_line, on_piece, on_piece_text, route_part, seen_along, stretch_between, stretch_part, value_part};
ghost use Rattle.lrs_report_lists.specs.PlacedPieces.{placed_from, placed_pieces};

use lrs_element::Piece;
use lrs_events::{Asset, Side, Span};
use lrs_position::{Route, RouteName};
use std::io;
use std::io::Write;

/// What a row holds of a link: its millimetres from `from` up to `to`, on a side or sides that are seen along the link.
#[derive(Clone, Copy, PartialEq, Eq)]
pub struct LinkStretch {
    pub link: u32,
    pub from: u32,
    pub to: u32,
    pub side: Side,
}

/// A side of a route, seen along a link on which the route runs forwards or backwards.
fn seen_along(forward: bool, side: Side) -> Side
    ensures { result ≡ seen_along forward side }
{
    match (forward, side) {
        (true, side) => side,
        (false, Side::L) => Side::R,
        (false, Side::R) => Side::L,
        (false, Side::B) => Side::B,
    }
}

/// A piece from its place `low` up to its place `high`, on the link.
fn stretch_between(side: Side, piece: Piece, low: u64, high: u64) -> LinkStretch
    requires order { low < high }
    requires inside { high ≤ piece_len piece }
    ensures { result ≡ stretch_between side piece low high }
{
    let low = low as u32;
    let high = high as u32;
    LinkStretch {
        link: piece.link,
        from: if piece.forward {
            piece.from + low
        } else {
            piece.to - high
        },
        to: if piece.forward {
            piece.from + high
        } else {
            piece.to - low
        },
        side: seen_along(piece.forward, side),
    }
}

/// What a row has of a piece that begins at chainage `start` of its route.
pub fn on_piece(row: &Span, start: u64, piece: Piece) -> Option<LinkStretch>
    requires { IsFilled piece }
    ensures { result ≡ on_piece row.now start piece }
{
    let low = row.from.saturating_sub(start);
    let high = row.to.saturating_sub(start).min(piece.len());
    if low < high {
        return Some(stretch_between(row.side, piece, low, high));
    }
    None
}

fn write_asset<W: Write>(writer: &mut W, row: &Span) -> io::Result<()>
    ensures { OnOk result (Appends (W.contents writer.old) (W.contents writer.new)
        (asset_part row.now)) }
{
    let asset = row.asset;
    let class = row.class;
    write!(writer, "{asset},{class},")
}

fn write_value<W: Write>(writer: &mut W, asset: Option<&Asset>) -> io::Result<()>
    ensures { OnOk result (Appends (W.contents writer.old) (W.contents writer.new)
        (value_part (option_map (λ a. a.now) asset.entry))) }
{
    match asset {
        Some(asset) => {
            let value = asset.value;
            let offset = asset.lateral;
            write!(writer, "{value},{offset},")
        }
        None => writer.write_all(b",,"),
    }
}

fn write_stretch<W: Write>(writer: &mut W, stretch: LinkStretch) -> io::Result<()>
    ensures { OnOk result (Appends (W.contents writer.old) (W.contents writer.new)
        (stretch_part stretch)) }
{
    let LinkStretch {
        link,
        from,
        to,
        side,
    } = stretch;
    write!(writer, "{link},{from},{to},{side},")
}

fn write_route<W: Write>(writer: &mut W, route: &RouteName) -> io::Result<()>
    ensures { OnOk result (Appends (W.contents writer.old) (W.contents writer.new)
        (route_part route.now)) }
{
    writer.write_all(route.bytes())?;
    writer.write_all(b"\n")
}

/// Writes the line of what a row holds of a link.
fn write_line<W: Write>(
    writer: &mut W,
    asset: Option<&Asset>,
    route: &Route,
    row: &Span,
    stretch: LinkStretch,
) -> io::Result<()>
    ensures { OnOk result (Appends (W.contents writer.old) (W.contents writer.new)
        (link_row_line (option_map (λ a. a.now) asset.entry) route.now row.now stretch)) }
{
    write_asset(writer, row)?;
    write_value(writer, asset)?;
    write_stretch(writer, stretch)?;
    write_route(writer, &route.name)
}

/// Writes the line of what a row has of a piece that begins at chainage `start`, where it has a millimetre of it.
fn write_on_piece<W: Write>(
    writer: &mut W,
    asset: Option<&Asset>,
    route: &Route,
    row: &Span,
    start: u64,
    piece: Piece,
) -> io::Result<()>
    requires { IsFilled piece }
    ensures { OnOk result (Appends (W.contents writer.old) (W.contents writer.new)
        (on_piece_text (option_map (λ a. a.now) asset.entry) route.now row.now (start, piece))) }
{
    match on_piece(row, start, piece) {
        Some(stretch) => write_line(writer, asset, route, row, stretch),
        None => Ok(()),
    }
}

/// Writes the lines of what a row has of the pieces of its route.
fn write_on_pieces<W: Write>(
    writer: &mut W,
    asset: Option<&Asset>,
    route: &Route,
    row: &Span,
    pieces: &[Piece],
) -> io::Result<()>
    requires filled { AllByRecursion IsFilled pieces.now }
    requires few { length pieces.now ≤ 1_000 }
    ensures { OnOk result (Appends (W.contents writer.old) (W.contents writer.new)
        (flat_map (on_piece_text (option_map (λ a. a.now) asset.entry) route.now row.now)
        (placed_from 0 pieces.now))) }
{
    let mut start = 0;
    for piece in pieces {
        write_on_piece(writer, asset, route, row, start, *piece)?;
        start += piece.len();
    }
    Ok(())
}

/// Writes the lines of what a row of a route holds, on the links under it.
pub(crate) fn write_on_links<W: Write>(
    writer: &mut W,
    asset: Option<&Asset>,
    route: &Route,
    row: &Span,
) -> io::Result<()>
    ensures { OnOk result (Appends (W.contents writer.old) (W.contents writer.new)
        (flat_map (on_piece_text (option_map (λ a. a.now) asset.entry) route.now row.now)
        (placed_pieces route.now.course))) }
{
    write_on_pieces(writer, asset, route, row, route.course.pieces())
}
