//! What stored rows say.

ghost use Rattle.std.specs.Prelude.{◌≡◌, ◌&&◌, nat_lt, IfOk};
ghost use Rattle.std.specs.Option.{option_map};
ghost use Rattle.lrs_position.specs.Names.{is_route_name};
ghost use Rattle.lrs_store_tables.specs.Contents.Decoders.{each_of, only_if, is_forward_numbered, piece_of};

use crate::route_decoder::cells::PieceCells;
use crate::route_decoder::decoded_rows::{Numbered, OfRoute};
use lrs_element::Piece;
use lrs_position::RouteName;
use lrs_store_tables::{short, whole};
use std::alloc::{AllocError, Global};

fn is_forward(n: u64) -> Option<bool>
    ensures { result ≡ is_forward_numbered n }
{
    match n {
        0 => Some(true),
        1 => Some(false),
        _ => None,
    }
}

fn route_name(text: &[u8]) -> Option<RouteName>
    ensures { result ≡ only_if (is_route_name text.now) text.now }
{
    RouteName::new(text)
}

/// A piece of a route, which has a millimetre.
fn piece_of_route(text: &[u8], n: u64, piece: Piece) -> Option<OfRoute<Numbered<Piece>>>
    ensures { result ≡ only_if (is_route_name text.now && nat_lt piece.from piece.to)
        (record { route = text.now; said = record { n = n; said = piece } }) }
{
    let route = route_name(text)?;
    if piece.to <= piece.from {
        return None;
    }
    Some(OfRoute {
        route,
        said: Numbered { n, said: piece },
    })
}

/// What a row of a piece says.
fn piece_of(row: &PieceCells<'_>) -> Option<OfRoute<Numbered<Piece>>>
    ensures { result ≡ piece_of row.now }
{
    let n = whole(row.n)?;
    let link = short(row.link)?;
    let from = short(row.a)?;
    let to = short(row.b)?;
    let forward = is_forward(whole(row.dir)?)?;
    piece_of_route(
        row.route,
        n,
        Piece {
            link,
            from,
            to,
            forward,
        },
    )
}

/// What the rows of pieces say, if each says something.
pub(crate) fn pieces_said(
    alloc: Global,
    rows: &[PieceCells<'_>],
) -> Result<Option<Vec<OfRoute<Numbered<Piece>>>>, AllocError>
    ensures { IfOk result (λ found. option_map (λ v. v.items) found ≡ each_of piece_of rows.now) }
{
    let mut found = Vec::new(alloc);
    for row in rows {
        let Some(said) = piece_of(row) else {
            return Ok(None);
        };
        found.push(said)?;
    }
    Ok(Some(found))
}
