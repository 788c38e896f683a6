//! What the rows of an inventory hold of links.

ghost use Rattle.std.specs.Prelude.{◌≡◌, ◌≤◌, ◌++◌, length, IfOk, OnOk};
ghost use Rattle.std.specs.List.{AllByRecursion, flat_map};
ghost use Rattle.lrs_element.specs.Pieces.{IsFilled};
ghost use Rattle.lrs_image.specs.OpenLists.{image_of};
ghost use Rattle.lrs_report_lists.specs.PlacedPieces.{placed_from};
ghost use Rattle.lrs_difference.specs.Held.{held_by_row, held_in, held_on, held_on_piece};

use lrs_element::{Course, Piece};
use lrs_events::Span;
use lrs_image::ImageLists;
use lrs_machine::RouteRow;
use lrs_report_lists::{LinkStretch, on_piece};
use std::alloc::{AllocError, Global};

/// A stretch of a link that an asset holds by one row.
#[derive(Clone, Copy)]
pub struct HeldStretch {
    pub asset: u64,
    pub stretch: LinkStretch,
}

/// Adds what a row has of a piece that begins at chainage `start`.
fn push_on_piece(
    held: &mut Vec<HeldStretch>,
    row: &Span,
    start: u64,
    piece: Piece,
) -> Result<(), AllocError>
    requires { IsFilled piece }
    ensures { OnOk result (held.new.items ≡ held.old.items
        ++ held_on_piece row.now (start, piece)) }
{
    match on_piece(row, start, piece) {
        Some(stretch) => {
            held.push(HeldStretch {
                asset: row.asset,
                stretch,
            })?;
            Ok(())
        }
        None => Ok(()),
    }
}

/// Adds what a row has of pieces that lie one behind the other from the start of its route.
fn push_on_pieces(
    held: &mut Vec<HeldStretch>,
    row: &Span,
    pieces: &[Piece],
) -> Result<(), AllocError>
    requires filled { AllByRecursion IsFilled pieces.now }
    requires few { length pieces.now ≤ 1_000 }
    ensures { OnOk result (held.new.items ≡ held.old.items
        ++ flat_map (held_on_piece row.now) (placed_from 0 pieces.now)) }
{
    let mut start = 0;
    for piece in pieces {
        push_on_piece(held, row, start, *piece)?;
        start += piece.len();
    }
    Ok(())
}

/// Adds what a row of a route holds.
fn push_row(held: &mut Vec<HeldStretch>, course: &Course, row: &Span) -> Result<(), AllocError>
    ensures { OnOk result (held.new.items ≡ held.old.items ++ held_by_row course.now row.now) }
{
    push_on_pieces(held, row, course.pieces())
}

/// Adds what rows of a route hold.
fn push_rows(held: &mut Vec<HeldStretch>, course: &Course, rows: &[Span]) -> Result<(), AllocError>
    ensures { OnOk result (held.new.items ≡ held.old.items
        ++ flat_map (held_by_row course.now) rows.now) }
{
    for row in rows {
        push_row(held, course, row)?;
    }
    Ok(())
}

/// Adds what the rows of a route hold.
fn push_route(held: &mut Vec<HeldStretch>, row: &RouteRow) -> Result<(), AllocError>
    ensures { OnOk result (held.new.items ≡ held.old.items ++ held_on row.now) }
{
    push_rows(held, &row.route.course, row.spans.rows())
}

/// What the rows of an inventory hold of links, route by route, row by row.
///
/// # Errors
/// When memory runs out.
pub fn held_stretches(alloc: Global, kept: &ImageLists) -> Result<Vec<HeldStretch>, AllocError>
    ensures { IfOk result (λ held. held.items ≡ held_in (image_of kept.now)) }
{
    let mut held = Vec::new(alloc);
    for row in kept.routes.iter() {
        push_route(&mut held, row)?;
    }
    Ok(held)
}
