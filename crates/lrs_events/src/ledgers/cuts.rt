//! Parts of links: runs of a course, cut where its pieces begin and end.

ghost use Rattle.std.specs.Prelude.{◌≡◌, ◌<◌, ◌≤◌, ◌++◌, OnOk};
ghost use Rattle.std.specs.List.{AllByRecursion, flat_map};
ghost use Rattle.lrs_element.specs.Pieces.{piece_len, IsFilled, AreStarts};
ghost use Rattle.lrs_events.specs.Places.{along_link};
ghost use Rattle.lrs_events.specs.Ledger.Cuts.{part_between, parts_in, parts_from, side_parts};

use crate::ledgers::run::{Run, runs_on};
use crate::{LinkSide, Part, Span};
use lrs_element::{Piece, starts_up_to};
use std::alloc::AllocError;

/// A side of a course, seen along the link on which it runs forwards or backwards.
fn along_link(forward: bool, side: LinkSide) -> LinkSide
    ensures { result ≡ along_link forward side }
{
    match (forward, side) {
        (true, side) => side,
        (false, LinkSide::Left) => LinkSide::Right,
        (false, LinkSide::Right) => LinkSide::Left,
    }
}

/// The part of `piece` from its place `low` up to its place `high`, on a side of the course.
fn part_between(edit: u64, asset: u64, side: LinkSide, piece: Piece, low: u64, high: u64) -> Part
    requires order { low < high }
    requires inside { high ≤ piece_len piece }
    ensures { result ≡ part_between edit asset side piece low high }
{
    let low = low as u32;
    let high = high as u32;
    Part {
        edit,
        asset,
        link: piece.link,
        from: if piece.forward {
            piece.from + low
        } else {
            piece.to - high
        },
        to: if piece.forward {
            piece.from + high
        } else {
            piece.to - low
        },
        side: along_link(piece.forward, side),
    }
}

/// Adds what the run has of a piece that begins at chainage `start`.
fn push_part(
    parts: &mut Vec<Part>,
    edit: u64,
    run: Run,
    side: LinkSide,
    piece: Piece,
    start: u64,
) -> Result<(), AllocError>
    requires { IsFilled piece }
    ensures { OnOk result (parts.new.items ≡ parts.old.items
        ++ parts_in edit run side start piece) }
{
    let low = run.from.saturating_sub(start);
    let high = run.to.saturating_sub(start).min(piece.len());
    if low < high {
        let part = part_between(edit, run.asset, side, piece, low, high);
        parts.push(part)?;
    }
    Ok(())
}

/// Adds what the run has of the pieces of a course, which begin at these chainages.
fn push_parts(
    parts: &mut Vec<Part>,
    edit: u64,
    run: Run,
    side: LinkSide,
    pieces: &[Piece],
    starts: &[u64],
) -> Result<(), AllocError>
    requires filled { AllByRecursion IsFilled pieces.now }
    requires starts { AreStarts starts.now pieces.now }
    ensures { OnOk result (parts.new.items ≡ parts.old.items
        ++ parts_from edit run side 0 pieces.now) }
{
    let first = starts_up_to(starts, run.from).saturating_sub(1);
    let end = starts_up_to(starts, run.to.saturating_sub(1));
    for i in first..end {
        push_part(parts, edit, run, side, pieces[i], starts[i])?;
    }
    Ok(())
}

/// Adds what the rows have of the pieces of a course on one side of it.
pub(crate) fn push_side(
    parts: &mut Vec<Part>,
    edit: u64,
    rows: &[Span],
    side: LinkSide,
    pieces: &[Piece],
    starts: &[u64],
) -> Result<(), AllocError>
    requires filled { AllByRecursion IsFilled pieces.now }
    requires starts { AreStarts starts.now pieces.now }
    ensures { OnOk result (parts.new.items ≡ parts.old.items
        ++ side_parts edit rows.now side pieces.now) }
{
    let runs = runs_on(*parts.allocator(), rows, side)?;
    for run in &runs {
        push_parts(parts, edit, *run, side, pieces, starts)?;
    }
    Ok(())
}
