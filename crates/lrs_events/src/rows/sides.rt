//! Sides: what has one, and one side of what lies on a stretch removed from canonical rows.

ghost use Rattle.std.specs.Prelude.{◌≡◌, ◌≤◌, ◌++◌, IsTrue, IfOk, OnOk};
ghost use Rattle.std.specs.List.{flat_map};
ghost use Rattle.lrs_measure.specs.Lists.{each_two};
ghost use Rattle.lrs_events.specs.Members.{has_side};
ghost use Rattle.lrs_events.specs.Spans.{are_rows, span_before};
ghost use Rattle.lrs_events.specs.Row.Sides.{shared_side, side_less, clip_on, side_part, side_rest, ClearsSide};

use crate::rows::change::difference;
use crate::rows::clips::push_clip;
use crate::rows::merger::merged;
use crate::rows::removals::Removal;
use crate::{LinkSide, Side, Span};
use lrs_measure::limits::LONGEST_ROUTE;
use std::alloc::{AllocError, Global};

/// Whether a side of the route or both have this side of it.
pub fn has_side(side: Side, of: LinkSide) -> bool
    ensures { result ≡ has_side side of }
{
    match (side, of) {
        (Side::B, _) | (Side::L, LinkSide::Left) | (Side::R, LinkSide::Right) => true,
        (Side::L, LinkSide::Right) | (Side::R, LinkSide::Left) => false,
    }
}

/// What two sides share.
fn shared_side(a: Side, b: Side) -> Option<Side>
    ensures { result ≡ shared_side a b }
{
    match (a, b) {
        (Side::B, side) | (side, Side::B) => Some(side),
        (Side::L, Side::L) => Some(Side::L),
        (Side::R, Side::R) => Some(Side::R),
        _ => None,
    }
}

/// What the first has and the second has not.
fn side_less(a: Side, b: Side) -> Option<Side>
    ensures { result ≡ side_less a b }
{
    match (a, b) {
        (Side::L | Side::B, Side::R) => Some(Side::L),
        (Side::R | Side::B, Side::L) => Some(Side::R),
        _ => None,
    }
}

/// Adds what of the row lies from low up to high, as it is on a side or on none.
///
/// # Errors
/// When memory runs out.
fn push_clip_on(
    out: &mut Vec<Span>,
    row: &Span,
    low: u64,
    high: u64,
    side: Option<Side>,
) -> Result<(), AllocError>
    ensures { OnOk result (out.new.items ≡ out.old.items ++ clip_on low high side row.now) }
{
    match side {
        Some(side) => push_clip(out, &Span { side, ..*row }, low, high),
        None => Ok(()),
    }
}

/// Adds what of the row is not on the side of the stretch.
///
/// # Errors
/// When memory runs out.
fn push_side_rest(
    out: &mut Vec<Span>,
    row: &Span,
    low: u64,
    high: u64,
    side: Side,
) -> Result<(), AllocError>
    ensures { OnOk result (out.new.items ≡ out.old.items ++ side_rest low high side row.now) }
{
    push_clip(out, row, 0, low)?;
    push_clip_on(out, row, low, high, side_less(row.side, side))?;
    push_clip(out, row, high, LONGEST_ROUTE)
}

/// What of the rows is on the side of the stretch.
///
/// # Errors
/// When memory runs out.
fn side_parts(
    alloc: Global,
    rows: &[Span],
    low: u64,
    high: u64,
    side: Side,
) -> Result<Vec<Span>, AllocError>
    ensures { IfOk result (λ out. out.items ≡ flat_map (side_part low high side) rows.now) }
{
    let mut out = Vec::new(alloc);
    for row in rows {
        push_clip_on(&mut out, row, low, high, shared_side(row.side, side))?;
    }
    Ok(out)
}

/// What of the rows is not on the side of the stretch.
///
/// # Errors
/// When memory runs out.
fn side_rests(
    alloc: Global,
    rows: &[Span],
    low: u64,
    high: u64,
    side: Side,
) -> Result<Vec<Span>, AllocError>
    ensures { IfOk result (λ out. out.items ≡ flat_map (side_rest low high side) rows.now) }
{
    let mut out = Vec::new(alloc);
    for row in rows {
        push_side_rest(&mut out, row, low, high, side)?;
    }
    Ok(out)
}

/// Removes what lies from chainage low up to high on a side or on both, given all rows of some assets of a route, also
/// those that do not meet the stretch. Of a row on both sides the other side stays: a part that goes on with a
/// neighbour on that side, and is one row with it.
///
/// # Errors
/// When memory runs out.
pub fn cleared_side(
    alloc: Global,
    found: &[Span],
    low: u64,
    high: u64,
    side: Side,
) -> Result<Removal, AllocError>
    requires { IsTrue (are_rows found.now) }
    ensures removal { IfOk result (λ removal. ClearsSide found.now low high side removal) }
    ensures in_order { IfOk result (λ removal. IsTrue
        (each_two span_before removal.change.gone.items)) }
{
    // Where high is below low, nothing lies between them.
    let high = high.max(low);
    let parts = side_parts(alloc, found, low, high, side)?;
    let rests = side_rests(alloc, found, low, high, side)?;
    let left = merged(alloc, &parts)?;
    let rest = merged(alloc, &rests)?;
    let change = difference(alloc, found, &rest)?;
    Ok(Removal { left, change })
}
