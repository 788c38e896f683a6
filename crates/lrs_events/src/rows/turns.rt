//! A route is turned: its rows are seen from its other end.

ghost use Rattle.std.specs.Prelude.{◌≡◌, ◌≤◌, ◌<◌, ◌++◌, IsTrue, IfOk, OnOk, length};
ghost use Rattle.lrs_measure.specs.Limits.{longest_route};
ghost use Rattle.lrs_events.specs.Spans.{are_rows};
ghost use Rattle.lrs_events.specs.Row.Joins.{end_by};
ghost use Rattle.lrs_events.specs.Row.Turns.{turned_side, mirrored, mirrored_rows, IsTurned, IsBlock};

use crate::rows::order::rows_up_to;
use crate::{Side, Span};
use lrs_measure::limits::LONGEST_ROUTE;
use std::alloc::{AllocError, Global};

/// The side seen from the other end.
fn turned_side(side: Side) -> Side
    ensures { result ≡ turned_side side }
{
    match side {
        Side::L => Side::R,
        Side::R => Side::L,
        Side::B => Side::B,
    }
}

/// The row seen from the other end of a route of that length.
fn mirrored(row: &Span, len: u64) -> Span
    ensures { result ≡ mirrored len row.now }
{
    Span {
        from: len.saturating_sub(row.to),
        to: len.saturating_sub(row.from),
        side: turned_side(row.side),
        ..*row
    }
}

/// Adds the rows seen from the other end, the last of them first.
///
/// # Errors
/// When memory runs out.
fn push_mirrored(out: &mut Vec<Span>, rows: &[Span], len: u64) -> Result<(), AllocError>
    ensures { OnOk result (out.new.items ≡ out.old.items ++ mirrored_rows len rows.now) }
{
    for i in (0..rows.len()).rev() {
        out.push(mirrored(&rows[i], len))?;
    }
    Ok(())
}

/// Up to where rows are of the asset of the one at the start.
fn end_of_asset(rows: &[Span], start: usize) -> usize
    requires rows { IsTrue (are_rows rows.now) }
    requires within { start < length rows.now }
    ensures within { result ≤ length rows.now }
    ensures block { IsBlock rows.now start result }
{
    let row = rows[start];
    let whole = Span {
        from: 0,
        to: LONGEST_ROUTE,
        ..row
    };
    rows_up_to(rows, &whole)
}

/// The rows of a route of that length, in millimetres, seen from its other end: chainages are counted from there, left
/// is right and right is left.
///
/// # Errors
/// When memory runs out.
pub fn turned(alloc: Global, rows: &[Span], len: u64) -> Result<Vec<Span>, AllocError>
    requires rows { IsTrue (are_rows rows.now) }
    requires ends { IsTrue (end_by len rows.now) }
    requires len { len ≤ longest_route }
    ensures rows { IfOk result (λ out. IsTrue (are_rows out.items)) }
    ensures turned { IfOk result (λ out. IsTurned len rows.now out.items) }
{
    let mut out = Vec::new(alloc);
    let mut start = 0;
    while start < rows.len() {
        let end = end_of_asset(rows, start);
        push_mirrored(&mut out, &rows[start..end], len)?;
        start = end;
    }
    Ok(out)
}
