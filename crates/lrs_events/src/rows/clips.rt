//! Parts of rows: what lies within two chainages, what lies outside, and what lies behind one.

ghost use Rattle.std.specs.Prelude.{◌≡◌, ◌++◌, IfOk, OnOk};
ghost use Rattle.std.specs.List.{flat_map};
ghost use Rattle.lrs_events.specs.Row.Clips.{clip, outside, rear};

use crate::Span;
use lrs_measure::limits::LONGEST_ROUTE;
use std::alloc::{AllocError, Global};

/// Adds what of the row lies from low up to high.
///
/// # Errors
/// When memory runs out.
pub(crate) fn push_clip(
    out: &mut Vec<Span>,
    row: &Span,
    low: u64,
    high: u64,
) -> Result<(), AllocError>
    ensures { OnOk result (out.new.items ≡ out.old.items ++ clip low high row.now) }
{
    let from = row.from.max(low);
    let to = row.to.min(high);
    if from < to {
        out.push(Span { from, to, ..*row })?;
    }
    Ok(())
}

/// What of the rows lies from chainage low up to high.
///
/// # Errors
/// When memory runs out.
pub fn clips(alloc: Global, rows: &[Span], low: u64, high: u64) -> Result<Vec<Span>, AllocError>
    ensures { IfOk result (λ part. part.items ≡ flat_map (clip low high) rows.now) }
{
    let mut out = Vec::new(alloc);
    for row in rows {
        push_clip(&mut out, row, low, high)?;
    }
    Ok(out)
}

/// Adds what of the row lies below low, and from high on.
///
/// # Errors
/// When memory runs out.
fn push_outside(out: &mut Vec<Span>, row: &Span, low: u64, high: u64) -> Result<(), AllocError>
    ensures { OnOk result (out.new.items ≡ out.old.items ++ outside low high row.now) }
{
    push_clip(out, row, 0, low)?;
    push_clip(out, row, high, LONGEST_ROUTE)
}

/// What of the rows lies below chainage low, and from high on.
///
/// # Errors
/// When memory runs out.
pub fn rests(alloc: Global, rows: &[Span], low: u64, high: u64) -> Result<Vec<Span>, AllocError>
    ensures { IfOk result (λ rest. rest.items ≡ flat_map (outside low high) rows.now) }
{
    let mut out = Vec::new(alloc);
    for row in rows {
        push_outside(&mut out, row, low, high)?;
    }
    Ok(out)
}

/// Adds what of the row lies from `at` on, counted from there.
///
/// # Errors
/// When memory runs out.
fn push_rear(out: &mut Vec<Span>, row: &Span, at: u64) -> Result<(), AllocError>
    ensures { OnOk result (out.new.items ≡ out.old.items ++ rear at row.now) }
{
    if at < row.to {
        out.push(Span {
            from: row.from.saturating_sub(at),
            to: row.to - at,
            ..*row
        })?;
    }
    Ok(())
}

/// What of the rows lies from chainage `at` on, counted from there.
///
/// # Errors
/// When memory runs out.
pub fn rears(alloc: Global, rows: &[Span], at: u64) -> Result<Vec<Span>, AllocError>
    ensures { IfOk result (λ part. part.items ≡ flat_map (rear at) rows.now) }
{
    let mut out = Vec::new(alloc);
    for row in rows {
        push_rear(&mut out, row, at)?;
    }
    Ok(out)
}
