//! Rows in order become canonical: one that goes on where another ends is one row with it.

ghost use Rattle.std.specs.Prelude.{◌≤◌, IsTrue, IfOk, OnOk, length};
ghost use Rattle.lrs_events.specs.Spans.{are_rows, is_row};
ghost use Rattle.lrs_events.specs.Members.{SameMembers};
ghost use Rattle.lrs_events.specs.Row.Clips.{are_in_order};
ghost use Rattle.lrs_events.specs.Row.Members.{IsMore};
ghost use Rattle.lrs_events.specs.Row.Order.{IsPlace, IsStart, IsBehind, StaysBehind};

use crate::Span;
use crate::rows::order::joins;
use std::alloc::{AllocError, Global};

/// How many rows stay in front of a span, and where a row begins that takes the last of the others along.
pub fn start_of(rows: &[Span], at: usize, span: &Span) -> (usize, u64)
    requires rows { IsTrue (are_rows rows.now) }
    requires within { at ≤ length rows.now }
    requires place { IsPlace rows.now at span.now }
    ensures { IsStart rows.now at span.now result.0 result.1 }
{
    if at > 0 {
        let row = rows[at - 1];
        if joins(&row, span) {
            return (at - 1, row.from);
        }
    }
    (at, span.from)
}

/// Adds a row that comes behind all, with the last one where it goes on with that.
///
/// # Errors
/// When memory runs out.
pub fn push_row(out: &mut Vec<Span>, row: Span) -> Result<(), AllocError>
    requires rows { IsTrue (are_rows out.old.items) }
    requires row { IsTrue (is_row row) }
    requires behind { IsBehind out.old.items row }
    ensures rows { OnOk result (IsTrue (are_rows out.new.items)) }
    ensures more { OnOk result (IsMore out.old.items row out.new.items) }
    ensures behind { OnOk result (StaysBehind out.old.items row out.new.items) }
{
    let at = out.len();
    let (start, from) = start_of(out, at, &row);
    out.truncate(start);
    out.push(Span { from, ..row })?;
    Ok(())
}

/// Canonical rows that stand for the same as these, which are in order and apart.
///
/// # Errors
/// When memory runs out.
pub fn merged(alloc: Global, rows: &[Span]) -> Result<Vec<Span>, AllocError>
    requires { IsTrue (are_in_order rows.now) }
    ensures rows { IfOk result (λ out. IsTrue (are_rows out.items)) }
    ensures same { IfOk result (λ out. SameMembers rows.now out.items) }
{
    let mut out = Vec::new(alloc);
    for row in rows {
        push_row(&mut out, *row)?;
    }
    Ok(out)
}
