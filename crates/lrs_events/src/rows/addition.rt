//! A span is added to canonical rows.

ghost use Rattle.std.specs.Prelude.{◌≡◌, ◌≤◌, IsTrue, IfOk, length};
ghost use Rattle.lrs_events.specs.Changes.{changed_rows};
ghost use Rattle.lrs_measure.specs.Lists.{each_two};
ghost use Rattle.lrs_events.specs.Spans.{are_rows, is_row, span_before};
ghost use Rattle.lrs_events.specs.Row.Changes.{IsChange};
ghost use Rattle.lrs_events.specs.Row.Members.{is_free, IsMore};
ghost use Rattle.lrs_events.specs.Row.Order.{IsPlace, IsEnd};

use crate::rows::merger::start_of;
use crate::rows::order::{joins, place_of};
use crate::{Span, SpanChange};
use std::alloc::{AllocError, Global};

/// From where on rows stay behind a span, and where a row ends that takes the first of the others along.
fn end_of(rows: &[Span], at: usize, span: &Span) -> (usize, u64)
    requires rows { IsTrue (are_rows rows.now) }
    requires within { at ≤ length rows.now }
    requires place { IsPlace rows.now at span.now }
    ensures within { result.0 ≤ length rows.now }
    ensures end { IsEnd rows.now at span.now result.0 result.1 }
{
    if at < rows.len() {
        let row = rows[at];
        if joins(span, &row) {
            return (at + 1, row.to);
        }
    }
    (at, span.to)
}

/// The change that adds a span to canonical rows. It takes the place of the rows that it goes on or that go on with it:
/// no more than two go, and one comes.
///
/// # Errors
/// When memory runs out.
pub fn added(alloc: Global, rows: &[Span], span: Span) -> Result<SpanChange, AllocError>
    requires rows { IsTrue (are_rows rows.now) }
    requires row { IsTrue (is_row span) }
    requires free { IsTrue (is_free rows.now span) }
    ensures gone { IfOk result (λ change. length change.gone.items ≤ 2) }
    ensures come { IfOk result (λ change. length change.come.items ≡ 1) }
    ensures kept { IfOk result (λ change. IsTrue (are_rows (changed_rows change rows.now))) }
    ensures change { IfOk result (λ change. IsChange rows.now change.gone.items change.come.items
        (changed_rows change rows.now)) }
    ensures in_order { IfOk result (λ change. IsTrue (each_two span_before change.gone.items)) }
    ensures more { IfOk result (λ change. IsMore rows.now span (changed_rows change rows.now)) }
{
    let at = place_of(rows, &span);
    let (start, from) = start_of(rows, at, &span);
    let (end, to) = end_of(rows, at, &span);
    Ok(SpanChange {
        gone: Vec::from_slice(alloc, &rows[start..end])?,
        come: Vec::from_slice(alloc, &[Span { from, to, ..span }])?,
    })
}
