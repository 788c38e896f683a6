//! A route goes on as another does: the rows of both become those of one.

ghost use Rattle.std.specs.Prelude.{◌≡◌, ◌+◌, ◌<◌, ◌≤◌, IsTrue, IfOk, OnOk};
ghost use Rattle.lrs_measure.specs.Limits.{longest_route};
ghost use Rattle.lrs_events.specs.Changes.{changed_rows};
ghost use Rattle.lrs_events.specs.Spans.{are_rows, is_row, span_before};
ghost use Rattle.lrs_measure.specs.Lists.{each_two};
ghost use Rattle.lrs_events.specs.Row.Changes.{IsChange};
ghost use Rattle.lrs_events.specs.Row.Joins.{moved, end_by, have_room, are_of_one_class, AddsSeam, IsJoin};
ghost use Rattle.lrs_events.specs.Row.Members.{is_free};

use crate::rows::merger::start_of;
use crate::rows::order::place_of;
use crate::{Span, SpanChange};
use std::alloc::{AllocError, Global};

/// Adds what is removed and inserted for one row behind the first ones.
///
/// # Errors
/// When memory runs out.
fn push_seam(change: &mut SpanChange, first: &[Span], row: Span) -> Result<(), AllocError>
    requires rows { IsTrue (are_rows first.now) }
    requires row { IsTrue (is_row row) }
    requires free { IsTrue (is_free first.now row) }
    ensures { OnOk result
        (AddsSeam first.now row change.old.gone.items change.old.come.items change.new.gone.items
        change.new.come.items) }
{
    let at = place_of(first, &row);
    let (start, from) = start_of(first, at, &row);
    change.gone.extend_from_slice(&first[start..at])?;
    change.come.push(Span { from, ..row })?;
    Ok(())
}

/// The change that makes of the rows of a route those of the route with another behind it. The rows of the other come
/// `shift` millimetres further on than they are. One that begins the other route goes on with a row of the first that
/// ends there, if they are of one asset and side.
///
/// # Errors
/// When memory runs out.
pub fn joined(
    alloc: Global,
    first: &[Span],
    second: &[Span],
    shift: u64,
) -> Result<SpanChange, AllocError>
    requires first_rows { IsTrue (are_rows first.now) }
    requires second_rows { IsTrue (are_rows second.now) }
    requires ends { IsTrue (end_by shift first.now) }
    requires room { IsTrue (have_room shift second.now) }
    requires one_class { IsTrue (are_of_one_class first.now second.now) }
    ensures kept { IfOk result (λ change. IsTrue (are_rows (changed_rows change first.now))) }
    ensures change { IfOk result (λ change. IsChange first.now change.gone.items change.come.items
        (changed_rows change first.now)) }
    ensures in_order { IfOk result (λ change. IsTrue (each_two span_before change.gone.items)) }
    ensures joined { IfOk result (λ change. IsJoin shift first.now second.now
        (changed_rows change first.now)) }
{
    let mut change = SpanChange {
        gone: Vec::new(alloc),
        come: Vec::new(alloc),
    };
    for row in second {
        let moved = Span {
            from: row.from + shift,
            to: row.to + shift,
            ..*row
        };
        push_seam(&mut change, first, moved)?;
    }
    Ok(change)
}
