//! A stretch of a route is replaced by other ground: what lay on it is taken away, and what lay behind it goes on
//! behind the new ground.

ghost use Rattle.std.specs.Prelude.{◌≡◌, ◌+◌, ◌≤◌, IsTrue, IfOk};
ghost use Rattle.lrs_measure.specs.Limits.{longest_route};
ghost use Rattle.lrs_events.specs.Spans.{are_rows};
ghost use Rattle.lrs_events.specs.Row.Joins.{end_by, have_room, are_of_one_class, IsJoin};
ghost use Rattle.lrs_events.specs.RouteSpans.Realignment.{have_room_behind};
ghost use Rattle.lrs_verbs.specs.RouteVerbs.RealignedRows.{IsRealigning};

use lrs_events::rows::change::difference;
use lrs_events::rows::clips::clips;
use lrs_events::rows::joins::joined;
use lrs_events::{Span, SpanChange, Spans};
use std::alloc::{AllocError, Global};

/// What is taken away, as canonical rows, and the change that leaves and moves the rest.
#[derive(Drop)]
pub struct RealignedRows {
    pub left: Vec<Span>,
    pub change: SpanChange,
}

/// What changes of the rows of a route where `len` millimetres of other ground come for those from chainage `from` up
/// to `to`.
///
/// # Errors
/// When memory runs out.
pub fn plan_rows(
    alloc: Global,
    spans: &Spans,
    from: u64,
    to: u64,
    len: u64,
) -> Result<RealignedRows, AllocError>
    requires limit { from + len ≤ longest_route }
    requires room { IsTrue (have_room_behind to (from + len) spans.now) }
    ensures { IfOk result (λ realigned. IsRealigning from to len spans.now realigned) }
{
    let rows = spans.rows();
    let left = clips(alloc, rows, from, to)?;
    let front = clips(alloc, rows, 0, from)?;
    let cut = spans.plan_cut(alloc, to)?;
    let new = gone_on(alloc, front, &cut.rear, from + len)?;
    let change = difference(alloc, rows, new.rows())?;
    Ok(RealignedRows { left, change })
}

/// The rows of a route that continues with others from a chainage on.
fn gone_on(alloc: Global, front: Vec<Span>, rear: &[Span], at: u64) -> Result<Spans, AllocError>
    requires front { IsTrue (are_rows front.items) }
    requires rear { IsTrue (are_rows rear.now) }
    requires ends { IsTrue (end_by at front.items) }
    requires room { IsTrue (have_room at rear.now) }
    requires one_class { IsTrue (are_of_one_class front.items rear.now) }
    ensures { IfOk result (λ new. IsJoin at front.items rear.now new) }
{
    let mut new = Spans::of_rows(alloc, front)?;
    let seam = joined(alloc, new.rows(), rear, at)?;
    new.apply(&seam)?;
    Ok(new)
}
