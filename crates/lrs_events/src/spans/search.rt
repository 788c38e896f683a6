//! What lies on a route, found by search.

ghost use Rattle.std.specs.Prelude.{◌≡◌, ◌<◌, ◌≤◌, ◌&&◌, IsTrue, IfOk, true, length};
ghost use Rattle.std.specs.List.{filter};
ghost use Rattle.lrs_measure.specs.Lists.{each_two};
ghost use Rattle.lrs_events.specs.declared.span.Span.{Span as DeclaredSpan};
ghost use Rattle.lrs_events.specs.Changes.{has_row};
ghost use Rattle.lrs_events.specs.Spans.{are_rows};
ghost use Rattle.lrs_events.specs.Row.Members.{is_of, leaves_free, is_free};
ghost use Rattle.lrs_events.specs.LaneLists.Lane.{is_met};
ghost use Rattle.lrs_events.specs.LaneLists.Order.{place_before};
ghost use Rattle.lrs_events.specs.RouteSpans.LanesOfRows.{AreKept, is_on};
ghost use Rattle.lrs_events.specs.RouteSpans.Search.{AreNear, IsPlaceOf, one_side, IsOver, lesser_of};

use crate::rows::order::rows_on;
use crate::spans::lanes::ClassLanes;
use crate::{ClassName, Lane, LinkSide, Side, Span};
use lrs_measure::limits::LONGEST_ROUTE;
use std::alloc::{AllocError, Global};

/// The rows of an asset of the class.
pub(crate) fn asset_rows(rows: &[Span], class: ClassName, asset: u64) -> &[Span]
    requires { IsTrue (are_rows rows.now) }
    ensures { result.now ≡ filter (is_of class asset) rows.now }
{
    let stretch = Span {
        asset,
        class,
        from: 0,
        to: LONGEST_ROUTE,
        side: Side::B,
    };
    let (start, end) = rows_on(rows, &stretch);
    &rows[start..end]
}

/// Where the lanes of the class are, or how many lanes there are if it has none.
fn place_of(lanes: &[ClassLanes], class: ClassName) -> usize
    ensures { IsPlaceOf lanes.now class result }
{
    for i in 0..lanes.len() {
        if lanes[i].class == class {
            return i;
        }
    }
    lanes.len()
}

/// The rows of the class with that side or both, by start and asset.
pub(crate) fn lane_of<'a>(
    rows: &'a [Span],
    lanes: &'a [ClassLanes],
    class: ClassName,
    side: LinkSide,
) -> &'a [Span]
    requires kept { AreKept rows.now lanes.now }
    ensures rows { (r : DeclaredSpan) → has_row result.now r
        ≡ (has_row rows.now r && is_on class side r) }
    ensures order { each_two place_before result.now ≡ true }
{
    let at = place_of(lanes, class);
    if at < lanes.len() {
        match side {
            LinkSide::Left => lanes[at].left.rows(),
            LinkSide::Right => lanes[at].right.rows(),
        }
    } else {
        &rows[..0]
    }
}

/// Rows of the class with that side or both: all with a millimetre from `from` up to `to`, and few others.
pub(crate) fn near<'a>(
    rows: &'a [Span],
    lanes: &'a [ClassLanes],
    class: ClassName,
    side: LinkSide,
    from: u64,
    to: u64,
) -> &'a [Span]
    requires kept { AreKept rows.now lanes.now }
    ensures { AreNear rows.now class side from to result.now }
{
    let at = place_of(lanes, class);
    if at < lanes.len() {
        match side {
            LinkSide::Left => lanes[at].left.near(from, to),
            LinkSide::Right => lanes[at].right.near(from, to),
        }
    } else {
        &rows[..0]
    }
}

/// The least asset of the class with a millimetre of the stretch on the side.
fn over_on(
    rows: &[Span],
    lanes: &[ClassLanes],
    from: u64,
    to: u64,
    class: ClassName,
    side: LinkSide,
) -> Option<u64>
    requires kept { AreKept rows.now lanes.now }
    requires filled { from < to }
    ensures { IsOver rows.now class from to (one_side side) result }
{
    let at = place_of(lanes, class);
    if at < lanes.len() {
        match side {
            LinkSide::Left => lanes[at].left.over(from, to),
            LinkSide::Right => lanes[at].right.over(from, to),
        }
    } else {
        None
    }
}

/// The lesser of two, where there are any.
fn lesser_of(a: Option<u64>, b: Option<u64>) -> Option<u64>
    ensures { result ≡ lesser_of a b }
{
    match (a, b) {
        (Some(a), Some(b)) => Some(a.min(b)),
        (Some(a), None) => Some(a),
        (None, b) => b,
    }
}

/// The least asset of the class with a millimetre from `from` up to `to` on a side that it shares with `side`.
pub(crate) fn over(
    rows: &[Span],
    lanes: &[ClassLanes],
    from: u64,
    to: u64,
    class: ClassName,
    side: Side,
) -> Option<u64>
    requires kept { AreKept rows.now lanes.now }
    requires filled { from < to }
    ensures { IsOver rows.now class from to side result }
{
    match side {
        Side::L => over_on(rows, lanes, from, to, class, LinkSide::Left),
        Side::R => over_on(rows, lanes, from, to, class, LinkSide::Right),
        Side::B => lesser_of(
            over_on(rows, lanes, from, to, class, LinkSide::Left),
            over_on(rows, lanes, from, to, class, LinkSide::Right),
        ),
    }
}

/// Whether the row leaves the span its millimetres, and is of its class if it is of its asset.
fn leaves_free(span: &Span, row: &Span) -> bool
    ensures { result ≡ leaves_free span.now row.now }
{
    row.asset != span.asset
        || (row.class == span.class && (row.to <= span.from || span.to <= row.from))
}

/// Whether each of the rows leaves the span free.
fn all_leave_free(rows: &[Span], span: &Span) -> bool
    ensures { result ≡ is_free rows.now span.now }
{
    rows.iter().all(|row| leaves_free(span, row))
}

/// Whether no row of the span's asset is of another class or has a millimetre of it: the rows of the asset are
/// searched for in each class that has lanes.
pub(crate) fn is_free(rows: &[Span], lanes: &[ClassLanes], span: &Span) -> bool
    requires kept { AreKept rows.now lanes.now }
    ensures { result ≡ is_free rows.now span.now }
{
    for i in 0..lanes.len() {
        if !all_leave_free(asset_rows(rows, lanes[i].class, span.asset), span) {
            return false;
        }
    }
    true
}
