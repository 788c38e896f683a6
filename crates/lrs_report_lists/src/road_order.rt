//! The order of the road, in which the rows of a route are told.

ghost use Rattle.std.specs.Prelude.{◌≡◌, true, filter, IfOk, IsTrue};
ghost use Rattle.std.specs.Ordering.{is_lt};
ghost use Rattle.lrs_measure.specs.Lists.{each_two};
ghost use Rattle.lrs_events.specs.Spans.{are_rows, span_before};
ghost use Rattle.lrs_report_lists.specs.RoadOrder.{holder_before, in_road_order, road_before, side_before, side_rank};
ghost use Rattle.lrs_report_lists.specs.WantedRows.{is_wanted};

use crate::wanted::is_wanted;
use lrs_events::{Side, Span};
use lrs_machine::RowsWanted;
use std::alloc::{AllocError, Global};
use std::cmp::Ordering;

/// Left comes first, then right, then both.
fn side_rank(side: Side) -> u8
    ensures { result ≡ side_rank side }
{
    match side {
        Side::L => 0,
        Side::R => 1,
        Side::B => 2,
    }
}

fn has_earlier_holder(row: &Span, other: &Span) -> bool
    ensures { result ≡ holder_before row.now other.now }
{
    row.class < other.class || (row.class == other.class && row.asset < other.asset)
}

fn has_earlier_side(row: &Span, other: &Span) -> bool
    ensures { result ≡ side_before row.now other.now }
{
    side_rank(row.side) < side_rank(other.side)
        || (row.side == other.side && has_earlier_holder(row, other))
}

fn comes_before(row: &Span, other: &Span) -> bool
    ensures { result ≡ road_before row.now other.now }
{
    row.from < other.from || (row.from == other.from && has_earlier_side(row, other))
}

/// How the two lie in the order, as a sort asks it.
fn compare(row: &Span, other: &Span) -> Ordering
    ensures { is_lt result ≡ road_before row.now other.now }
{
    if comes_before(row, other) {
        Ordering::Less
    } else if comes_before(other, row) {
        Ordering::Greater
    } else {
        Ordering::Equal
    }
}

/// Sorts rows of one route in the order of the road. It takes no memory.
fn sort(rows: &mut Vec<Span>)
    requires { each_two span_before rows.old.items ≡ true }
    ensures { rows.new.items ≡ in_road_order rows.old.items }
{
    rows.sort_unstable_by(|row, other| compare(row, other));
}

/// The rows that are asked for, as the route keeps them.
fn wanted_rows(alloc: Global, wanted: &RowsWanted, rows: &[Span]) -> Result<Vec<Span>, AllocError>
    ensures { IfOk result (λ found. found.items ≡ filter (is_wanted wanted.now) rows.now) }
{
    rows.iter()
        .filter(|row| is_wanted(wanted, row))
        .copied()
        .collect(alloc)
}

/// The rows of a route that are asked for, in the order of the road: by the chainage at which they begin, then side, left
/// before right before both, then class and asset. The route is not asked.
///
/// They alone are copied, so a caller that goes route by route holds no more than the wanted rows of one route at a time.
///
/// # Errors
/// When memory runs out.
pub fn rows_in_road_order(
    alloc: Global,
    wanted: &RowsWanted,
    rows: &[Span],
) -> Result<Vec<Span>, AllocError>
    requires { IsTrue (are_rows rows.now) }
    ensures { IfOk result (λ found. found.items
        ≡ in_road_order (filter (is_wanted wanted.now) rows.now)) }
{
    let mut found = wanted_rows(alloc, wanted, rows)?;
    sort(&mut found);
    Ok(found)
}
