//! Whether the rows of a route are canonical.

ghost use Rattle.std.specs.Prelude.{◌≡◌, ◌&&◌, true, IsPermutation};
ghost use Rattle.std.specs.List.{list_all};
ghost use Rattle.std.specs.List.Sorted.{IsSortedBy};
ghost use Rattle.std.specs.Option.{option_map};
ghost use Rattle.lrs_measure.specs.Lists.{each_two};
ghost use Rattle.lrs_events.specs.Spans.{are_apart, are_rows, is_row, same_side, span_before};
ghost use Rattle.lrs_store_image.specs.DecodedRoutes.Spans.{agree, canonical, follows};

use lrs_events::{RowOrder, Side, Span, comes_before, compare};
use lrs_measure::limits::LONGEST_ROUTE;

fn is_row(row: &Span) -> bool
    ensures { result ≡ is_row row.now }
{
    row.from < row.to && row.to <= LONGEST_ROUTE
}

fn is_same_side(a: Side, b: Side) -> bool
    ensures { result ≡ same_side a b }
{
    a == b
}

fn are_apart(r: &Span, s: &Span) -> bool
    ensures { result ≡ are_apart r.now s.now }
{
    r.asset != s.asset
        || (r.class == s.class
            && (r.to < s.from
                || s.to < r.from
                || ((r.to == s.from || s.to == r.from) && !is_same_side(r.side, s.side))))
}

fn follows(r: &Span, s: &Span) -> bool
    ensures { result ≡ follows r.now s.now }
{
    comes_before(RowOrder::ByAsset, r, s) && are_apart(r, s)
}

fn are_filled(rows: &[Span]) -> bool
    ensures { result ≡ list_all is_row rows.now }
{
    rows.iter().all(|row| is_row(row))
}

/// Whether rows are sorted, and those of one asset apart, by neighbours.
fn follow_each_other(rows: &[Span]) -> bool
    requires filled { list_all is_row rows.now ≡ true }
    requires agree { each_two agree rows.now ≡ true }
    ensures { result ≡ (each_two span_before rows.now && each_two are_apart rows.now) }
{
    rows.is_sorted_by(|r, s| follows(r, s))
}

/// Whether rows, of which none tells another class of an asset than another, are canonical.
fn are_rows(rows: &[Span]) -> bool
    requires { each_two agree rows.now ≡ true }
    ensures { result ≡ are_rows rows.now }
{
    are_filled(rows) && follow_each_other(rows)
}

/// Sorts rows. It takes no memory.
fn sort(rows: &mut Vec<Span>)
    ensures same { IsPermutation rows.old.items rows.new.items }
    ensures sorted { IsSortedBy span_before rows.new.items }
{
    rows.sort_unstable_by(|r, s| compare(RowOrder::ByAsset, r, s));
}

/// Rows in their order, if they are canonical, where none tells another class of an asset than another. It
/// takes no memory.
pub(crate) fn canonical(mut rows: Vec<Span>) -> Option<Vec<Span>>
    requires { each_two agree rows.items ≡ true }
    ensures { option_map (λ v. v.items) result ≡ canonical rows.items }
{
    sort(&mut rows);
    if !are_rows(&rows) {
        return None;
    }
    Some(rows)
}
