//! The orders in which rows are kept.

ghost use Rattle.std.specs.Prelude.{◌≡◌, ◌||◌, ◌&&◌, nat_eq, nat_lt};
ghost use Rattle.std.specs.Ordering.{is_lt};
ghost use Rattle.lrs_events.specs.Spans.{span_before};
ghost use Rattle.lrs_events.specs.LaneLists.Order.{place_before, row_before};

use crate::Span;
use std::cmp::Ordering;

/// An order of rows.
#[derive(Clone, Copy, PartialEq, Eq)]
pub enum RowOrder {
    /// By class, then asset, then start.
    ByAsset,
    /// By start, then asset.
    ByPlace,
}

/// Whether the first comes before the second, where both are of one class.
fn is_before_in_class(r: &Span, s: &Span) -> bool
    ensures { result ≡ (nat_lt r.now.asset s.now.asset
        || (nat_eq r.now.asset s.now.asset && nat_lt r.now.from s.now.from)) }
{
    r.asset < s.asset || (r.asset == s.asset && r.from < s.from)
}

fn is_before_by_asset(r: &Span, s: &Span) -> bool
    ensures { result ≡ span_before r.now s.now }
{
    // Whether the classes are one is asked first, since most often they are.
    if r.class == s.class {
        is_before_in_class(r, s)
    } else {
        r.class < s.class
    }
}

fn is_before_by_place(r: &Span, s: &Span) -> bool
    ensures { result ≡ place_before r.now s.now }
{
    r.from < s.from || (r.from == s.from && r.asset < s.asset)
}

/// Whether the first comes before the second.
pub fn comes_before(order: RowOrder, r: &Span, s: &Span) -> bool
    ensures { result ≡ row_before order r.now s.now }
{
    match order {
        RowOrder::ByAsset => is_before_by_asset(r, s),
        RowOrder::ByPlace => is_before_by_place(r, s),
    }
}

/// How the two lie in the order, as a sort asks it.
pub fn compare(order: RowOrder, r: &Span, s: &Span) -> Ordering
    ensures { is_lt result ≡ row_before order r.now s.now }
{
    if comes_before(order, r, s) {
        Ordering::Less
    } else if comes_before(order, s, r) {
        Ordering::Greater
    } else {
        Ordering::Equal
    }
}
