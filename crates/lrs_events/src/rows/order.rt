//! The order of rows, and where among them a row or a stretch comes.

ghost use Rattle.std.specs.Prelude.{◌≡◌, ◌≤◌, ◌<◌, IsTrue, true, false, length, not};
ghost use Rattle.std.specs.List.Sorted.{IsPartitionPoint};
ghost use Rattle.lrs_events.specs.Changes.{same_row, has_row};
ghost use Rattle.lrs_events.specs.Spans.{are_rows, is_row, span_before};
ghost use Rattle.lrs_events.specs.Row.Members.{is_free, joins};
ghost use Rattle.lrs_events.specs.Row.Clips.{is_left};
ghost use Rattle.lrs_events.specs.Row.Order.{IsPlace, IsStretch};

use crate::{Span, is_same};

/// Whether the first comes before the second: by class, then asset, then start.
pub fn comes_before(r: &Span, s: &Span) -> bool
    ensures { result ≡ span_before r.now s.now }
{
    r.class < s.class
        || (r.class == s.class && (r.asset < s.asset || (r.asset == s.asset && r.from < s.from)))
}

/// Whether the first comes before the second and shares no millimetre with it.
pub fn is_left(r: &Span, s: &Span) -> bool
    ensures { result ≡ is_left r.now s.now }
{
    r.class < s.class
        || (r.class == s.class && (r.asset < s.asset || (r.asset == s.asset && r.to <= s.from)))
}

/// Whether the second goes on with the same asset on the same side where the first ends.
pub fn joins(r: &Span, s: &Span) -> bool
    ensures { result ≡ joins r.now s.now }
{
    r.class == s.class && r.asset == s.asset && r.to == s.from && r.side == s.side
}

/// How many rows come before the row.
pub fn rows_begun(rows: &[Span], row: &Span) -> usize
    requires { IsTrue (are_rows rows.now) }
    ensures within { result ≤ length rows.now }
    ensures point { IsPartitionPoint (λ r. span_before r row.now ≡ true) (λ r.
        span_before r row.now ≡ false) rows.now result }
{
    rows.partition_point(|other| comes_before(other, row))
}

/// Whether the row is one of these.
pub fn has(rows: &[Span], row: &Span) -> bool
    requires { IsTrue (are_rows rows.now) }
    ensures { result ≡ has_row rows.now row.now }
{
    let at = rows_begun(rows, row);
    if at < rows.len() {
        is_same(&rows[at], row)
    } else {
        false
    }
}

/// How many rows come before a span that shares no millimetre with a row of its asset.
pub fn place_of(rows: &[Span], span: &Span) -> usize
    requires rows { IsTrue (are_rows rows.now) }
    requires row { IsTrue (is_row span.now) }
    requires free { IsTrue (is_free rows.now span.now) }
    ensures within { result ≤ length rows.now }
    ensures place { IsPlace rows.now result span.now }
{
    rows.partition_point(|row| comes_before(row, span))
}

/// How many rows come before the stretch of an asset and share no millimetre with it.
pub fn rows_before(rows: &[Span], stretch: &Span) -> usize
    requires rows { IsTrue (are_rows rows.now) }
    requires filled { stretch.now.from < stretch.now.to }
    ensures within { result ≤ length rows.now }
    ensures point { IsPartitionPoint (λ r. is_left r stretch.now ≡ true) (λ r.
        is_left r stretch.now ≡ false) rows.now result }
{
    rows.partition_point(|row| is_left(row, stretch))
}

/// How many rows do not come behind the stretch of an asset.
pub fn rows_up_to(rows: &[Span], stretch: &Span) -> usize
    requires rows { IsTrue (are_rows rows.now) }
    requires filled { stretch.now.from < stretch.now.to }
    ensures within { result ≤ length rows.now }
    ensures point { IsPartitionPoint (λ r. not (is_left stretch.now r) ≡ true) (λ r.
        not (is_left stretch.now r) ≡ false) rows.now result }
{
    rows.partition_point(|row| !is_left(stretch, row))
}

/// From where on, and up to where, rows have a millimetre of the stretch of its asset.
pub fn rows_on(rows: &[Span], stretch: &Span) -> (usize, usize)
    requires rows { IsTrue (are_rows rows.now) }
    requires filled { stretch.now.from < stretch.now.to }
    ensures order { result.0 ≤ result.1 }
    ensures within { result.1 ≤ length rows.now }
    ensures stretch { IsStretch rows.now stretch.now result.0 result.1 }
{
    (rows_before(rows, stretch), rows_up_to(rows, stretch))
}
