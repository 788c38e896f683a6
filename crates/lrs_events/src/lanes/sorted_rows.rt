//! Rows in order, changed in vectors that have room.

ghost use Rattle.std.specs.Prelude.{◌≡◌, ◌+◌, ◌<◌, ◌≤◌, ◌++◌, true, false, not, length, vec_len, vec_capacity};
ghost use Rattle.std.specs.List.{insert, filter};
ghost use Rattle.std.specs.List.Sorted.{IsPartitionPoint, IsPermutation, IsSortedBy};
ghost use Rattle.lrs_measure.specs.Lists.{each_two};
ghost use Rattle.lrs_measure.specs.OrderedLists.{place_by, insert_by, insert_all};
ghost use Rattle.lrs_events.specs.declared.span.Span.{Span as DeclaredSpan};
ghost use Rattle.lrs_events.specs.Changes.{same_row, has_row, without_rows, changed};
ghost use Rattle.lrs_events.specs.Spans.{span_before};
ghost use Rattle.lrs_events.specs.LaneLists.Order.{row_before};

use crate::lanes::order::{RowOrder, comes_before, compare};
use crate::{Span, is_same};

// Up to so many removed and inserted rows are searched for one by one.
const FEW: usize = 16;

/// How many rows come before the row, in their order.
pub(crate) fn rows_before(order: RowOrder, rows: &[Span], row: &Span) -> usize
    requires { each_two (row_before order) rows.now ≡ true }
    ensures within { result ≤ length rows.now }
    ensures point { IsPartitionPoint (λ r. row_before order r row.now ≡ true) (λ r.
        row_before order r row.now ≡ false) rows.now result }
{
    rows.partition_point(|other| comes_before(order, other, row))
}

/// Whether the row is one of these, which are in order.
fn has(order: RowOrder, rows: &[Span], row: &Span) -> bool
    requires { each_two (row_before order) rows.now ≡ true }
    ensures { result ≡ has_row rows.now row.now }
{
    let at = rows_before(order, rows, row);
    if at < rows.len() {
        is_same(&rows[at], row)
    } else {
        false
    }
}

/// Takes a row out, if it is there.
fn remove_row(order: RowOrder, rows: &mut Vec<Span>, row: &Span)
    requires { each_two (row_before order) rows.old.items ≡ true }
    ensures items { rows.new.items ≡ filter (λ r. not (same_row row.now r)) rows.old.items }
    ensures len { vec_len rows.new ≤ vec_len rows.old }
    ensures capacity { vec_capacity rows.new ≡ vec_capacity rows.old }
{
    let at = rows_before(order, rows, row);
    if at < rows.len() && is_same(row, &rows[at]) {
        rows.remove(at);
    }
}

/// Takes rows out, one by one.
fn remove_rows(order: RowOrder, rows: &mut Vec<Span>, gone: &[Span])
    requires { each_two (row_before order) rows.old.items ≡ true }
    ensures items { rows.new.items ≡ without_rows gone.now rows.old.items }
    ensures len { vec_len rows.new ≤ vec_len rows.old }
    ensures capacity { vec_capacity rows.new ≡ vec_capacity rows.old }
{
    for row in gone {
        remove_row(order, rows, row);
    }
}

// Puts a row into a vector that has room for it.
fn insert_at(rows: &mut Vec<Span>, at: usize, row: Span)
    requires room { vec_len rows.old < vec_capacity rows.old }
    requires place { at ≤ vec_len rows.old }
    ensures items { rows.new.items ≡ insert rows.old.items at row }
    ensures len { vec_len rows.new ≡ vec_len rows.old + 1 }
    ensures capacity { vec_capacity rows.old ≤ vec_capacity rows.new }
{
    if rows.insert(at, row).is_err() {
        unreachable!()
    }
}

// Where a row belongs among others, all of them in order.
fn place_of(order: RowOrder, rows: &[Span], row: &Span) -> usize
    requires { each_two (row_before order) (insert_by (row_before order) row.now rows.now) ≡ true }
    ensures place { result ≡ place_by (row_before order row.now) rows.now }
    ensures within { result ≤ length rows.now }
{
    rows.partition_point(|other| !comes_before(order, row, other))
}

/// Puts a row in its place. No row before its place is moved.
fn insert_row(order: RowOrder, rows: &mut Vec<Span>, row: Span)
    requires room { vec_len rows.old < vec_capacity rows.old }
    requires order { each_two (row_before order) (insert_by (row_before order) row rows.old.items)
        ≡ true }
    ensures items { rows.new.items ≡ insert_by (row_before order) row rows.old.items }
    ensures len { vec_len rows.new ≡ vec_len rows.old + 1 }
    ensures capacity { vec_capacity rows.old ≤ vec_capacity rows.new }
{
    let at = place_of(order, rows, &row);
    insert_at(rows, at, row);
}

/// Puts rows in their places, one by one.
fn insert_rows(order: RowOrder, rows: &mut Vec<Span>, come: &[Span])
    requires room { vec_len rows.old + length come.now ≤ vec_capacity rows.old }
    requires order { each_two (row_before order)
        (insert_all (row_before order) come.now rows.old.items) ≡ true }
    ensures items { rows.new.items ≡ insert_all (row_before order) come.now rows.old.items }
    ensures capacity { vec_capacity rows.old ≤ vec_capacity rows.new }
{
    for row in come {
        insert_row(order, rows, *row);
    }
}

/// Changes a few rows, each by a search and one move of the rows behind it.
fn change_few(order: RowOrder, rows: &mut Vec<Span>, gone: &[Span], come: &[Span])
    requires room { vec_len rows.old + length come.now ≤ vec_capacity rows.old }
    requires before { each_two (row_before order) rows.old.items ≡ true }
    requires after { each_two (row_before order)
        (changed (row_before order) gone.now come.now rows.old.items) ≡ true }
    ensures items { rows.new.items ≡ changed (row_before order) gone.now come.now rows.old.items }
    ensures capacity { vec_capacity rows.old ≤ vec_capacity rows.new }
{
    remove_rows(order, rows, gone);
    insert_rows(order, rows, come);
}

/// The least and the greatest start of rows; where there are none, no start lies between the two.
fn starts(rows: &[Span]) -> (u64, u64)
    ensures { (r : DeclaredSpan) → has_row rows.now r ≡ true
        → (result.0 ≤ r.from) × (r.from ≤ result.1) }
{
    let mut least = u64::MAX;
    let mut greatest = 0u64;
    for row in rows {
        least = row.from.min(least);
        greatest = row.from.max(greatest);
    }
    (least, greatest)
}

/// Whether the row is one of the removed ones, whose least and greatest start are given. One that begins before or
/// behind them all is not searched for.
fn goes(gone: &[Span], least: u64, greatest: u64, row: &Span) -> bool
    requires order { each_two span_before gone.now ≡ true }
    requires starts { (r : DeclaredSpan) → has_row gone.now r ≡ true
        → (least ≤ r.from) × (r.from ≤ greatest) }
    ensures { result ≡ has_row gone.now row.now }
{
    least <= row.from && row.from <= greatest && has(RowOrder::ByAsset, gone, row)
}

/// Takes out the removed rows, in one pass.
fn retain_others(rows: &mut Vec<Span>, gone: &[Span])
    requires { each_two span_before gone.now ≡ true }
    ensures items { rows.new.items ≡ without_rows gone.now rows.old.items }
    ensures len { vec_len rows.new ≤ vec_len rows.old }
    ensures capacity { vec_capacity rows.new ≡ vec_capacity rows.old }
{
    let (least, greatest) = starts(gone);
    rows.retain(|row| !goes(gone, least, greatest, row));
}

// Puts rows at the end of a vector that has room for them.
fn append_in_room(rows: &mut Vec<Span>, come: &[Span])
    requires { vec_len rows.old + length come.now ≤ vec_capacity rows.old }
    ensures items { rows.new.items ≡ rows.old.items ++ come.now }
    ensures capacity { vec_capacity rows.old ≤ vec_capacity rows.new }
{
    if rows.extend_from_slice(come).is_err() {
        unreachable!()
    }
}

/// Sorts rows. It takes no memory.
pub(crate) fn sort(order: RowOrder, rows: &mut Vec<Span>)
    ensures same { IsPermutation rows.old.items rows.new.items }
    ensures sorted { IsSortedBy (row_before order) rows.new.items }
    ensures capacity { vec_capacity rows.new ≡ vec_capacity rows.old }
{
    rows.sort_unstable_by(|r, s| compare(order, r, s));
}

/// Changes many rows, in one pass and a sort.
fn change_many(order: RowOrder, rows: &mut Vec<Span>, gone: &[Span], come: &[Span])
    requires room { vec_len rows.old + length come.now ≤ vec_capacity rows.old }
    requires gone { each_two span_before gone.now ≡ true }
    requires after { each_two (row_before order)
        (changed (row_before order) gone.now come.now rows.old.items) ≡ true }
    ensures items { rows.new.items ≡ changed (row_before order) gone.now come.now rows.old.items }
    ensures capacity { vec_capacity rows.old ≤ vec_capacity rows.new }
{
    retain_others(rows, gone);
    append_in_room(rows, come);
    sort(order, rows);
}

/// Takes out of rows in order the removed ones, which are sorted by class, asset and start, and puts those that
/// come in their places. The vector has room for them, so that it takes no memory and cannot fail.
pub fn change_in_room(order: RowOrder, rows: &mut Vec<Span>, gone: &[Span], come: &[Span])
    requires room { vec_len rows.old + length come.now ≤ vec_capacity rows.old }
    requires gone { each_two span_before gone.now ≡ true }
    requires before { each_two (row_before order) rows.old.items ≡ true }
    requires after { each_two (row_before order)
        (changed (row_before order) gone.now come.now rows.old.items) ≡ true }
    ensures items { rows.new.items ≡ changed (row_before order) gone.now come.now rows.old.items }
    ensures capacity { vec_capacity rows.old ≤ vec_capacity rows.new }
{
    if gone.len() <= FEW && come.len() <= FEW {
        change_few(order, rows, gone, come);
    } else {
        change_many(order, rows, gone, come);
    }
}
