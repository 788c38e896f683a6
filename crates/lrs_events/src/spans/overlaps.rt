//! Rows that have a millimetre of a stretch, found by the lanes.

ghost use Rattle.std.specs.Prelude.{◌≡◌, ◌+◌, ◌<◌, ◌++◌, ◌&&◌, true, nat_le, nat_lt, length, take, not, slice_index_or, IsTrue, IfOk, OnOk};
ghost use Rattle.std.specs.Ordering.{is_lt};
ghost use Rattle.std.specs.List.{filter, flat_map};
ghost use Rattle.std.specs.List.Sorted.{IsPermutation, IsSortedBy};
ghost use Rattle.lrs_measure.specs.Lists.{each_two};
ghost use Rattle.lrs_measure.specs.Texts.{Name};
ghost use Rattle.lrs_events.specs.declared.span.Span.{Span as DeclaredSpan};
ghost use Rattle.lrs_events.specs.Changes.{has_row};
ghost use Rattle.lrs_events.specs.Spans.{are_rows};
ghost use Rattle.lrs_events.specs.Row.Members.{is_of};
ghost use Rattle.lrs_events.specs.Row.Removals.{is_met};
ghost use Rattle.lrs_events.specs.RouteSpans.LanesOfRows.{AreKept};
ghost use Rattle.lrs_events.specs.RouteSpans.Overlaps.{met_in, met_of, is_with, is_met_asset, goes_before, AreRanked};

use crate::rows::order::comes_before;
use crate::spans::lanes::ClassLanes;
use crate::spans::search::asset_rows;
use crate::{ClassName, Span};
use std::alloc::{AllocError, Global};
use std::cmp::Ordering;

// Where more than this part of the rows is met, to look at each row is quicker than to sort those that lanes have.
const PART: usize = 8;

/// By what rows are sorted.
#[derive(Clone, Copy)]
pub(crate) enum Sorting {
    /// By class, then asset, then start.
    ByRow,
    /// By asset.
    ByAsset,
}

/// Whether the first comes before the second.
fn goes_before(by: Sorting, r: &Span, s: &Span) -> bool
    ensures { result ≡ goes_before by r.now s.now }
{
    match by {
        Sorting::ByRow => comes_before(r, s),
        Sorting::ByAsset => r.asset < s.asset,
    }
}

/// How the two lie in the order, as a sort asks it.
fn compare(by: Sorting, r: &Span, s: &Span) -> Ordering
    ensures { is_lt result ≡ goes_before by r.now s.now }
{
    if goes_before(by, r, s) {
        Ordering::Less
    } else if goes_before(by, s, r) {
        Ordering::Greater
    } else {
        Ordering::Equal
    }
}

/// Sorts rows. It takes no memory.
fn sort(by: Sorting, rows: &mut Vec<Span>)
    ensures same { IsPermutation rows.old.items rows.new.items }
    ensures sorted { IsSortedBy (goes_before by) rows.new.items }
{
    rows.sort_unstable_by(|r, s| compare(by, r, s));
}

/// Whether a row is none of those in front of it, where rows are sorted.
fn is_new(by: Sorting, rows: &[Span], i: usize) -> bool
    requires within { i < length rows.now }
    requires sorted { IsSortedBy (goes_before by) rows.now }
    requires ranked { AreRanked (goes_before by) rows.now }
    ensures { (d : DeclaredSpan) → result ≡ not (has_row (take i rows.now)
        (slice_index_or rows.now i d)) }
{
    if i == 0 {
        true
    } else {
        goes_before(by, &rows[i - 1], &rows[i])
    }
}

/// Sorted rows, each of them once.
///
/// # Errors
/// When memory runs out.
fn strict(alloc: Global, by: Sorting, rows: &[Span]) -> Result<Vec<Span>, AllocError>
    requires sorted { IsSortedBy (goes_before by) rows.now }
    requires ranked { AreRanked (goes_before by) rows.now }
    ensures order { IfOk result (λ found. each_two (goes_before by) found.items ≡ true) }
    ensures same { IfOk result (λ found. (r : DeclaredSpan)
        → has_row found.items r ≡ has_row rows.now r) }
{
    let mut found = Vec::new(alloc);
    for i in 0..rows.len() {
        if is_new(by, rows, i) {
            found.push(rows[i])?;
        }
    }
    Ok(found)
}

/// Rows in order, each of them once.
///
/// # Errors
/// When memory runs out.
fn in_order(alloc: Global, by: Sorting, mut rows: Vec<Span>) -> Result<Vec<Span>, AllocError>
    requires { AreRanked (goes_before by) rows.items }
    ensures order { IfOk result (λ found. each_two (goes_before by) found.items ≡ true) }
    ensures same { IfOk result (λ found. (r : DeclaredSpan)
        → has_row found.items r ≡ has_row rows.items r) }
{
    sort(by, &mut rows);
    strict(alloc, by, &rows)
}

/// Copies the rows of a class with a millimetre from low up to high to the end of others, those with both sides
/// twice.
fn push_class(of: &ClassLanes, low: u64, high: u64, found: &mut Vec<Span>) -> Result<(), AllocError>
    ensures { OnOk result (found.new.items ≡ found.old.items ++ met_in low high of.now) }
{
    of.left.push_met(low, high, found)?;
    of.right.push_met(low, high, found)
}

/// The rows with a millimetre from low up to high, class by class, those with both sides twice.
///
/// # Errors
/// When memory runs out.
fn collect(
    alloc: Global,
    lanes: &[ClassLanes],
    low: u64,
    high: u64,
) -> Result<Vec<Span>, AllocError>
    ensures { IfOk result (λ found. found.items ≡ flat_map (met_in low high) lanes.now) }
{
    let mut found = Vec::new(alloc);
    for of in lanes {
        push_class(of, low, high, &mut found)?;
    }
    Ok(found)
}

/// The rows with a millimetre from low up to high, in their order, found by a look at each row.
///
/// # Errors
/// When memory runs out.
fn read_met(alloc: Global, rows: &[Span], low: u64, high: u64) -> Result<Vec<Span>, AllocError>
    ensures { IfOk result (λ found. found.items ≡ filter (is_met low high) rows.now) }
{
    let mut found = Vec::new(alloc);
    for row in rows {
        if row.from < high && low < row.to {
            found.push(*row)?;
        }
    }
    Ok(found)
}

/// The rows with a millimetre from chainage low up to high, in their order.
///
/// # Errors
/// When memory runs out.
pub(crate) fn met(
    alloc: Global,
    rows: &[Span],
    lanes: &[ClassLanes],
    low: u64,
    high: u64,
) -> Result<Vec<Span>, AllocError>
    requires kept { AreKept rows.now lanes.now }
    ensures { IfOk result (λ found. found.items ≡ filter (is_met low high) rows.now) }
{
    let found = collect(alloc, lanes, low, high)?;
    if found.len() > rows.len() / PART {
        return read_met(alloc, rows, low, high);
    }
    in_order(alloc, Sorting::ByRow, found)
}

/// The rows over the millimetre that begins at a chainage, by asset.
///
/// # Errors
/// When memory runs out.
pub(crate) fn at(
    alloc: Global,
    rows: &[Span],
    lanes: &[ClassLanes],
    j: u64,
) -> Result<Vec<Span>, AllocError>
    requires kept { AreKept rows.now lanes.now }
    ensures found { IfOk result (λ found. (r : DeclaredSpan)
        → has_row found.items r ≡ (has_row rows.now r && (nat_le r.from j && nat_lt j r.to))) }
    ensures order { IfOk result (λ found. each_two (λ r s. nat_lt r.asset s.asset) found.items
        ≡ true) }
{
    let found = collect(alloc, lanes, j, j.saturating_add(1))?;
    in_order(alloc, Sorting::ByAsset, found)
}

/// The rows of a class with a millimetre from low up to high, those with both sides twice.
///
/// # Errors
/// When memory runs out.
fn collect_of(
    alloc: Global,
    lanes: &[ClassLanes],
    class: ClassName,
    low: u64,
    high: u64,
) -> Result<Vec<Span>, AllocError>
    ensures { IfOk result (λ found. found.items ≡ flat_map (met_of class low high) lanes.now) }
{
    let mut found = Vec::new(alloc);
    for of in lanes {
        if of.class == class {
            push_class(of, low, high, &mut found)?;
        }
    }
    Ok(found)
}

/// Whether a row is of the asset of the one in front of it.
fn repeats(met: &[Span], i: usize) -> bool
    requires { i < length met.now }
    ensures { result ≡ true → (class : Name) (r : DeclaredSpan)
        → is_with class (take (i + 1) met.now) r ≡ is_with class (take i met.now) r }
{
    i != 0 && met[i - 1].asset == met[i].asset
}

/// All rows that are of the asset of one of some rows; where those are sorted by asset, each of them once.
///
/// # Errors
/// When memory runs out.
fn collect_assets(
    alloc: Global,
    rows: &[Span],
    class: ClassName,
    met: &[Span],
) -> Result<Vec<Span>, AllocError>
    requires { IsTrue (are_rows rows.now) }
    ensures { IfOk result (λ found. (r : DeclaredSpan)
        → has_row found.items r ≡ (has_row rows.now r && is_with class met.now r)) }
{
    let mut found = Vec::new(alloc);
    for i in 0..met.len() {
        if !repeats(met, i) {
            found.extend_from_slice(asset_rows(rows, class, met[i].asset))?;
        }
    }
    Ok(found)
}

/// All rows of those assets of a class that have a row with a millimetre from chainage low up to high, in their
/// order.
///
/// # Errors
/// When memory runs out.
pub(crate) fn of_assets_met(
    alloc: Global,
    rows: &[Span],
    lanes: &[ClassLanes],
    class: ClassName,
    low: u64,
    high: u64,
) -> Result<Vec<Span>, AllocError>
    requires kept { AreKept rows.now lanes.now }
    ensures { IfOk result (λ found. found.items ≡ filter (λ r.
        is_met_asset rows.now class low high r.class r.asset) rows.now) }
{
    let mut met = collect_of(alloc, lanes, class, low, high)?;
    sort(Sorting::ByAsset, &mut met);
    let all = collect_assets(alloc, rows, class, &met)?;
    in_order(alloc, Sorting::ByRow, all)
}
