//! What some stretches hold and others do not.

ghost use Rattle.std.specs.Prelude.{◌≡◌, ◌≤◌, ◌∷◌, ◌++◌, [], true, false, length, OnOk, IfOk};
ghost use Rattle.std.specs.List.{flat_map, list_any};
ghost use Rattle.std.specs.List.Sorted.{IsPartitionPoint, IsPermutation, IsSortedBy};
ghost use Rattle.std.specs.Ordering.{is_lt};
ghost use Rattle.lrs_measure.specs.Lists.{each_two};
ghost use Rattle.lrs_measure.specs.Texts.{name_before};
ghost use Rattle.lrs_events.specs.Canonical.{side_of};
ghost use Rattle.lrs_events.specs.Members.{has_side};
ghost use Rattle.lrs_events.specs.Spans.{same_side};
ghost use Rattle.lrs_difference.specs.Held.{holds_place};
ghost use Rattle.lrs_difference.specs.Sweep.{AreAlone, AreGathered, AreNear, at_edge, edge_before, edge_key, edges_of, first_edge, goes_on, is_ahead, is_begun, not_behind, rows_at, side_alone, start_key, starts_before, with_row, with_side, row_between};

use crate::link_stretches::HeldStretch;
use crate::sweep::Edge;
use lrs_events::{LinkSide, Side};
use lrs_report_lists::LinkStretch;
use std::alloc::{AllocError, Global};
use std::cmp::Ordering;

fn key_of(edge: &Edge) -> [u64; 3]
    ensures { result ≡ edge_key edge.now }
{
    [edge.asset, u64::from(edge.link), u64::from(edge.mm)]
}

fn is_before(edge: &Edge, other: &Edge) -> bool
    ensures { result ≡ name_before (edge_key edge.now) (edge_key other.now) }
{
    let key = key_of(edge);
    let other = key_of(other);
    key.as_slice().cmp(other.as_slice()).is_lt()
}

fn has_side(side: Side, link_side: LinkSide) -> bool
    ensures { result ≡ has_side side link_side }
{
    match (side, link_side) {
        (Side::L, LinkSide::Left) | (Side::R, LinkSide::Right) | (Side::B, _) => true,
        _ => false,
    }
}

/// Whether a stretch holds the place at an edge, on a side of the link.
fn holds(held: &HeldStretch, edge: &Edge, side: LinkSide) -> bool
    ensures { result ≡ holds_place edge.now.asset (at_edge edge.now side) held.now }
{
    let stretch = &held.stretch;
    held.asset == edge.asset
        && (stretch.link == edge.link
            && (stretch.from <= edge.mm && edge.mm < stretch.to)
            && has_side(stretch.side, side))
}

/// Whether some stretch does.
fn is_held(held: &[HeldStretch], edge: &Edge, side: LinkSide) -> bool
    ensures { result ≡ list_any (holds_place edge.now.asset (at_edge edge.now side)) held.now }
{
    held.iter().any(|stretch| holds(stretch, edge, side))
}

fn side_of(left: bool, right: bool) -> Option<Side>
    ensures { result ≡ side_of left right }
{
    match (left, right) {
        (true, true) => Some(Side::B),
        (true, false) => Some(Side::L),
        (false, true) => Some(Side::R),
        (false, false) => None,
    }
}

/// On which side or sides the place at an edge is held by left stretches and not by right ones.
fn side_of_near(left: &[HeldStretch], right: &[HeldStretch], edge: &Edge) -> Option<Side>
    ensures { result ≡ side_alone left.now right.now edge.now }
{
    let on_left = is_held(left, edge, LinkSide::Left) && !is_held(right, edge, LinkSide::Left);
    let on_right = is_held(left, edge, LinkSide::Right) && !is_held(right, edge, LinkSide::Right);
    side_of(on_left, on_right)
}

fn start_key_of(held: &HeldStretch) -> [u64; 3]
    ensures { result ≡ start_key held.now }
{
    let stretch = &held.stretch;
    [held.asset, u64::from(stretch.link), u64::from(stretch.from)]
}

/// Whether a stretch comes before all of the asset and link of an edge.
fn is_ahead(held: &HeldStretch, edge: &Edge) -> bool
    ensures { result ≡ is_ahead edge.now held.now }
{
    let key = start_key_of(held);
    let line = [edge.asset, u64::from(edge.link), 0];
    key.as_slice().cmp(line.as_slice()).is_lt()
}

/// Whether a stretch begins at an edge or comes before it.
fn is_begun(held: &HeldStretch, edge: &Edge) -> bool
    ensures { result ≡ is_begun edge.now held.now }
{
    let key = key_of(edge);
    let start = start_key_of(held);
    !key.as_slice().cmp(start.as_slice()).is_lt()
}

/// How many stretches come before all of the asset and link of an edge.
fn count_ahead(held: &[HeldStretch], edge: &Edge) -> usize
    requires { IsSortedBy starts_before held.now }
    ensures within { result ≤ length held.now }
    ensures point { IsPartitionPoint (λ h. is_ahead edge.now h ≡ true) (λ h.
        is_ahead edge.now h ≡ false) held.now result }
{
    held.partition_point(|stretch| is_ahead(stretch, edge))
}

/// How many stretches begin at an edge or come before it.
fn count_begun(held: &[HeldStretch], edge: &Edge) -> usize
    requires { IsSortedBy starts_before held.now }
    ensures within { result ≤ length held.now }
    ensures point { IsPartitionPoint (λ h. is_begun edge.now h ≡ true) (λ h.
        is_begun edge.now h ≡ false) held.now result }
{
    held.partition_point(|stretch| is_begun(stretch, edge))
}

/// The stretches of the asset and link of an edge that begin there or before.
fn near<'a>(held: &'a [HeldStretch], edge: &Edge) -> &'a [HeldStretch]
    requires { IsSortedBy starts_before held.now }
    ensures { AreNear edge.now held.now result.now }
{
    let start = count_ahead(held, edge);
    let end = count_begun(held, edge);
    if start < end {
        &held[start..end]
    } else {
        &held[..0]
    }
}

/// The same of stretches in order. It looks only at those of the asset and link of the edge.
fn side_alone(left: &[HeldStretch], right: &[HeldStretch], edge: &Edge) -> Option<Side>
    requires left { IsSortedBy starts_before left.now }
    requires right { IsSortedBy starts_before right.now }
    ensures { result ≡ side_alone left.now right.now edge.now }
{
    let near_left = near(left, edge);
    let near_right = near(right, edge);
    side_of_near(near_left, near_right, edge)
}

fn is_same_side(side: Side, other: Side) -> bool
    ensures { result ≡ same_side side other }
{
    side == other
}

/// Whether a row goes on where another ends.
fn goes_on(last: &HeldStretch, row: &HeldStretch) -> bool
    ensures { result ≡ goes_on last.now row.now }
{
    let one = &last.stretch;
    let other = &row.stretch;
    (last.asset == row.asset && one.link == other.link)
        && one.to == other.from
        && is_same_side(one.side, other.side)
}

/// Adds a row that ends at an edge, or lets the last one go on up to it.
fn add(rows: &mut Vec<HeldStretch>, row: HeldStretch, high: &Edge) -> Result<(), AllocError>
    ensures { OnOk result (rows.new.items ≡ with_row rows.old.items row high.now) }
{
    match rows.pop() {
        Some(mut last) => {
            if goes_on(&last, &row) {
                last.stretch.to = high.mm;
                rows.push(last)?;
                return Ok(());
            }
            rows.push(last)?;
            rows.push(row)?;
            Ok(())
        }
        None => {
            rows.push(row)?;
            Ok(())
        }
    }
}

/// The rows up to the next edge.
fn go_on(
    rows: &mut Vec<HeldStretch>,
    left: &[HeldStretch],
    right: &[HeldStretch],
    low: &Edge,
    high: &Edge,
) -> Result<(), AllocError>
    requires left { IsSortedBy starts_before left.now }
    requires right { IsSortedBy starts_before right.now }
    ensures { OnOk result (rows.new.items
        ≡ rows_at left.now right.now low.now high.now rows.old.items) }
{
    if !is_before(low, high) {
        return Ok(());
    }
    match side_alone(left, right, low) {
        Some(side) => {
            let stretch = LinkStretch {
                link: low.link,
                from: low.mm,
                to: high.mm,
                side,
            };
            let asset = low.asset;
            add(rows, HeldStretch { asset, stretch }, high)
        }
        None => Ok(()),
    }
}

/// The rows over edges in order.
fn rows_over(
    alloc: Global,
    left: &[HeldStretch],
    right: &[HeldStretch],
    edges: &[Edge],
) -> Result<Vec<HeldStretch>, AllocError>
    requires left { IsSortedBy starts_before left.now }
    requires right { IsSortedBy starts_before right.now }
    requires gathered { AreGathered left.now right.now first_edge edges.now [] }
    ensures { IfOk result (λ rows. AreAlone left.now right.now rows.items) }
{
    let mut rows = Vec::new(alloc);
    let mut at = Edge {
        asset: 0,
        link: 0,
        mm: 0,
    };
    for edge in edges {
        go_on(&mut rows, left, right, &at, edge)?;
        at = *edge;
    }
    Ok(rows)
}

/// Adds where a stretch begins and where it ends.
fn push_edges(edges: &mut Vec<Edge>, held: &HeldStretch) -> Result<(), AllocError>
    ensures { OnOk result (edges.new.items ≡ edges.old.items ++ edges_of held.now) }
{
    let asset = held.asset;
    let LinkStretch { link, from, to, .. } = held.stretch;
    edges.push(Edge {
        asset,
        link,
        mm: from,
    })?;
    edges.push(Edge {
        asset,
        link,
        mm: to,
    })?;
    Ok(())
}

/// Adds where stretches begin and where they end.
fn push_all_edges(edges: &mut Vec<Edge>, held: &[HeldStretch]) -> Result<(), AllocError>
    ensures { OnOk result (edges.new.items ≡ edges.old.items ++ flat_map edges_of held.now) }
{
    for stretch in held {
        push_edges(edges, stretch)?;
    }
    Ok(())
}

/// How two edges lie in the order, as a sort asks it.
fn compare(edge: &Edge, other: &Edge) -> Ordering
    ensures { is_lt result ≡ edge_before edge.now other.now }
{
    let key = key_of(edge);
    let other = key_of(other);
    key.as_slice().cmp(other.as_slice())
}

/// Sorts edges by asset, link and millimetre. It takes no memory.
fn sort(edges: &mut Vec<Edge>)
    ensures same { IsPermutation edges.old.items edges.new.items }
    ensures order { each_two not_behind edges.new.items ≡ true }
{
    edges.sort_unstable_by(|edge, other| compare(edge, other));
}

/// Where stretches begin and end, in order.
fn edges_in_order(
    alloc: Global,
    left: &[HeldStretch],
    right: &[HeldStretch],
) -> Result<Vec<Edge>, AllocError>
    ensures { IfOk result (λ edges.
        AreGathered left.now right.now first_edge edges.items []) }
{
    let mut edges = Vec::new(alloc);
    push_all_edges(&mut edges, left)?;
    push_all_edges(&mut edges, right)?;
    sort(&mut edges);
    Ok(edges)
}

/// How two stretches lie in the order, as a sort asks it.
fn compare_starts(held: &HeldStretch, other: &HeldStretch) -> Ordering
    ensures { is_lt result ≡ starts_before held.now other.now }
{
    let key = start_key_of(held);
    let other = start_key_of(other);
    key.as_slice().cmp(other.as_slice())
}

/// Sorts stretches by asset, link and start. It takes no memory.
fn sort_by_start(held: &mut Vec<HeldStretch>)
    ensures same { IsPermutation held.old.items held.new.items }
    ensures order { IsSortedBy starts_before held.new.items }
{
    held.sort_unstable_by(|stretch, other| compare_starts(stretch, other));
}

/// A copy of stretches, by asset, link and start.
fn by_start(alloc: Global, held: &[HeldStretch]) -> Result<Vec<HeldStretch>, AllocError>
    ensures same { IfOk result (λ copy. IsPermutation held.now copy.items) }
    ensures order { IfOk result (λ copy. IsSortedBy starts_before copy.items) }
{
    let mut copy = Vec::from_slice(alloc, held)?;
    sort_by_start(&mut copy);
    Ok(copy)
}

/// What left stretches in order hold and right ones do not.
fn sorted_alone(
    alloc: Global,
    left: &[HeldStretch],
    right: &[HeldStretch],
) -> Result<Vec<HeldStretch>, AllocError>
    requires left { IsSortedBy starts_before left.now }
    requires right { IsSortedBy starts_before right.now }
    ensures { IfOk result (λ rows. AreAlone left.now right.now rows.items) }
{
    let edges = edges_in_order(alloc, left, right)?;
    rows_over(alloc, left, right, &edges)
}

/// What left stretches hold and right ones do not, as its longest stretches, by asset, link and start.
pub(crate) fn held_alone(
    alloc: Global,
    left: &[HeldStretch],
    right: &[HeldStretch],
) -> Result<Vec<HeldStretch>, AllocError>
    ensures { IfOk result (λ rows. AreAlone left.now right.now rows.items) }
{
    let sorted_left = by_start(alloc, left)?;
    let sorted_right = by_start(alloc, right)?;
    sorted_alone(alloc, &sorted_left, &sorted_right)
}
