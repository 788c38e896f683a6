//! Lanes: the rows of a class on one side of a route, by where they begin.

ghost use Rattle.std.specs.Prelude.{◌≡◌, ◌+◌, ◌<◌, ◌≤◌, true, false, [], ◌∷◌, ◌++◌, length, take, nat_lt, nat_le, IfOk, OnOk, OnErr, vec_len, vec_capacity};
ghost use Rattle.std.specs.List.{filter, AllWithin};
ghost use Rattle.std.specs.List.Sorted.{IsNonDecreasingBy, IsPartitionPoint, IsPermutation};
ghost use Rattle.lrs_measure.specs.Lists.{each_two};
ghost use Rattle.lrs_events.specs.Changes.{changed};
ghost use Rattle.lrs_events.specs.Spans.{span_before};
ghost use Rattle.lrs_events.specs.LaneLists.Order.{place_before, differ_in_place, stand_before};
ghost use Rattle.lrs_events.specs.LaneLists.Lane.{greatest_from, last_from, is_met, IsLeast, least_with};

use crate::Span;
use crate::lanes::order::{RowOrder, comes_before};
use crate::lanes::sorted_rows::{change_in_room, rows_before, sort};
use std::alloc::{AllocError, Global};
use std::marker::Model;

/// Rows of a class on one side of a route, sorted by start and asset, so that the rows over a stretch are
/// found by binary search and a walk from the first that reaches it.
#[derive(Drop)]
pub struct Lane {
    rows: Vec<Span>,
    // The greatest end up to each row.
    greatest: Vec<u64>,
    // How many more rows both vectors have room for.
    room: usize,
}

impl Model for Lane {
    ghost use Rattle.std.specs.Prelude.{vec_capacity};
    ghost use Rattle.lrs_events.specs.LaneLists.Lane.{LaneView};

    ghost Value = { LaneView };

    ghost use Rattle.lrs_events.specs.LaneLists.LaneFields.{IsLane};

    ghost view = { λ lane. record { rows = lane.rows.items; room = lane.room } };

    ghost invariant = { λ lane. IsLane lane.rows.items lane.greatest.items lane.room (vec_capacity lane.rows) (vec_capacity lane.greatest) };
}

/// Whether the row has a millimetre from low up to high.
fn is_met(row: &Span, low: u64, high: u64) -> bool
    ensures { result ≡ is_met low high row.now }
{
    row.from < high && low < row.to
}

/// The lesser of the least asset so far, if there is one, and one more.
fn lesser(least: Option<u64>, asset: u64) -> u64
    ensures { result ≡ least_with least asset }
{
    match least {
        Some(least) => least.min(asset),
        None => asset,
    }
}

/// The least asset of the rows that have a millimetre from low up to high.
fn least_met(rows: &[Span], low: u64, high: u64) -> Option<u64>
    ensures { IsLeast (is_met low high) rows.now result }
{
    let mut least: Option<u64> = None;
    for row in rows {
        if is_met(row, low, high) {
            least = Some(lesser(least, row.asset));
        }
    }
    least
}

/// How many rows end before low, all of them and those before them.
fn ended(greatest: &[u64], low: u64) -> usize
    requires { IsNonDecreasingBy (λ n. n) greatest.now }
    ensures within { result ≤ length greatest.now }
    ensures point { IsPartitionPoint (λ n. nat_le n low ≡ true) (λ n.
        nat_le n low ≡ false) greatest.now result }
{
    greatest.partition_point(|n| *n <= low)
}

/// How many rows begin before high.
fn begun(rows: &[Span], high: u64) -> usize
    requires { IsNonDecreasingBy (λ r. r.from) rows.now }
    ensures within { result ≤ length rows.now }
    ensures point { IsPartitionPoint (λ r. nat_lt r.from high ≡ true) (λ r.
        nat_lt r.from high ≡ false) rows.now result }
{
    rows.partition_point(|row| row.from < high)
}

/// The rows among which all lie that have a millimetre from low up to high: from the first that ends behind
/// low, or has one in front of it that does, up to the last that begins before high.
fn reach<'a>(rows: &'a [Span], greatest: &[u64], low: u64, high: u64) -> &'a [Span]
    requires order { each_two place_before rows.now ≡ true }
    requires greatest { greatest.now ≡ greatest_from 0 rows.now }
    ensures { filter (is_met low high) result.now ≡ filter (is_met low high) rows.now }
{
    let start = ended(greatest, low);
    let end = begun(rows, high);
    if start < end {
        &rows[start..end]
    } else {
        &rows[..0]
    }
}

/// Copies the rows that have a millimetre from low up to high to the end of others. Where it fails, some of
/// them may have come.
fn push_all_met(out: &mut Vec<Span>, rows: &[Span], low: u64, high: u64) -> Result<(), AllocError>
    ensures ok { OnOk result (out.new.items ≡ out.old.items ++ filter (is_met low high) rows.now) }
    ensures others { take (vec_len out.old) out.new.items ≡ out.old.items }
{
    for row in rows {
        if is_met(row, low, high) {
            out.push(*row)?;
        }
    }
    Ok(())
}

/// Copies the rows that have a millimetre from low up to high to the end of others.
///
/// # Errors
/// When memory runs out; the others are then as they were.
fn push_whole(out: &mut Vec<Span>, rows: &[Span], low: u64, high: u64) -> Result<(), AllocError>
    ensures ok { OnOk result (out.new.items ≡ out.old.items ++ filter (is_met low high) rows.now) }
    ensures err { OnErr result (out.new.items ≡ out.old.items) }
{
    let len = out.len();
    let pushed = push_all_met(out, rows, low, high);
    if pushed.is_err() {
        out.truncate(len);
    }
    pushed
}

/// The last of the numbers, or 0.
fn last_of(numbers: &[u64]) -> u64
    ensures { result ≡ last_from 0 numbers.now }
{
    if numbers.is_empty() {
        return 0;
    }
    numbers[numbers.len() - 1]
}

// Puts a number at the end of a vector that has room for it.
fn push_in_room(numbers: &mut Vec<u64>, number: u64)
    requires { vec_len numbers.old < vec_capacity numbers.old }
    ensures items { numbers.new.items ≡ numbers.old.items ++ number ∷ [] }
    ensures capacity { vec_capacity numbers.old ≤ vec_capacity numbers.new }
{
    if numbers.push(number).is_err() {
        unreachable!()
    }
}

/// Puts the greatest ends up to each of more rows behind those of the rows before them.
fn push_ends(greatest: &mut Vec<u64>, rows: &[Span])
    requires { vec_len greatest.old + length rows.now ≤ vec_capacity greatest.old }
    ensures items { greatest.new.items ≡ greatest.old.items
        ++ greatest_from (last_from 0 greatest.old.items) rows.now }
    ensures capacity { vec_capacity greatest.old ≤ vec_capacity greatest.new }
{
    let mut most = last_of(greatest);
    for row in rows {
        most = row.to.max(most);
        push_in_room(greatest, most);
    }
}

/// Puts the greatest ends up to each row behind those of the first rows, in a vector that has room for them.
fn push_greatest(greatest: &mut Vec<u64>, rows: &[Span], start: usize)
    requires start { start ≤ length rows.now }
    requires front { greatest.old.items ≡ greatest_from 0 (take start rows.now) }
    requires room { length rows.now ≤ vec_capacity greatest.old }
    ensures items { greatest.new.items ≡ greatest_from 0 rows.now }
    ensures capacity { vec_capacity greatest.old ≤ vec_capacity greatest.new }
{
    push_ends(greatest, &rows[start..]);
}

/// Whether the first `front` rows stand before the other.
fn stands_before(rows: &[Span], front: usize, other: &Span) -> bool
    requires within { front ≤ length rows.now }
    requires order { each_two place_before rows.now ≡ true }
    ensures { result ≡ true → AllWithin (λ r. place_before r other.now ≡ true) rows.now 0 front }
{
    front == 0 || comes_before(RowOrder::ByPlace, &rows[front - 1], other)
}

/// How many rows stand before each of others, all of them and those before them.
fn front_before(rows: &[Span], others: &[Span]) -> usize
    requires { each_two place_before rows.now ≡ true }
    ensures within { result ≤ length rows.now }
    ensures front { stand_before result rows.now others.now ≡ true }
{
    let mut front = rows.len();
    for other in others {
        if !stands_before(rows, front, other) {
            front = front.min(rows_before(RowOrder::ByPlace, rows, other));
        }
    }
    front
}

impl Lane {
    /// The lane without rows. It takes no memory.
    pub fn new(alloc: Global) -> Lane
        ensures { result ≡ record { rows = []; room = 0 } }
    {
        Lane {
            rows: Vec::new(alloc),
            greatest: Vec::new(alloc),
            room: 0,
        }
    }

    /// The rows in their order.
    pub fn rows(&self) -> &[Span]
        ensures rows { result.now ≡ self.now.rows }
        ensures order { each_two place_before self.now.rows ≡ true }
    {
        self.rows.as_slice()
    }

    /// Some of the rows, in their order: with all that have a millimetre from low up to high, and few others.
    pub fn near(&self, low: u64, high: u64) -> &[Span]
        ensures { filter (is_met low high) result.now ≡ filter (is_met low high) self.now.rows }
    {
        reach(&self.rows, &self.greatest, low, high)
    }

    /// The least asset with a millimetre from low up to high.
    pub fn over(&self, low: u64, high: u64) -> Option<u64>
        ensures { IsLeast (is_met low high) self.now.rows result }
    {
        least_met(self.near(low, high), low, high)
    }

    /// Copies the rows with a millimetre from low up to high, in their order, to the end of others.
    ///
    /// # Errors
    /// When memory runs out; the others are then as they were.
    pub fn push_met(&self, low: u64, high: u64, out: &mut Vec<Span>) -> Result<(), AllocError>
        ensures ok { OnOk result (out.new.items ≡ out.old.items
            ++ filter (is_met low high) self.now.rows) }
        ensures err { OnErr result (out.new.items ≡ out.old.items) }
    {
        push_whole(out, self.near(low, high), low, high)
    }

    /// Makes room for more rows.
    ///
    /// # Errors
    /// When memory runs out; the lane is then as it was.
    pub fn make_room(&mut self, more: usize) -> Result<(), AllocError>
        ensures rows { self.new.rows ≡ self.old.rows }
        ensures ok { OnOk result (more ≤ self.new.room) }
        ensures never_less { self.old.room ≤ self.new.room }
        ensures err { OnErr result (self.new ≡ self.old) }
    {
        if more > self.room {
            self.rows.reserve(more)?;
            self.greatest.reserve(more)?;
            self.room = more;
        }
        Ok(())
    }

    /// Takes out the removed rows, which are sorted by class, asset and start, and puts the inserted ones in
    /// their places. There is room for them, so that it takes no memory and cannot fail.
    pub fn change(&mut self, gone: &[Span], come: &[Span])
        requires room { length come.now ≤ self.old.room }
        requires gone { each_two span_before gone.now ≡ true }
        requires after { each_two place_before
            (changed place_before gone.now come.now self.old.rows) ≡ true }
        ensures rows { self.new.rows ≡ changed place_before gone.now come.now self.old.rows }
        ensures room { self.new.room + length come.now ≡ self.old.room }
    {
        let start = front_before(&self.rows, gone).min(front_before(&self.rows, come));
        change_in_room(RowOrder::ByPlace, &mut self.rows, gone, come);
        self.greatest.truncate(start);
        push_greatest(&mut self.greatest, &self.rows, start);
        self.room -= come.len();
    }
}
