//! The lanes of a route: of each class and side the rows, by where they begin.

ghost use Rattle.std.specs.Prelude.{◌≡◌, ◌+◌, ◌<◌, ◌≤◌, [], ◌∷◌, ◌++◌, vec_len, vec_capacity, ℕ, true, false, length, OnOk, slice_index_or};
ghost use Rattle.std.specs.List.{filter};
ghost use Rattle.lrs_measure.specs.Lists.{each_two};
ghost use Rattle.lrs_measure.specs.Texts.{Name};
ghost use Rattle.lrs_events.specs.declared.span.Span.{Span as DeclaredSpan};
ghost use Rattle.lrs_events.specs.Changes.{has_row, changed};
ghost use Rattle.lrs_events.specs.Spans.{span_before};
ghost use Rattle.lrs_events.specs.LaneLists.Order.{place_before};
ghost use Rattle.lrs_events.specs.declared.spans.lanes.ClassLanes.{ClassLanes as DeclaredLanes};
ghost use Rattle.lrs_events.specs.RouteSpans.LanesOfRows.{is_on, has_lanes};
ghost use Rattle.lrs_events.specs.RouteSpans.OpenRows.{HasLaneRoom, SameClass, SameLanes, StayTied, IsChangedClass, CanChange, AreChanged};

use crate::rows::sides::has_side;
use crate::{ClassName, Lane, LinkSide, Side, Span};
use std::alloc::{AllocError, Global};

/// The lanes of a class: of each side of the route the rows with that side or both.
#[derive(Drop)]
pub struct ClassLanes {
    pub class: ClassName,
    pub left: Lane,
    pub right: Lane,
}

/// Whether the row is of the class and on the side.
fn is_on(row: &Span, class: ClassName, side: LinkSide) -> bool
    ensures { result ≡ is_on class side row.now }
{
    row.class == class && has_side(row.side, side)
}

/// How many of the rows are of the class and on the side.
fn count_on(rows: &[Span], class: ClassName, side: LinkSide) -> usize
    ensures { result ≡ length (filter (is_on class side) rows.now) }
{
    rows.iter().filter(|row| is_on(row, class, side)).count()
}

// Puts a row at the end of a vector that has room for it.
fn push_in_room(rows: &mut Vec<Span>, row: Span)
    requires { vec_len rows.old < vec_capacity rows.old }
    ensures items { rows.new.items ≡ rows.old.items ++ row ∷ [] }
    ensures len { vec_len rows.new ≡ vec_len rows.old + 1 }
    ensures capacity { vec_capacity rows.old ≤ vec_capacity rows.new }
{
    if rows.push(row).is_err() {
        unreachable!()
    }
}

/// Copies those of the rows that are of the class and on the side, in place of what the vector had, which has
/// room for all of them.
fn pick(picked: &mut Vec<Span>, class: ClassName, side: LinkSide, rows: &[Span])
    requires { length rows.now ≤ vec_capacity picked.old }
    ensures picked { picked.new.items ≡ filter (is_on class side) rows.now }
    ensures capacity { vec_capacity picked.old ≤ vec_capacity picked.new }
{
    picked.clear();
    for row in rows {
        if is_on(row, class, side) {
            push_in_room(picked, *row);
        }
    }
}

/// Takes the removed rows out of the lane of a class and side, and inserts the others.
fn change_lane(
    lane: &mut Lane,
    class: ClassName,
    side: LinkSide,
    gone: &[Span],
    come: &[Span],
    picked: &mut Vec<Span>,
)
    requires room { length (filter (is_on class side) come.now) ≤ lane.old.room }
    requires gone { each_two span_before gone.now ≡ true }
    requires after { each_two place_before (changed place_before gone.now
        (filter (is_on class side) come.now) lane.old.rows) ≡ true }
    requires picked { length come.now ≤ vec_capacity picked.old }
    ensures rows { lane.new.rows ≡ changed place_before gone.now
        (filter (is_on class side) come.now) lane.old.rows }
    ensures capacity { vec_capacity picked.old ≤ vec_capacity picked.new }
{
    pick(picked, class, side, come);
    lane.change(gone, picked);
}

/// Takes the removed rows out of the lanes of a class, and inserts the others, for which they have
/// room.
fn change_class(lanes: &mut ClassLanes, gone: &[Span], come: &[Span], picked: &mut Vec<Span>)
    requires gone { each_two span_before gone.now ≡ true }
    requires can { CanChange gone.now come.now lanes.old }
    requires picked { length come.now ≤ vec_capacity picked.old }
    ensures changed { IsChangedClass gone.now come.now lanes.old lanes.new }
    ensures capacity { vec_capacity picked.old ≤ vec_capacity picked.new }
{
    let class = lanes.class;
    change_lane(&mut lanes.left, class, LinkSide::Left, gone, come, picked);
    change_lane(&mut lanes.right, class, LinkSide::Right, gone, come, picked);
}

/// Takes the removed rows out of their lanes, and inserts the others into theirs, which have room for them, by
/// the help of a vector that has room for them too. It takes no memory.
pub(crate) fn change_lanes(
    lanes: &mut Vec<ClassLanes>,
    gone: &[Span],
    come: &[Span],
    picked: &mut Vec<Span>,
)
    requires gone { each_two span_before gone.now ≡ true }
    requires can { (k : ℕ) (d : DeclaredLanes) → k < length lanes.old.items
        → CanChange gone.now come.now (slice_index_or lanes.old.items k d) }
    requires picked { length come.now ≤ vec_capacity picked.old }
    ensures { AreChanged gone.now come.now lanes.old.items lanes.new.items }
{
    for i in 0..lanes.len() {
        change_class(&mut lanes[i], gone, come, picked);
    }
}

/// Whether the class has lanes.
fn has_lanes(lanes: &[ClassLanes], class: ClassName) -> bool
    ensures { result ≡ has_lanes lanes.now class }
{
    lanes.iter().any(|of| of.class == class)
}

/// Gives a class lanes, if it has none.
///
/// # Errors
/// When memory runs out.
fn add_class(lanes: &mut Vec<ClassLanes>, class: ClassName) -> Result<(), AllocError>
    ensures tied { StayTied lanes.old.items lanes.new.items }
    ensures others { (c : Name) → has_lanes lanes.old.items c ≡ true
        → has_lanes lanes.new.items c ≡ true }
    ensures ok { OnOk result (has_lanes lanes.new.items class ≡ true) }
{
    if !has_lanes(lanes, class) {
        let alloc = *lanes.allocator();
        lanes.push(ClassLanes {
            class,
            left: Lane::new(alloc),
            right: Lane::new(alloc),
        })?;
    }
    Ok(())
}

/// Gives the classes of rows lanes, those that have none.
///
/// # Errors
/// When memory runs out.
pub(crate) fn add_classes(lanes: &mut Vec<ClassLanes>, come: &[Span]) -> Result<(), AllocError>
    ensures tied { StayTied lanes.old.items lanes.new.items }
    ensures ok { OnOk result ((r : DeclaredSpan) → has_row come.now r ≡ true
        → has_lanes lanes.new.items r.class ≡ true) }
{
    for row in come {
        add_class(lanes, row.class)?;
    }
    Ok(())
}

/// Makes room in the lanes of a class for those of the inserted rows.
///
/// # Errors
/// When memory runs out.
fn make_class_room(lanes: &mut ClassLanes, come: &[Span]) -> Result<(), AllocError>
    ensures same { SameClass lanes.old lanes.new }
    ensures ok { OnOk result (HasLaneRoom come.now lanes.new) }
{
    let left = count_on(come, lanes.class, LinkSide::Left);
    lanes.left.make_room(left)?;
    let right = count_on(come, lanes.class, LinkSide::Right);
    lanes.right.make_room(right)
}

/// Makes room in lanes for those of the inserted rows.
///
/// # Errors
/// When memory runs out.
pub(crate) fn make_lanes_room(lanes: &mut Vec<ClassLanes>, come: &[Span]) -> Result<(), AllocError>
    ensures same { SameLanes lanes.old.items lanes.new.items }
    ensures ok { OnOk result ((k : ℕ) (d : DeclaredLanes) → k < length lanes.new.items
        → HasLaneRoom come.now (slice_index_or lanes.new.items k d)) }
{
    for i in 0..lanes.len() {
        make_class_room(&mut lanes[i], come)?;
    }
    Ok(())
}
