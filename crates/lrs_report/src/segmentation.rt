//! The segments of a route, from the lanes of the classes asked for.

ghost use Rattle.std.specs.Prelude.{◌≡◌, ℕ, ◌<◌, true, length, map, IfOk};
ghost use Rattle.std.specs.List.{AllByRecursion, list_all};
ghost use Rattle.lrs_measure.specs.Lists.{each_two};
ghost use Rattle.lrs_events.specs.declared.side.LinkSide.{LinkSide as DeclaredSide};
ghost use Rattle.lrs_machine.specs.Sound.{asset_before, class_before, is_span};
ghost use Rattle.lrs_machine.specs.Segments.{segment_fault, segments_of, value_of, values_of};
ghost use Rattle.lrs_events.specs.RouteSpans.Search.{one_side};
ghost use Rattle.lrs_report.specs.SideValues.{is_holder, holders_along, HasOneHolder, AreExclusive, IsAnswer};
ghost use Rattle.lrs_report.specs.Columns.{IsColumn, value_at, values_at};
ghost use Rattle.lrs_report.specs.Sweep.{run_of};

use crate::columns::Column;
use crate::known_rows::KnownRows;
use crate::lookups::fault_of;
use crate::sweep::Segments;
use lrs_events::{Asset, Class, ClassName, LinkSide, Side, Spans};
use lrs_machine::{SegFault, Segment};
use lrs_position::Route;
use std::alloc::{AllocError, Global};

/// What a class has along a route on one side, where no two of its assets hold one millimetre.
fn column_of<'a, A: KnownRows<Asset, u64>>(
    class: ClassName,
    side: LinkSide,
    spans: &'a Spans,
    assets: &'a A,
    len: u64,
) -> Column<'a, A>
    requires order { each_two asset_before (A.rows assets.now) ≡ true }
    requires rows { list_all (is_span (A.rows assets.now) len) spans.now ≡ true }
    requires one { HasOneHolder spans.now class }
    ensures column { IsColumn 0 len result }
    ensures values { (j : ℕ) → j < len
        → value_at result j ≡ value_of (A.rows assets.now) (is_holder spans.now side j) class }
{
    // For the prover alone: what its contract says is known from here on.
    let _canonical = spans.rows();
    let lane = spans.lane(class, side);
    Column::new(lane, assets, len)
}

/// What each of these classes has along a route on one side.
fn columns_of<'a, A: KnownRows<Asset, u64>>(
    alloc: Global,
    wanted: &[ClassName],
    side: LinkSide,
    spans: &'a Spans,
    assets: &'a A,
    len: u64,
) -> Result<Vec<Column<'a, A>>, AllocError>
    requires order { each_two asset_before (A.rows assets.now) ≡ true }
    requires rows { list_all (is_span (A.rows assets.now) len) spans.now ≡ true }
    requires one { AllByRecursion (HasOneHolder spans.now) wanted.now }
    ensures columns { IfOk result (λ columns. AllByRecursion (IsColumn 0 len) columns.items) }
    ensures values { IfOk result (λ columns. (j : ℕ) → j < len
        → values_at columns.items j ≡ values_of (A.rows assets.now) wanted.now
        (is_holder spans.now side j)) }
{
    let mut columns = Vec::with_capacity(alloc, wanted.len())?;
    for class in wanted {
        columns.push(column_of(*class, side, spans, assets, len))?;
    }
    Ok(columns)
}

/// The segments of these classes on one side of a route.
fn segments_on<'a, A: KnownRows<Asset, u64>>(
    alloc: Global,
    wanted: &[ClassName],
    side: LinkSide,
    spans: &'a Spans,
    assets: &'a A,
    len: u64,
) -> Result<Segments<'a, A>, AllocError>
    requires order { each_two asset_before (A.rows assets.now) ≡ true }
    requires rows { list_all (is_span (A.rows assets.now) len) spans.now ≡ true }
    requires one { AllByRecursion (HasOneHolder spans.now) wanted.now }
    ensures { IfOk result (λ found. map run_of found
        ≡ segments_of (A.rows assets.now) wanted.now (holders_along spans.now side len)) }
{
    let columns = columns_of(alloc, wanted, side, spans, assets, len)?;
    let all = Segments::of_columns(alloc, columns, len)?;
    Ok(all)
}

/// The segments of a route on one side of it, seen along the route (ISO 19148: linear segment): the maximal runs of its
/// millimetres over which each class asked for has one value or none. They follow one another from the route's start to its
/// end, in millimetres of chainage, also where no class has a value. Each is made where the one before it is passed, so what is in
/// memory grows with the classes asked for alone.
///
/// The assets are those of the inventory, in the order of their numbers, and the classes in the order of their names; each row
/// of the route lies on it and is of a known asset and of its class, and of an exclusive class no two assets hold one
/// millimetre on one side, as in each sound inventory.
///
/// # Errors
/// `NoClass` of the first class asked for that is not there, else `NotExclusive` of the first that is not exclusive, each by
/// its place in `wanted`, else `SideB` for both sides, all before any memory is taken; and `Memory`.
pub fn sweep_segments<'a, A: KnownRows<Asset, u64>, C: KnownRows<Class, ClassName>>(
    alloc: Global,
    route: &Route,
    spans: &'a Spans,
    assets: &'a A,
    classes: &C,
    wanted: &[ClassName],
    side: Side,
) -> Result<Segments<'a, A>, SegFault>
    requires assets_order { each_two asset_before (A.rows assets.now) ≡ true }
    requires classes_order { each_two class_before (C.rows classes.now) ≡ true }
    requires rows { list_all (is_span (A.rows assets.now) (length route.now.course)) spans.now
        ≡ true }
    requires exclusive { AreExclusive (C.rows classes.now) spans.now }
    ensures { IsAnswer (segment_fault (C.rows classes.now) wanted.now side) (λ found.
        (s : DeclaredSide) → side ≡ one_side s → map run_of found
        ≡ segments_of (A.rows assets.now) wanted.now (holders_along spans.now s
        (length route.now.course))) result }
{
    if let Some(fault) = fault_of(classes, wanted, side) {
        return Err(fault);
    }
    let on = match side {
        Side::L => LinkSide::Left,
        Side::R => LinkSide::Right,
        Side::B => return Err(SegFault::SideB),
    };
    match segments_on(alloc, wanted, on, spans, assets, route.length()) {
        Ok(found) => Ok(found),
        Err(AllocError) => Err(SegFault::Memory),
    }
}

/// The segments of a route, as `sweep_segments` finds them, all at once.
///
/// # Errors
/// Those of `sweep_segments`.
pub fn segments<A: KnownRows<Asset, u64>, C: KnownRows<Class, ClassName>>(
    alloc: Global,
    route: &Route,
    spans: &Spans,
    assets: &A,
    classes: &C,
    wanted: &[ClassName],
    side: Side,
) -> Result<Vec<Segment>, SegFault>
    requires assets_order { each_two asset_before (A.rows assets.now) ≡ true }
    requires classes_order { each_two class_before (C.rows classes.now) ≡ true }
    requires rows { list_all (is_span (A.rows assets.now) (length route.now.course)) spans.now
        ≡ true }
    requires exclusive { AreExclusive (C.rows classes.now) spans.now }
    ensures { IsAnswer (segment_fault (C.rows classes.now) wanted.now side) (λ found.
        (s : DeclaredSide) → side ≡ one_side s → map run_of found.items
        ≡ segments_of (A.rows assets.now) wanted.now (holders_along spans.now s
        (length route.now.course))) result }
{
    let found = sweep_segments(alloc, route, spans, assets, classes, wanted, side)?;
    match found.into_vec() {
        Ok(all) => Ok(all),
        Err(AllocError) => Err(SegFault::Memory),
    }
}
