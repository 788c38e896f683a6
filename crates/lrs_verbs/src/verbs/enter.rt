//! An asset that enters.

ghost use Rattle.std.specs.Prelude.{◌≡◌, ◌<◌, false, if◌then◌else◌, IfOk, IsTrue, None, Some, true, length};
ghost use Rattle.lrs_inventory.specs.Prelude.{each_two, differs, no_difference, places_on, state_of, part_of, refuse_at};
ghost use Rattle.lrs_events.specs.Spans.{is_row};
ghost use Rattle.lrs_machine.specs.Segments.{is_exclusive};
ghost use Rattle.lrs_machine.specs.declared.answer.Cause.TheVariants as cause;
ghost use Rattle.lrs_machine.specs.declared.command.Command.TheVariants as verb;
ghost use Rattle.lrs_machine.specs.Machine.{first_holder};
ghost use Rattle.lrs_verbs.specs.Entries.{asset_of, row_of, with_row, AreInLimits, AreEntered, IsEntering};
ghost use Rattle.lrs_inventory.specs.RouteStretches.{IsRouteIn, EndsBy};
ghost use Rattle.lrs_inventory.specs.Plans.{Answers, Plans, plan_of};
ghost use Rattle.lrs_verbs.specs.EntryRequests.{IsWanted};

use crate::verbs::location::wanted_of;
use lrs_element::Course;
use lrs_events::{Asset, Gone, Kind, Part, Span, parts};
use lrs_image::{Difference, ReferentChange, RouteChange, RouteKeys};
use lrs_inventory::{Inventory, Plan, ReferentPlaces, RouteStretch, Stop};
use lrs_machine::{Cause, NewAsset, RouteRow};
use lrs_measure::Rows;
use lrs_position::RouteName;
use std::alloc::{AllocError, Global};

pub fn plan_enter(alloc: Global, inventory: &Inventory, asked: &NewAsset) -> Result<Plan, Stop>
    ensures { Plans (verb.Enter asked.now) inventory.now result }
{
    match wanted_of(inventory, asked, false) {
        Ok((kind, route, stretch)) => enter_on(alloc, inventory, asked, kind, route, stretch),
        Err(why) => Err(why),
    }
}

/// What a new asset of a class of this kind changes on its route.
fn enter_on(
    alloc: Global,
    inventory: &Inventory,
    asked: &NewAsset,
    kind: Kind,
    route: &RouteRow,
    stretch: RouteStretch,
) -> Result<Plan, Stop>
    requires wanted { IsWanted inventory.now false asked.now kind route.now stretch }
    ensures { Plans (verb.Enter asked.now) inventory.now result }
{
    inventory.prove_sound();
    check_held(inventory, asked, kind, route, stretch)?;
    let edit = inventory.edits() + 1;
    let plan = entering(alloc, edit, asked, stretch, &route.route.course)?;
    Ok(plan)
}

/// Refuses an asset of an exclusive class where others hold its places: the least of them.
fn check_held(
    inventory: &Inventory,
    asked: &NewAsset,
    kind: Kind,
    route: &RouteRow,
    stretch: RouteStretch,
) -> Result<(), Stop>
    requires known { IsRouteIn inventory.now route.now }
    requires filled { stretch.from < stretch.to }
    requires within { EndsBy (length route.now.route.course) stretch }
    ensures { Answers (refuse_at (if is_exclusive kind then first_holder
        (state_of inventory.now) asked.now.class (places_on asked.now.side
        (part_of route.now.route.course stretch)) else None) cause.Overlap) result }
{
    match kind {
        Kind::Point | Kind::Stretch => Ok(()),
        Kind::Exclusive => {
            match inventory.first_holder(route, asked.class, stretch, asked.side) {
                Some(asset) => Err(Stop::Refused(Cause::Overlap(asset))),
                None => Ok(()),
            }
        }
    }
}

/// The plan by which an edit enters an asset.
fn entering(
    alloc: Global,
    edit: u64,
    asked: &NewAsset,
    stretch: RouteStretch,
    course: &Course,
) -> Result<Plan, AllocError>
    requires row { IsTrue (is_row (row_of asked.now stretch)) }
    requires once { each_two differs course.now ≡ true }
    ensures plan { IfOk result (λ plan. IsEntering edit asked.now stretch course.now plan) }
    ensures limits { IfOk result (λ _. AreInLimits asked.now) }
{
    let row = row_of(asked, stretch);
    let entered = entered_parts(alloc, edit, &row, course)?;
    match with_row(alloc, asked.route, &row) {
        Ok(changed) => {
            let asset = Some(asset_of(edit, asked));
            Ok(asset_plan(alloc, asset, changed, entered, Rows::new(alloc)))
        }
        Err(fault) => {
            drop(entered);
            Err(fault)
        }
    }
}

/// The plan by which a route changes, and an asset enters or gives something up.
///
/// To make it whole is cheaper to prove than to set the fields of one that changes nothing: each would be dropped.
pub fn asset_plan(
    alloc: Global,
    asset: Option<Asset>,
    changed: RouteChange,
    entered: Vec<Part>,
    gone: Rows<Gone>,
) -> Plan
    ensures { result ≡ plan_of (record no_difference {
      asset = asset;
      changed = Some changed;
      entered = entered.items;
      gone = gone;
    }) }
{
    Plan {
        difference: Difference {
            link: None,
            class: None,
            asset,
            changed: Some(changed),
            dropped: None,
            keys: RouteKeys::none(alloc),
            made: None,
            entered: Rows::from_vec(entered),
            gone,
        },
        ground: None,
        referents: ReferentPlaces {
            come: None,
            gone: Rows::new(alloc),
        },
    }
}

/// The asset that an edit enters.
pub fn asset_of(edit: u64, asked: &NewAsset) -> Asset
    ensures asset { result ≡ asset_of edit asked.now }
    ensures limits { AreInLimits asked.now }
{
    Asset {
        number: asked.asset.get(),
        class: asked.class,
        value: asked.value,
        lateral: asked.offset.get(),
        entered_by: edit,
    }
}

/// The row that says what it holds.
pub fn row_of(asked: &NewAsset, stretch: RouteStretch) -> Span
    ensures { result ≡ row_of asked.now stretch }
{
    Span {
        asset: asked.asset.get(),
        class: asked.class,
        from: stretch.from(),
        to: stretch.to(),
        side: asked.side,
    }
}

/// The rows of a ledger by which an edit enters what a row holds.
pub fn entered_parts(
    alloc: Global,
    edit: u64,
    row: &Span,
    course: &Course,
) -> Result<Vec<Part>, AllocError>
    requires row { IsTrue (is_row row.now) }
    requires once { each_two differs course.now ≡ true }
    ensures { IfOk result (λ parts. AreEntered edit course.now row.now parts.items) }
{
    let entered = parts(alloc, edit, &[*row], course)?;
    Ok(entered)
}

/// A route with one more row. The row's asset has no other, so that it merges with none.
fn with_row(alloc: Global, route: RouteName, row: &Span) -> Result<RouteChange, AllocError>
    ensures { IfOk result (λ change. change ≡ with_row route row.now) }
{
    let come = Vec::from_slice(alloc, &[*row])?;
    Ok(RouteChange {
        route,
        name: route,
        keys: RouteKeys::none(alloc),
        course: None,
        marks: None,
        refs: ReferentChange {
            gone: Rows::new(alloc),
            come: Rows::new(alloc),
        },
        spans_gone: Rows::new(alloc),
        spans_come: Rows::from_vec(come),
    })
}
