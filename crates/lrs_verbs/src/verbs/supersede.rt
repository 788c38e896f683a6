//! An asset that takes the places of others of its class.

ghost use Rattle.std.specs.Prelude.{◌≡◌, IfOk, IsTrue, true};
ghost use Rattle.lrs_inventory.specs.Prelude.{each_two, differs, are_rows};
ghost use Rattle.lrs_events.specs.Spans.{is_row};
ghost use Rattle.lrs_machine.specs.declared.command.Command.TheVariants as verb;
ghost use Rattle.lrs_verbs.specs.Entries.{row_of, AreInLimits};
ghost use Rattle.lrs_inventory.specs.Plans.{Plans};
ghost use Rattle.lrs_verbs.specs.EntryRequests.{IsWanted};
ghost use Rattle.lrs_verbs.specs.Supersessions.{with_rows_and_one, IsSuperseding};

use crate::verbs::enter::{asset_of, asset_plan, entered_parts, row_of};
use crate::verbs::location::wanted_of;
use lrs_element::Course;
use lrs_events::rows::removals::Removal;
use lrs_events::{Kind, Span, SpanChange};
use lrs_image::{ReferentChange, RouteChange};
use lrs_image_laws::taken_away;
use lrs_inventory::route_changes::changed;
use lrs_inventory::{Inventory, Plan, RouteStretch, Stop};
use lrs_machine::{NewAsset, RouteRow};
use lrs_measure::Rows;
use lrs_position::RouteName;
use std::alloc::{AllocError, Global};

pub fn plan_supersede(alloc: Global, inventory: &Inventory, asked: &NewAsset) -> Result<Plan, Stop>
    ensures { Plans (verb.Supersede asked.now) inventory.now result }
{
    match wanted_of(inventory, asked, true) {
        Ok((kind, route, stretch)) => supersede_on(alloc, inventory, asked, kind, route, stretch),
        Err(why) => Err(why),
    }
}

/// What a new asset of an exclusive class changes on its route.
fn supersede_on(
    alloc: Global,
    inventory: &Inventory,
    asked: &NewAsset,
    kind: Kind,
    route: &RouteRow,
    stretch: RouteStretch,
) -> Result<Plan, Stop>
    requires wanted { IsWanted inventory.now true asked.now kind route.now stretch }
    ensures { Plans (verb.Supersede asked.now) inventory.now result }
{
    inventory.prove_sound();
    let removal = route.spans.plan_remove_class_places(
        alloc,
        asked.class,
        stretch.from(),
        stretch.to(),
        asked.side,
    )?;
    let edit = inventory.edits() + 1;
    let plan = superseding(alloc, edit, asked, stretch, &route.route.course, removal)?;
    Ok(plan)
}

/// The plan by which an edit retires what a removal hands back, and enters an asset.
fn superseding(
    alloc: Global,
    edit: u64,
    asked: &NewAsset,
    stretch: RouteStretch,
    course: &Course,
    removal: Removal,
) -> Result<Plan, AllocError>
    requires row { IsTrue (is_row (row_of asked.now stretch)) }
    requires left { IsTrue (are_rows removal.left.items) }
    requires once { each_two differs course.now ≡ true }
    ensures plan { IfOk result (λ plan.
        IsSuperseding edit asked.now stretch course.now removal plan) }
    ensures limits { IfOk result (λ _. AreInLimits asked.now) }
{
    let row = row_of(asked, stretch);
    let Removal { left, change } = removal;
    let gone = match taken_away(alloc, edit, &left, course, false) {
        Ok(gone) => gone,
        Err(fault) => {
            drop(left);
            drop(change);
            return Err(fault);
        }
    };
    drop(left);
    let entered = match entered_parts(alloc, edit, &row, course) {
        Ok(entered) => entered,
        Err(fault) => {
            drop(gone);
            drop(change);
            return Err(fault);
        }
    };
    match with_rows_and_one(alloc, asked.route, change, row) {
        Ok(changed) => {
            let asset = Some(asset_of(edit, asked));
            Ok(asset_plan(alloc, asset, changed, entered, gone))
        }
        Err(fault) => {
            drop(gone);
            drop(entered);
            Err(fault)
        }
    }
}

/// A route of which these rows go and come, and one more comes. Its asset has no other, so that it merges with
/// none.
fn with_rows_and_one(
    alloc: Global,
    route: RouteName,
    change: SpanChange,
    row: Span,
) -> Result<RouteChange, AllocError>
    ensures { IfOk result (λ changed. changed ≡ with_rows_and_one route change row) }
{
    let SpanChange { gone, mut come } = change;
    if let Err(fault) = come.push(row) {
        drop(gone);
        drop(come);
        return Err(AllocError::from(fault));
    }
    let kept = ReferentChange {
        gone: Rows::new(alloc),
        come: Rows::new(alloc),
    };
    Ok(changed(alloc, route, None, None, kept, SpanChange { gone, come }))
}
