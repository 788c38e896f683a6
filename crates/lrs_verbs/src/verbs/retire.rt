//! An asset gives up what it holds on a part of a route.

ghost use Rattle.std.specs.Prelude.{◌≡◌, IsTrue, IfOk, true};
ghost use Rattle.lrs_inventory.specs.Prelude.{each_two, differs, are_rows, IsRemoval, Retired, IsPlan};
ghost use Rattle.lrs_measure.specs.Lists.{is_nothing};
ghost use Rattle.lrs_machine.specs.declared.command.Command.TheVariants as verb;
ghost use Rattle.lrs_inventory.specs.Plans.{Plans};
ghost use Rattle.lrs_verbs.specs.Removals.{of_asset_within, HasAsset, IsTaking};

use crate::verbs::enter::asset_plan;
use crate::verbs::location::is_wrong_kind;
use lrs_events::rows::removals::Removal;
use lrs_events::{Asset, Kind, Span};
use lrs_image::ReferentChange;
use lrs_image_laws::taken_away;
use lrs_inventory::checks::route_named;
use lrs_inventory::route_changes::changed;
use lrs_inventory::{Inventory, Plan, RouteStretch, Stop, refuse_if};
use lrs_machine::{AssetNumber, Cause, RouteRow};
use lrs_measure::Rows;
use lrs_position::{EventLocation, RouteName};
use std::alloc::{AllocError, Global};

pub fn plan_retire(
    alloc: Global,
    inventory: &Inventory,
    asset: AssetNumber,
    route: RouteName,
    location: EventLocation,
) -> Result<Plan, Stop>
    ensures { Plans (verb.Retire asset route location) inventory.now result }
{
    match inventory.asset(asset.get()) {
        None => Err(Stop::Refused(Cause::NoAsset)),
        Some(known) => match inventory.class(&known.class) {
            // Each asset's class is known.
            None => Err(Stop::Refused(Cause::NoAsset)),
            Some(kind) => {
                let route_row = route_named(inventory, &route)?;
                retire_on(alloc, inventory, known, kind, route_row, location)
            }
        },
    }
}

/// What retiring an asset of a class of this kind changes on a route.
fn retire_on(
    alloc: Global,
    inventory: &Inventory,
    asset: Asset,
    kind: Kind,
    route_row: &RouteRow,
    location: EventLocation,
) -> Result<Plan, Stop>
    requires known { HasAsset inventory.now asset kind route_row.now }
    ensures { Plans
        (verb.Retire asset.number route_row.now.route.name location) inventory.now result }
{
    inventory.prove_sound();
    refuse_if(is_wrong_kind(kind, location), Cause::WrongKind)?;
    let stretch = inventory.stretch(route_row, location)?;
    refuse_if(stretch.is_empty(), Cause::Empty)?;
    let removal = removal_of(alloc, route_row, asset, stretch)?;
    refuse_if(is_nothing(&removal.left), Cause::Empty)?;
    let edit = inventory.edits() + 1;
    let plan = retiring(alloc, edit, route_row, removal)?;
    Ok(plan)
}

/// What of an asset lies on a stretch of a route, and the change that leaves the rest.
fn removal_of(
    alloc: Global,
    route_row: &RouteRow,
    asset: Asset,
    stretch: RouteStretch,
) -> Result<Removal, AllocError>
    ensures plan { IfOk result (λ removal. IsPlan route_row.now.spans removal.change) }
    ensures removal { IfOk result (λ removal. IsRemoval
        (of_asset_within asset stretch) route_row.now.spans removal) }
{
    let from = stretch.from();
    let to = stretch.to();
    route_row
        .spans
        .plan_remove_asset_within(alloc, asset.class, asset.number, from, to)
}

/// Whether there is no row.
fn is_nothing(rows: &[Span]) -> bool
    ensures { result ≡ is_nothing rows.now }
{
    rows.is_empty()
}

/// The plan by which an edit retires what a removal hands back.
fn retiring(
    alloc: Global,
    edit: u64,
    route_row: &RouteRow,
    removal: Removal,
) -> Result<Plan, AllocError>
    requires rows { IsTrue (are_rows removal.left.items) }
    requires once { each_two differs route_row.now.route.course ≡ true }
    ensures { IfOk result (λ plan. IsTaking edit Retired route_row.now removal plan) }
{
    let route = &route_row.route;
    let Removal { left, change } = removal;
    match taken_away(alloc, edit, &left, &route.course, false) {
        Ok(gone) => {
            drop(left);
            let kept = ReferentChange {
                gone: Rows::new(alloc),
                come: Rows::new(alloc),
            };
            let changed = changed(alloc, route.name, None, None, kept, change);
            Ok(asset_plan(alloc, None, changed, Vec::new(alloc), gone))
        }
        Err(fault) => {
            drop(left);
            drop(change);
            Err(fault)
        }
    }
}
