//! Where an asset lies.

ghost use Rattle.std.specs.Prelude.{◌≡◌, IfOk, Contains};
ghost use Rattle.std.specs.List.{flat_map};
ghost use Rattle.lrs_machine.specs.Image.{state_of};
ghost use Rattle.lrs_report_answers.specs.AssetStretches.{rows_on, IsFound};

use crate::asset_rows::rows_on_routes;
use crate::entered_parts::parts_of_edit;
use crate::ground_routes::routes_over_parts;
use crate::{AskFault, FoundRow};
use lrs_events::Asset;
use lrs_inventory::Inventory;
use lrs_machine::Missing;
use lrs_measure::Rows;
use std::alloc::{AllocError, Global};

/// The rows of a known asset on all routes: none lies beside ground where it was not entered.
fn rows_of(
    alloc: Global,
    inventory: &Inventory,
    asset: &Asset,
) -> Result<Rows<FoundRow>, AllocError>
    requires known { Contains inventory.now.assets asset.now }
    ensures { IfOk result (λ found. found ≡ flat_map
        (rows_on asset.now.class asset.now.number) inventory.now.routes) }
{
    let entered = parts_of_edit(&inventory.kept().entered, asset.entered_by);
    let routes = routes_over_parts(alloc, inventory, entered)?;
    rows_on_routes(alloc, inventory, &routes, asset.class, asset.number)
}

/// The rows of an asset on all routes, by route name and start. An asset that holds nothing any more has none.
///
/// The routes are those that run today over the ground where the asset was entered; no other is looked at.
///
/// # Errors
/// `Missing(Asset)` where no asset has this number, and `Memory`.
pub fn find(alloc: Global, inventory: &Inventory, asset: u64) -> Result<Rows<FoundRow>, AskFault>
    ensures { IsFound (state_of inventory.now) asset result }
{
    match inventory.kept().assets.find(&asset) {
        Some(known) => match rows_of(alloc, inventory, known) {
            Ok(found) => Ok(found),
            Err(AllocError) => Err(AskFault::Memory),
        },
        None => Err(AskFault::Missing(Missing::Asset)),
    }
}
