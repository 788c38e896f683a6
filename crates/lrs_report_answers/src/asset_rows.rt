//! The rows of an asset on routes.

ghost use Rattle.std.specs.Prelude.{◌≡◌, ◌++◌, IfOk, OnOk};
ghost use Rattle.std.specs.List.{flat_map};
ghost use Rattle.std.specs.BTreeSet.{IsOrdered};
ghost use Rattle.lrs_measure.specs.Texts.{name_cmp};
ghost use Rattle.lrs_report_answers.specs.NamedRows.{rows_on_named};

use crate::{FoundRow, push_rows};
use lrs_events::ClassName;
use lrs_inventory::Inventory;
use lrs_measure::Rows;
use lrs_position::RouteName;
use std::alloc::{AllocError, Global};
use std::collections::BTreeSet;

/// Adds the rows of an asset of a class on the route of a name.
fn push_rows_on(
    found: &mut Vec<FoundRow>,
    inventory: &Inventory,
    name: &RouteName,
    class: ClassName,
    asset: u64,
) -> Result<(), AllocError>
    ensures { OnOk result (found.new.items ≡ found.old.items
        ++ rows_on_named class asset inventory.now.routes name.now) }
{
    match inventory.route(name) {
        Some(route_row) => push_rows(
            found,
            route_row.route.name,
            route_row.spans.asset_rows(class, asset),
        ),
        None => Ok(()),
    }
}

/// The rows of an asset of a class on the routes of these names, in the order of the names.
pub(crate) fn rows_on_routes(
    alloc: Global,
    inventory: &Inventory,
    names: &BTreeSet<RouteName>,
    class: ClassName,
    asset: u64,
) -> Result<Rows<FoundRow>, AllocError>
    ensures rows { IfOk result (λ found. found ≡ flat_map
        (rows_on_named class asset inventory.now.routes) names.now.keys) }
    ensures order { IsOrdered name_cmp names.now }
{
    let mut found = Vec::new(alloc);
    for name in names {
        push_rows_on(&mut found, inventory, name, class, asset)?;
    }
    Ok(Rows::from_vec(found))
}
