//! The routes that run over ground.

ghost use Rattle.std.specs.Prelude.{IfOk, ◌↔◌};
ghost use Rattle.lrs_measure.specs.Texts.{Name};
ghost use Rattle.lrs_position.specs.Index.MetRoutes.{IsAmong};
ghost use Rattle.lrs_inventory.specs.Changes.{route_on};
ghost use Rattle.lrs_report_answers.specs.Ground.{RunsOverPart};

use lrs_events::Part;
use lrs_inventory::Inventory;
use lrs_position::RouteName;
use std::alloc::{AllocError, Global};
use std::collections::BTreeSet;

/// The routes that run over ground of one of the parts, by the index of ground.
pub(crate) fn routes_over_parts(
    alloc: Global,
    inventory: &Inventory,
    parts: &[Part],
) -> Result<BTreeSet<RouteName>, AllocError>
    ensures { IfOk result (λ routes. (route : Name) → IsAmong route routes
        ↔ RunsOverPart (route_on inventory.now.routes) parts.now route) }
{
    let mut routes = BTreeSet::new(alloc);
    for part in parts {
        inventory.routes_over(part.link, part.from, part.to, &mut routes)?;
    }
    Ok(routes)
}
