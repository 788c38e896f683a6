//! What is at a chainage of a route.

ghost use Rattle.std.specs.Prelude.{◌≤◌, length, IfOk};
ghost use Rattle.lrs_position.specs.Translations.{alignment_of};
ghost use Rattle.lrs_machine.specs.Image.{state_of};
ghost use Rattle.lrs_report_answers.specs.Answers.{IsRouteIn, StandsAt};
ghost use Rattle.lrs_report_answers.specs.Place.Answers.{IsThere};

use crate::places::positions::{position_by, positions_of};
use crate::{AskFault, AtAnswer, at};
use lrs_inventory::Inventory;
use lrs_machine::RouteRow;
use lrs_measure::Rows;
use lrs_position::{Expr, RouteName, Target};
use std::alloc::{AllocError, Global};

/// What is at a chainage of a route.
#[derive(Drop)]
pub struct Whereabouts {
    /// The route.
    pub route: RouteName,
    /// Which millimetre of the route is there (at the route's end the last one), which one of a link that is, and who holds it.
    pub found: AtAnswer,
    /// The chainage, exact: by the absolute method, by the interpolative one, and by the relative one from each referent of the
    /// route in their order.
    pub positions: Rows<Expr>,
}

/// The millimetre at a chainage of a route, and who holds it.
fn ground_at(
    alloc: Global,
    inventory: &Inventory,
    row: &RouteRow,
    chainage: u64,
) -> Result<AtAnswer, AllocError>
    requires known { IsRouteIn inventory.now row.now }
    requires on_route { chainage ≤ length row.now.route.course }
    ensures { IfOk result (StandsAt (state_of inventory.now)
        (alignment_of row.now.route) (chainage, 1)) }
{
    let position = position_by(&row.route, chainage, Target::Int);
    match at(alloc, inventory.kept(), &row.route.name, position) {
        Ok(found) => Ok(found),
        Err(fault) => match fault {
            AskFault::Memory => Err(AllocError),
            _ => unreachable!(),
        },
    }
}

/// What is at a chainage of a route, with the chainage by every method.
pub(crate) fn answer_at(
    alloc: Global,
    inventory: &Inventory,
    row: &RouteRow,
    chainage: u64,
) -> Result<Whereabouts, AllocError>
    requires known { IsRouteIn inventory.now row.now }
    requires on_route { chainage ≤ length row.now.route.course }
    ensures { IfOk result (IsThere inventory.now row.now chainage) }
{
    let found = ground_at(alloc, inventory, row, chainage)?;
    let positions = positions_of(alloc, &row.route, chainage)?;
    Ok(Whereabouts {
        route: row.route.name,
        found,
        positions,
    })
}
