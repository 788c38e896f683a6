//! The index of the ground that routes run over, as routes come, go and change.

ghost use Rattle.std.specs.Prelude.{◌≡◌, true, IfOk, OnOk, OnErr};
ghost use Rattle.std.specs.List.{flat_map};
ghost use Rattle.lrs_inventory.specs.Prelude.{Millimetre, Stretches, is_run_once, IsGroundOf};
ghost use Rattle.lrs_position.specs.Index.Ground.{route_over};
ghost use Rattle.lrs_inventory.specs.Changes.{CanChange, CanChangeGround};
ghost use Rattle.lrs_inventory.specs.Indexes.{IsReady, IsReadyFor, AreWholeFor, ground_made};

use crate::plan::GroundChange;
use lrs_machine::RouteRow;
use lrs_position::GroundIndex;
use std::alloc::{AllocError, Global};

/// The ground of routes, of which none runs over a millimetre twice and no two over one.
///
/// # Errors
/// When memory runs out.
pub fn ground_of_routes(alloc: Global, routes: &[RouteRow]) -> Result<GroundIndex, AllocError>
    requires once { is_run_once (flat_map (λ e. e.route.course) routes.now) ≡ true }
    ensures { IfOk result (λ index. IsGroundOf (λ e. e.route.name) (λ e.
        e.route.course) index routes.now) }
{
    let mut ground = GroundIndex::new(alloc);
    for route_row in routes {
        ground.add_all(route_row.route.name, route_row.route.course.pieces())?;
    }
    Ok(ground)
}

/// Adds the new ground, and cuts stretches where ground is freed or passes to another route.
///
/// # Errors
/// When memory runs out; the same route runs over each millimetre then.
pub fn cut_and_add(
    ground: &mut GroundIndex,
    change: &Option<GroundChange>,
) -> Result<(), AllocError>
    requires can { CanChangeGround change.now (route_over ground.old) }
    ensures ok { OnOk result (IsReadyFor change.now ground.old ground.new) }
    ensures err { OnErr result ((m : Millimetre)
        → route_over ground.new m ≡ route_over ground.old m) }
{
    match change {
        Some(change) => cut_and_add_one(ground, change),
        None => Ok(()),
    }
}

fn cut_and_add_one(ground: &mut GroundIndex, change: &GroundChange) -> Result<(), AllocError>
    requires can { CanChange change.now (route_over ground.old) }
    ensures ok { OnOk result (IsReady change.now ground.old ground.new) }
    ensures err { OnErr result ((m : Millimetre)
        → route_over ground.new m ≡ route_over ground.old m) }
{
    ground.cut_at(change.gone.as_slice())?;
    ground.cut_at(change.passed.as_slice())?;
    ground.add_all(change.route, change.come.as_slice())?;
    Ok(())
}

/// Takes out again the ground that came. It takes no memory.
pub fn take_out_added(ground: &mut GroundIndex, change: &Option<GroundChange>)
    ensures { (before : Stretches) → IsReadyFor change.now before ground.old → (m : Millimetre)
        → route_over ground.new m ≡ route_over before m }
{
    if let Some(change) = change {
        ground.remove_added(change.come.as_slice());
    }
}

/// Frees the removed ground, and hands over what passes to another route. It takes no memory.
pub fn free_and_hand_over(ground: &mut GroundIndex, change: &Option<GroundChange>)
    requires whole { AreWholeFor change.now ground.old }
    ensures { (m : Millimetre) → route_over ground.new m
        ≡ ground_made change.now (route_over ground.old) m }
{
    if let Some(change) = change {
        ground.free(change.gone.as_slice());
        ground.hand_over(change.passed.as_slice(), change.route);
    }
}
