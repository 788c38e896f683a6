//! A referent goes, by the verb `unref`.

ghost use Rattle.lrs_machine.specs.declared.command.Command.TheVariants as verb;
ghost use Rattle.lrs_inventory.specs.Plans.{Plans};

use crate::verbs::referents::{one_name, plan_of_referents};
use lrs_image::ReferentChange;
use lrs_inventory::{Inventory, Plan, ReferentPlaces, Stop};
use lrs_machine::Cause;
use lrs_measure::Rows;
use lrs_position::RefName;
use std::alloc::Global;

pub fn plan_unref(alloc: Global, inventory: &Inventory, name: RefName) -> Result<Plan, Stop>
    ensures { Plans (verb.Unref name) inventory.now result }
{
    inventory.prove_sound();
    let Some((link, mm)) = inventory.referent(&name) else {
        return Err(Stop::Refused(Cause::NoRef));
    };
    // It stands on a route.
    let Some(route) = inventory.route_over(link, mm) else {
        unreachable!();
    };
    let refs = ReferentChange {
        gone: one_name(alloc, name)?,
        come: Rows::new(alloc),
    };
    let places = ReferentPlaces {
        come: None,
        gone: one_name(alloc, name)?,
    };
    Ok(plan_of_referents(alloc, route, refs, places))
}
