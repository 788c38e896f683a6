//! A new class.

ghost use Rattle.lrs_machine.specs.declared.command.Command.TheVariants as verb;
ghost use Rattle.lrs_inventory.specs.Plans.{Plans};

use lrs_events::Class;
use lrs_inventory::{Inventory, Plan, Stop, refuse_if};
use lrs_machine::Cause;
use std::alloc::Global;

pub fn plan_class(alloc: Global, inventory: &Inventory, class: Class) -> Result<Plan, Stop>
    ensures { Plans (verb.Class class) inventory.now result }
{
    inventory.prove_sound();
    let is_known = inventory.class(&class.name).is_some();
    refuse_if(is_known, Cause::ClassKnown)?;
    let mut plan = Plan::none(alloc);
    plan.difference.class = Some(class);
    Ok(plan)
}
