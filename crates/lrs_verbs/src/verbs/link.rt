//! A new link.

ghost use Rattle.lrs_machine.specs.declared.command.Command.TheVariants as verb;
ghost use Rattle.lrs_inventory.specs.Plans.{Plans};

use lrs_element::Link;
use lrs_inventory::{Inventory, Plan, Stop, refuse_if};
use lrs_machine::Cause;
use std::alloc::Global;

pub fn plan_link(alloc: Global, inventory: &Inventory, link: Link) -> Result<Plan, Stop>
    ensures { Plans (verb.Link link) inventory.now result }
{
    inventory.prove_sound();
    let is_known = inventory.link_length(link.number).is_some();
    refuse_if(is_known, Cause::LinkKnown)?;
    let mut plan = Plan::none(alloc);
    plan.difference.link = Some(link);
    Ok(plan)
}
