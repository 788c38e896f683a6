//! The plan of a command, by its verb.

ghost use Rattle.lrs_inventory.specs.Plans.{Plans};

use lrs_inventory::{Inventory, Plan, Stop};
use lrs_machine::Command;
use lrs_verbs::{
    plan_class, plan_close, plan_enter, plan_join, plan_link, plan_realign, plan_recalibrate,
    plan_ref, plan_renumber, plan_retire, plan_route, plan_split, plan_supersede, plan_turn,
    plan_unref,
};
use std::alloc::Global;

/// What a command would change of an inventory.
///
/// # Errors
/// The first check of its verb that fails, or lack of memory.
pub(crate) fn plan_command(
    alloc: Global,
    inventory: &Inventory,
    command: &Command,
) -> Result<Plan, Stop>
    ensures { Plans command.now inventory.now result }
{
    match command {
        Command::Link(link) => plan_link(alloc, inventory, *link),
        Command::Class(class) => plan_class(alloc, inventory, *class),
        Command::Route {
            name,
            pieces,
            marks,
        } => plan_route(alloc, inventory, *name, pieces.as_slice(), marks.as_slice()),
        Command::Ref { name, route, at } => plan_ref(alloc, inventory, *name, *route, *at),
        Command::Unref { name } => plan_unref(alloc, inventory, *name),
        Command::Enter(asked) => plan_enter(alloc, inventory, asked),
        Command::Retire {
            asset,
            route,
            location,
        } => plan_retire(alloc, inventory, *asset, *route, *location),
        Command::Split { route, at, name } => plan_split(alloc, inventory, *route, at.get(), *name),
        Command::Join { first, second } => plan_join(alloc, inventory, *first, *second),
        Command::Renumber { route, name } => plan_renumber(alloc, inventory, *route, *name),
        Command::Recalibrate { route, marks } => plan_recalibrate(
            alloc,
            inventory,
            *route,
            marks.as_slice(),
        ),
        Command::Realign {
            route,
            from,
            to,
            pieces,
            marks,
        } => plan_realign(
            alloc,
            inventory,
            *route,
            from.get(),
            to.get(),
            pieces,
            marks.as_slice(),
        ),
        Command::Close { route } => plan_close(alloc, inventory, *route),
        Command::Supersede(asked) => plan_supersede(alloc, inventory, asked),
        Command::Turn { route } => plan_turn(alloc, inventory, *route),
    }
}
