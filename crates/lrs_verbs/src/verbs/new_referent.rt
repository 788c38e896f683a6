//! A referent comes, by the verb `ref`.

ghost use Rattle.lrs_machine.specs.declared.command.Command.TheVariants as verb;
ghost use Rattle.lrs_inventory.specs.Plans.{Plans};

use crate::verbs::referents::{one_referent, plan_of_referents};
use lrs_image::ReferentChange;
use lrs_inventory::{Inventory, Plan, ReferentPlace, ReferentPlaces, Stop, refuse_if};
use lrs_machine::Cause;
use lrs_measure::Rows;
use lrs_position::{EnteredPosition, RefName, Referent, RouteName};
use std::alloc::Global;

pub fn plan_ref(
    alloc: Global,
    inventory: &Inventory,
    name: RefName,
    route: RouteName,
    position: EnteredPosition,
) -> Result<Plan, Stop>
    ensures { Plans (verb.Ref name route position) inventory.now result }
{
    inventory.prove_sound();
    let is_known = inventory.referent(&name).is_some();
    refuse_if(is_known, Cause::RefKnown)?;
    let Some(route_row) = inventory.route(&route) else {
        return Err(Stop::Refused(Cause::NoRoute));
    };
    let at = inventory.cell(route_row, position)?;
    let place = route_row.route.course.ground(at);
    let refs = ReferentChange {
        gone: Rows::new(alloc),
        come: one_referent(alloc, Referent { name, at })?,
    };
    let places = ReferentPlaces {
        come: Some(ReferentPlace {
            name,
            link: place.link,
            mm: place.mm,
        }),
        gone: Rows::new(alloc),
    };
    Ok(plan_of_referents(alloc, route, refs, places))
}
