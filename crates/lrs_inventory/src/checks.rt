//! Checks that several verbs share.

ghost use Rattle.std.specs.Prelude.{IfErr, ◌≡◌, Some, None, IfOk};
ghost use Rattle.std.specs.List.{find};
ghost use Rattle.lrs_inventory.specs.Prelude.{is_named, state_of};
ghost use Rattle.lrs_machine.specs.declared.answer.Cause.TheVariants as cause;
ghost use Rattle.lrs_machine.specs.Machine.{check_free};
ghost use Rattle.lrs_inventory.specs.NewCourses.{new_marks};
ghost use Rattle.lrs_inventory.specs.Plans.{Answers};
ghost use Rattle.lrs_inventory.specs.declared.plan.Stop.TheVariants as stop;

use crate::inventory::Inventory;
use crate::plan::Stop;
use lrs_element::{Mark, MarkFault, Marks, Piece};
use lrs_machine::{Cause, RouteRow};
use lrs_position::RouteName;
use std::alloc::Global;

/// The route of a name, with what lies on it.
///
/// # Errors
/// `NoRoute` where no route has the name.
pub fn route_named<'a>(inventory: &'a Inventory, name: &RouteName) -> Result<&'a RouteRow, Stop>
    ensures found { IfOk result (λ row. find (is_named name.now) inventory.now.routes
        ≡ Some row.now) }
    ensures missing { IfErr result (λ why. (why ≡ stop.Refused cause.NoRoute)
        × (find (is_named name.now) inventory.now.routes ≡ None)) }
{
    match inventory.route(name) {
        Some(route_row) => Ok(route_row),
        None => Err(Stop::Refused(Cause::NoRoute)),
    }
}

/// Refuses pieces of which a route runs over a millimetre: the first of them.
pub fn check_free(inventory: &Inventory, pieces: &[Piece]) -> Result<(), Stop>
    ensures { Answers (check_free (state_of inventory.now) pieces.now) result }
{
    match inventory.first_taken(pieces) {
        Some(i) => Err(Stop::Refused(Cause::Taken(i as u64))),
        None => Ok(()),
    }
}

/// These marks, for a course of this length.
pub fn new_marks(alloc: Global, marks: &[Mark], len: u64) -> Result<Marks, Stop>
    ensures { Answers (new_marks len marks.now) result }
{
    let list = Vec::from_slice(alloc, marks)?;
    match Marks::new(list, len) {
        Ok(marks) => Ok(marks),
        Err(MarkFault(i)) => Err(Stop::Refused(Cause::BadMarks(i as u64))),
    }
}
