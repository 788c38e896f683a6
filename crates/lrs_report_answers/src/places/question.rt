//! The question what is at a place.

ghost use Rattle.std.specs.Prelude.{◌≡◌, Err};
ghost use Rattle.lrs_report_answers.specs.Place.Answers.{IsWhereabouts};

use crate::AskFault;
use crate::places::answer::{Whereabouts, answer_at};
use crate::places::place::place_of;
use lrs_inventory::Inventory;
use lrs_machine::AskedPlace;
use std::alloc::{AllocError, Global};

/// What is at a place of a route, or at a millimetre of a link, where it is asked for as the route that runs over it: the
/// millimetre of the route and of the link, who holds it, and the chainage by every method.
///
/// Routes and links are found by search, and the route of a millimetre by the index of ground.
///
/// # Errors
/// `Missing` of the route where none has the name, of the link where none has the number, then of the place behind the end of
/// the route or of the link and where no route runs over the millimetre; `Place` where a position locates nothing on its
/// route; and `Memory`.
pub fn whereabouts(
    alloc: Global,
    inventory: &Inventory,
    spot: AskedPlace,
) -> Result<Whereabouts, AskFault>
    ensures answer { IsWhereabouts inventory.now spot result }
    ensures never { result ≡ Err AskFault.MustReopen → ⊥ }
{
    // For the prover alone: what its contract says is known from here on.
    inventory.prove_sound();
    match place_of(inventory, spot) {
        Ok((row, chainage)) => match answer_at(alloc, inventory, row, chainage) {
            Ok(found) => Ok(found),
            Err(AllocError) => Err(AskFault::Memory),
        },
        Err(fault) => Err(fault),
    }
}
