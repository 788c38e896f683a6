//! Desks over inventories in memory: over a copy of another's, and over none.

ghost use Rattle.std.specs.Prelude.{◌≡◌, IfOk, Ok, false};
ghost use Rattle.lrs_machine.specs.Image.{nothing};
ghost use Rattle.lrs_sheet.specs.Trials.{IsFull};

use lrs_desk::{Desk, Keeper, Plain};
use lrs_machine::Limits;
use std::alloc::{AllocError, Global};

// A copy of the inventory of a desk, in memory.
fn copy_of<K: Keeper>(alloc: Global, desk: &Desk<K>) -> Result<Plain, AllocError>
    ensures content { IfOk result (λ plain. plain.content ≡ Ok desk.now.image) }
{
    let image = desk.inventory().image(alloc)?;
    match Plain::new(image, alloc) {
        Ok(plain) => Ok(plain),
        Err(_) => Err(AllocError),
    }
}

/// A desk with full limits over a copy of the inventory of another, in memory.
///
/// # Errors
/// When memory runs out.
pub fn copy_desk<K: Keeper>(alloc: Global, desk: &Desk<K>) -> Result<Desk<Plain>, AllocError>
    ensures image { IfOk result (λ copy. copy.image ≡ desk.now.image) }
    ensures limits { IfOk result (λ copy. IsFull copy.limits) }
    ensures behind { IfOk result (λ copy. copy.is_ahead ≡ false) }
{
    let plain = copy_of(alloc, desk)?;
    match Desk::open(plain, Limits::full(), alloc) {
        Ok(copy) => Ok(copy),
        Err((_, plain)) => {
            plain.discard();
            Err(AllocError)
        }
    }
}

/// A desk with full limits over an empty inventory, in memory.
///
/// # Errors
/// When memory runs out.
pub fn empty_desk(alloc: Global) -> Result<Desk<Plain>, AllocError>
    ensures image { IfOk result (λ desk. desk.image ≡ nothing) }
    ensures limits { IfOk result (λ desk. IsFull desk.limits) }
    ensures behind { IfOk result (λ desk. desk.is_ahead ≡ false) }
{
    let plain = Plain::empty(alloc);
    match Desk::open(plain, Limits::full(), alloc) {
        Ok(desk) => Ok(desk),
        Err((_, plain)) => {
            plain.discard();
            Err(AllocError)
        }
    }
}

/// Lets a desk in memory go, with what it keeps.
pub fn discard_copy(copy: Desk<Plain>) {
    copy.into_keeper().discard();
}
