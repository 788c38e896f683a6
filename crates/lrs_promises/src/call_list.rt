//! A list of calls, mixed.

ghost use Rattle.std.specs.Prelude.{IfErr, IfOk, map};
ghost use Rattle.lrs_promises.specs.Calls.{DidAll};
ghost use Rattle.lrs_promises.specs.Headline.{HasStopped, IsTheGroundMachines};

use crate::calls::{Call, CallFault, do_call};
use lrs_desk::{Desk, Keeper};
use std::alloc::Global;

/// Does calls one after another.
fn do_all<K: Keeper>(
    alloc: Global,
    calls: &[Call],
    desk: &mut Desk<K>,
) -> Result<Vec<Vec<u8>>, CallFault>
    ensures done { IfOk result (λ written. DidAll K.may_hold calls.now
        (map (λ text. text.items) written.items) desk.old desk.new) }
    ensures stopped { IfErr result (λ fault. HasStopped K.may_hold calls.now fault
        desk.old desk.new) }
{
    let mut written = Vec::new(alloc);
    for call in calls {
        let text = do_call(alloc, call, desk)?;
        desk.inventory().prove_sound();
        written.push(text)?;
    }
    Ok(written)
}

/// Over every list of edit sheets, surveys and requests, mixed, tables and answers are those of the ground machine. What
/// each call writes is the reply to what it reads; the image stands for the fold of all commands, and is what the keeper
/// has; and of each of these commands, and of each state between them, the laws of the ground machine hold.
///
/// # Errors
/// A call ended in a fault of memory, keeper, reader or writer, or with a 503. Those before it are done, it left what such a
/// call leaves, and those behind it are not done.
pub fn headline<K: Keeper>(
    alloc: Global,
    calls: &[Call],
    desk: &mut Desk<K>,
) -> Result<Vec<Vec<u8>>, CallFault>
    ensures done { IfOk result (λ written. IsTheGroundMachines K.may_hold K.is_clean calls.now
        (map (λ text. text.items) written.items) desk.old desk.new) }
    ensures stopped { IfErr result (λ fault. HasStopped K.may_hold calls.now fault
        desk.old desk.new) }
{
    desk.inventory().prove_sound();
    let written = do_all(alloc, calls, desk);
    desk.prove_kept();
    written
}
