//! A service of connections.

ghost use Rattle.std.specs.Prelude.{ℕ, ◌≡◌, ◌+◌, IfOk, OnErr};
ghost use Rattle.lrs_web_requests.specs.Request.{page_text};
ghost use Rattle.lrs_web.specs.Door.{HasRisen};
ghost use Rattle.lrs_promises.specs.Services.{IsService};

use lrs_desk::{Desk, Keeper};
use lrs_web::{Door, DoorFault, Served, serve_all};
use std::alloc::Global;

/// Serves a number of connections of a door, as `serve_all` does, with a page or without. The image stands for the fold of all
/// commands that the connections gave, in order: one that was served in full gave all commands of its request, and one that
/// was cut off none or the first of them; where a page is shown, a POST of another site gave none. Of each of these commands,
/// and of each state between them, the laws of the ground machine hold.
///
/// # Errors
/// The door gave no connection; those before it are served.
pub fn serve<D: Door, K: Keeper>(
    alloc: Global,
    door: &mut D,
    page: Option<&'static str>,
    desk: &mut Desk<K>,
    max: u32,
) -> Result<Served, DoorFault>
    ensures count { IfOk result (λ served. served.full + served.cut ≡ max) }
    ensures served { IfOk result (λ served. IsService K.may_hold (page_text page.entry) D.Reader.remaining
        D.Writer.contents (D.waiting door.old) (D.waiting door.new) (D.ended door.old)
        (D.ended door.new) served.full served.cut desk.old desk.new) }
    ensures failed { OnErr result (HasRisen (D.failures door.old) (D.failures door.new)) }
    ensures stopped { OnErr result ((full : ℕ) × (cut : ℕ)
        × IsService K.may_hold (page_text page.entry) D.Reader.remaining D.Writer.contents (D.waiting door.old)
        (D.waiting door.new) (D.ended door.old) (D.ended door.new) full cut desk.old desk.new) }
{
    desk.inventory().prove_sound();
    serve_all(alloc, door, page, desk, max)
}
