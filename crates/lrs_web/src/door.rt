//! Connections are served one after another.

ghost use Rattle.std.specs.Prelude.{ℕ, ◌≡◌, ◌+◌, IfOk, IsOkAnd, OnOk, OnErr, IsTrue};
ghost use Rattle.lrs_web_requests.specs.Request.{page_text};
ghost use Rattle.lrs_web_requests.specs.Routes.{rows};
ghost use Rattle.lrs_web.specs.Door.{HasRisen};
ghost use Rattle.lrs_web.specs.Visits.{IsCut, IsFull, Visited};

use crate::recipient::{Client, Recipient};
use crate::request::{WebFault, do_task, refuse, write_to};
use lrs_sheet::{Desk, Keeper};
use lrs_web_requests::{BodyFault, Format, Resource, receive, routes};
use matchit::Router;
use std::alloc::Global;
use std::io::{Read, Write};

/// A door gave no connection.
#[derive(Clone, Copy, PartialEq, Eq)]
pub struct DoorFault;

/// Where connections come from.
pub trait Door {
    ghost use Rattle.std.specs.Prelude.{ℕ, List, Option, None, ◌≡◌, ⊤, IfOk, OnOk, OnErr};
    ghost use Rattle.lrs_web.specs.Door.{Gives, KeepsAll, TakesBack, HasRisen};

    /// The part of a connection from which its request is read.
    type Reader: Read + Drop;

    /// The part of a connection to which the reply is written, and that knows of the client. The door has it back.
    type Writer: Write + Client;

    /// The connections that it has still to give, where it tells them.
    ghost waiting: { Self → Option (List (Self.Reader × Self.Writer)) } = { λ _. None };

    /// The writers that it has back, the last one last, where it tells them.
    ghost ended: { Self → Option (List Self.Writer) } = { λ _. None };

    /// Whether it has room to take one back.
    ghost has_room: { Self → Type 0 } = { λ _. ⊤ };

    /// How often it has failed.
    ghost failures: { Self → ℕ };

    /// How many bytes the body of a reply has at most. One that would have more is an empty 503.
    fn most_reply(&self) -> usize {
        usize::MAX
    }

    /// The next connection.
    fn next(&mut self) -> Result<(Self::Reader, Self::Writer), DoorFault>
        ensures gives { IfOk result (λ connection.
            Gives (waiting self.old) connection (waiting self.new)) }
        ensures keeps { OnErr result (KeepsAll (waiting self.old) (waiting self.new)) }
        ensures ended { KeepsAll (ended self.old) (ended self.new) }
        ensures room { OnOk result (has_room self.new) }
        ensures steady { OnOk result (failures self.new ≡ failures self.old) }
        ensures failed { OnErr result (HasRisen (failures self.old) (failures self.new)) };

    /// Takes the writer of a connection back, whose reply is written, or is not to be. So the connection ends.
    fn take_back(&mut self, writer: Self::Writer)
        requires { has_room self.old }
        ensures takes { TakesBack (ended self.old) writer (ended self.new) }
        ensures keeps { KeepsAll (waiting self.old) (waiting self.new) }
        ensures steady { failures self.new ≡ failures self.old };
}

/// How many connections were served in full, and how many were cut off: their request or its reply did not go through,
/// or the reply was a 503.
#[derive(Clone, Copy, PartialEq, Eq)]
pub struct Served {
    pub full: u32,
    pub cut: u32,
}

// Whether a reply was written that does not say that nothing, or not all, was done.
fn is_full(written: Result<u16, WebFault>) -> bool
    ensures { IsTrue result → IsOkAnd written (λ status. status ≡ 503 → ⊥) }
{
    matches!(written, Ok(status) if status != 503)
}

/// Serves the request of a connection, and answers whether it was served in full.
fn serve_by<R: Read, W: Write + Client, K: Keeper>(
    alloc: Global,
    most: usize,
    router: &Router<(Resource, Format)>,
    page: Option<&'static str>,
    reader: &mut R,
    writer: &mut W,
    desk: &mut Desk<K>,
) -> bool
    requires { router.now ≡ rows }
    ensures full { IsTrue result → IsFull K.may_hold (page_text page.entry) (record {
      input = R.remaining reader.old;
      before = W.contents writer.old;
      after = W.contents writer.new;
    }) desk.old desk.new }
    ensures cut { IsCut K.may_hold (page_text page.entry) (R.remaining reader.old) desk.old desk.new }
{
    match receive(alloc, router, page, reader) {
        Ok(task) => {
            let to = Recipient {
                client: &*writer,
                most,
            };
            let reply = do_task(alloc, &to, &task, desk);
            is_full(write_to(alloc, &reply, writer))
        }
        Err(BodyFault::Memory) => {
            let _ = refuse(writer);
            false
        }
        Err(BodyFault::Read(_)) => false,
    }
}

fn serve_connection<R: Read, W: Write + Client, K: Keeper>(
    alloc: Global,
    most: usize,
    page: Option<&'static str>,
    reader: &mut R,
    writer: &mut W,
    desk: &mut Desk<K>,
) -> bool
    ensures full { IsTrue result → IsFull K.may_hold (page_text page.entry) (record {
      input = R.remaining reader.old;
      before = W.contents writer.old;
      after = W.contents writer.new;
    }) desk.old desk.new }
    ensures cut { IsCut K.may_hold (page_text page.entry) (R.remaining reader.old) desk.old desk.new }
{
    match routes(alloc) {
        Ok(router) => serve_by(alloc, most, &router, page, reader, writer, desk),
        Err(_) => {
            let _ = refuse(writer);
            false
        }
    }
}

/// Serves a number of connections of a door, one after another: the request of each is read, done and answered as
/// `serve_one` does it; a sheet whose client is gone ends where it is. A connection that fails ends alone. Where a page is
/// given, it is shown at `/`, and no POST that comes from a page of another site is done.
///
/// # Errors
/// The door gave no connection; those before it are served.
pub fn serve_all<D: Door, K: Keeper>(
    alloc: Global,
    door: &mut D,
    page: Option<&'static str>,
    desk: &mut Desk<K>,
    max: u32,
) -> Result<Served, DoorFault>
    ensures count { IfOk result (λ served. served.full + served.cut ≡ max) }
    ensures visited { IfOk result (λ served. Visited K.may_hold (page_text page.entry) D.Reader.remaining
        D.Writer.contents (D.waiting door.old) (D.waiting door.new) (D.ended door.old)
        (D.ended door.new) served.full served.cut desk.old desk.new) }
    ensures steady { OnOk result (D.failures door.new ≡ D.failures door.old) }
    ensures failed { OnErr result (HasRisen (D.failures door.old) (D.failures door.new)) }
    ensures stopped { OnErr result ((full : ℕ) × (cut : ℕ)
        × Visited K.may_hold (page_text page.entry) D.Reader.remaining D.Writer.contents (D.waiting door.old)
        (D.waiting door.new) (D.ended door.old) (D.ended door.new) full cut desk.old desk.new) }
{
    let most = door.most_reply();
    let mut full = 0;
    let mut cut = 0;
    for _turn in 0..max {
        let Ok((mut reader, mut writer)) = door.next() else {
            return Err(DoorFault);
        };
        let is_full = serve_connection(alloc, most, page, &mut reader, &mut writer, desk);
        door.take_back(writer);
        if is_full {
            full += 1;
        } else {
            cut += 1;
        }
    }
    Ok(Served { full, cut })
}
