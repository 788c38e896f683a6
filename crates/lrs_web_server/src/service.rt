//! A desk, served on a port.

ghost use Rattle.std.specs.Prelude.{ℕ, ◌≡◌, ◌+◌, IfOk, OnErr, OnOk, IsTrue, true, false, Err, Result};
ghost use Rattle.std.specs.Io.KnownBytes.{Appends};
ghost use Rattle.lrs_web_requests.specs.Request.{page_text};
ghost use Rattle.lrs_web.specs.Door.{HasRisen};
ghost use Rattle.lrs_web.specs.Visits.{HasVisited, Visited};
ghost use Rattle.lrs_web_server.specs.Announcements.{HasSaid, listening_line};

use crate::hall::WaitingRoom;
use crate::listener::Listening;
use lrs_web::{Desk, Door, DoorFault, Keeper, Served, serve_all};
use std::alloc::Global;
use std::cell::RefCell;
use std::io;
use std::io::{Eprint, Write};
use std::net::{Ipv4Addr, Net, SocketAddr, SocketAddrV4};
use std::rt::Runtime;

/// How a desk is served.
#[derive(Clone, Copy)]
pub struct ServiceOptions {
    /// A line on standard error tells of each request.
    pub logs: bool,
    /// The service ends once a commit has failed, so that the desk is opened anew.
    pub ends_on_fault: bool,
    /// The body of a reply has at most so many bytes. One that would have more is an empty 503.
    pub most_reply: usize,
    /// The page that is shown at `/`. With one no POST is done that comes from a page of another site.
    pub page: Option<&'static str>,
    /// Standard error says where that is.
    pub tells_page: bool,
}

/// Why a service ended before its last connection.
#[derive(Clone, Copy, PartialEq, Eq)]
pub enum ServiceFault {
    /// The port cannot be listened on. Nothing is said, and nobody is served.
    Port,
    /// The port gives no connections any more.
    Door,
    /// It was not said that it listens, and nobody is served.
    Write,
    /// A commit has failed, and the desk has to be opened anew.
    Desk,
}

// Says that a port is listened on.
fn say<W: Write>(to: &mut W, port: u16) -> io::Result<()>
    ensures { OnOk result (Appends (W.contents to.old) (W.contents to.new)
        (listening_line port)) }
{
    writeln!(to, "listening {port}")?;
    to.flush()
}

// Says where the page is, where that is wanted. Nothing comes of a failure.
fn tell_page<R: Eprint>(rt: &R, port: u16, manner: ServiceOptions) {
    if manner.tells_page {
        let _ = eprintln!(rt; "the page is at http://127.0.0.1:{port}/");
    }
}

// Whether the service ends at this desk.
fn is_at_fault<K: Keeper>(desk: &Desk<K>, ends_on_fault: bool) -> bool
    ensures ends { IsTrue result → (desk.now.must_reopen ≡ true) }
    ensures goes_on { result ≡ false → ends_on_fault ≡ true → desk.now.must_reopen ≡ false }
    ensures never { ends_on_fault ≡ false → result ≡ false }
{
    ends_on_fault && desk.must_reopen()
}

/// Serves a number of connections of a door, one after another, or as many as come before a commit fails, where the
/// service is to end then.
///
/// # Errors
/// `Door` where the door gave no connection; `Desk` where the desk has to be opened anew. Those before are served.
fn serve_each<D: Door, K: Keeper>(
    alloc: Global,
    door: &mut D,
    page: Option<&'static str>,
    desk: &mut Desk<K>,
    max: u32,
    ends_on_fault: bool,
) -> Result<Served, ServiceFault>
    ensures count { IfOk result (λ served. served.full + served.cut ≡ max) }
    ensures visited { IfOk result (λ served. Visited K.may_hold (page_text page.entry) D.Reader.remaining
        D.Writer.contents (D.waiting door.old) (D.waiting door.new) (D.ended door.old)
        (D.ended door.new) served.full served.cut desk.old desk.new) }
    ensures stopped { OnErr result ((full : ℕ) × (cut : ℕ)
        × Visited K.may_hold (page_text page.entry) D.Reader.remaining D.Writer.contents (D.waiting door.old)
        (D.waiting door.new) (D.ended door.old) (D.ended door.new) full cut desk.old desk.new) }
    ensures failed { result ≡ Err ServiceFault.Door
        → HasRisen (D.failures door.old) (D.failures door.new) }
    ensures desk { result ≡ Err ServiceFault.Desk → desk.new.must_reopen ≡ true }
    ensures open { IfOk result (λ _. ends_on_fault ≡ true → desk.new.must_reopen ≡ false) }
    ensures never { ends_on_fault ≡ false → result ≡ Err ServiceFault.Desk → ⊥ }
    ensures listens { result ≡ Err ServiceFault.Port → ⊥ }
    ensures says { result ≡ Err ServiceFault.Write → ⊥ }
{
    let mut full = 0;
    let mut cut = 0;
    for _turn in 0..max {
        if is_at_fault(desk, ends_on_fault) {
            return Err(ServiceFault::Desk);
        }
        match serve_all(alloc, door, page, desk, 1) {
            Ok(served) => {
                full += served.full;
                cut += served.cut;
            }
            Err(DoorFault) => return Err(ServiceFault::Door),
        }
    }
    if is_at_fault(desk, ends_on_fault) {
        return Err(ServiceFault::Desk);
    }
    Ok(Served { full, cut })
}

// How many were served, where all were.
fn served_of(outcome: &Result<Served, ServiceFault>) -> Option<Served> {
    match outcome {
        Ok(served) => Some(*served),
        Err(_) => None,
    }
}

// Serves those who come to a hall, as `serve_each` does, and then sends the replies that are left.
fn serve_hall<'a, R: Runtime<A = Global>, K: Keeper>(
    rt: &'a R,
    hall: WaitingRoom<'a>,
    desk: &mut Desk<K>,
    max: u32,
    manner: ServiceOptions,
) -> Result<Served, ServiceFault>
    ensures count { IfOk result (λ served. served.full + served.cut ≡ max) }
    ensures visited { IfOk result (λ served.
        HasVisited K.may_hold served.full served.cut desk.old desk.new) }
    ensures stopped { OnErr result ((full : ℕ) × (cut : ℕ)
        × HasVisited K.may_hold full cut desk.old desk.new) }
    ensures desk { result ≡ Err ServiceFault.Desk → desk.new.must_reopen ≡ true }
    ensures open { IfOk result (λ _. manner.ends_on_fault ≡ true → desk.new.must_reopen ≡ false) }
    ensures never { manner.ends_on_fault ≡ false → result ≡ Err ServiceFault.Desk → ⊥ }
    ensures listens { result ≡ Err ServiceFault.Port → ⊥ }
    ensures says { result ≡ Err ServiceFault.Write → ⊥ }
{
    let mut door = Listening::new(hall, rt, manner.most_reply);
    let ends_on_fault = manner.ends_on_fault;
    let outcome = serve_each(rt.alloc(), &mut door, manner.page, desk, max, ends_on_fault);
    door.finish(served_of(&outcome));
    outcome
}

/// Listens on a port of 127.0.0.1, says so to `to`, and serves a number of connections at a desk, one after
/// another as their requests are whole. Before it ends, the replies that are left are sent as far as their clients take
/// them in time.
///
/// # Errors
/// `Port` where the port cannot be listened on: nothing is said, and nobody is served. `Door` where it fails later; the
/// connections before are served. `Write` where `to` takes nothing, and nobody is served. `Desk` once a commit has failed,
/// where the service is to end then.
#[tactic(auto, using(crate::proofs::Together::said_so))]
pub fn serve<R: Runtime<A = Global> + Net, K: Keeper, W: Write>(
    rt: &R,
    port: u16,
    max: u32,
    manner: ServiceOptions,
    desk: &mut Desk<K>,
    to: &mut W,
) -> Result<Served, ServiceFault>
    ensures said { HasSaid port result (W.contents to.old) (W.contents to.new) }
    ensures nobody { result ≡ Err ServiceFault.Port → desk.new ≡ desk.old }
    ensures silent { result ≡ Err ServiceFault.Write → desk.new ≡ desk.old }
    ensures count { IfOk result (λ served. served.full + served.cut ≡ max) }
    ensures visited { IfOk result (λ served.
        HasVisited K.may_hold served.full served.cut desk.old desk.new) }
    ensures stopped { OnErr result ((full : ℕ) × (cut : ℕ)
        × HasVisited K.may_hold full cut desk.old desk.new) }
    ensures desk { result ≡ Err ServiceFault.Desk → desk.new.must_reopen ≡ true }
    ensures open { IfOk result (λ _. manner.ends_on_fault ≡ true → desk.new.must_reopen ≡ false) }
    ensures never { manner.ends_on_fault ≡ false → result ≡ Err ServiceFault.Desk → ⊥ }
{
    let address = SocketAddr::V4(SocketAddrV4::new(Ipv4Addr::LOCALHOST, port));
    let Ok(room) = Vec::with_capacity(rt.alloc(), 1) else {
        return Err(ServiceFault::Port);
    };
    let returns = RefCell::new(room);
    let Ok(hall) = WaitingRoom::open(rt, rt.alloc(), address, max, manner.logs, &returns) else {
        return Err(ServiceFault::Port);
    };
    if say(to, port).is_err() {
        return Err(ServiceFault::Write);
    }
    tell_page(rt, port, manner);
    serve_hall(rt, hall, desk, max, manner)
}
