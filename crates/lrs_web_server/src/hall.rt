//! Where clients wait: those whose requests have not arrived whole, and those whose replies are not sent whole.

ghost use Rattle.std.specs.Prelude.{◌<◌, ◌≤◌, length, vec_len, IfSome, IsTrue};
ghost use Rattle.lrs_web_server.specs.Room.{most_arrivals};

use crate::arrival::{Behind, IncomingRequest, WholeRequest};
use crate::connection::{ReplyWriter, RequestReader};
use crate::deadlines::later;
use crate::departure::{OutgoingReply, Returns, Stage, returned};
use crate::journal::JournalEntry;
use crate::journal_outlet::JournalOutlet;
use lrs_web::Served;
use mio::net::TcpListener;
use mio::{Events, Interest, Poll, Token};
use std::alloc::Global;
use std::io;
use std::io::{Eprint, ErrorKind};
use std::net::{Net, SocketAddr, TcpStream};
use std::time::{Clock, Duration, Instant};

// So many connections wait with requests that are not whole. Where one more comes, the oldest of them gives way.
const MOST_ARRIVALS: usize = 256;

// So many replies wait to be sent, and keep so many bytes beside the largest. Where there is no room, a new one that is not
// small is refused: none that is being taken is cut for it.
const MOST_DEPARTURES: usize = 256;

const MOST_KEPT: usize = 67_108_864;

const SMALL: usize = 65_536;

// So many connections are accepted in a row before others have their turn, and so many in a row may have ended before
// they were taken.
const MOST_ACCEPTED: u32 = 64;

const MOST_LOST: u32 = 1_000;

// Where descriptors or memory are missing, it pauses so long, and for a minute in all.
const PAUSE_MILLIS: u64 = 50;

const GIVING_UP_MILLIS: u64 = 60_000;

// So long it waits at most before it looks round.
const LONGEST_MILLIS: u64 = 1_000;

// So many connections are reported at once.
const MOST_EVENTS: usize = 256;

const LISTENER: Token = Token(usize::MAX);

// What Linux answers where this process has too many files open, or all have, or the kernel has no room or no memory.
const EMFILE: i32 = 24;

const ENFILE: i32 = 23;

const ENOBUFS: i32 = 105;

const ENOMEM: i32 = 12;

// When it is tried again to accept a connection, and when that is given up.
#[derive(Clone, Copy)]
struct Pause {
    again: Instant,
    end: Instant,
}

/// Where clients wait.
#[derive(Drop)]
pub(crate) struct WaitingRoom<'a> {
    alloc: Global,
    listener: TcpListener,
    poll: Poll,
    events: Events,
    arrivals: Vec<IncomingRequest>,
    departures: Vec<OutgoingReply>,
    returns: &'a Returns,
    // How many connections may still be accepted, whether one may wait for it, and what it waits for.
    left: u32,
    may_come: bool,
    pause: Option<Pause>,
    next: usize,
    outlet: Option<JournalOutlet>,
    ghost few: { vec_len arrivals ≤ most_arrivals },
}

// Whether only the connection failed that came, and not the listener.
fn is_lost(kind: ErrorKind) -> bool {
    matches!(
        kind,
        ErrorKind::ConnectionAborted | ErrorKind::ConnectionReset | ErrorKind::Interrupted
    )
}

// Whether descriptors or memory are missing, which others may give back.
fn is_wanting(error: &io::Error) -> bool {
    matches!(
        error.raw_os_error(),
        Some(EMFILE | ENFILE | ENOBUFS | ENOMEM)
    )
}

// The next connection that is still there.
fn accept_present(listener: &TcpListener) -> io::Result<mio::net::TcpStream> {
    for _turn in 0..MOST_LOST {
        match listener.accept() {
            Ok((stream, _)) => return Ok(stream),
            Err(error) if is_lost(error.kind()) => {}
            Err(error) => return Err(error),
        }
    }
    Err(io::Error::from(ErrorKind::ConnectionAborted))
}

fn stir(token: Token, arrivals: &mut [IncomingRequest], departures: &mut [OutgoingReply]) {
    for arrival in arrivals.iter_mut() {
        if arrival.token == token {
            arrival.is_stirred = true;
        }
    }
    for departure in departures.iter_mut() {
        if departure.token == token {
            departure.is_stirred = true;
        }
    }
}

// Notes which connections are reported, and answers whether the listener is.
fn note(
    events: &Events,
    arrivals: &mut [IncomingRequest],
    departures: &mut [OutgoingReply],
) -> bool {
    let mut comes = false;
    for event in events {
        let token = event.token();
        if token == LISTENER {
            comes = true;
        } else {
            stir(token, arrivals, departures);
        }
    }
    comes
}

// The one whose request has been whole, or has been late, for longest.
fn first_since(arrivals: &[IncomingRequest], is_late: bool) -> Option<usize>
    ensures { IfSome result (λ index. index < length arrivals.now) }
{
    let since = arrivals
        .iter()
        .filter_map(|arrival| arrival.since(is_late))
        .min()?;
    arrivals
        .iter()
        .position(|arrival| arrival.since(is_late) == Some(since))
}

// The one whose request has been whole for longest. Those that are late come behind, so that nobody waits for them.
fn first_whole(arrivals: &[IncomingRequest]) -> Option<usize>
    ensures { IfSome result (λ index. index < length arrivals.now) }
{
    match first_since(arrivals, false) {
        Some(index) => Some(index),
        None => first_since(arrivals, true),
    }
}

// Of too many the oldest give way whose replies have been sent.
fn trim(departures: &mut [OutgoingReply]) {
    let mut excess = departures.len().saturating_sub(MOST_DEPARTURES);
    for departure in departures.iter_mut() {
        if excess == 0 {
            return;
        }
        if departure.stage == Stage::Ending {
            excess = excess.saturating_sub(1);
            departure.cut();
        }
    }
}

// How many bytes a new reply may have, beside those that are being sent. The largest of all has no limit.
fn room(departures: &[OutgoingReply]) -> usize {
    let mut count = 0usize;
    let mut bytes = 0usize;
    let mut largest = 0;
    for departure in departures {
        if departure.stage == Stage::Sending {
            count = count.saturating_add(1);
            bytes = bytes.saturating_add(departure.rest.len());
            largest = departure.rest.len().max(largest);
        }
    }
    if count >= MOST_DEPARTURES {
        return SMALL;
    }
    if bytes <= MOST_KEPT {
        return usize::MAX;
    }
    let smaller = bytes.saturating_sub(largest);
    MOST_KEPT.saturating_sub(smaller).max(SMALL)
}

// Writes the lines of those whose replies have been sent or cut.
fn tell<R: Clock + Eprint>(
    rt: &R,
    outlet: &mut Option<JournalOutlet>,
    departures: &mut [OutgoingReply],
    now: Instant,
) {
    let Some(outlet) = outlet else {
        return;
    };
    for departure in departures.iter_mut() {
        if let Some(entry) = departure.take_entry() {
            entry.say(rt, outlet, now);
        }
    }
    outlet.tell_lost(rt);
}

fn advance_arrivals(arrivals: &mut [IncomingRequest], alloc: Global, now: Instant) {
    for arrival in arrivals.iter_mut() {
        arrival.advance(alloc, now);
    }
}

fn advance_departures(departures: &mut [OutgoingReply], now: Instant) {
    for departure in departures.iter_mut() {
        departure.advance(now);
    }
}

// Where none can be served, the oldest gives way; whether one does.
fn give_way(arrivals: &mut [IncomingRequest], now: Instant) -> bool {
    if first_whole(arrivals).is_some() {
        return false;
    }
    match arrivals.first_mut() {
        Some(oldest) => {
            oldest.settle(Behind::Late, now);
            true
        }
        None => false,
    }
}

// Lines go to standard error, where they are wanted.
fn outlet_of<R: Net>(rt: &R, alloc: Global, logs: bool) -> io::Result<Option<JournalOutlet>> {
    if !logs {
        return Ok(None);
    }
    let outlet = JournalOutlet::open(rt, alloc)?;
    Ok(Some(outlet))
}

// How long nothing is due.
fn leisure(arrivals: &[IncomingRequest], departures: &[OutgoingReply], now: Instant) -> Duration {
    let longest = later(now, LONGEST_MILLIS);
    let mut until = longest;
    for arrival in arrivals {
        if arrival.whole.is_some() || arrival.is_stirred {
            return Duration::ZERO;
        }
        until = until.min(arrival.until);
    }
    for departure in departures {
        if departure.is_stirred {
            return Duration::ZERO;
        }
        until = until.min(departure.until);
    }
    until.duration_since(now)
}

impl<'a> WaitingRoom<'a> {
    /// Listens at an address, to so many connections, which it has back through `returns`, and writes a line of each where
    /// that is wanted.
    pub(crate) fn open<R: Net>(
        rt: &R,
        alloc: Global,
        address: SocketAddr,
        max: u32,
        logs: bool,
        returns: &'a Returns,
    ) -> io::Result<WaitingRoom<'a>> {
        let outlet = outlet_of(rt, alloc, logs)?;
        let poll = Poll::new(rt)?;
        let mut listener = TcpListener::bind(rt, address)?;
        poll.registry()
            .register(&mut listener, LISTENER, Interest::READABLE)?;
        Ok(WaitingRoom {
            alloc,
            listener,
            poll,
            events: Events::with_capacity(alloc, MOST_EVENTS)?,
            arrivals: Vec::with_capacity(alloc, MOST_ARRIVALS + 1)?,
            departures: Vec::with_capacity(alloc, MOST_DEPARTURES + 1)?,
            returns,
            left: max,
            may_come: true,
            pause: None,
            next: 0,
            outlet,
        })
    }

    // A connection that was accepted waits from now on. Where it cannot be watched it has failed.
    fn admit(&mut self, mut stream: mio::net::TcpStream, now: Instant)
        requires { vec_len self.old.arrivals < most_arrivals }
    {
        let token = Token(self.next);
        self.next = self.next.wrapping_add(1);
        let interests = Interest::READABLE.add(Interest::WRITABLE);
        let watched = self.poll.registry().register(&mut stream, token, interests);
        let mut arrival = IncomingRequest::new(self.alloc, TcpStream::from(stream), token, now);
        if watched.is_err() {
            arrival.settle(Behind::Failure, now);
        }
        if self.arrivals.push(arrival).is_ok() {
            self.left = self.left.saturating_sub(1);
        }
    }

    // Whether one more may be accepted now.
    fn is_open(&self, now: Instant) -> bool
        ensures { IsTrue result → vec_len self.now.arrivals < most_arrivals }
    {
        if !self.may_come || self.left == 0 || self.arrivals.len() > MOST_ARRIVALS {
            return false;
        }
        match self.pause {
            Some(pause) => now >= pause.again,
            None => true,
        }
    }

    // Descriptors or memory are missing: it is tried again later, for a minute.
    fn rest(&mut self, now: Instant) -> io::Result<()> {
        let end = match self.pause {
            Some(pause) => pause.end,
            None => later(now, GIVING_UP_MILLIS),
        };
        if now >= end {
            return Err(io::Error::from(ErrorKind::OutOfMemory));
        }
        let again = later(now, PAUSE_MILLIS);
        self.pause = Some(Pause { again, end });
        Ok(())
    }

    fn accept(&mut self, now: Instant) -> io::Result<()> {
        for _turn in 0..MOST_ACCEPTED {
            if !self.is_open(now) {
                return Ok(());
            }
            match accept_present(&self.listener) {
                Ok(stream) => {
                    self.pause = None;
                    self.admit(stream, now);
                }
                Err(error) if error.kind() == ErrorKind::WouldBlock => self.may_come = false,
                Err(error) if is_wanting(&error) => return self.rest(now),
                Err(error) => return Err(error),
            }
        }
        Ok(())
    }

    // Takes back those that have been served.
    fn take_back(&mut self, now: Instant) {
        for _turn in 0..MOST_DEPARTURES {
            let Some(mut departure) = returned(self.returns) else {
                return;
            };
            departure.begin(now);
            if self.pause.is_some() && !departure.is_answered {
                departure.cut();
            }
            let _ = self.departures.push(departure);
        }
    }

    // How long it may wait.
    fn patience(&self, now: Instant) -> Duration {
        let leisure = leisure(self.arrivals.as_slice(), self.departures.as_slice(), now);
        if self.is_open(now) {
            return Duration::ZERO;
        }
        match self.pause {
            Some(pause) => leisure.min(pause.again.duration_since(now)),
            None => leisure,
        }
    }

    // Waits until something is due or has come, and notes which.
    fn wait<R: Clock>(&mut self, rt: &R) -> io::Result<()> {
        let patience = self.patience(Instant::now(rt)?);
        self.poll.poll(&mut self.events, Some(patience))?;
        let arrivals = self.arrivals.as_mut_slice();
        let departures = self.departures.as_mut_slice();
        if note(&self.events, arrivals, departures) {
            self.may_come = true;
        }
        Ok(())
    }

    // Replies go on as far as they are taken.
    fn send<R: Clock + Eprint>(&mut self, rt: &R, now: Instant) {
        trim(self.departures.as_mut_slice());
        advance_departures(self.departures.as_mut_slice(), now);
        tell(rt, &mut self.outlet, self.departures.as_mut_slice(), now);
        self.departures
            .retain(|departure| departure.stage != Stage::Over);
    }

    // Requests go on as far as they have come.
    fn receive(&mut self, now: Instant) -> io::Result<()> {
        self.accept(now)?;
        advance_arrivals(self.arrivals.as_mut_slice(), self.alloc, now);
        self.make_way(now);
        Ok(())
    }

    // Where one more has come than may wait, or descriptors are missing for one more, the oldest gives way, and one is
    // accepted in its place at once.
    fn make_way(&mut self, now: Instant) {
        let is_full = self.arrivals.len() > MOST_ARRIVALS || self.pause.is_some();
        if is_full
            && give_way(self.arrivals.as_mut_slice(), now)
            && let Some(pause) = &mut self.pause
        {
            pause.again = now;
        }
    }

    // The connection whose request has been whole for longest.
    fn hand_on(&mut self) -> Option<(RequestReader, ReplyWriter<'a>)> {
        let index = first_whole(self.arrivals.as_slice())?;
        let arrival = self.arrivals.remove(index);
        let whole = arrival.whole.unwrap_or(WholeRequest {
            behind: Behind::Failure,
            since: arrival.until,
        });
        let entry = if self.outlet.is_some() {
            JournalEntry::new(self.alloc, arrival.bytes.as_slice(), whole.since)
        } else {
            None
        };
        let reader = RequestReader::new(arrival.bytes, whole.behind);
        let writer = ReplyWriter::new(
            self.alloc,
            arrival.stream,
            arrival.token,
            whole.since,
            room(self.departures.as_slice()),
            entry,
            self.returns,
        );
        Some((reader, writer))
    }

    // Goes once round: what was served is sent, and what waits is looked at. What clients did meanwhile is known before any of
    // them is late.
    fn turn<R: Clock + Eprint>(&mut self, rt: &R) -> io::Result<()> {
        self.take_back(Instant::now(rt)?);
        self.wait(rt)?;
        let now = Instant::now(rt)?;
        self.send(rt, now);
        self.receive(now)
    }

    /// The connection whose request is whole first.
    ///
    /// # Errors
    /// What the listener, the poll or the clock answers; `NotFound` where no connection is left.
    pub(crate) fn next<R: Clock + Eprint>(
        &mut self,
        rt: &R,
    ) -> io::Result<(RequestReader, ReplyWriter<'a>)> {
        for _turn in 0..u64::MAX {
            if self.left == 0 && self.arrivals.is_empty() {
                return Err(io::Error::from(ErrorKind::NotFound));
            }
            self.turn(rt)?;
            if let Some(connection) = self.hand_on() {
                return Ok(connection);
            }
        }
        Err(io::Error::from(ErrorKind::NotFound))
    }

    /// Sends the replies that are left. Each has its time.
    ///
    /// # Errors
    /// What the poll or the clock answers.
    pub(crate) fn finish<R: Clock + Eprint>(&mut self, rt: &R) -> io::Result<()> {
        self.arrivals.clear();
        self.left = 0;
        for _turn in 0..u64::MAX {
            self.take_back(Instant::now(rt)?);
            if self.departures.is_empty() {
                return Ok(());
            }
            self.wait(rt)?;
            self.send(rt, Instant::now(rt)?);
        }
        Ok(())
    }

    /// Says how many were served in full and how many were cut off, where lines are wanted.
    pub(crate) fn conclude<R: Eprint>(&mut self, rt: &R, served: Served) {
        if let Some(outlet) = &mut self.outlet {
            outlet.conclude(rt, served);
        }
    }
}
