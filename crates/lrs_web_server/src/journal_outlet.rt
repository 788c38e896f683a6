//! Where the lines of requests go: to standard error, for which nobody waits.

use lrs_web::Served;
use mio::unix::SourceFd;
use mio::{Events, Interest, Poll, Token};
use std::alloc::Global;
use std::io;
use std::io::Eprint;
use std::net::Net;
use std::time::Duration;

const STANDARD_ERROR: i32 = 2;

const READY: Token = Token(0);

/// Standard error. A line that it does not take at once is lost, and counted.
#[derive(Drop)]
pub(crate) struct JournalOutlet {
    poll: Poll,
    events: Events,
    // A file is never full for a while, and cannot be watched.
    is_watched: bool,
    lost: u64,
}

impl JournalOutlet {
    /// Watches standard error, where it is a pipe, a socket or a terminal.
    pub(crate) fn open<R: Net>(rt: &R, alloc: Global) -> io::Result<JournalOutlet> {
        let poll = Poll::new(rt)?;
        let events = Events::with_capacity(alloc, 1)?;
        let mut source = SourceFd(&STANDARD_ERROR);
        let watched = poll
            .registry()
            .register(&mut source, READY, Interest::WRITABLE);
        Ok(JournalOutlet {
            poll,
            events,
            is_watched: watched.is_ok(),
            lost: 0,
        })
    }

    // Whether it takes a line at once. Watched anew, it is reported where it has room now; a pipe then has room for 4,096
    // bytes, and no line is as long.
    fn has_room(&mut self) -> bool {
        if !self.is_watched {
            return true;
        }
        let mut source = SourceFd(&STANDARD_ERROR);
        let watched = self
            .poll
            .registry()
            .reregister(&mut source, READY, Interest::WRITABLE);
        if watched.is_err() {
            return false;
        }
        match self.poll.poll(&mut self.events, Some(Duration::ZERO)) {
            Ok(()) => !self.events.is_empty(),
            Err(_) => false,
        }
    }

    /// Says how many lines were lost, where some were and that is taken.
    pub(crate) fn tell_lost<R: Eprint>(&mut self, rt: &R) {
        if self.lost > 0 && self.has_room() {
            let lost = self.lost;
            let _ = eprintln!(rt; "{lost} lines lost");
            self.lost = 0;
        }
    }

    /// Whether a line may be written now. Else it counts as lost.
    pub(crate) fn admits<R: Eprint>(&mut self, rt: &R) -> bool {
        self.tell_lost(rt);
        if self.lost == 0 && self.has_room() {
            return true;
        }
        self.lost = self.lost.saturating_add(1);
        false
    }

    /// Says how many connections were served in full, and how many were cut off.
    pub(crate) fn conclude<R: Eprint>(&mut self, rt: &R, served: Served) {
        if self.admits(rt) {
            let Served { full, cut } = served;
            let _ = eprintln!(rt; "served {full} in full, {cut} cut off");
        }
    }
}
