//! Standard streams that do not wait, as other programs may set their pipes: they are waited for.

ghost use Rattle.std.specs.Io.{WritesAtMost};

use mio::unix::SourceFd;
use mio::{Events, Interest, Poll, Token};
use std::alloc::Global;
use std::io;
use std::io::{ErrorKind, Write};
use std::net::Net;
use std::rt::{HostRuntime, Runtime};
use std::time::Duration;

// The descriptors of standard input and standard output.
const INPUT: i32 = 0;

const OUTPUT: i32 = 1;

fn wait_by(
    poll: &mut Poll,
    events: &mut Events<Global>,
    fd: i32,
    interest: Interest,
) -> io::Result<()> {
    let mut stream = SourceFd(&fd);
    poll.registry().register(&mut stream, Token(0), interest)?;
    poll.poll(events, Some(Duration::from_secs(1)))
}

// Waits until a stream is ready, but no longer than a second.
fn wait_for<R: Runtime<A = Global> + Net>(rt: &R, fd: i32, interest: Interest) -> io::Result<()> {
    let mut events = Events::with_capacity(rt.alloc(), 1)?;
    let mut poll = Poll::new(rt)?;
    wait_by(&mut poll, &mut events, fd, interest)
}

// Waits where a stream was not ready; where a signal cut a call short it is called again. Any other error is answered.
fn wait_out<R: Runtime<A = Global> + Net>(
    rt: &R,
    error: io::Error,
    fd: i32,
    interest: Interest,
) -> io::Result<()> {
    match error.kind() {
        ErrorKind::Interrupted => Ok(()),
        ErrorKind::WouldBlock => wait_for(rt, fd, interest),
        _ => Err(error),
    }
}

/// Waits where standard input had nothing.
///
/// # Errors
/// Where it cannot be waited for, and any other error than that it was not ready.
pub(crate) fn wait_for_input<R: Runtime<A = Global> + Net>(
    rt: &R,
    error: io::Error,
) -> io::Result<()> {
    wait_out(rt, error, INPUT, Interest::READABLE)
}

/// Writes to standard output, which is waited for where it takes nothing.
///
/// # Errors
/// Where it cannot be waited for, and any other error than that it was not ready.
pub fn write_out(rt: &HostRuntime, buf: &[u8]) -> io::Result<usize>
    ensures { WritesAtMost result buf.now }
{
    for _turn in 0..u64::MAX {
        match io::writer(rt).write(buf) {
            Ok(count) => return Ok(count),
            Err(error) => wait_out(rt, error, OUTPUT, Interest::WRITABLE)?,
        }
    }
    Err(io::Error::from(ErrorKind::WouldBlock))
}
