//! Whether somebody reads what the program prints.

use mio::unix::SourceFd;
use mio::{Events, Interest, Poll, Token};
use std::alloc::Global;
use std::io;
use std::rt::HostRuntime;
use std::time::Duration;

// The descriptors of standard output and standard error.
const OUTPUT: i32 = 1;

const ERROR: i32 = 2;

// How many seconds a reader of standard error is waited for.
const PATIENCE: u64 = 1;

fn wait_for(
    poll: &mut Poll,
    events: &mut Events<Global>,
    stream: i32,
    time: Duration,
) -> io::Result<()> {
    let mut source = SourceFd(&stream);
    poll.registry()
        .register(&mut source, Token(0), Interest::WRITABLE)?;
    poll.poll(events, Some(time))
}

fn fill(
    rt: &HostRuntime,
    events: &mut Events<Global>,
    stream: i32,
    time: Duration,
) -> io::Result<()> {
    let mut poll = Poll::new(rt)?;
    wait_for(&mut poll, events, stream, time)
}

// What is told of a stream that is to be written, as soon as there is something, and within this time.
fn told_of(rt: &HostRuntime, stream: i32, time: Duration) -> io::Result<Events<Global>> {
    let mut events = Events::with_capacity(rt.alloc(), 1)?;
    fill(rt, &mut events, stream, time)?;
    Ok(events)
}

/// Whether standard output is a pipe whose reader has gone. Of a file, which cannot be waited for, it is not said.
pub fn is_reader_gone(rt: &HostRuntime) -> bool {
    match told_of(rt, OUTPUT, Duration::from_millis(0)) {
        Ok(events) => events.iter().any(|event| event.is_error()),
        Err(_) => false,
    }
}

/// Whether standard error takes a line, for which a pipe is waited for at most a second: else nobody reads it. What cannot
/// be waited for, as a file, takes one.
pub fn is_error_read(rt: &HostRuntime) -> bool {
    match told_of(rt, ERROR, Duration::from_secs(PATIENCE)) {
        Ok(events) => !events.is_empty(),
        Err(_) => true,
    }
}
