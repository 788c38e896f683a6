//! Services of connections at a door in memory.

use crate::door::{MemoryDoor, MemoryReader};
use lrs_desk::{Desk, Keeper};
use lrs_web::Door;
use std::fs;

/// One more connection waits at a door, with the request of a file.
fn wait<'a>(
    rt: &'a HostRuntime,
    path: &str,
    fails: bool,
    door: &mut MemoryDoor<'a, HostRuntime>,
) -> Option<()> {
    let request = fs::read(rt, path).ok()?;
    door.add(MemoryReader::new(request, fails), Vec::new(rt.alloc()))
}

/// Serves connections: how many in full, and how many were cut off; or none where the door failed.
fn serve<D: Door, K: Keeper>(
    rt: &HostRuntime,
    door: &mut D,
    desk: &mut Desk<K>,
    max: u32,
) -> Option<(u32, u32)> {
    let served = lrs_promises::serve(rt.alloc(), door, None, desk, max).ok()?;
    Some((served.full, served.cut))
}

/// Serves as many connections as a word says, and prints how that ended.
fn serve_word<D: Door, K: Keeper>(
    rt: &HostRuntime,
    word: &str,
    door: &mut D,
    desk: &mut Desk<K>,
) -> Option<()> {
    let max = word.parse::<u32>().ok()?;
    match serve(rt, door, desk, max) {
        Some((full, cut)) => println!(rt; "full {full}, cut {cut}").ok(),
        None => println!(rt; "the door failed").ok(),
    }
}

/// Does what a word of a service says; any other word says nothing here.
fn step<'a, K: Keeper>(
    rt: &'a HostRuntime,
    word: &str,
    door: &mut MemoryDoor<'a, HostRuntime>,
    desk: &mut Desk<K>,
) -> Option<()> {
    let (kind, rest) = word.split_once(':')?;
    match kind {
        "waits" => wait(rt, rest, false, door),
        "fails" => wait(rt, rest, true, door),
        "serves" => serve_word(rt, rest, door, desk),
        _ => Some(()),
    }
}

/// Does what the words say, one after another.
pub fn serve_words<K: Keeper>(
    rt: &HostRuntime,
    words: &[String],
    desk: &mut Desk<K>,
) -> Option<()> {
    let mut door = MemoryDoor::new(rt, rt.alloc());
    for word in words {
        step(rt, word.as_str(), &mut door, desk)?;
    }
    Some(())
}
