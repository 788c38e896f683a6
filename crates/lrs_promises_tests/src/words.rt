//! The calls that words name.

use lrs_desk::{Desk, Keeper};
use lrs_machine::Limits;
use lrs_promises::{Call, headline};
use std::fs;

/// The call of a kind, with what is in a file.
fn call_of(rt: &HostRuntime, kind: &str, path: &str) -> Option<Call> {
    let bytes = fs::read(rt, path).ok()?;
    match kind {
        "edits" => Some(Call::Edits(bytes)),
        "survey" => Some(Call::Survey(bytes)),
        "request" => Some(Call::Request(bytes)),
        _ => None,
    }
}

/// The call that a word names.
pub fn call_named(rt: &HostRuntime, word: &str) -> Option<Call> {
    let (kind, path) = word.split_once(':')?;
    call_of(rt, kind, path)
}

/// The calls that words with this prefix name, in order, up to the first that names none.
fn calls_of(rt: &HostRuntime, words: &[String], prefix: &str) -> Vec<Call> {
    let mut calls = Vec::new(rt.alloc());
    for word in words {
        let Some(named) = word.as_str().strip_prefix(prefix) else {
            continue;
        };
        let Some(call) = call_named(rt, named) else {
            break;
        };
        if calls.push(call).is_err() {
            break;
        }
    }
    calls
}

/// Prints what was written.
pub fn print(rt: &HostRuntime, bytes: &[u8]) -> Option<()> {
    let text = str::from_utf8(bytes).ok()?;
    rt.print(text).ok()
}

/// Does these calls in one list, and prints what each writes.
pub fn do_list<K: Keeper>(rt: &HostRuntime, calls: &[Call], desk: &mut Desk<K>) -> Option<()> {
    let written = headline(rt.alloc(), calls, desk).ok()?;
    for text in written.iter() {
        print(rt, text.as_slice())?;
    }
    Some(())
}

/// Does the calls that words with this prefix name, in one list.
pub fn do_calls<K: Keeper>(
    rt: &HostRuntime,
    words: &[String],
    prefix: &str,
    desk: &mut Desk<K>,
) -> Option<()> {
    let calls = calls_of(rt, words, prefix);
    do_list(rt, calls.as_slice(), desk)
}

/// A desk over a keeper, or the keeper back.
pub fn open<K: Keeper>(rt: &HostRuntime, limits: Limits, keeper: K) -> Result<Desk<K>, K> {
    match Desk::open(keeper, limits, rt.alloc()) {
        Ok(desk) => Ok(desk),
        Err((_, keeper)) => Err(keeper),
    }
}
