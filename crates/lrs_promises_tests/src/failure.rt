//! Desks whose keeper fails at the second commit, or wants memory there, or is not loaded.

use crate::keeper::{Failing, Failure};
use crate::words::{call_named, open, print};
use lrs_desk::{Desk, Fault, Keeper, Plain};
use lrs_machine::Limits;
use lrs_promises::{Call, CallFault, SheetFault, headline};

/// What a fault is called.
fn name_of(fault: CallFault) -> &'static str {
    match fault {
        CallFault::Sheet(SheetFault::Desk(Fault::Keep)) => "Keep",
        CallFault::Sheet(SheetFault::Desk(Fault::MustReopen)) => "MustReopen",
        CallFault::Sheet(SheetFault::Desk(Fault::Memory)) => "Memory",
        CallFault::Unavailable => "Unavailable",
        _ => "another fault",
    }
}

/// Does a call, and prints what it writes, or its fault.
fn do_one<K: Keeper>(rt: &HostRuntime, call: Call, desk: &mut Desk<K>) -> Option<()> {
    match headline(rt.alloc(), &[call], desk) {
        Ok(written) => {
            for text in written.iter() {
                print(rt, text.as_slice())?;
            }
            Some(())
        }
        Err(fault) => println!(rt; "{}", name_of(fault)).ok(),
    }
}

/// Does the call of each word with this prefix, whatever became of the one before it, and prints how many links there are.
fn do_each<K: Keeper>(
    rt: &HostRuntime,
    words: &[String],
    prefix: &str,
    desk: &mut Desk<K>,
) -> Option<()> {
    for word in words {
        if let Some(named) = word.as_str().strip_prefix(prefix) {
            do_one(rt, call_named(rt, named)?, desk)?;
        }
    }
    println!(rt; "{} links", desk.inventory().links()).ok()
}

/// Does them at a desk over a keeper, and gives the keeper back.
fn run_broken<K: Keeper>(
    rt: &HostRuntime,
    words: &[String],
    prefix: &str,
    keeper: K,
) -> (K, Option<()>) {
    match open(rt, Limits::full(), keeper) {
        Ok(mut desk) => {
            let done = do_each(rt, words, prefix, &mut desk);
            (desk.into_keeper(), done)
        }
        Err(keeper) => (keeper, None),
    }
}

/// Does them at a desk over a keeper, and again at the next one over it.
fn run_again<K: Keeper>(
    rt: &HostRuntime,
    words: &[String],
    prefix: &str,
    keeper: K,
) -> (K, Option<()>) {
    let (keeper, done) = run_broken(rt, words, prefix, keeper);
    if done.is_none() {
        return (keeper, None);
    }
    run_broken(rt, words, prefix, keeper)
}

/// With one record in each commit, and with two.
fn run_failure(rt: &HostRuntime, words: &[String], failure: Failure) -> Option<()> {
    for prefix in ["broken:", "split:"] {
        let keeper = Failing::over(Plain::empty(rt.alloc()), 2, 1, failure);
        let (keeper, done) = run_again(rt, words, prefix, keeper);
        keeper.discard();
        done?;
    }
    Some(())
}

/// Does the calls of `lost:` at a desk over what a keeper has, where the first commit fails and what is kept is as before.
pub fn run_lost(rt: &HostRuntime, words: &[String], plain: Plain) -> Option<()> {
    let keeper = Failing::over(plain, 1, 0, Failure::Old);
    let (keeper, done) = run_broken(rt, words, "lost:", keeper);
    keeper.discard();
    done
}

/// Whether a desk is opened over a keeper, which is given back.
fn is_opened<K: Keeper>(rt: &HostRuntime, keeper: K) -> (K, bool) {
    match open(rt, Limits::full(), keeper) {
        Ok(desk) => (desk.into_keeper(), true),
        Err(keeper) => (keeper, false),
    }
}

/// Over a keeper that fails, for each way in which it does, and over one that is not loaded.
pub fn run_failing(rt: &HostRuntime, words: &[String]) -> Option<()> {
    run_failure(rt, words, Failure::Old)?;
    run_failure(rt, words, Failure::New)?;
    run_failure(rt, words, Failure::Memory)?;
    let keeper = Failing::over(Plain::empty(rt.alloc()), 0, 0, Failure::Old);
    let (keeper, is_opened) = is_opened(rt, keeper);
    keeper.discard();
    println!(rt; "opened: {is_opened}").ok()
}
