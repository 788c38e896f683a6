//! Inventories that may hold little: the program's own limits are beyond a test's time.

use crate::words::{do_calls, open};
use lrs_desk::{Keeper, Plain};
use lrs_machine::Limits;

const FEW: Limits = Limits {
    routes: 1,
    assets: 1,
    edits: 6,
};

/// Does the calls of words with this prefix at a desk of few limits over a keeper, and gives the keeper back.
fn run_few<K: Keeper>(
    rt: &HostRuntime,
    words: &[String],
    prefix: &str,
    keeper: K,
) -> (K, Option<()>) {
    match open(rt, FEW, keeper) {
        Ok(mut desk) => {
            let done = do_calls(rt, words, prefix, &mut desk);
            (desk.into_keeper(), done)
        }
        Err(keeper) => (keeper, None),
    }
}

/// The same over an inventory in memory.
fn run_plain(rt: &HostRuntime, words: &[String], prefix: &str) -> Option<()> {
    let (plain, done) = run_few(rt, words, prefix, Plain::empty(rt.alloc()));
    plain.discard();
    done
}

/// One record at a time, and together, where groups end at refusals.
pub fn run_limited(rt: &HostRuntime, words: &[String]) -> Option<()> {
    run_plain(rt, words, "few:")?;
    run_plain(rt, words, "group:")
}
