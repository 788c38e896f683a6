//! Runs the calls that carry the promises, over an inventory in memory; over tables in memory; over files on two empty
//! disks in memory, which are closed then; and over these files again. Each word names a call and the file that it
//! reads, as `edits:first.csv`, or a position to translate and back, as `trip:int:1/3:abs` on route A1. What each writes
//! is printed, and then how many edits there are. `strip:A1:L:SPEED` prints a strip, and `asks:A1:SPEED:10` what the single
//! questions of a desk find; `differs:edits:first.csv` what two inventories differ in; `meets:`, `covers:`, `link:` and `measure:` ask routes. What was made in memory is copied, its
//! totals are counted over its lists, and all is done over the copy too; then `lost:` calls, over a keeper of it whose first
//! commit fails.
//!
//! Behind it connections of a door in memory are served at a desk of its own. A word lets one more connection wait, with
//! the request of a file, as `waits:totals.http`, or with a first read that fails, as `fails:totals.http`; or so many are
//! served, as `serves:3`. What is written to each connection is printed, and then how the service ended.
//!
//! At the end desks of few limits do the calls of words as `few:edits:few.csv`, and of `group:`; and desks whose keeper
//! fails those of `broken:`, and of `split:`, before and after an opening. `ends:` says how calls end whose reader or writer
//! fails, and `acts:` what commands are answered by each call of a desk that does them.
#![tactic(auto)]

mod differences;
mod door;
mod ends;
mod failure;
mod ground;
mod keeper;
mod limits;
mod lists;
mod services;
mod steps;
mod words;

use differences::show_differences;
use ends::run_ends;
use failure::{run_failing, run_lost};
use ground::{show_covers, show_link, show_located, show_meets};
use limits::run_limited;
use lists::{copy_of, show_asked, show_strip};
use lrs_desk::{Desk, Keeper, Plain, Staged};
use lrs_machine::Limits;
use lrs_position::{EnteredPosition, RouteName, read_expr, read_method, read_target};
use lrs_promises::{round_trip, rows};
use lrs_store::{NotReopened, Tables, close_and_open, close_files, discard_files, open_files};
use lrs_store_image::Reader;
use services::serve_words;
use sqlite::{Alter, FileStore, Files, Options};
use sqlite_disk::{Disk, Memory};
use std::env;
use std::process::ExitCode;
use steps::run_all;
use words::{do_calls, open};

/// Translates a position on A1 by the words of a trip, and back, and prints both.
fn take_trip<K: Keeper>(rt: &HostRuntime, desk: &Desk<K>, words: &str) -> Option<()> {
    let (method, rest) = words.split_once(':')?;
    let (position, to) = rest.split_once(':')?;
    let route = RouteName::new(b"A1")?;
    let method = read_method(method.as_bytes())?;
    let entered = EnteredPosition::new(read_expr(method, position.as_bytes())?)?;
    let target = read_target(to.as_bytes())?;
    let trip = round_trip(desk, &route, entered, target).ok()?;
    println!(rt; "{} {}", trip.there, trip.back).ok()
}

/// Prints what a word asks of a desk; any other word asks nothing here.
fn ask<K: Keeper>(rt: &HostRuntime, desk: &Desk<K>, word: &str) -> Option<()> {
    let (kind, rest) = word.split_once(':')?;
    match kind {
        "trip" => take_trip(rt, desk, rest),
        "strip" => show_strip(rt, desk, rest),
        "asks" => show_asked(rt, desk, rest),
        "meets" => show_meets(rt, desk, rest),
        "covers" => show_covers(rt, desk, rest),
        "link" => show_link(rt, desk, rest),
        "measure" => show_located(rt, desk, rest),
        "differs" => show_differences(rt, desk, rest),
        _ => Some(()),
    }
}

/// Does the calls, and then what is asked.
fn take<K: Keeper>(rt: &HostRuntime, desk: &mut Desk<K>, words: &[String]) -> Option<()> {
    do_calls(rt, words, "", desk)?;
    rows(desk);
    for word in words {
        ask(rt, desk, word.as_str())?;
    }
    println!(rt; "{}", desk.inventory().edits()).ok()
}

/// Does what the words say at a desk over a keeper, and gives it back.
fn run<K: Keeper>(rt: &HostRuntime, words: &[String], keeper: K) -> (K, Option<()>) {
    match open(rt, Limits::full(), keeper) {
        Ok(mut desk) => {
            let done = take(rt, &mut desk, words);
            (desk.into_keeper(), done)
        }
        Err(keeper) => (keeper, None),
    }
}

/// The same over tables.
fn run_tables<S: Alter>(
    rt: &HostRuntime,
    words: &[String],
    tables: Tables<S, Reader>,
) -> (Tables<S, Reader>, Option<()>) {
    let (keeper, done) = run(rt, words, Staged::over(tables, rt.alloc()));
    (keeper.into_inner(), done)
}

/// The tables in these files, or new ones where they hold none.
fn open_tables<D: Disk + Drop>(
    rt: &HostRuntime,
    files: Files<D>,
) -> Option<Tables<FileStore<D>, Reader>> {
    if files.log.may_be_used() && files.db.may_be_used() {
        match open_files(rt.alloc(), files, Options::new(7), Reader) {
            Ok(tables) => Some(tables),
            Err(refusal) => {
                let _fault = refusal.into_fault();
                None
            }
        }
    } else {
        None
    }
}

/// Closes the files of tables, and opens them again.
fn reopen<D: Disk + Drop>(
    rt: &HostRuntime,
    tables: Tables<FileStore<D>, Reader>,
) -> Option<Tables<FileStore<D>, Reader>> {
    match close_and_open(rt.alloc(), tables, Options::new(7), Reader) {
        Ok(tables) => Some(tables),
        Err(NotReopened::Unclosed(_)) => None,
        Err(NotReopened::Unopened(refusal)) => {
            let _fault = refusal.into_fault();
            None
        }
    }
}

/// The same over tables in files. It stands by itself: what ties such tables to their store is costly to prove.
fn run_stored<D: Disk + Drop>(
    rt: &HostRuntime,
    words: &[String],
    tables: Tables<FileStore<D>, Reader>,
) -> (Tables<FileStore<D>, Reader>, Option<()>) {
    run_tables(rt, words, tables)
}

/// Opens files, does what the words say, closes and opens them, does it again, and closes them.
fn run_files<D: Disk + Drop>(rt: &HostRuntime, words: &[String], files: Files<D>) -> Option<()> {
    let (tables, done) = run_stored(rt, words, open_tables(rt, files)?);
    if done.is_none() {
        discard_files(tables);
        return None;
    }
    let (tables, done) = run_stored(rt, words, reopen(rt, tables)?);
    match close_files(tables) {
        Ok(_) => done,
        Err(_) => None,
    }
}

/// A keeper of a copy of what another keeps, which is given back.
fn copied(rt: &HostRuntime, plain: Plain) -> (Plain, Option<Plain>) {
    match open(rt, Limits::full(), plain) {
        Ok(desk) => {
            let copy = copy_of(rt, &desk);
            (desk.into_keeper(), copy)
        }
        Err(plain) => (plain, None),
    }
}

/// Over a copy of what was made in memory; and then over a keeper of it that fails.
fn run_copy(rt: &HostRuntime, words: &[String], copy: Plain) -> Option<()> {
    let (copy, done) = run(rt, words, copy);
    if done.is_none() {
        copy.discard();
        return None;
    }
    run_lost(rt, words, copy)
}

/// Over an inventory in memory, and over a copy of it.
fn run_plain(rt: &HostRuntime, words: &[String]) -> Option<()> {
    let (plain, done) = run(rt, words, Plain::empty(rt.alloc()));
    let (plain, copy) = copied(rt, plain);
    plain.discard();
    match (done, copy) {
        (Some(()), Some(copy)) => run_copy(rt, words, copy),
        (None, Some(copy)) => {
            copy.discard();
            None
        }
        (_, None) => None,
    }
}

/// Over tables in memory.
fn run_memory(rt: &HostRuntime, words: &[String]) -> Option<()> {
    let Ok(tables) = Tables::in_memory(rt.alloc(), Reader) else {
        return None;
    };
    let (tables, done) = run_tables(rt, words, tables);
    drop(tables);
    done
}

/// Over files on new disks, and again once they were closed.
fn run_disks(rt: &HostRuntime, words: &[String]) -> Option<()> {
    let files = Files {
        log: Memory::new(rt.alloc()),
        db: Memory::new(rt.alloc()),
    };
    run_files(rt, words, files)
}

/// Serves at a desk over an inventory in memory.
fn run_services(rt: &HostRuntime, words: &[String]) -> Option<()> {
    match open(rt, Limits::full(), Plain::empty(rt.alloc())) {
        Ok(mut desk) => {
            let served = serve_words(rt, words, &mut desk);
            desk.into_keeper().discard();
            served
        }
        Err(plain) => {
            plain.discard();
            None
        }
    }
}

/// Over each keeper in turn, and then the services, the desks of few limits and those whose keeper fails.
fn run_each(rt: &HostRuntime, words: &[String]) -> Option<()> {
    run_plain(rt, words)?;
    run_memory(rt, words)?;
    run_disks(rt, words)?;
    run_services(rt, words)?;
    run_limited(rt, words)?;
    run_failing(rt, words)?;
    run_ends(rt, words)?;
    run_all(rt, words)
}

fn main(rt: HostRuntime) -> ExitCode {
    let Ok(given) = env::args(&rt) else {
        return ExitCode::from(1);
    };
    let Ok(words) = given.skip(1).collect::<Vec<String>>(rt.alloc()) else {
        return ExitCode::from(1);
    };
    match run_each(&rt, words.as_slice()) {
        Some(()) => ExitCode::from(0),
        None => ExitCode::from(1),
    }
}
