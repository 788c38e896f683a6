//! What a terminal is told of a sheet that was tried, of each record in the state in which it is tried: where it cuts
//! routes, and what the inventory has near to what a refused one names.

use crate::cuts::tell_cut;
use crate::nearby::near_to;
use crate::places::places_of;
use crate::progress::ProgressDisplay;
use csv::{ByteRecord, Reader};
use lrs_inventory::Inventory;
use lrs_machine::{Answer, Cause, Command, Key};
use lrs_sheet::{Desk, Keeper, Sheet, copy_desk};
use lrs_sheet_records::rows::open;
use lrs_sheet_records::{SheetRecord, command_in, is_header};
use std::alloc::Global;
use std::rt::Runtime;

// The most cuts of a sheet that are told, and the most refusals.
const MOST_TOLD: u64 = 20;

// The most records of a sheet that are done for that, the header too: they take a moment.
const MOST_DONE: u64 = 10_000;

// How many cuts are still to be told of a sheet, and how many refusals.
#[derive(Clone, Copy)]
struct Untold {
    cuts: u64,
    refusals: u64,
}

// The key and the command of a record, where it is well formed.
fn command_of(alloc: Global, kind: Sheet, row: &ByteRecord) -> Option<(Key, Command)> {
    if row.len() > kind.width() {
        return None;
    }
    let record = SheetRecord {
        fields: row,
        sheet: kind,
    };
    match command_in(alloc, &record) {
        Ok(said) => Some(said),
        Err(_) => None,
    }
}

// Whether a record says where a route is cut.
fn is_cut(alloc: Global, kind: Sheet, row: &ByteRecord) -> bool {
    match command_of(alloc, kind, row) {
        Some((_, command)) => places_of(&command).is_some(),
        None => false,
    }
}

// Reads the next record, where there is one that can be read.
fn has_next(rows: &mut Reader<&[u8]>, row: &mut ByteRecord) -> bool {
    match rows.read_byte_record(row) {
        Ok(is_found) => is_found,
        Err(_) => false,
    }
}

// How many of the records behind the header say where a route is cut.
fn count_behind(alloc: Global, kind: Sheet, rows: &mut Reader<&[u8]>, row: &mut ByteRecord) -> u64 {
    let mut cuts: u64 = 0;
    for _turn in 0..u64::MAX {
        if !has_next(rows, row) {
            return cuts;
        }
        if is_cut(alloc, kind, row) {
            cuts = cuts.saturating_add(1);
        }
    }
    cuts
}

// The same of a sheet; none where its first record is no header, and of a survey, which cuts no route.
fn count_cuts(alloc: Global, kind: Sheet, text: &[u8]) -> u64 {
    if kind == Sheet::Survey {
        return 0;
    }
    let mut rows = open(alloc, text);
    let mut row = ByteRecord::new(alloc);
    if has_next(&mut rows, &mut row) && is_header(kind, &row) {
        count_behind(alloc, kind, &mut rows, &mut row)
    } else {
        0
    }
}

// Tells where a command cuts a route, if it does, before it is done.
fn tell_before<R: Runtime<A = Global>>(
    rt: &R,
    inventory: &Inventory,
    key: &Key,
    command: &Command,
    untold: Untold,
) -> Untold {
    if untold.cuts > 0 && tell_cut(rt, inventory, key, command) {
        return Untold {
            cuts: untold.cuts - 1,
            refusals: untold.refusals,
        };
    }
    untold
}

// Tells what is near to what a command names that is refused for this cause.
fn tell_refusal<R: Runtime<A = Global>>(
    rt: &R,
    inventory: &Inventory,
    key: &Key,
    command: &Command,
    cause: Cause,
    untold: Untold,
) -> Untold {
    if untold.refusals == 0 {
        return untold;
    }
    match near_to(rt.alloc(), inventory, command, cause) {
        Some(near) => {
            let _ = eprintln!(rt; "key {key}: {near}");
            Untold {
                cuts: untold.cuts,
                refusals: untold.refusals - 1,
            }
        }
        None => untold,
    }
}

// Does a command, and tells of it. Says what is still to be told.
fn do_command<R: Runtime<A = Global>, K: Keeper>(
    rt: &R,
    desk: &mut Desk<K>,
    key: Key,
    command: &Command,
    untold: Untold,
) -> Untold {
    let untold = tell_before(rt, desk.inventory(), &key, command, untold);
    match desk.act(key, command) {
        Ok(Answer::Refused(cause)) => {
            tell_refusal(rt, desk.inventory(), &key, command, cause, untold)
        }
        _ => untold,
    }
}

// The same of a record, if it is well formed.
fn do_row<R: Runtime<A = Global>, K: Keeper>(
    rt: &R,
    desk: &mut Desk<K>,
    kind: Sheet,
    row: &ByteRecord,
    untold: Untold,
) -> Untold {
    match command_of(rt.alloc(), kind, row) {
        Some((key, command)) => do_command(rt, desk, key, &command, untold),
        None => untold,
    }
}

// Does the first records of a sheet, until nothing is to be told any more. Says what is left.
fn do_first<R: Runtime<A = Global>, K: Keeper>(
    rt: &R,
    desk: &mut Desk<K>,
    kind: Sheet,
    rows: &mut Reader<&[u8]>,
    row: &mut ByteRecord,
    untold: Untold,
) -> Untold {
    let mut left = untold;
    for _turn in 0..MOST_DONE {
        if (left.cuts == 0 && left.refusals == 0) || !has_next(rows, row) {
            return left;
        }
        left = do_row(rt, desk, kind, row, left);
    }
    left
}

// The same at a desk whose keeper is given back.
fn do_first_at<R: Runtime<A = Global>, K: Keeper>(
    rt: &R,
    desk: Desk<K>,
    kind: Sheet,
    text: &[u8],
    untold: Untold,
) -> (K, Untold) {
    let mut copy = desk;
    let mut rows = open(rt.alloc(), text);
    let mut row = ByteRecord::new(rt.alloc());
    let left = do_first(rt, &mut copy, kind, &mut rows, &mut row, untold);
    (copy.into_keeper(), left)
}

// Tells this much of a sheet at a copy of a desk's inventory. Says how many cuts were told.
fn tell_first<R: Runtime<A = Global>, K: Keeper>(
    rt: &R,
    desk: &Desk<K>,
    kind: Sheet,
    text: &[u8],
    untold: Untold,
) -> u64 {
    match copy_desk(rt.alloc(), desk) {
        Ok(copy) => {
            let (plain, left) = do_first_at(rt, copy, kind, text, untold);
            plain.discard();
            untold.cuts.saturating_sub(left.cuts)
        }
        Err(_) => 0,
    }
}

/// Says on a terminal of the first records of a sheet that was tried, each in the state in which it is tried: where it cuts
/// a route, in metres, with the measures there, and of how many more this is so; and, if records are refused, what the
/// inventory has near to what these name. Nothing is done at the desk.
pub(crate) fn tell_of_trial<R: Runtime<A = Global>, K: Keeper>(
    rt: &R,
    shown: ProgressDisplay,
    desk: &Desk<K>,
    kind: Sheet,
    text: &[u8],
    is_refused: bool,
) {
    if shown == ProgressDisplay::Nowhere {
        return;
    }
    let cuts = count_cuts(rt.alloc(), kind, text);
    let untold = Untold {
        cuts: cuts.min(MOST_TOLD),
        refusals: if is_refused { MOST_TOLD } else { 0 },
    };
    if untold.cuts > 0 || untold.refusals > 0 {
        let told = tell_first(rt, desk, kind, text, untold);
        let more = cuts.saturating_sub(told);
        if more > 0 {
            let _ = eprintln!(rt; "and {more} more that split or realign");
        }
    }
}
