//! The file of an inventory, and the turn in which it is opened.

ghost use Rattle.std.specs.Prelude.{◌≡◌, IfOk, IfSome, Result, false};
ghost use Rattle.lrs_machine.specs.declared.image.Image.{Image as ImageRows};
ghost use Rattle.lrs_machine.specs.declared.table.Table.{Table as DeclaredTable};
ghost use Rattle.lrs_image.specs.KeeperCalls.{HoldsOnly};

use crate::desk::{open_desk, open_desk_to_look};
use lrs_cli_help::{MadeFile, Patience, Purpose, Site, Turn, site_at, take_turn};
use lrs_cli_sheets::ProgressDisplay;
use lrs_desk::{Desk, Files, OpenFault};
use std::fs;
use std::rt::HostRuntime;

// A file of so many bytes takes about a second to open.
const LONG_BYTES: u64 = 4_000_000;

/// The file of an inventory, and how it is opened.
#[derive(Clone, Copy)]
pub(crate) struct Target<'a> {
    pub(crate) path: &'a str,
    /// A new file gets sums of its pages.
    pub(crate) new_has_sums: bool,
    /// None is made.
    pub(crate) existing: bool,
    /// How long it is waited for where another program has it.
    pub(crate) patience: Patience,
    /// The file that this run has made for it, and takes away again where nothing is done.
    pub(crate) made: Option<MadeFile>,
    /// It has this identity, or nothing is done.
    pub(crate) expected: Option<[u8; 16]>,
}

// Says on a terminal that a file is opened, where it is so long that this takes a while.
fn tell_opening(rt: &HostRuntime, path: &str, shown: ProgressDisplay) -> bool {
    if shown == ProgressDisplay::Nowhere {
        return false;
    }
    match fs::metadata(rt, path) {
        Ok(found) if LONG_BYTES <= found.len() => {
            let megabytes = found.len() / 1_000_000;
            // for edits, on a quiet machine; for questions a third
            let seconds = megabytes / 12 + 1;
            let _ = eprint!(rt; "opening {path}, {megabytes} MB, about {seconds} s");
            true
        }
        _ => false,
    }
}

/// Waits for a turn at a file.
pub(crate) fn turn_at(rt: &HostRuntime, target: Target<'_>, purpose: Purpose) -> Turn {
    take_turn(rt, target.path, purpose, target.patience)
}

/// Ends the turn in which something was opened, takes the line away that said so, and hands on what was opened.
pub(crate) fn cleared<T>(rt: &HostRuntime, turn: Turn, was_said: bool, opened: T) -> T
    ensures { result ≡ opened }
{
    turn.end();
    if was_said {
        let _ = eprint!(rt; "\r\x1b[K");
    }
    opened
}

/// Opens a desk over the inventory of a target for all work, as `open_desk` does, in a turn at its file.
///
/// # Errors
/// Those of `open_desk`.
pub(crate) fn open_target<F: Files>(
    rt: &HostRuntime,
    files: &mut F,
    target: Target<'_>,
    shown: ProgressDisplay,
) -> Result<Desk<F::Kept>, OpenFault>
    ensures kept { IfOk result (λ desk. HoldsOnly (F.Kept.may_hold desk.keeper) desk.image) }
    ensures opened { IfOk result (λ desk. (c : Result ImageRows DeclaredTable)
        → F.Kept.may_hold desk.keeper c → F.has_opened c) }
    ensures behind { IfOk result (λ desk. desk.is_ahead ≡ false) }
{
    let turn = turn_at(rt, target, Purpose::Change);
    let was_said = tell_opening(rt, target.path, shown);
    let opened = open_desk(rt, files, target.path, target.new_has_sums);
    cleared(rt, turn, was_said, opened)
}

/// Opens a desk over the inventory of a target for questions, as `open_desk_to_look` does, in a turn at its file.
///
/// # Errors
/// Those of `open_desk_to_look`.
pub(crate) fn look_at_target<F: Files>(
    rt: &HostRuntime,
    files: &mut F,
    target: Target<'_>,
    shown: ProgressDisplay,
) -> Result<Option<Desk<F::Seen>>, OpenFault>
    ensures kept { IfOk result (λ found. IfSome found (λ desk.
        HoldsOnly (F.Seen.may_hold desk.keeper) desk.image)) }
    ensures read { IfOk result (λ found. IfSome found (λ desk. (c : Result ImageRows DeclaredTable)
        → F.Seen.may_hold desk.keeper c → F.has_read c)) }
    ensures behind { IfOk result (λ found. IfSome found (λ desk. desk.is_ahead ≡ false)) }
{
    let turn = turn_at(rt, target, Purpose::Look);
    let was_said = tell_opening(rt, target.path, shown);
    let opened = open_desk_to_look(rt, files, target.path);
    cleared(rt, turn, was_said, opened)
}

/// What stands at a path. Where it is no inventory, it is looked once more when nobody is about to make one.
pub(crate) fn settled_site(rt: &HostRuntime, target: Target<'_>) -> Site {
    match site_at(rt, target.path) {
        Site::Inventory => Site::Inventory,
        _ => {
            turn_at(rt, target, Purpose::Look).end();
            site_at(rt, target.path)
        }
    }
}
