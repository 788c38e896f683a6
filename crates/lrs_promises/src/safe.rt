//! What each call leaves, by what it answers.

ghost use Rattle.std.specs.Prelude.{◌≤◌};
ghost use Rattle.lrs_desk.specs.Desk.{FindsImage, KeepsImage};
ghost use Rattle.lrs_sheet.specs.Runs.{IsWholeRun};
ghost use Rattle.lrs_sheet.specs.Sheets.{CountsFailures};
ghost use Rattle.lrs_promises.specs.Safe.{ActLeaves, RequestLeaves};

use lrs_desk::{Answer, Command, Desk, Fault, Keeper, Key};
use lrs_sheet::{Sheet, SheetFault, Tally, run_sheet};
use lrs_web::{WebFault, serve_one};
use std::alloc::Global;
use std::io::{Read, Write};

/// Does a command, as `Desk::act` does. The answer is the ground machine's, and only a command that is accepted changes the
/// state; once a commit has failed the desk asks to be opened again, and at no other time.
///
/// # Errors
/// Those of `Desk::act`.
pub fn act<K: Keeper>(desk: &mut Desk<K>, key: Key, command: &Command) -> Result<Answer, Fault>
    ensures { ActLeaves K.may_hold K.is_clean (record { key = key; command = command.now })
        desk.old desk.new result }
{
    desk.act(key, command)
}

/// Runs a sheet, as `run_sheet` does. Whatever ends it, over any reader and writer, commands were done in order, and each
/// fault says whether the keeper goes along; where the reader tells its bytes, the commands are those of its records.
///
/// # Errors
/// Those of `run_sheet`.
pub fn sheet<R: Read + Drop, W: Write, K: Keeper>(
    alloc: Global,
    sheet: Sheet,
    together: usize,
    reader: R,
    writer: &mut W,
    desk: &mut Desk<K>,
) -> Result<Tally, SheetFault>
    requires together { 1 ≤ together }
    ensures ran { IsWholeRun K.may_hold sheet together (R.remaining reader) desk.old desk.new
        (W.contents writer.old) (W.contents writer.new) result }
    // While no commit has failed, an opening finds the image where the device is clean.
    ensures found { FindsImage K.may_hold K.is_clean desk.new }
    // The keeper counts a commit that fails, and forgets no failure.
    ensures counts { CountsFailures K.failures desk.old desk.new result }
{
    desk.prove_kept();
    let ended = run_sheet(alloc, sheet, together, reader, writer, desk);
    desk.prove_kept();
    ended
}

/// Serves a request, as `serve_one` does. Whatever ends it, over any reader and writer, commands were done in order, and the
/// keeper goes along unless a commit failed; a request that was not read has changed nothing, and of one that is answered a
/// reply is written.
///
/// # Errors
/// Those of `serve_one`.
pub fn request<R: Read, W: Write, K: Keeper>(
    alloc: Global,
    reader: &mut R,
    writer: &mut W,
    desk: &mut Desk<K>,
) -> Result<u16, WebFault>
    ensures leaves { RequestLeaves K.may_hold (R.remaining reader.old) (W.contents writer.old)
        (W.contents writer.new) desk.old desk.new result }
    // While no commit has failed, an opening finds the image and nothing else, where the device is clean.
    ensures kept { KeepsImage K.may_hold desk.new }
    ensures found { FindsImage K.may_hold K.is_clean desk.new }
{
    let ended = serve_one(alloc, reader, writer, desk);
    desk.prove_kept();
    ended
}
