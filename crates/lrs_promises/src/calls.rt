//! Calls over bytes that are there as a whole.

ghost use Rattle.std.specs.Prelude.{IfErr, IfOk};
ghost use Rattle.lrs_sheet.specs.Runs.{IsWholeRun};
ghost use Rattle.lrs_promises.specs.Calls.{Did, DidRequest, DidSheet};
ghost use Rattle.lrs_promises.specs.Headline.{Left, RequestLeft, SheetLeft};

use lrs_desk::{Desk, Keeper};
use lrs_sheet::{Sheet, SheetFault, Tally, run_edits, run_survey};
use lrs_web::{WebFault, serve_one};
use std::alloc::{AllocFailed, Global};
use std::io::{Read, Write};

/// A call, with the bytes that it reads.
#[derive(Drop)]
pub enum Call {
    /// Runs an edit sheet.
    Edits(Vec<u8>),
    /// Runs a survey.
    Survey(Vec<u8>),
    /// Serves a request over HTTP.
    Request(Vec<u8>),
}

/// Why a list of calls is not done to its end.
#[derive(Clone, Copy, PartialEq, Eq)]
pub enum CallFault {
    /// A sheet was not done to its end, for no fault of its own.
    Sheet(SheetFault),
    /// A request was not read, or its reply not written.
    Web(WebFault),
    /// A request was answered with a 503.
    Unavailable,
    /// Memory ran out between two calls.
    Memory,
}

impl<T: Drop> From<AllocFailed<T>> for CallFault {
    ghost use Rattle.std.specs.Prelude.{◌≡◌};
    ghost use Rattle.lrs_promises.specs.declared.calls.CallFault.TheVariants.{Memory};

    ghost from_gives = { λ _ e. e ≡ Memory };

    fn from(_: AllocFailed<T>) -> Self {
        CallFault::Memory
    }
}

/// Runs a sheet of this kind, one record after the other.
fn run_one_by_one<R: Read + Drop, W: Write, K: Keeper>(
    alloc: Global,
    kind: Sheet,
    reader: R,
    writer: &mut W,
    desk: &mut Desk<K>,
) -> Result<Tally, SheetFault>
    ensures { IsWholeRun K.may_hold kind 1 (R.remaining reader) desk.old desk.new
        (W.contents writer.old) (W.contents writer.new) result }
{
    match kind {
        Sheet::Edits => run_edits(alloc, reader, writer, desk),
        Sheet::Survey => run_survey(alloc, reader, writer, desk),
    }
}

/// Runs a sheet, and gives its lines.
fn do_sheet<K: Keeper>(
    alloc: Global,
    kind: Sheet,
    bytes: &[u8],
    desk: &mut Desk<K>,
) -> Result<Vec<u8>, CallFault>
    ensures done { IfOk result (λ lines. DidSheet K.may_hold kind bytes.now lines.items
        desk.old desk.new) }
    ensures left { IfErr result (λ fault. SheetLeft K.may_hold kind bytes.now fault
        desk.old desk.new) }
{
    let mut lines = Vec::new(alloc);
    match run_one_by_one(alloc, kind, bytes, &mut lines, desk) {
        Ok(_) => Ok(lines),
        Err(SheetFault::BadHeader | SheetFault::BadCsv) => Ok(lines),
        Err(fault) => Err(CallFault::Sheet(fault)),
    }
}

/// Serves a request, and gives its reply.
fn do_request<K: Keeper>(
    alloc: Global,
    bytes: &[u8],
    desk: &mut Desk<K>,
) -> Result<Vec<u8>, CallFault>
    ensures done { IfOk result (λ reply. DidRequest K.may_hold bytes.now reply.items
        desk.old desk.new) }
    ensures left { IfErr result (λ fault. RequestLeft K.may_hold bytes.now fault
        desk.old desk.new) }
{
    let mut input = bytes;
    let mut reply = Vec::new(alloc);
    match serve_one(alloc, &mut input, &mut reply, desk) {
        Ok(503) => Err(CallFault::Unavailable),
        Ok(_) => Ok(reply),
        Err(fault) => Err(CallFault::Web(fault)),
    }
}

/// Does a call, and gives what it writes.
pub(crate) fn do_call<K: Keeper>(
    alloc: Global,
    call: &Call,
    desk: &mut Desk<K>,
) -> Result<Vec<u8>, CallFault>
    ensures done { IfOk result (λ text. Did K.may_hold call.now text.items desk.old desk.new) }
    ensures left { IfErr result (λ fault. Left K.may_hold call.now fault desk.old desk.new) }
{
    match call {
        Call::Edits(bytes) => do_sheet(alloc, Sheet::Edits, bytes.as_slice(), desk),
        Call::Survey(bytes) => do_sheet(alloc, Sheet::Survey, bytes.as_slice(), desk),
        Call::Request(bytes) => do_request(alloc, bytes.as_slice(), desk),
    }
}
