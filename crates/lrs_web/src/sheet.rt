//! Sheets are done at a desk, and what they are answered.

ghost use Rattle.std.specs.Prelude.{◌≡◌, ◌⊎◌, IfOk, IsTrue, false, true};
ghost use Rattle.lrs_machine.specs.Image.{state_of};
ghost use Rattle.lrs_web_requests.specs.Text.{answer_of, empty_answer};
ghost use Rattle.lrs_web.specs.Sheets.{
  DoesAllOrNone,
  DoesSheet,
  DoesTried,
  IsAccepted,
  IsAnswerAfter,
  IsUndone,
  RunsSheet,
  WasTried,
  fault_answer,
  lines_answer,
  refusal_after,
  refused_answer,
};

use crate::recipient::{AnyClient, Client, Recipient, ReplyLines, limited};
use http::StatusCode;
use lrs_sheet::{
    Desk, Keeper, RECORDS_TOGETHER, ResumeFault, Sheet, SheetFault, Tally, Trial, copy_desk,
    discard_copy, resume_sheet, run_sheet, try_sheet,
};
use lrs_sheet_advice::refusals;
use lrs_web_requests::{Content, ContentType, Course, Response};
use std::alloc::{AllocError, Global};

// Where there are no lines, the reply has no body.
fn lines_reply(status: StatusCode, lines: Vec<u8>) -> Response
    ensures { answer_of result ≡ lines_answer status lines.items }
{
    if lines.is_empty() {
        return Response::empty(status);
    }
    let content = Content {
        kind: ContentType::Csv,
        bytes: lines,
    };
    Response {
        status,
        allow: None,
        content: Some(content),
    }
}

/// The lines so far and one that names the fault, or an empty 503 where memory runs out for it.
fn faulty_reply(mut lines: Vec<u8>, line: &[u8]) -> Response
    ensures { (answer_of result ≡ fault_answer line.now lines.items)
        ⊎ (answer_of result ≡ empty_answer 503) }
{
    match lines.extend_from_slice(line) {
        Ok(()) => lines_reply(StatusCode::UNPROCESSABLE_ENTITY, lines),
        Err(_) => Response::empty(StatusCode::SERVICE_UNAVAILABLE),
    }
}

/// The reply to a sheet whose run ended so; what it counted plays no part.
pub(crate) fn reply_after<T: Drop>(ended: Result<T, SheetFault>, lines: Vec<u8>) -> Response
    ensures { IsAnswerAfter ended lines.items (answer_of result) }
{
    match ended {
        Ok(_) => lines_reply(StatusCode::OK, lines),
        Err(SheetFault::BadHeader) => faulty_reply(lines, b"-,fault,BadHeader\n"),
        Err(SheetFault::BadCsv) => faulty_reply(lines, b"-,fault,BadCsv\n"),
        Err(SheetFault::Read | SheetFault::Write | SheetFault::Desk(_) | SheetFault::Memory) => {
            Response::empty(StatusCode::SERVICE_UNAVAILABLE)
        }
    }
}

/// Does a whole sheet.
fn do_whole<C: Client, K: Keeper>(
    alloc: Global,
    to: &Recipient<'_, C>,
    sheet: Sheet,
    bytes: &[u8],
    desk: &mut Desk<K>,
) -> Response
    ensures { RunsSheet K.may_hold sheet false bytes.now desk.old (answer_of result) desk.new }
{
    let mut lines = ReplyLines::new(alloc, to);
    let ended = run_sheet(alloc, sheet, RECORDS_TOGETHER, bytes, &mut lines, desk);
    reply_after(ended, lines.text.bytes)
}

/// Goes on with a sheet behind its last record that is an edit, unless a key stands twice in it.
fn go_on<C: Client, K: Keeper>(
    alloc: Global,
    to: &Recipient<'_, C>,
    sheet: Sheet,
    bytes: &[u8],
    desk: &mut Desk<K>,
) -> Response
    ensures { DoesSheet K.may_hold sheet Course.BehindLast bytes.now desk.old (answer_of result)
        desk.new }
{
    let mut lines = ReplyLines::new(alloc, to);
    match resume_sheet(alloc, sheet, RECORDS_TOGETHER, bytes, &mut lines, desk) {
        Ok(tally) => reply_after(Ok(tally), lines.text.bytes),
        Err(ResumeFault::Sheet(fault)) => reply_after::<Tally>(Err(fault), lines.text.bytes),
        Err(ResumeFault::RepeatedKey(_)) => {
            faulty_reply(lines.text.bytes, b"-,fault,RepeatedKey\n")
        }
    }
}

/// Tries a sheet at a copy of the inventory of a desk, which is let go behind that.
#[tactic(auto, using(crate::proofs::AllOrNone::was_tried))]
fn try_whole<K: Keeper>(
    alloc: Global,
    sheet: Sheet,
    bytes: &[u8],
    desk: &Desk<K>,
) -> Result<Trial, AllocError>
    ensures { IfOk result (λ trial. WasTried sheet bytes.now (state_of desk.now.image)
        trial.replies.items trial.outcome) }
{
    let mut copy = copy_desk(alloc, desk)?;
    let tried = try_sheet(alloc, sheet, 0, bytes, &mut copy);
    discard_copy(copy);
    tried
}

// Whether a trial ran to the end of its sheet, and refused no record.
fn is_accepted(outcome: Result<Tally, SheetFault>) -> bool
    ensures accepted { IsTrue result → IsAccepted outcome }
    ensures refused { IsAccepted outcome → IsTrue result }
{
    matches!(outcome, Ok(tally) if tally.refused == 0)
}

/// The reply to a sheet that is refused as a whole, with these lines, or an empty 503 where memory runs out for it.
fn refused_reply(outcome: Result<Tally, SheetFault>, lines: Vec<u8>) -> Response
    ensures { (answer_of result ≡ refused_answer outcome lines.items)
        ⊎ (answer_of result ≡ empty_answer 503) }
{
    match outcome {
        Ok(_) => lines_reply(StatusCode::CONFLICT, lines),
        Err(fault) => reply_after::<Tally>(Err(fault), lines),
    }
}

/// The reply to a sheet of which the trial refused something: those lines of its replies that refuse. It is an empty 503
/// where memory runs out.
fn refusal(alloc: Global, outcome: Result<Tally, SheetFault>, replies: &[u8]) -> Response
    ensures { (answer_of result ≡ refusal_after outcome replies.now)
        ⊎ (answer_of result ≡ empty_answer 503) }
{
    match refusals(alloc, replies) {
        Ok(lines) => refused_reply(outcome, lines),
        Err(_) => Response::empty(StatusCode::SERVICE_UNAVAILABLE),
    }
}

/// The same, or an empty 503 where it would have too many bytes.
#[tactic(auto, using(crate::proofs::AllOrNone::limited_so))]
fn limited_refusal(
    alloc: Global,
    most: usize,
    outcome: Result<Tally, SheetFault>,
    replies: &[u8],
) -> Response
    ensures { (answer_of result ≡ refusal_after outcome replies.now)
        ⊎ (answer_of result ≡ empty_answer 503) }
{
    limited(refusal(alloc, outcome, replies), most)
}

/// Does a sheet of which its trial refused nothing, unless its client is gone or the reply would have too many bytes. It
/// is done to its end also where its client goes away behind that.
fn do_accepted<C: Client, K: Keeper>(
    alloc: Global,
    to: &Recipient<'_, C>,
    sheet: Sheet,
    bytes: &[u8],
    length_of_reply: usize,
    desk: &mut Desk<K>,
) -> Response
    ensures { RunsSheet K.may_hold sheet false bytes.now desk.old (answer_of result) desk.new
        ⊎ IsUndone desk.old (answer_of result) desk.new }
{
    if length_of_reply > to.most || to.client.is_gone() {
        return Response::empty(StatusCode::SERVICE_UNAVAILABLE);
    }
    let client = AnyClient;
    let to = Recipient {
        client: &client,
        most: to.most,
    };
    do_whole(alloc, &to, sheet, bytes, desk)
}

/// Does a sheet that was tried, if nothing of it was refused.
#[tactic(auto, using(crate::proofs::AllOrNone::done_so, crate::proofs::AllOrNone::refused_so))]
fn do_tried<C: Client, K: Keeper>(
    alloc: Global,
    to: &Recipient<'_, C>,
    sheet: Sheet,
    bytes: &[u8],
    trial: Trial,
    desk: &mut Desk<K>,
) -> Response
    ensures { DoesTried K.may_hold sheet bytes.now trial.replies.items trial.outcome desk.old
        (answer_of result) desk.new ⊎ IsUndone desk.old (answer_of result) desk.new }
{
    if is_accepted(trial.outcome) {
        do_accepted(alloc, to, sheet, bytes, trial.replies.len(), desk)
    } else {
        limited_refusal(alloc, to.most, trial.outcome, trial.replies.as_slice())
    }
}

/// Does a sheet if its trial refuses nothing. Once a commit of several commands has failed, nothing is tried.
#[tactic(auto, using(crate::proofs::AllOrNone::tried_so))]
fn do_all_or_none<C: Client, K: Keeper>(
    alloc: Global,
    to: &Recipient<'_, C>,
    sheet: Sheet,
    bytes: &[u8],
    desk: &mut Desk<K>,
) -> Response
    ensures { DoesAllOrNone K.may_hold sheet bytes.now desk.old (answer_of result) desk.new }
{
    if desk.is_ahead() {
        return Response::empty(StatusCode::SERVICE_UNAVAILABLE);
    }
    match try_whole(alloc, sheet, bytes, desk) {
        Ok(trial) => do_tried(alloc, to, sheet, bytes, trial, desk),
        Err(_) => Response::empty(StatusCode::SERVICE_UNAVAILABLE),
    }
}

/// Does a sheet whose bytes have all come, in its way. Where memory or the keeper fails, some of its records may be done,
/// and the reply is an empty 503; so it is where the reply would have too many bytes or its client is gone, unless the
/// sheet is done as a whole or not at all: then nothing is done. The sheet can go on.
pub(crate) fn do_sheet<C: Client, K: Keeper>(
    alloc: Global,
    to: &Recipient<'_, C>,
    sheet: Sheet,
    course: Course,
    bytes: &[u8],
    desk: &mut Desk<K>,
) -> Response
    ensures { DoesSheet K.may_hold sheet course bytes.now desk.old (answer_of result) desk.new }
{
    match course {
        Course::EachRecord => do_whole(alloc, to, sheet, bytes, desk),
        Course::BehindLast => go_on(alloc, to, sheet, bytes, desk),
        Course::AllOrNone => do_all_or_none(alloc, to, sheet, bytes, desk),
    }
}
