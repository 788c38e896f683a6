//! Sheets are tried at a copy of the inventory of a desk, and nothing changes.

ghost use Rattle.std.specs.Prelude.{◌≡◌, ◌⊎◌, IfOk};
ghost use Rattle.lrs_difference.specs.Text.{difference_text};
ghost use Rattle.lrs_sheet.specs.Trials.{IsFull};
ghost use Rattle.lrs_web_requests.specs.Text.{answer_of, empty_answer};
ghost use Rattle.lrs_web_replies.specs.Trials.{trial_answer};
ghost use Rattle.lrs_web.specs.Trials as spec;
ghost use Rattle.lrs_web.specs.Trials.{AnswersTrial, IsAnswerAfterTrial, RepliesToTrial, answer_after_trial};

use crate::recipient::{Client, Recipient, ReplyLines, limited};
use http::StatusCode;
use lrs_difference::write_difference;
use lrs_inventory::Inventory;
use lrs_sheet::{
    Desk, Keeper, Sheet, SheetFault, Tally, Trial, copy_desk, discard_copy, try_sheet,
};
use lrs_sheet_advice::{
    AdviceFault, AdviceItem, AdviceList, SheetFlaw, list_advice, list_fault_advice,
};
use lrs_web_replies::{TrialCounts, TrialFault, trial_reply};
use lrs_web_requests::Response;
use std::alloc::{AllocError, Global};

// What to do about each record that would be refused, and about a sheet that cannot be read on.
fn list_advice_on(
    alloc: Global,
    advice: &mut AdviceList,
    kind: Sheet,
    bytes: &[u8],
    trial: &Trial,
) -> Result<(), AdviceFault> {
    list_advice(alloc, advice, kind, bytes, trial.replies.as_slice())?;
    let flaw = match trial.outcome {
        Err(SheetFault::BadHeader) => SheetFlaw::Header,
        Err(SheetFault::BadCsv) => SheetFlaw::Width,
        _ => return Ok(()),
    };
    list_fault_advice(alloc, advice, flaw, kind, bytes)
}

// No advice at all where there is no room for all of it.
fn advice_on(alloc: Global, most: usize, kind: Sheet, bytes: &[u8], trial: &Trial) -> AdviceList {
    let mut advice = AdviceList::new(alloc, most);
    if list_advice_on(alloc, &mut advice, kind, bytes, trial).is_err() {
        advice.items.clear();
    }
    advice
}

/// What two inventories differ in, line by line.
fn difference_of<C: Client>(
    alloc: Global,
    to: &Recipient<'_, C>,
    before: &Inventory,
    after: &Inventory,
) -> Result<Vec<u8>, AllocError>
    ensures { IfOk result (λ bytes. bytes.items ≡ difference_text before.now after.now) }
{
    let mut lines = ReplyLines::new(alloc, to);
    match write_difference(alloc, &mut lines, before.kept(), after.kept()) {
        Ok(()) => Ok(lines.text.bytes),
        Err(_) => Err(AllocError),
    }
}

/// How a trial ended, where that is told.
fn outcome_told(outcome: Result<Tally, SheetFault>) -> Option<Result<TrialCounts, TrialFault>>
    ensures { result ≡ spec.outcome_told outcome }
{
    match outcome {
        Ok(tally) => Some(Ok(TrialCounts {
            done: tally.done,
            again: tally.again,
            refused: tally.refused,
        })),
        Err(SheetFault::BadHeader) => Some(Err(TrialFault::BadHeader)),
        Err(SheetFault::BadCsv) => Some(Err(TrialFault::BadCsv)),
        Err(SheetFault::Read | SheetFault::Write | SheetFault::Desk(_) | SheetFault::Memory) =>
            None,
    }
}

/// The reply to a sheet whose trial ended so, or an empty 503 where there is no room for it.
fn told_reply(
    alloc: Global,
    most: usize,
    outcome: Result<TrialCounts, TrialFault>,
    replies: &[u8],
    advice: &[AdviceItem],
    difference: &[u8],
) -> Response
    ensures { (answer_of result ≡ trial_answer outcome replies.now advice.now difference.now)
        ⊎ (answer_of result ≡ empty_answer 503) }
{
    match trial_reply(alloc, most, outcome, replies, advice, difference) {
        Ok(reply) => limited(reply, most),
        Err(_) => Response::empty(StatusCode::SERVICE_UNAVAILABLE),
    }
}

/// The same of a trial. Where it ended for no fault of the sheet, that is an empty 503.
#[tactic(auto, using(crate::proofs::Trying::told))]
fn reply_with(
    alloc: Global,
    most: usize,
    trial: &Trial,
    advice: &[AdviceItem],
    difference: &[u8],
) -> Response
    ensures { (answer_of result ≡ answer_after_trial trial.now.outcome trial.now.replies.items
        advice.now difference.now) ⊎ (answer_of result ≡ empty_answer 503) }
{
    let replies = trial.replies.as_slice();
    match outcome_told(trial.outcome) {
        Some(outcome) => told_reply(alloc, most, outcome, replies, advice, difference),
        None => Response::empty(StatusCode::SERVICE_UNAVAILABLE),
    }
}

/// The same with advice.
#[tactic(auto, using(crate::proofs::Trying::advised))]
fn advised_reply(
    alloc: Global,
    most: usize,
    kind: Sheet,
    bytes: &[u8],
    trial: &Trial,
    difference: &[u8],
) -> Response
    ensures { IsAnswerAfterTrial trial.now.outcome trial.now.replies.items difference.now
        (answer_of result) }
{
    let advice = advice_on(alloc, most, kind, bytes, trial);
    reply_with(alloc, most, trial, advice.items.as_slice(), difference)
}

/// The same with what differs in the inventory that the trial made.
fn reply_after_trial<C: Client>(
    alloc: Global,
    to: &Recipient<'_, C>,
    kind: Sheet,
    bytes: &[u8],
    trial: &Trial,
    before: &Inventory,
    after: &Inventory,
) -> Response
    ensures { IsAnswerAfterTrial trial.now.outcome trial.now.replies.items
        (difference_text before.now after.now) (answer_of result) }
{
    match difference_of(alloc, to, before, after) {
        Ok(difference) => {
            advised_reply(alloc, to.most, kind, bytes, trial, difference.as_slice())
        }
        Err(_) => Response::empty(StatusCode::SERVICE_UNAVAILABLE),
    }
}

/// Tries a sheet at a desk over a copy of an inventory.
#[tactic(auto, using(crate::proofs::Trying::replied))]
fn try_at<C: Client, K: Keeper>(
    alloc: Global,
    to: &Recipient<'_, C>,
    kind: Sheet,
    bytes: &[u8],
    inventory: &Inventory,
    copy: &mut Desk<K>,
) -> Response
    requires full { IsFull copy.old.limits }
    requires same { copy.old.image ≡ inventory.now }
    ensures { RepliesToTrial kind inventory.now bytes.now (answer_of result)
        ⊎ (answer_of result ≡ empty_answer 503) }
{
    match try_sheet(alloc, kind, 0, bytes, copy) {
        Ok(trial) => {
            let made = copy.inventory();
            made.prove_sound();
            reply_after_trial(alloc, to, kind, bytes, &trial, inventory, made)
        }
        Err(_) => Response::empty(StatusCode::SERVICE_UNAVAILABLE),
    }
}

/// Tries a sheet at a copy of the inventory of a desk, which is let go behind that.
fn try_at_copy<C: Client, K: Keeper>(
    alloc: Global,
    to: &Recipient<'_, C>,
    kind: Sheet,
    bytes: &[u8],
    desk: &Desk<K>,
) -> Response
    ensures { RepliesToTrial kind desk.now.image bytes.now (answer_of result)
        ⊎ (answer_of result ≡ empty_answer 503) }
{
    match copy_desk(alloc, desk) {
        Ok(mut copy) => {
            let reply = try_at(alloc, to, kind, bytes, desk.inventory(), &mut copy);
            discard_copy(copy);
            reply
        }
        Err(_) => Response::empty(StatusCode::SERVICE_UNAVAILABLE),
    }
}

/// Answers what a sheet would be answered whose bytes have all come, with advice, and with what it would change. Nothing is
/// changed. Once a commit of several commands has failed, nothing is tried, and the reply is an empty 503; so it is where
/// memory runs out, it would have too many bytes, or its client is gone.
pub(crate) fn answer_trial<C: Client, K: Keeper>(
    alloc: Global,
    to: &Recipient<'_, C>,
    kind: Sheet,
    bytes: &[u8],
    desk: &Desk<K>,
) -> Response
    ensures { AnswersTrial kind bytes.now desk.now (answer_of result) desk.now }
{
    if desk.is_ahead() {
        return Response::empty(StatusCode::SERVICE_UNAVAILABLE);
    }
    try_at_copy(alloc, to, kind, bytes, desk)
}
