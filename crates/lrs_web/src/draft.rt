//! Sheets are drafted for an inventory by what a form says, and nothing changes.

ghost use Rattle.std.specs.Prelude.{◌≡◌, IfOk, map, option_map};
ghost use Rattle.std.specs.Cow.{cow_str_bytes};
ghost use Rattle.lrs_drafts.specs.Drafts.{IsDraft};
ghost use Rattle.lrs_drafts.specs.Words.{SaysDraft};
ghost use Rattle.lrs_drafts.specs.declared.draft.Draft.{Draft as DraftValue};
ghost use Rattle.lrs_web_requests.specs.Text.{answer_of};
ghost use Rattle.lrs_web.specs.DraftForms.{SaysForm, kind_text};
ghost use Rattle.lrs_web.specs.Drafts as spec;
ghost use Rattle.lrs_web.specs.Drafts.{AnswersDraft, AnswersForm, RepliesToDraft};

use crate::draft_form::{form_number, form_words, name_of, text_views, unknown_in};
use crate::recipient::{Client, Recipient, limited};
use http::StatusCode;
use lrs_drafts::{Draft, DraftFault, draft_sheet, read_draft};
use lrs_sheet::{Desk, Keeper};
use lrs_web_replies::{bad_draft, csv_reply, not_drafted, unknown_reply};
use lrs_web_requests::{DraftKind, Response, value_of};
use std::alloc::{AllocError, Global};
use std::borrow::CowStr;

fn view_of<'w>(text: &'w Option<CowStr<'_>>) -> Option<&'w str>
    ensures { option_map (λ view. view.now) result ≡ option_map cow_str_bytes text.now }
{
    match text {
        Some(text) => Some(text.as_str()),
        None => None,
    }
}

/// The draft that these words say, with the number beside them.
fn draft_by(
    alloc: Global,
    kind: DraftKind,
    words: &[CowStr<'_>],
    number: &Option<CowStr<'_>>,
) -> Result<Draft, DraftFault>
    ensures { IfOk result (SaysDraft (kind_text kind) (map cow_str_bytes words.now)
        (option_map cow_str_bytes number.now)) }
{
    let views = text_views(alloc, words)?;
    read_draft(alloc, name_of(kind), views.as_slice(), view_of(number))
}

/// The draft that a form says.
fn draft_of(alloc: Global, kind: DraftKind, form: &[u8]) -> Result<Draft, DraftFault>
    ensures { IfOk result (SaysForm kind form.now) }
{
    let words = form_words(alloc, kind, form)?;
    let number = form_number(alloc, kind, form)?;
    draft_by(alloc, kind, words.as_slice(), &number)
}

/// The sheet that does what a form says, under the keys that it wants.
fn drafted<K: Keeper>(
    alloc: Global,
    kind: DraftKind,
    form: &[u8],
    desk: &Desk<K>,
) -> Result<Vec<u8>, DraftFault>
    ensures { IfOk result (λ sheet. (draft : DraftValue) × SaysForm kind form.now draft
        × IsDraft draft desk.now.image sheet.items) }
{
    let key = value_of(alloc, form, "key")?;
    match draft_of(alloc, kind, form) {
        Ok(draft) => draft_sheet(alloc, desk, &draft, view_of(&key)),
        Err(fault) => Err(fault),
    }
}

/// The reply where there is no draft.
fn undrafted(alloc: Global, fault: &DraftFault) -> Result<Response, AllocError>
    ensures { IfOk result (λ reply. answer_of reply ≡ spec.undrafted fault.now) }
{
    match fault {
        DraftFault::Unreadable(why) => bad_draft(alloc, why),
        DraftFault::Impossible(why) => not_drafted(alloc, why),
        DraftFault::Memory => Ok(Response::empty(StatusCode::SERVICE_UNAVAILABLE)),
    }
}

/// The reply to a form whose parameters the kind knows.
fn form_reply<K: Keeper>(
    alloc: Global,
    kind: DraftKind,
    form: &[u8],
    desk: &Desk<K>,
) -> Result<Response, AllocError>
    ensures { IfOk result (λ reply. AnswersForm kind desk.now.image form.now (answer_of reply)) }
{
    match drafted(alloc, kind, form, desk) {
        Ok(sheet) => Ok(csv_reply(sheet)),
        Err(fault) => undrafted(alloc, &fault),
    }
}

/// The reply to a form. A parameter that the kind does not know is told first.
fn draft_reply<K: Keeper>(
    alloc: Global,
    kind: DraftKind,
    form: &[u8],
    desk: &Desk<K>,
) -> Result<Response, AllocError>
    ensures { IfOk result (λ reply. RepliesToDraft kind desk.now.image form.now
        (answer_of reply)) }
{
    match unknown_in(alloc, kind, form)? {
        Some(name) => unknown_reply(alloc, name.as_str()),
        None => form_reply(alloc, kind, form, desk),
    }
}

/// Answers the sheet that is drafted by a form, or why there is none. Nothing is changed. Once a commit of several commands
/// has failed, nothing is drafted, and the reply is an empty 503; so it is where memory runs out, or it would have too many
/// bytes.
pub(crate) fn answer_draft<C: Client, K: Keeper>(
    alloc: Global,
    to: &Recipient<'_, C>,
    kind: DraftKind,
    bytes: &[u8],
    desk: &Desk<K>,
) -> Response
    ensures { AnswersDraft kind bytes.now desk.now (answer_of result) desk.now }
{
    if desk.is_ahead() {
        return Response::empty(StatusCode::SERVICE_UNAVAILABLE);
    }
    match draft_reply(alloc, kind, bytes, desk) {
        Ok(reply) => limited(reply, to.most),
        Err(_) => Response::empty(StatusCode::SERVICE_UNAVAILABLE),
    }
}
