//! Sheets of questions are answered at a desk.

ghost use Rattle.std.specs.Prelude.{◌≡◌, false};
ghost use Rattle.lrs_web_requests.specs.Text.{answer_of};
ghost use Rattle.lrs_web.specs.Questions.{AnswersQuestions, RepliesToQuestions};

use crate::recipient::{Client, Recipient, ReplyLines};
use crate::sheet::reply_after;
use http::StatusCode;
use lrs_sheet::{Desk, Keeper};
use lrs_sheet_questions::ask_all;
use lrs_web_requests::Response;
use std::alloc::Global;

fn run_questions<C: Client, K: Keeper>(
    alloc: Global,
    to: &Recipient<'_, C>,
    bytes: &[u8],
    desk: &Desk<K>,
) -> Response
    requires behind { desk.now.is_ahead ≡ false }
    ensures { RepliesToQuestions desk.now.image bytes.now (answer_of result) }
{
    let mut lines = ReplyLines::new(alloc, to);
    let ended = ask_all(alloc, bytes, &mut lines, desk);
    reply_after(ended, lines.text.bytes)
}

/// Answers a sheet of questions whose bytes have all come. Once a commit of several commands has failed, nothing is answered,
/// and the reply is an empty 503; so it is where it would have too many bytes, or its client is gone.
pub(crate) fn answer_questions<C: Client, K: Keeper>(
    alloc: Global,
    to: &Recipient<'_, C>,
    bytes: &[u8],
    desk: &Desk<K>,
) -> Response
    ensures { AnswersQuestions bytes.now desk.now (answer_of result) desk.now }
{
    if desk.is_ahead() {
        return Response::empty(StatusCode::SERVICE_UNAVAILABLE);
    }
    run_questions(alloc, to, bytes, desk)
}
