//! Why no sheet is drafted, as replies.

ghost use Rattle.std.specs.Prelude.{◌≡◌, IfOk};
ghost use Rattle.serde_json.specs.View.{view};
ghost use Rattle.serde_json.specs.Written.{compact_text};
ghost use Rattle.lrs_web_requests.specs.Text.{answer_of};
ghost use Rattle.lrs_web_replies.specs.DraftFaults as spec;
ghost use Rattle.lrs_web_replies.specs.DraftFaults.{explained_data};
ghost use Rattle.lrs_web_replies.specs.Replies.{json_answer};

use crate::answers::bytes_of;
use crate::reply::json_reply;
use http::StatusCode;
use lrs_web_requests::Response;
use serde_json::{Value, json};
use std::alloc::{AllocError, Global};

fn explained_value(alloc: Global, cause: &str, why: &str) -> Result<Value, AllocError>
    ensures { IfOk result (λ value. view value ≡ explained_data cause.now why.now) }
{
    json!(in alloc; {"error": cause, "why": why})
}

fn explained_json(alloc: Global, cause: &str, why: &str) -> Result<Vec<u8>, AllocError>
    ensures { IfOk result (λ bytes. bytes.items
        ≡ compact_text (explained_data cause.now why.now)) }
{
    let value = explained_value(alloc, cause, why)?;
    bytes_of(alloc, value)
}

/// A reply that names an error, and says why in a sentence.
fn explained_reply(
    alloc: Global,
    status: StatusCode,
    cause: &str,
    why: &str,
) -> Result<Response, AllocError>
    ensures { IfOk result (λ reply. answer_of reply
        ≡ json_answer status (explained_data cause.now why.now)) }
{
    let bytes = explained_json(alloc, cause, why)?;
    Ok(json_reply(status, bytes))
}

/// The reply where the words say no draft.
///
/// # Errors
/// When memory runs out.
pub fn bad_draft(alloc: Global, why: &str) -> Result<Response, AllocError>
    ensures { IfOk result (λ reply. answer_of reply ≡ spec.bad_draft why.now) }
{
    explained_reply(alloc, StatusCode::BAD_REQUEST, "BadDraft", why)
}

/// The reply where what the words say cannot be done.
///
/// # Errors
/// When memory runs out.
pub fn not_drafted(alloc: Global, why: &str) -> Result<Response, AllocError>
    ensures { IfOk result (λ reply. answer_of reply ≡ spec.not_drafted why.now) }
{
    explained_reply(alloc, StatusCode::CONFLICT, "NotDrafted", why)
}
