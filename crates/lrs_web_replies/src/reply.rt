//! Replies that are JSON or a picture.

ghost use Rattle.std.specs.Prelude.{◌≡◌, ◌++◌, IfOk, codes};
ghost use Rattle.lrs_web_requests.specs.Text.{answer_of};
ghost use Rattle.lrs_web_replies.specs.Pages.{page_fault_text};
ghost use Rattle.lrs_web_replies.specs.Replies as spec;

use crate::answers::error_json;
use crate::{PageFault, Parameter, QueryFault};
use http::StatusCode;
use lrs_machine::Missing;
use lrs_report_answers::{AskCause, AskFault, cause_of};
use lrs_web_requests::{Content, ContentType, Response};
use std::alloc::{AllocError, Global};

fn reply_with(status: StatusCode, kind: ContentType, bytes: Vec<u8>) -> Response
    ensures { answer_of result ≡ spec.answer_with status kind bytes.items }
{
    Response {
        status,
        allow: None,
        content: Some(Content { kind, bytes }),
    }
}

/// A reply with these bytes of JSON.
pub(crate) fn json_reply(status: StatusCode, bytes: Vec<u8>) -> Response
    ensures { answer_of result ≡ spec.json_bytes status bytes.items }
{
    reply_with(status, ContentType::Json, bytes)
}

/// The reply with an answer, as these bytes of JSON.
pub(crate) fn found_reply(bytes: Vec<u8>) -> Response
    ensures { answer_of result ≡ spec.json_bytes 200 bytes.items }
{
    json_reply(StatusCode::OK, bytes)
}

/// The reply with a list or an edit sheet, as these bytes of CSV.
pub fn csv_reply(bytes: Vec<u8>) -> Response
    ensures { answer_of result ≡ spec.csv_answer bytes.items }
{
    reply_with(StatusCode::OK, ContentType::Csv, bytes)
}

/// A reply with a picture, as these bytes of SVG.
pub(crate) fn svg_reply(bytes: Vec<u8>) -> Response
    ensures { answer_of result ≡ spec.svg_answer bytes.items }
{
    reply_with(StatusCode::OK, ContentType::Svg, bytes)
}

/// A reply that names why there is no answer.
pub(crate) fn error_reply(
    alloc: Global,
    status: StatusCode,
    cause: &str,
) -> Result<Response, AllocError>
    ensures { IfOk result (λ reply. answer_of reply ≡ spec.error_answer status cause.now) }
{
    let bytes = error_json(alloc, cause)?;
    Ok(json_reply(status, bytes))
}

fn status_for(cause: AskCause) -> StatusCode
    ensures { result ≡ spec.status_of cause }
{
    match cause {
        AskCause::Missing(Missing::Route) => StatusCode::NOT_FOUND,
        AskCause::Missing(_)
        | AskCause::NoRef
        | AskCause::TooFine
        | AskCause::OffRoute
        | AskCause::End(..)
        | AskCause::NoClass(_)
        | AskCause::NotExclusive(_)
        | AskCause::SideB => StatusCode::UNPROCESSABLE_ENTITY,
    }
}

/// The reply to a question that is refused.
pub(crate) fn refusal(alloc: Global, fault: AskFault) -> Result<Response, AllocError>
    ensures { IfOk result (λ reply. answer_of reply ≡ spec.refusal fault) }
{
    match cause_of(fault) {
        Some(cause) => {
            let text = format!(in alloc; "{cause}")?;
            error_reply(alloc, status_for(cause), text.as_str())
        }
        None => Ok(Response::empty(StatusCode::SERVICE_UNAVAILABLE)),
    }
}

fn malformed(alloc: Global, parameter: Parameter) -> Result<Response, AllocError>
    ensures { IfOk result (λ reply. answer_of reply
        ≡ spec.unasked (QueryFault.Malformed parameter)) }
{
    let name = parameter.name();
    let cause = format!(in alloc; "Malformed:{name}")?;
    error_reply(alloc, StatusCode::BAD_REQUEST, cause.as_str())
}

/// The reply where nothing is asked.
///
/// # Errors
/// When memory runs out.
pub fn unasked(alloc: Global, fault: QueryFault) -> Result<Response, AllocError>
    ensures { IfOk result (λ reply. answer_of reply ≡ spec.unasked fault) }
{
    match fault {
        QueryFault::Malformed(parameter) => malformed(alloc, parameter),
        QueryFault::NoRoute => error_reply(alloc, StatusCode::NOT_FOUND, "NoRoute"),
        QueryFault::Memory => Ok(Response::empty(StatusCode::SERVICE_UNAVAILABLE)),
    }
}

fn malformed_page(alloc: Global, fault: PageFault) -> Result<Response, AllocError>
    ensures { IfOk result (λ reply. answer_of reply
        ≡ spec.error_answer 400 (codes "Malformed:" ++ page_fault_text fault)) }
{
    let name = fault.name();
    let cause = format!(in alloc; "Malformed:{name}")?;
    error_reply(alloc, StatusCode::BAD_REQUEST, cause.as_str())
}

/// The reply where no page of a list is asked for.
///
/// # Errors
/// When memory runs out.
pub fn unpaged(alloc: Global, fault: PageFault) -> Result<Response, AllocError>
    ensures { IfOk result (λ reply. answer_of reply ≡ spec.unpaged fault) }
{
    match fault {
        PageFault::Limit => malformed_page(alloc, fault),
        PageFault::After => malformed_page(alloc, fault),
        PageFault::Memory => Ok(Response::empty(StatusCode::SERVICE_UNAVAILABLE)),
    }
}
