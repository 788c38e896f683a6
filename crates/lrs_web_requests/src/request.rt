//! Reads what a request asks for.

ghost use Rattle.std.specs.Prelude.{ℕ, List, ◌≡◌, ◌≤◌, ◌++◌, length, map, option_map, All, IfOk, IfSome, IsUtf8};
ghost use Rattle.httparse.specs.Grammar.{RequestHead};
ghost use Rattle.httparse.specs.Spans.{header_bytes, IsHeaderWithin, IsRequestOf, IsRequestWithin};
ghost use Rattle.lrs_web_requests.specs.Routes.{rows};
ghost use Rattle.lrs_web_requests.specs.BodyLengths.{body_length};
ghost use Rattle.lrs_web_requests.specs.declared.response.RequestMethod.TheVariants.{Post};
ghost use Rattle.lrs_web_requests.specs.Request.{asked_by, asked_at, asked_ahead, asked_with, AsksByHead, AsksWith, most_head, most_fields, page_text, path_of, query_of, argument_of, name_in, course_of, switched_course, verb_of, with_length, by_verb, IsServed};

use crate::body::{BodyFault, read_body};
use crate::framing::length_of_body;
use crate::head::{Outcome, read_head};
use crate::paths::{Format, Resource, find};
use crate::query::switched;
use crate::response::RequestMethod;
use crate::sites::is_own;
use http::StatusCode;
use httparse::spans::{EMPTY_HEADER_SPAN, HeaderSpan, RequestSpans};
use matchit::Router;
use std::alloc::{AllocError, Global};
use std::io::{self, Read};

const MOST_HEAD: usize = 8192;

const MOST_FIELDS: usize = 64;

/// The bytes of `/v1/route/`, behind which a route's path has the name.
const BEFORE_NAME: usize = 10;

/// What a request asks for.
#[derive(Drop)]
pub enum Request {
    /// Nothing that is served: the status that says so.
    Refused(StatusCode),
    /// The path has only this method.
    NotAllowed(RequestMethod),
    /// The page that is shown.
    Page(&'static str),
    /// An answer in a format: to a query, or of a route to the name in its path.
    Query(Resource, Format, Vec<u8>),
    /// That the sheet in the body is done in a way; or that it is tried, that the questions in the body are answered or a
    /// sheet is drafted by it, whatever the second part says.
    Sheet(Resource, Course, Vec<u8>),
}

/// How a sheet is done.
#[derive(Clone, Copy, PartialEq, Eq)]
pub enum Course {
    /// Each record by itself, from the first on.
    EachRecord,
    /// Each record by itself, behind the last one that is an edit.
    BehindLast,
    /// All records, or nothing where one of them is refused.
    AllOrNone,
}

fn verb_for(resource: Resource) -> RequestMethod
    ensures { result ≡ verb_of resource }
{
    match resource {
        Resource::At
        | Resource::Route
        | Resource::Segments
        | Resource::Totals
        | Resource::Translate
        | Resource::Diagram
        | Resource::Routes
        | Resource::Find
        | Resource::Log
        | Resource::Health
        | Resource::Links
        | Resource::Classes
        | Resource::Refs
        | Resource::Marks
        | Resource::Pieces
        | Resource::Rows
        | Resource::Overlay
        | Resource::Lengths
        | Resource::Gone
        | Resource::History
        | Resource::Where => RequestMethod::Get,
        Resource::Edits
        | Resource::Surveys
        | Resource::EditsCheck
        | Resource::SurveysCheck
        | Resource::Questions
        | Resource::Draft(_) => RequestMethod::Post,
    }
}

/// The path and the query of a target.
fn split_target(target: &str) -> (&str, &str)
    ensures path { result.0.now ≡ path_of target.now }
    ensures query { result.1.now ≡ query_of target.now }
{
    match target.split_once('?') {
        Some((path, query)) => (path, query),
        None => (target, ""),
    }
}

/// The name in the path of a route.
fn name_of(path: &str) -> &[u8]
    ensures { result.now ≡ name_in path.now }
{
    let bytes = path.as_bytes();
    if bytes.len() < BEFORE_NAME {
        return &[];
    }
    &bytes[BEFORE_NAME..]
}

/// What a resource is asked by: a route by the name in its path, any other by the query.
fn argument(resource: Resource, target: &str) -> &[u8]
    ensures { result.now ≡ argument_of resource target.now }
{
    let (path, query) = split_target(target);
    match resource {
        Resource::Route => name_of(path),
        Resource::At
        | Resource::Segments
        | Resource::Totals
        | Resource::Translate
        | Resource::Diagram
        | Resource::Routes
        | Resource::Find
        | Resource::Log
        | Resource::Health
        | Resource::Links
        | Resource::Classes
        | Resource::Refs
        | Resource::Marks
        | Resource::Pieces
        | Resource::Rows
        | Resource::Overlay
        | Resource::Lengths
        | Resource::Gone
        | Resource::History
        | Resource::Where
        | Resource::Edits
        | Resource::Surveys
        | Resource::EditsCheck
        | Resource::SurveysCheck
        | Resource::Questions
        | Resource::Draft(_) => query.as_bytes(),
    }
}

fn switched_course(resumes: Option<bool>, all: Option<bool>) -> Option<Course>
    ensures { result ≡ switched_course resumes all }
{
    match (resumes, all) {
        (Some(false), Some(false)) => Some(Course::EachRecord),
        (Some(true), Some(false)) => Some(Course::BehindLast),
        (Some(false), Some(true)) => Some(Course::AllOrNone),
        _ => None,
    }
}

/// How a sheet is to be done; `None` where a parameter that says so has another value than 1, or both are there.
fn course_of(alloc: Global, target: &str) -> Result<Option<Course>, AllocError>
    ensures { IfOk result (λ found. found ≡ course_of target.now) }
{
    let (_, query) = split_target(target);
    let resumes = switched(alloc, query.as_bytes(), "resume")?;
    let all = switched(alloc, query.as_bytes(), "all")?;
    Ok(switched_course(resumes, all))
}

/// The parts of a head, and the front of what follows it.
#[derive(Clone, Copy)]
struct Head<'b> {
    method: &'b [u8],
    target: &'b str,
    text: &'b [u8],
    fields: &'b [HeaderSpan],
    front: &'b [u8],
}

fn read_sheet<R: Read>(
    alloc: Global,
    reader: &mut R,
    resource: Resource,
    head: Head<'_>,
) -> Result<Request, BodyFault>
    requires fields { All (IsHeaderWithin (length head.text.now)) head.fields.now }
    requires verb { verb_of resource ≡ Post }
    ensures served { IfOk result (λ task. IsServed (asked_by task)) }
    ensures asked { IfOk result (λ task. IfSome (R.remaining reader.old) (λ more.
        asked_by task ≡ with_length resource (course_of head.entry.target.now) (body_length (map (header_bytes head.entry.text.now) head.entry.fields.now)) (head.entry.front.now ++ more))) }
{
    let length = match length_of_body(head.text, head.fields) {
        Ok(length) => length,
        Err(status) => return Ok(Request::Refused(status)),
    };
    let body = read_body(alloc, reader, head.front, length)?;
    match (course_of(alloc, head.target)?, body) {
        (Some(course), Some(body)) => Ok(Request::Sheet(resource, course, body)),
        (None, _) | (_, None) => Ok(Request::Refused(StatusCode::BAD_REQUEST)),
    }
}

fn read_task<R: Read>(
    alloc: Global,
    router: &Router<(Resource, Format)>,
    reader: &mut R,
    head: Head<'_>,
) -> Result<Request, BodyFault>
    requires router { router.now ≡ rows }
    requires fields { All (IsHeaderWithin (length head.text.now)) head.fields.now }
    ensures served { IfOk result (λ task. IsServed (asked_by task)) }
    ensures asked { IfOk result (λ task. IfSome (R.remaining reader.old) (λ more.
        asked_by task ≡ asked_at head.entry.method.now head.entry.target.now (map (header_bytes head.entry.text.now) head.entry.fields.now) (head.entry.front.now ++ more))) }
{
    let (path, _) = split_target(head.target);
    let Some((resource, format)) = find(router, path) else {
        return Ok(Request::Refused(StatusCode::NOT_FOUND));
    };
    let verb = verb_for(resource);
    if head.method != verb.name().as_bytes() {
        return Ok(Request::NotAllowed(verb));
    }
    match verb {
        RequestMethod::Get => {
            let asked_by = argument(resource, head.target);
            let argument = Vec::from_slice(alloc, asked_by)?;
            Ok(Request::Query(resource, format, argument))
        }
        RequestMethod::Post => read_sheet(alloc, reader, resource, head),
    }
}

/// What a head asks for by itself where a page is shown at `/`; none where the page has no part in it.
fn asked_ahead(page: &'static str, head: Head<'_>) -> Option<Request>
    requires { All (IsHeaderWithin (length head.text.now)) head.fields.now }
    ensures served { IfSome result (λ task. IsServed (asked_by task)) }
    ensures asked { option_map asked_by result
        ≡ asked_ahead page.now head.entry.method.now head.entry.target.now
        (map (header_bytes head.entry.text.now) head.entry.fields.now) }
{
    let is_post = head.method == RequestMethod::Post.name().as_bytes();
    if is_post && !is_own(head.text, head.fields) {
        return Some(Request::Refused(StatusCode::FORBIDDEN));
    }
    let (path, _) = split_target(head.target);
    if path != "/" {
        return None;
    }
    if head.method == RequestMethod::Get.name().as_bytes() {
        Some(Request::Page(page))
    } else {
        Some(Request::NotAllowed(RequestMethod::Get))
    }
}

fn read_with<R: Read>(
    alloc: Global,
    router: &Router<(Resource, Format)>,
    page: Option<&'static str>,
    reader: &mut R,
    head: Head<'_>,
) -> Result<Request, BodyFault>
    requires router { router.now ≡ rows }
    requires fields { All (IsHeaderWithin (length head.text.now)) head.fields.now }
    ensures served { IfOk result (λ task. IsServed (asked_by task)) }
    ensures asked { IfOk result (λ task. IfSome (R.remaining reader.old) (λ more.
        asked_by task ≡ asked_with (page_text page.entry) head.entry.method.now
        head.entry.target.now (map (header_bytes head.entry.text.now) head.entry.fields.now)
        (head.entry.front.now ++ more))) }
{
    let Some(page) = page else {
        return read_task(alloc, router, reader, head);
    };
    match asked_ahead(page, head) {
        Some(task) => Ok(task),
        None => read_task(alloc, router, reader, head),
    }
}

/// What a request asks for whose head has been read.
fn read_on_from<R: Read>(
    alloc: Global,
    router: &Router<(Resource, Format)>,
    page: Option<&'static str>,
    reader: &mut R,
    text: &[u8],
    spans: &[HeaderSpan],
    head: RequestSpans,
) -> Result<Request, BodyFault>
    requires router { router.now ≡ rows }
    requires bytes { length text.now ≤ most_head }
    requires fields { length spans.now ≤ most_fields }
    requires within { IsRequestWithin text.now spans.now head }
    requires parsed { IsRequestOf text.now spans.now head }
    ensures served { IfOk result (λ task. IsServed (asked_by task)) }
    ensures asked { IfOk result (λ task. IfSome (R.remaining reader.old) (λ more.
        (h : RequestHead) × (rest : List ℕ) × AsksByHead (page_text page.entry) (text.now ++ more) (asked_by task) h rest)) }
{
    let Ok(target) = str::from_utf8(head.path.of(text)) else {
        unreachable!()
    };
    let head = Head {
        method: head.method.of(text),
        target,
        text,
        fields: &spans[..head.headers],
        front: &text[head.len..],
    };
    read_with(alloc, router, page, reader, head)
}

/// What the request at the front of the input asks for. Where a page is given, it is shown at `/`, and no POST is done that
/// comes from a page of another site: it is refused with 403 before its body is read.
pub fn receive<R: Read>(
    alloc: Global,
    router: &Router<(Resource, Format)>,
    page: Option<&'static str>,
    reader: &mut R,
) -> Result<Request, BodyFault>
    requires { router.now ≡ rows }
    ensures asked { IfOk result (λ task. IfSome (R.remaining reader.old) (λ input.
        AsksWith (page_text page.entry) input (asked_by task))) }
    ensures served { IfOk result (λ task. IsServed (asked_by task)) }
{
    let mut buffer = [0u8; MOST_HEAD];
    let mut spans = [EMPTY_HEADER_SPAN; MOST_FIELDS];
    let reading = read_head(reader, &mut buffer, &mut spans)?;
    let text = &buffer[..reading.filled];
    match reading.outcome {
        Outcome::TooLarge => Ok(Request::Refused(StatusCode::REQUEST_HEADER_FIELDS_TOO_LARGE)),
        Outcome::Unreadable => Ok(Request::Refused(StatusCode::BAD_REQUEST)),
        Outcome::Complete(head) => read_on_from(alloc, router, page, reader, text, &spans, head),
    }
}
