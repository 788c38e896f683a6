//! One request is read, done and answered.

ghost use Rattle.std.specs.Prelude.{◌≡◌, ◌⊎◌, IfOk, IfSome, Err, true, false};
ghost use Rattle.lrs_web_requests.specs.Request.{Asked, IsServed, asked_by};
ghost use Rattle.lrs_web_requests.specs.Text.{Answer, answer_of, empty_answer};
ghost use Rattle.lrs_web_requests.specs.Request.{verb_of};
ghost use Rattle.lrs_web_requests.specs.declared.response.RequestMethod.TheVariants.{Get};
ghost use Rattle.lrs_web.specs.QueryAnswers.{AnswersAsked, AnswersKnown, AnswersPage};
ghost use Rattle.lrs_web.specs.RequestAnswers as spec;
ghost use Rattle.lrs_web.specs.RequestAnswers.{Does, DoesPosted, Responds, Serves, Writes, allowed_answer, page_answer};

use crate::draft::answer_draft;
use crate::questions::answer_questions;
use crate::recipient::{AnyClient, Client, Recipient, limited};
use crate::sheet::do_sheet;
use crate::trial::answer_trial;
use http::StatusCode;
use lrs_sheet::{Desk, Keeper, Sheet};
use lrs_web_replies::{
    Page, page_of, question_of, reply_to, unasked, unknown_in, unknown_reply, unpaged,
};
use lrs_web_requests::{
    BodyFault, Content, ContentType, Course, DraftKind, Format, Request, RequestMethod, Resource,
    Response, receive, routes, write_reply, write_unavailable,
};
use std::alloc::{AllocError, Global};
use std::io::{Read, Write};

/// Why a request has no reply.
#[derive(Clone, Copy, PartialEq, Eq)]
pub enum WebFault {
    /// The reader failed, and nothing was done.
    Read,
    /// The writer failed; what was asked for is done.
    Write,
}

/// What is posted.
#[derive(Clone, Copy)]
pub enum Posted {
    /// Questions, which are answered.
    Questions,
    /// A sheet that is tried.
    Trial(Sheet),
    /// What a sheet is drafted by.
    Draft(DraftKind),
    /// A sheet that is done.
    Sheet(Sheet),
}

fn posted_at(resource: Resource) -> Posted
    ensures { result ≡ spec.posted_at resource }
{
    match resource {
        Resource::Questions => Posted::Questions,
        Resource::EditsCheck => Posted::Trial(Sheet::Edits),
        Resource::SurveysCheck => Posted::Trial(Sheet::Survey),
        Resource::Draft(kind) => Posted::Draft(kind),
        Resource::Surveys => Posted::Sheet(Sheet::Survey),
        Resource::At
        | Resource::Route
        | Resource::Segments
        | Resource::Totals
        | Resource::Translate
        | Resource::Diagram
        | Resource::Routes
        | Resource::Find
        | Resource::Log
        | Resource::Health
        | Resource::Links
        | Resource::Classes
        | Resource::Refs
        | Resource::Marks
        | Resource::Pieces
        | Resource::Rows
        | Resource::Overlay
        | Resource::Lengths
        | Resource::Gone
        | Resource::History
        | Resource::Where
        | Resource::Edits => Posted::Sheet(Sheet::Edits),
    }
}

// Whether a question is answered only while commands are still committed.
fn needs_commits(resource: Resource) -> bool
    ensures { result ≡ spec.needs_commits resource }
{
    match resource {
        Resource::At | Resource::Health => true,
        Resource::Route
        | Resource::Segments
        | Resource::Totals
        | Resource::Translate
        | Resource::Diagram
        | Resource::Routes
        | Resource::Find
        | Resource::Log
        | Resource::Links
        | Resource::Classes
        | Resource::Refs
        | Resource::Marks
        | Resource::Pieces
        | Resource::Rows
        | Resource::Overlay
        | Resource::Lengths
        | Resource::Gone
        | Resource::History
        | Resource::Where
        | Resource::Edits
        | Resource::EditsCheck
        | Resource::Surveys
        | Resource::SurveysCheck
        | Resource::Questions
        | Resource::Draft(_) => false,
    }
}

fn allowed_reply(verb: RequestMethod) -> Response
    ensures { answer_of result ≡ allowed_answer verb }
{
    Response {
        status: StatusCode::METHOD_NOT_ALLOWED,
        allow: Some(verb),
        content: None,
    }
}

/// The reply to the question that a resource is asked, with a page of it where it is a list.
#[tactic(auto, using(crate::proofs::Asking::answered, crate::proofs::Asking::refused))]
fn page_reply_to<K: Keeper>(
    alloc: Global,
    most: usize,
    format: Format,
    page: Page,
    resource: Resource,
    argument: &[u8],
    desk: &Desk<K>,
) -> Result<Response, AllocError>
    requires verb { verb_of resource ≡ Get }
    requires behind { desk.now.is_ahead ≡ false }
    ensures { IfOk result (λ reply. AnswersPage desk.now.image format page resource argument.now
        (answer_of reply)) }
{
    match question_of(alloc, resource, argument) {
        Ok(question) => reply_to(alloc, most, format, page, desk.ask(question)),
        Err(fault) => unasked(alloc, fault),
    }
}

/// The reply to the question that a resource is asked by parameters that it knows. A page that cannot be read is told
/// first.
#[tactic(auto, using(crate::proofs::Asking::page_answered, crate::proofs::Asking::page_refused))]
fn known_reply<K: Keeper>(
    alloc: Global,
    most: usize,
    format: Format,
    resource: Resource,
    argument: &[u8],
    desk: &Desk<K>,
) -> Result<Response, AllocError>
    requires verb { verb_of resource ≡ Get }
    requires behind { desk.now.is_ahead ≡ false }
    ensures { IfOk result (λ reply. AnswersKnown desk.now.image format resource argument.now
        (answer_of reply)) }
{
    match page_of(alloc, format, resource, argument) {
        Ok(page) => page_reply_to(alloc, most, format, page, resource, argument, desk),
        Err(fault) => unpaged(alloc, fault),
    }
}

/// The reply to what a resource is asked. A parameter that it does not know is told first.
fn question_reply<K: Keeper>(
    alloc: Global,
    most: usize,
    format: Format,
    resource: Resource,
    argument: &[u8],
    desk: &Desk<K>,
) -> Result<Response, AllocError>
    requires verb { verb_of resource ≡ Get }
    requires behind { desk.now.is_ahead ≡ false }
    ensures { IfOk result (λ reply. AnswersAsked desk.now.image format resource argument.now
        (answer_of reply)) }
{
    match unknown_in(alloc, format, resource, argument)? {
        Some(name) => unknown_reply(alloc, name.as_str()),
        None => known_reply(alloc, most, format, resource, argument, desk),
    }
}

// Once a commit of several commands has failed, nothing is answered: not even that a parameter cannot be read. What needs
// commits is not answered either once a commit of one command has failed.
fn query_reply<K: Keeper>(
    alloc: Global,
    most: usize,
    format: Format,
    resource: Resource,
    argument: &[u8],
    desk: &Desk<K>,
) -> Response
    requires { verb_of resource ≡ Get }
    ensures answered { AnswersAsked desk.now.image format resource argument.now (answer_of result)
        ⊎ (answer_of result ≡ empty_answer 503) }
    ensures broken { desk.now.is_ahead ≡ true → answer_of result ≡ empty_answer 503 }
    ensures uncommitted { spec.needs_commits resource ≡ true → desk.now.must_reopen ≡ true
        → answer_of result ≡ empty_answer 503 }
{
    if desk.is_ahead() {
        return Response::empty(StatusCode::SERVICE_UNAVAILABLE);
    }
    if needs_commits(resource) && desk.must_reopen() {
        return Response::empty(StatusCode::SERVICE_UNAVAILABLE);
    }
    match question_reply(alloc, most, format, resource, argument, desk) {
        Ok(reply) => limited(reply, most),
        Err(_) => Response::empty(StatusCode::SERVICE_UNAVAILABLE),
    }
}

fn page_reply(alloc: Global, most: usize, page: &str) -> Response
    ensures { (answer_of result ≡ page_answer page.now) ⊎ (answer_of result ≡ empty_answer 503) }
{
    if page.len() > most {
        return Response::empty(StatusCode::SERVICE_UNAVAILABLE);
    }
    let Ok(bytes) = Vec::from_slice(alloc, page.as_bytes()) else {
        return Response::empty(StatusCode::SERVICE_UNAVAILABLE);
    };
    let content = Content {
        kind: ContentType::Html,
        bytes,
    };
    Response {
        status: StatusCode::OK,
        allow: None,
        content: Some(content),
    }
}

/// Does a sheet, or tries it or drafts one, or answers questions.
fn do_posted<C: Client, K: Keeper>(
    alloc: Global,
    to: &Recipient<'_, C>,
    posted: Posted,
    course: Course,
    bytes: &[u8],
    desk: &mut Desk<K>,
) -> Response
    ensures { DoesPosted K.may_hold posted course bytes.now desk.old (answer_of result) desk.new }
{
    match posted {
        Posted::Questions => answer_questions(alloc, to, bytes, desk),
        Posted::Trial(kind) => answer_trial(alloc, to, kind, bytes, desk),
        Posted::Draft(kind) => answer_draft(alloc, to, kind, bytes, desk),
        Posted::Sheet(kind) => do_sheet(alloc, to, kind, course, bytes, desk),
    }
}

/// Does what is asked for. A reply with more bytes than its recipient may have is an empty 503, as where memory runs out.
pub(crate) fn do_task<C: Client, K: Keeper>(
    alloc: Global,
    to: &Recipient<'_, C>,
    task: &Request,
    desk: &mut Desk<K>,
) -> Response
    requires { IsServed (asked_by task.now) }
    ensures { Does K.may_hold (asked_by task.now) desk.old (answer_of result) desk.new }
{
    match task {
        Request::Refused(status) => Response::empty(*status),
        Request::NotAllowed(verb) => allowed_reply(*verb),
        Request::Page(page) => page_reply(alloc, to.most, page),
        Request::Query(resource, format, argument) => {
            query_reply(
                alloc,
                to.most,
                *format,
                *resource,
                argument.as_slice(),
                desk,
            )
        }
        Request::Sheet(resource, course, bytes) => {
            let posted = posted_at(*resource);
            do_posted(alloc, to, posted, *course, bytes.as_slice(), desk)
        }
    }
}

/// Writes a reply, or for lack of memory an empty 503, and answers the status that was written.
pub(crate) fn write_to<W: Write>(
    alloc: Global,
    reply: &Response,
    writer: &mut W,
) -> Result<u16, WebFault>
    ensures written { IfOk result (λ status. (answer : Answer)
        × ((answer ≡ answer_of reply.now) ⊎ (answer ≡ empty_answer 503))
        × Writes (W.contents writer.old) (W.contents writer.new) status answer) }
    ensures fault { result ≡ Err WebFault.Read → ⊥ }
{
    match write_reply(alloc, writer, reply) {
        Ok(status) => Ok(status),
        Err(_) => Err(WebFault::Write),
    }
}

pub(crate) fn refuse<W: Write>(writer: &mut W) -> Result<u16, WebFault>
    ensures written { IfOk result (λ status. Writes (W.contents writer.old)
        (W.contents writer.new) status (empty_answer 503)) }
    ensures fault { result ≡ Err WebFault.Read → ⊥ }
{
    match write_unavailable(writer) {
        Ok(()) => Ok(503),
        Err(_) => Err(WebFault::Write),
    }
}

/// Serves the request at the front of the input: reads it, does it at the desk and writes the reply, whose status is
/// answered. Bytes behind the request play no part. Where memory runs out, an empty 503 is written.
///
/// # Errors
/// `Read` if the reader fails before the request is whole: nothing is done. `Write` if the writer fails: what was asked
/// for is done, or for lack of memory nothing; the keys of a sheet make sending it again safe.
pub fn serve_one<R: Read, W: Write, K: Keeper>(
    alloc: Global,
    reader: &mut R,
    writer: &mut W,
    desk: &mut Desk<K>,
) -> Result<u16, WebFault>
    ensures served { IfOk result (λ status. (answer : Answer) × Writes (W.contents writer.old) (W.contents writer.new) status answer
        × IfSome (R.remaining reader.old) (λ input. Serves K.may_hold input desk.old answer desk.new)) }
    ensures write { result ≡ Err WebFault.Write → IfSome (R.remaining reader.old) (λ input.
        (answer : Answer) × Serves K.may_hold input desk.old answer desk.new) }
    ensures read { result ≡ Err WebFault.Read → desk.new ≡ desk.old }

    // Whatever the reader tells of its bytes, what is written is the reply to some request, and the desk is as it leaves it.
    ensures answered { IfOk result (λ status. (asked : Asked) × (answer : Answer)
        × Writes (W.contents writer.old) (W.contents writer.new) status answer
        × Responds K.may_hold asked desk.old answer desk.new) }
    ensures left { (asked : Asked) × (due : Answer) × Does K.may_hold asked desk.old due desk.new }
{
    let Ok(router) = routes(alloc) else {
        return refuse(writer);
    };
    match receive(alloc, &router, None, reader) {
        Ok(task) => {
            let client = AnyClient;
            let to = Recipient {
                client: &client,
                most: usize::MAX,
            };
            let reply = do_task(alloc, &to, &task, desk);
            write_to(alloc, &reply, writer)
        }
        Err(BodyFault::Memory) => refuse(writer),
        Err(BodyFault::Read(_)) => Err(WebFault::Read),
    }
}
