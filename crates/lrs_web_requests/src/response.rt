//! A reply, and the bytes that it is.

ghost use Rattle.std.specs.Prelude.{◌≡◌, ◌⊎◌, option_map, unwrap_or, [], IfOk, string_bytes};
ghost use Rattle.std.specs.Io.KnownBytes.{Appends};
ghost use Rattle.http.specs.StatusCode.{reason_phrase};
ghost use Rattle.lrs_web_requests.specs.Text as spec;
ghost use Rattle.lrs_web_requests.specs.Text.{Answer, answer_of, answer_text, empty_answer, head_text, media_type, method_name, content_type_line, allow_line, content_body};

use http::StatusCode;
use std::alloc::{AllocError, Global};
use std::io::{self, Write};

/// What a browser is told of a page.
const PAGE_POLICY: &str = "Content-Security-Policy: default-src 'none'; \
    style-src 'unsafe-inline'; script-src 'unsafe-inline'; img-src data:; connect-src 'self'; \
    form-action 'none'; base-uri 'none'; frame-ancestors 'none'\r\n\
    X-Content-Type-Options: nosniff\r\nX-Frame-Options: DENY\r\n";

/// What a body is.
#[derive(Clone, Copy, PartialEq, Eq)]
pub enum ContentType {
    Json,
    Csv,
    Svg,
    Html,
}

impl ContentType {
    fn name(self) -> &'static str
        ensures { result.now ≡ media_type self }
    {
        match self {
            ContentType::Json => "application/json",
            ContentType::Csv => "text/csv",
            ContentType::Svg => "image/svg+xml",
            ContentType::Html => "text/html; charset=utf-8",
        }
    }

    /// The fields that go with it.
    fn policy(self) -> &'static str
        ensures { result.now ≡ spec.policy self }
    {
        match self {
            ContentType::Html => PAGE_POLICY,
            ContentType::Json | ContentType::Csv | ContentType::Svg => "",
        }
    }
}

/// A method that some path serves.
#[derive(Clone, Copy, PartialEq, Eq)]
pub enum RequestMethod {
    Get,
    Post,
}

impl RequestMethod {
    pub fn name(self) -> &'static str
        ensures { result.now ≡ method_name self }
    {
        match self {
            RequestMethod::Get => "GET",
            RequestMethod::Post => "POST",
        }
    }
}

/// A body with its type.
#[derive(Drop)]
pub struct Content {
    pub kind: ContentType,
    pub bytes: Vec<u8>,
}

/// A reply before it is written.
#[derive(Drop)]
pub struct Response {
    pub status: StatusCode,
    pub allow: Option<RequestMethod>,
    pub content: Option<Content>,
}

impl Response {
    /// A status and nothing else.
    pub fn empty(status: StatusCode) -> Response
        ensures { answer_of result ≡ empty_answer status }
    {
        Response {
            status,
            allow: None,
            content: None,
        }
    }

    fn body(&self) -> &[u8]
        ensures { result.now ≡ content_body self.now.content }
    {
        match &self.content {
            Some(content) => content.bytes.as_slice(),
            None => &[],
        }
    }

    /// The status line, the fields and the empty line.
    #[tactic(auto, unfolding(crate::specs::Text::head_text))]
    fn head(&self, alloc: Global) -> Result<String, AllocError>
        ensures { IfOk result (λ text. string_bytes text ≡ head_text (answer_of self.now)) }
    {
        let content_type = content_type_field(alloc, &self.content)?;
        let allow = allow_field(alloc, self.allow)?;
        let length = length_field(alloc, self.body().len())?;
        let mut head = status_line(alloc, self.status)?;
        head.push_str(content_type.as_str())?;
        head.push_str(allow.as_str())?;
        head.push_str(length.as_str())?;
        head.push_str("Connection: close\r\n\r\n")?;
        Ok(head)
    }
}

fn status_line(alloc: Global, status: StatusCode) -> Result<String, AllocError>
    ensures { IfOk result (λ text. string_bytes text ≡ spec.status_line status) }
{
    let code = status.as_str();
    let phrase = phrase_of(status);
    format!(in alloc; "HTTP/1.1 {code} {phrase}\r\n")
}

fn length_field(alloc: Global, length: usize) -> Result<String, AllocError>
    ensures { IfOk result (λ text. string_bytes text ≡ spec.content_length_line length) }
{
    format!(in alloc; "Content-Length: {length}\r\n")
}

/// The status's reason phrase, or nothing.
fn phrase_of(status: StatusCode) -> &'static str
    ensures { result.now ≡ unwrap_or (reason_phrase status) [] }
{
    match status.canonical_reason() {
        Some(phrase) => phrase,
        None => "",
    }
}

fn content_type_field(alloc: Global, content: &Option<Content>) -> Result<String, AllocError>
    ensures { IfOk result (λ text. string_bytes text
        ≡ content_type_line (option_map (λ c. c.kind) content.now)) }
{
    match content {
        None => Ok(String::new(alloc)),
        Some(content) => {
            let name = content.kind.name();
            let policy = content.kind.policy();
            format!(in alloc; "Content-Type: {name}\r\n{policy}")
        }
    }
}

fn allow_field(alloc: Global, allow: Option<RequestMethod>) -> Result<String, AllocError>
    ensures { IfOk result (λ text. string_bytes text ≡ allow_line allow) }
{
    match allow {
        None => Ok(String::new(alloc)),
        Some(verb) => {
            let name = verb.name();
            format!(in alloc; "Allow: {name}\r\n")
        }
    }
}

const UNAVAILABLE: &[u8] =
    b"HTTP/1.1 503 Service Unavailable\r\nContent-Length: 0\r\nConnection: close\r\n\r\n";

/// Writes that the service lacks memory or its store, which takes no memory.
pub fn write_unavailable<W: Write>(writer: &mut W) -> io::Result<()>
    ensures { IfOk result (λ _. Appends (W.contents writer.old) (W.contents writer.new)
        (answer_text (empty_answer 503))) }
{
    writer.write_all(UNAVAILABLE)
}

/// Writes a reply, or that there was no memory for it, and answers the status that was written.
pub fn write_reply<W: Write>(alloc: Global, writer: &mut W, reply: &Response) -> io::Result<u16>
    ensures { IfOk result (λ status. (answer : Answer)
        × ((answer ≡ answer_of reply.now) ⊎ (answer ≡ empty_answer 503))
        × (status ≡ answer.status)
        × Appends (W.contents writer.old) (W.contents writer.new) (answer_text answer)) }
{
    let Ok(head) = reply.head(alloc) else {
        write_unavailable(writer)?;
        return Ok(503);
    };
    writer.write_all(head.as_bytes())?;
    writer.write_all(reply.body())?;
    Ok(reply.status.as_u16())
}
