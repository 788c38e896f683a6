//! Who waits for a reply, and may go away before it is made.

ghost use Rattle.std.specs.Prelude.{◌≡◌, ◌⊎◌, [], Some};
ghost use Rattle.lrs_web_requests.specs.Text.{answer_of, empty_answer};

use http::StatusCode;
use lrs_web_replies::BoundedBytes;
use lrs_web_requests::Response;
use std::alloc::Global;
use std::io;
use std::io::{ErrorKind, Write};

// Behind so many bytes of lines, some tens of them, the client is looked for again: a look costs two calls of the system.
const BYTES_BETWEEN_LOOKS: usize = 1_024;

/// Who waits for a reply.
pub trait Client {
    /// Whether no reply can reach it any more. Then a sheet that it sent ends where it is.
    fn is_gone(&self) -> bool {
        false
    }
}

/// Bytes in memory stay there.
impl Client for Vec<u8> {}

/// A client of which nothing is known.
#[derive(Drop)]
pub(crate) struct AnyClient;

impl Client for AnyClient {}

/// Whom a reply is for, and how many bytes its body has at most.
#[derive(Drop)]
pub(crate) struct Recipient<'a, C: Client> {
    pub(crate) client: &'a C,
    pub(crate) most: usize,
}

/// A reply that has too many bytes gives way to an empty 503.
pub(crate) fn limited(reply: Response, most: usize) -> Response
    ensures { (answer_of result ≡ answer_of reply) ⊎ (answer_of result ≡ empty_answer 503) }
{
    let is_too_long = match &reply.content {
        Some(content) => content.bytes.len() > most,
        None => false,
    };
    if is_too_long {
        return Response::empty(StatusCode::SERVICE_UNAVAILABLE);
    }
    reply
}

/// The lines of a reply, while its client is there. Once it is gone the next one fails, as where there are too many bytes.
#[derive(Drop)]
pub(crate) struct ReplyLines<'a, C: Client> {
    pub(crate) text: BoundedBytes,
    client: &'a C,
    next_look: usize,
}

impl<'a, C: Client> ReplyLines<'a, C> {
    /// None yet.
    pub(crate) fn new(alloc: Global, to: &Recipient<'a, C>) -> ReplyLines<'a, C>
        ensures items { result.text.bytes.items ≡ [] }
    {
        ReplyLines {
            text: BoundedBytes::new(alloc, to.most),
            client: to.client,
            next_look: BYTES_BETWEEN_LOOKS,
        }
    }

    // Whether the client is looked for now, and gone.
    fn lacks_client(&mut self) -> bool
        ensures { self.new.text ≡ self.old.text }
    {
        let length = self.text.bytes.len();
        if length < self.next_look {
            return false;
        }
        self.next_look = length.saturating_add(BYTES_BETWEEN_LOOKS);
        self.client.is_gone()
    }
}

impl<'a, C: Client> Write for ReplyLines<'a, C> {
    ghost contents = { λ lines. Some lines.text.bytes.items };

    fn write(&mut self, buf: &[u8]) -> io::Result<usize> {
        if self.lacks_client() {
            return Err(io::Error::from(ErrorKind::ConnectionAborted));
        }
        self.text.write(buf)
    }

    fn flush(&mut self) -> io::Result<()> {
        Ok(())
    }
}
