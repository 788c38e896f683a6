//! Reads the head of a request, of bounded length, from any reader.

ghost use Rattle.std.specs.Prelude.{ℕ, ◌≡◌, ◌≤◌, ◌<◌, length, take, IfOk, IfSome, IfNone};
ghost use Rattle.std.specs.Io.KnownBytes.{Consumes};
ghost use Rattle.httparse.specs.Grammar.{HasNoRequest};
ghost use Rattle.lrs_web_requests.specs.HeadReadings.{Finds, IsParsed, Settles, ReadsOn};

use httparse::spans::{HeaderSpan, RequestSpans, parse_request};
use httparse::{Error, Status};
use std::io::{self, Read};

/// How the head of a request came out.
#[derive(Clone, Copy)]
pub enum Outcome {
    /// A whole head, at these places of what was read.
    Complete(RequestSpans),
    /// More bytes or fields than there is room for.
    TooLarge,
    /// No head, or only a part of one before the end of the input.
    Unreadable,
}

/// What was read, and how it came out.
#[derive(Clone, Copy)]
pub struct Reading {
    pub filled: usize,
    pub outcome: Outcome,
}

/// Reads once, behind the filled part of a buffer. It gives 0 only at the end of the input.
pub fn read_on<R: Read>(reader: &mut R, buffer: &mut [u8], filled: usize) -> io::Result<usize>
    requires { filled < length buffer.old }
    ensures { IfOk result (λ count. ReadsOn (R.remaining reader.old)
        (R.remaining reader.new) filled count buffer.old buffer.new) }
{
    reader.read(&mut buffer[filled..])
}

/// What a text settles about the head at its front, or nothing while more bytes may complete it.
fn settled(text: &[u8], spans: &mut [HeaderSpan]) -> Option<Outcome>
    ensures settled { IfSome result (Settles (length spans.old) text.now spans.new) }
    ensures pending { IfNone result (HasNoRequest text.now) }
{
    match parse_request(text, spans) {
        Ok(Status::Partial) => None,
        Ok(Status::Complete(head)) => Some(Outcome::Complete(head)),
        Err(Error::TooManyHeaders) => Some(Outcome::TooLarge),
        Err(_) => Some(Outcome::Unreadable),
    }
}

/// Reads until the front of the buffer has a whole head, or there can be none.
pub fn read_head<R: Read>(
    reader: &mut R,
    buffer: &mut [u8],
    spans: &mut [HeaderSpan],
) -> io::Result<Reading>
    ensures fits { IfOk result (λ reading. reading.filled ≤ length buffer.new) }
    ensures consumed { IfOk result (λ reading. Consumes (R.remaining reader.old)
        (R.remaining reader.new) (take reading.filled buffer.new)) }
    ensures parsed { IfOk result (λ reading. IsParsed
        (take reading.filled buffer.new) spans.new reading.outcome) }
    ensures found { IfOk result (λ reading. IfSome (R.remaining reader.old) (λ input.
        Finds (length buffer.old) (length spans.old) input (take reading.filled buffer.new) spans.new reading.outcome)) }
{
    let mut filled = 0;
    while filled < buffer.len() {
        let count = read_on(reader, buffer, filled)?;
        if count == 0 {
            return Ok(Reading {
                filled,
                outcome: Outcome::Unreadable,
            });
        }
        filled += count;
        match settled(&buffer[..filled], spans) {
            Some(outcome) => return Ok(Reading { filled, outcome }),
            None => {}
        }
    }
    Ok(Reading {
        filled,
        outcome: Outcome::TooLarge,
    })
}
