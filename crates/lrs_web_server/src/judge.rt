//! Whether all of a request has come, as the reader of requests itself finds.

ghost use Rattle.std.specs.Prelude.{◌≤◌, length};

use lrs_web_requests::{BodyFault, receive, routes};
use std::alloc::Global;
use std::io;
use std::io::{ErrorKind, Read};

// A head has at most so many bytes, and its reader asks for all of them at once.
const MOST_HEAD: usize = 8_192;

/// Copies from a place of some bytes on, and answers how many.
pub(crate) fn copy_from(bytes: &[u8], at: usize, buf: &mut [u8]) -> usize
    ensures { result ≤ length buf.new }
{
    let Some(rest) = bytes.get(at..) else {
        return 0;
    };
    let count = rest.len().min(buf.len());
    buf[..count].copy_from_slice(&rest[..count]);
    count
}

// What has come of a request. A read behind it fails, and is noted.
#[derive(Drop)]
struct Front<'a> {
    bytes: &'a [u8],
    at: usize,
    missing: usize,
}

impl<'a> Read for Front<'a> {
    fn read(&mut self, buf: &mut [u8]) -> io::Result<usize> {
        let count = copy_from(self.bytes, self.at, buf);
        if count == 0 {
            self.missing = buf.len();
            return Err(io::Error::from(ErrorKind::WouldBlock));
        }
        self.at = self.at.saturating_add(count);
        Ok(count)
    }
}

/// What its reader makes of the front of a request.
#[derive(Clone, Copy)]
pub(crate) enum Finding {
    /// It asks for nothing more: the request is whole, or is refused.
    WholeRequest,
    /// The head has not ended.
    InHead,
    /// The body ends so many bytes on.
    InBody(usize),
}

/// What the reader of requests makes of these bytes, without a page: with one it reads no more. Where memory is missing it
/// asks for nothing more: the reply is to say so.
pub(crate) fn judged(alloc: Global, bytes: &[u8]) -> Finding {
    let mut front = Front {
        bytes,
        at: 0,
        missing: 0,
    };
    let Ok(router) = routes(alloc) else {
        return Finding::WholeRequest;
    };
    match receive(alloc, &router, None, &mut front) {
        Ok(_) | Err(BodyFault::Memory) => Finding::WholeRequest,
        Err(BodyFault::Read(_)) => found_at(bytes.len(), front.missing),
    }
}

fn found_at(have: usize, missing: usize) -> Finding {
    if have.saturating_add(missing) == MOST_HEAD {
        Finding::InHead
    } else {
        Finding::InBody(missing)
    }
}
