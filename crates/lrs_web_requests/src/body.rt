//! Reads the body of a request, whose front was read with the head.

ghost use Rattle.std.specs.Prelude.{◌≡◌, ◌≤◌, ◌++◌, length, take, drop, IfOk, IfSome, option_map, replicate};
ghost use Rattle.std.specs.Io.KnownBytes.{Consumes, IsAtEnd};
ghost use Rattle.lrs_web_requests.specs.Body.{body_at, Fills};

use crate::head::read_on;
use std::alloc::{AllocError, Global};
use std::io::{self, Read};

/// Why a body was not read.
#[derive(Drop)]
pub enum BodyFault {
    Memory,
    Read(io::Error),
}

impl From<AllocError> for BodyFault {
    ghost use Rattle.lrs_web_requests.specs.declared.body.BodyFault.TheVariants.{Memory};

    ghost from_gives = { λ _ e. e ≡ Memory };

    fn from(_: AllocError) -> BodyFault {
        BodyFault::Memory
    }
}

impl From<io::Error> for BodyFault {
    ghost use Rattle.lrs_web_requests.specs.declared.body.BodyFault.TheVariants as fault;

    ghost from_gives = { λ error e. e ≡ fault.Read error };

    fn from(error: io::Error) -> BodyFault {
        BodyFault::Read(error)
    }
}

/// Reads behind the filled part of a buffer until it is full or the input ends, and answers how much is filled.
fn fill<R: Read>(reader: &mut R, buffer: &mut [u8], from: usize) -> io::Result<usize>
    requires { from ≤ length buffer.old }
    ensures { IfOk result (Fills (R.remaining reader.old)
        (R.remaining reader.new) from buffer.old buffer.new) }
{
    let mut filled = from;
    while filled < buffer.len() {
        let count = read_on(reader, buffer, filled)?;
        if count == 0 {
            return Ok(filled);
        }
        filled += count;
    }
    Ok(filled)
}

/// A number of first bytes of an input whose front has been read, or nothing where it is shorter.
pub fn read_body<R: Read>(
    alloc: Global,
    reader: &mut R,
    front: &[u8],
    length: usize,
) -> Result<Option<Vec<u8>>, BodyFault>
    ensures { IfOk result (λ body. IfSome (R.remaining reader.old) (λ rest.
        option_map (λ bytes. bytes.items) body ≡ body_at length (front.now ++ rest))) }
{
    if length <= front.len() {
        return Ok(Some(Vec::from_slice(alloc, &front[..length])?));
    }
    let mut body = Vec::with_capacity(alloc, length)?;
    body.extend_from_slice(front)?;
    body.resize(length, 0)?;
    if fill(reader, body.as_mut_slice(), front.len())? < length {
        return Ok(None);
    }
    Ok(Some(body))
}
