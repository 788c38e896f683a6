//! A buffer in front of a writer, for what is printed as a whole.

ghost use Rattle.std.specs.Prelude.{◌≡◌, IfOk, IfErr};
ghost use Rattle.std.specs.Io.Buffered.{writer_contents};
ghost use Rattle.std.specs.Io.KnownBytes.{Keeps};

use crate::fault::ProgramFault;
use std::alloc::Global;
use std::io::{BufWriter, Write};

// What is printed goes out in pieces of this many bytes.
const PIECE: usize = 65_536;

/// A buffer in front of a writer.
pub fn buffered<W: Write + Drop>(alloc: Global, to: W) -> Result<BufWriter<W>, ProgramFault>
    ensures same { IfOk result (λ b. writer_contents W.contents b ≡ W.contents to) }
    ensures memory { IfErr result (λ e. e ≡ ProgramFault.Memory) }
{
    match BufWriter::with_capacity(alloc, PIECE, to) {
        Ok(writer) => Ok(writer),
        Err(_) => Err(ProgramFault::Memory),
    }
}

/// The writer behind a buffer, once all of it is written.
pub fn behind<W: Write + Drop>(writer: BufWriter<W>) -> Result<W, ProgramFault>
    ensures same { IfOk result (λ w. Keeps (writer_contents W.contents writer) (W.contents w)) }
    ensures write { IfErr result (λ e. e ≡ ProgramFault.Write) }
{
    match writer.into_inner() {
        Ok(to) => Ok(to),
        Err(_) => Err(ProgramFault::Write),
    }
}
