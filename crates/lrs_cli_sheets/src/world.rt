//! What is outside of the program: the sheets that its words name, and where it tells how far it is.

ghost use Rattle.std.specs.Io.{ReadsAtMost};

use crate::progress::{Extent, ProgressDisplay};
use crate::streams::wait_for_input;
use std::alloc::Global;
use std::io::{ErrorKind, IsTerminal, Read};
use std::net::Net;
use std::rt::{HostRuntime, Runtime};
use std::{fs, io};

/// Gives the sheets that the words of the program name.
pub trait Sheets {
    ghost use Rattle.std.specs.Prelude.{◌≡◌, IfOk, List, ℕ, Option};

    /// Reads a sheet, from its first byte.
    type Reader: Read + Drop;

    /// The bytes of the sheet of a name, where they are known.
    ghost text_of: { Self → List ℕ → Option (List ℕ) };

    /// Opens the sheet of a name.
    ///
    /// # Errors
    /// Why it cannot be read: there is none, say, or memory runs out.
    fn open(&self, name: &str) -> io::Result<Self::Reader>
        ensures text { IfOk result (λ reader.
            Self.Reader.remaining reader ≡ text_of self.now name.now) };

    /// How much there is of the sheet of a name, and whether all of it is there already.
    fn extent(&self, name: &str) -> Extent;
}

/// What is outside of the program while it does a job.
#[derive(Drop)]
pub struct World<'a, R: Runtime<A = Global>, S: Sheets> {
    /// The system: its memory, its clock, and standard error.
    pub rt: &'a R,
    /// The sheets that the words of the job name.
    pub sheets: &'a S,
    /// Where it is shown how far a long sheet is.
    pub shown: ProgressDisplay,
}

/// Sheets in files of the system, by their paths; `stdin` is the standard input.
#[derive(Drop)]
pub struct SystemSheets<'a, R: Runtime<A = Global> + Net> {
    rt: &'a R,
    // whether standard error says of a sheet that its last line has no end
    says: bool,
    // whether the standard input is a terminal
    is_typed: bool,
}

/// A sheet of the system.
#[derive(Drop)]
pub struct SystemSheet<'a, R: Runtime<A = Global> + Net> {
    bytes: SystemBytes<R>,
    rt: &'a R,
    says: bool,
    // the byte that was read last, until the end
    last: Option<u8>,
}

/// Where its bytes come from.
#[derive(Drop)]
enum SystemBytes<R: Runtime<A = Global>> {
    File(R::File),
    Input(R::Reader),
}

impl<R: Runtime<A = Global>> SystemBytes<R> {
    fn read_once(&mut self, buf: &mut [u8]) -> io::Result<usize>
        ensures { ReadsAtMost result buf.new }
    {
        match self {
            SystemBytes::File(file) => file.read(buf),
            SystemBytes::Input(input) => input.read(buf),
        }
    }

    // Whether it is the standard input.
    fn is_input(&self) -> bool {
        match self {
            SystemBytes::File(_) => false,
            SystemBytes::Input(_) => true,
        }
    }
}

impl<'a, R: Runtime<A = Global> + Net> SystemSheet<'a, R> {
    // Goes on where a signal cut a read short, and waits for a standard input that does not wait.
    fn try_again(&self, error: io::Error) -> io::Result<()> {
        if error.kind() == ErrorKind::Interrupted {
            return Ok(());
        }
        if self.bytes.is_input() {
            return wait_for_input(self.rt, error);
        }
        Err(error)
    }

    fn read_on(&mut self, buf: &mut [u8]) -> io::Result<usize>
        ensures { ReadsAtMost result buf.new }
    {
        for _turn in 0..u64::MAX {
            match self.bytes.read_once(buf) {
                Ok(count) => return Ok(count),
                Err(error) => self.try_again(error)?,
            }
        }
        Err(io::Error::from(ErrorKind::WouldBlock))
    }

    // Says, once, that the last line has no end, where it has none: what broke off in a number has another one.
    fn tell_end(&mut self) {
        if let Some(last) = self.last {
            if self.says && last != b'\n' && last != b'\r' {
                // it is said on a terminal alone, where how far the sheet is may stand in the line
                let _ = eprintln!(self.rt;
                    "\r\x1b[Knote: the last line of the sheet has no end; look whether it was cut off"
                );
            }
        }
        self.last = None;
    }

    fn note(&mut self, read: &[u8]) {
        match read.last() {
            Some(byte) => self.last = Some(*byte),
            None => self.tell_end(),
        }
    }
}

impl<'a, R: Runtime<A = Global> + Net> Read for SystemSheet<'a, R> {
    fn read(&mut self, buf: &mut [u8]) -> io::Result<usize> {
        let count = self.read_on(buf)?;
        if !buf.is_empty() {
            self.note(&buf[..count]);
        }
        Ok(count)
    }
}

impl<'a> SystemSheets<'a, HostRuntime> {
    /// The sheets of this system. Of one whose last line has no end that is said on standard error, where it is a terminal.
    pub fn new(rt: &'a HostRuntime) -> SystemSheets<'a, HostRuntime> {
        SystemSheets {
            rt,
            says: rt.stderr().is_terminal(),
            is_typed: rt.stdin().is_terminal(),
        }
    }
}

impl<'a, R: Runtime<A = Global> + Net> SystemSheets<'a, R> {
    fn sheet(&self, bytes: SystemBytes<R>) -> SystemSheet<'a, R> {
        SystemSheet {
            bytes,
            rt: self.rt,
            says: self.says,
            last: None,
        }
    }
}

impl<'a, R: Runtime<A = Global> + Net> Sheets for SystemSheets<'a, R> {
    ghost use Rattle.std.specs.Prelude.{None};

    type Reader = SystemSheet<'a, R>;

    // No clause tells what a file of the system or its standard input gives.
    ghost text_of = { λ _ _. None };

    fn open(&self, name: &str) -> io::Result<SystemSheet<'a, R>> {
        if name == "stdin" {
            return Ok(self.sheet(SystemBytes::Input(self.rt.reader())));
        }
        let file = fs::open(self.rt, name)?;
        Ok(self.sheet(SystemBytes::File(file)))
    }

    fn extent(&self, name: &str) -> Extent {
        if name == "stdin" {
            return if self.is_typed {
                Extent::Typed
            } else {
                Extent::Sent
            };
        }
        match fs::metadata(self.rt, name) {
            Ok(metadata) if metadata.is_file() => Extent::Bytes(metadata.len()),
            _ => Extent::Sent,
        }
    }
}
