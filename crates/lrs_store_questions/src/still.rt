//! A file of the system that is only read. Each method makes its call, and then notes it with its answer.

ghost use Rattle.std.specs.Prelude.{◌≡◌, ◌<◌, ◌≤◌, ◌^◌, [], ◌∷◌, length, IfOk};
ghost use Rattle.sqlite_disk.specs.Events.{settled};

use crate::overlay::{MAX_OFFSET, Overlay};
use crate::record::Record;
use sqlite_disk::{Calls, is_no_room};
use std::alloc::Global;
use std::fs;
use std::io::{self, ErrorKind};
use std::os::fd::AsRawFd;
use std::os::unix::fs::FileExt;

const SETTLED: u64 = 0;

const MEASURED: u64 = 1;

const READ: u64 = 2;

const WRITTEN: u64 = 3;

const CUT: u64 = 4;

const FLUSHED: u64 = 5;

const TESTED: u64 = 6;

/// A file that is open to be read, or none, which is as one without a byte. What is written to it stays in memory, and is
/// read from there: recovering a log writes its header anew, and the file keeps its own.
#[derive(Drop)]
pub struct Still {
    file: Option<fs::File>,
    over: Overlay,
    log: Record,
}

// Syncs a file, and drops the kernel's copies of its pages, which a failed sync may have left other than the disk has them.
fn settle(file: &fs::File) -> io::Result<()> {
    match file.sync_all() {
        // A file system that is only read may know no sync, and needs none.
        Err(error) if error.kind() != ErrorKind::InvalidInput => return Err(error),
        _ => {}
    }
    let advised = libc::posix_fadvise(file.as_raw_fd(), 0, 0, libc::POSIX_FADV_DONTNEED);
    if advised == 0 {
        Ok(())
    } else {
        Err(io::Error::from_raw_os_error(advised))
    }
}

// How many bytes a file has, once it is settled.
fn settled_len(file: &Option<fs::File>) -> io::Result<usize> {
    match file {
        Some(file) => {
            settle(file)?;
            Ok(file.metadata()?.len() as usize)
        }
        None => Ok(0),
    }
}

impl Still {
    pub(crate) fn settled(file: Option<fs::File>, alloc: Global, key: u64) -> io::Result<Still>
        ensures { IfOk result (λ still. still.log.events ≡ settled key ∷ []) }
    {
        let len = settled_len(&file)?;
        let mut log = Record::new();
        log.note(&[SETTLED, key, 0, 1], &[]);
        Ok(Still {
            file,
            over: Overlay::over(len, alloc),
            log,
        })
    }
}

// Reads bytes that the file itself has.
fn read_own(file: &Option<fs::File>, at: usize, buf: &mut [u8]) -> io::Result<usize>
    ensures { IfOk result (λ n. n ≤ length buf.old) }
{
    match file {
        Some(file) => file.read_at(buf, at as u64),
        None => Ok(0),
    }
}

fn clear(buf: &mut [u8]) {
    for place in buf.iter_mut() {
        *place = 0;
    }
}

// Reads bytes of the file, those that were written over it, and zeros between its end and these.
fn read_bytes(
    file: &Option<fs::File>,
    over: &Overlay,
    at: usize,
    buf: &mut [u8],
) -> io::Result<usize>
    ensures { IfOk result (λ n. (0 < n) × (n ≤ length buf.old) × (at < 2 ^ 63)) }
{
    if at > MAX_OFFSET {
        return Err(ErrorKind::InvalidInput.into());
    }
    let wanted = buf.len().min(over.len().saturating_sub(at));
    let own = wanted.min(over.own().saturating_sub(at));
    let got = read_own(file, at, &mut buf[..own])?;
    let n = if got < own { got } else { wanted };
    if n == 0 {
        return Err(ErrorKind::UnexpectedEof.into());
    }
    clear(&mut buf[got..n]);
    over.lay(at, &mut buf[..n]);
    Ok(n)
}

impl Calls for Still {
    ghost history = { λ f. f.log.events };

    fn len(&mut self) -> io::Result<usize> {
        let n = self.over.len();
        self.log.note(&[MEASURED, n as u64, 0, 1], &[]);
        Ok(n)
    }

    fn read_some(&mut self, at: usize, buf: &mut [u8]) -> io::Result<usize> {
        let (at64, len) = (at as u64, buf.len() as u64);
        let answer = read_bytes(&self.file, &self.over, at, buf);
        match answer {
            Ok(n) => self.log.note(&[READ, at64, len, 1], &buf[..n]),
            Err(_) => self.log.note(&[READ, at64, len, 0], &[]),
        }
        answer
    }

    fn read_under(&mut self, key: u64, want: u64, at: usize, buf: &mut [u8]) -> io::Result<usize> {
        let (at64, len) = (at as u64, buf.len() as u64);
        let answer = read_bytes(&self.file, &self.over, at, buf);
        match answer {
            Ok(n) => self.log.note(&[TESTED, at64, len, 1, key, want], &buf[..n]),
            Err(_) => self.log.note(&[TESTED, at64, len, 0, key, want], &[]),
        }
        answer
    }

    fn write_some(&mut self, at: usize, bytes: &[u8]) -> io::Result<usize> {
        let answer = self.over.put(at, bytes);
        match answer {
            Ok(n) => self.log.note(&[WRITTEN, at as u64, n as u64, 1], bytes),
            Err(error) => self.log.note(
                &[WRITTEN, at as u64, u64::from(is_no_room(&error)), 0],
                bytes,
            ),
        }
        answer
    }

    fn resize(&mut self, len: usize) -> io::Result<()> {
        self.over.cut(len);
        self.log.note(&[CUT, len as u64, 0, 1], &[]);
        Ok(())
    }

    fn sync(&mut self) -> io::Result<()> {
        self.log.note(&[FLUSHED, 0, 0, 1], &[]);
        Ok(())
    }
}
