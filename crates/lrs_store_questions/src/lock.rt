//! The locks under which the files of an inventory are read: who writes them as SQLite does waits meanwhile, or is refused.

use crate::pair::open_regular;
use os::RangeLock;
use std::fs;
use std::io::{self, ErrorKind};
use std::os::fd::AsRawFd;
use std::os::unix::fs::MetadataExt;
use std::rt::HostRuntime;

/// Bytes that are locked: the first, and how many.
type LockedBytes = (u64, u64);

/// SQLite's pending, reserved and shared locks on a database. A file that is open to be read gets no lock but a shared
/// one: it keeps out all that write into the database without a log, and lets others read.
const OF_DATABASE: LockedBytes = (1 << 30, 512);

/// SQLite's locks on the index of a log: to copy the log into the database, and the last of those by which readers keep a
/// log from being begun anew. Who has them shared lets others append to the log, and read.
const OF_COPYING: LockedBytes = (121, 1);

const OF_READERS: LockedBytes = (127, 1);

/// How long a database is, and when it was written last: another length or time where a log was copied into it.
#[derive(Clone, Copy, PartialEq, Eq)]
struct Marks {
    len: u64,
    modified: (i64, i64),
}

/// The locks of a reader on the files of an inventory. They go as this is dropped.
#[derive(Drop)]
pub struct ReadLock {
    db: fs::File,
    marks: Marks,
    index: Option<fs::File>,
}

// Takes a shared lock.
fn lock(file: &fs::File, range: LockedBytes) -> io::Result<()> {
    let (first, count) = range;
    if os::try_lock_range(file.as_raw_fd(), RangeLock::Shared, first, count) != 0 {
        return Err(io::Error::from_raw_os_error(os::errno()));
    }
    Ok(())
}

// Opens the index of a log, and takes its locks. There is none where nobody has the log open as SQLite does.
fn lock_index(rt: &HostRuntime, path: &str) -> io::Result<Option<fs::File>> {
    match open_regular(rt, path) {
        Ok(index) => {
            lock(&index, OF_COPYING)?;
            lock(&index, OF_READERS)?;
            Ok(Some(index))
        }
        Err(error) if error.kind() == ErrorKind::NotFound => Ok(None),
        Err(error) => Err(error),
    }
}

fn marks_of(db: &fs::File) -> io::Result<Marks> {
    let found = db.metadata()?;
    Ok(Marks {
        len: found.len(),
        modified: (found.mtime(), found.mtime_nsec()),
    })
}

impl ReadLock {
    /// Takes the locks on the files at a path, of which none is made.
    ///
    /// # Errors
    /// `WouldBlock` where another program writes the files, or copies the log; else why the system does not open them.
    pub fn take(rt: &HostRuntime, path: &str) -> io::Result<ReadLock> {
        let real = fs::canonicalize(rt, path)?;
        let db = open_regular(rt, real.as_str())?;
        lock(&db, OF_DATABASE)?;
        let marks = marks_of(&db)?;
        let index_path = format!(in rt.alloc(); "{}-shm", real.as_str())?;
        let index = lock_index(rt, index_path.as_str())?;
        Ok(ReadLock { db, marks, index })
    }

    /// Whether these are the locks on this file.
    pub(crate) fn is_on(&self, file: &fs::File) -> io::Result<bool> {
        let (locked, found) = (self.db.metadata()?, file.metadata()?);
        Ok(locked.dev() == found.dev() && locked.ino() == found.ino())
    }

    /// Whether the database is as it was when the locks were taken. Else a program of SQLite's has made the index of a log
    /// since, and copied the log, from which no lock could keep it. No log is begun anew that was not copied.
    pub fn holds_still(&self) -> bool {
        if self.index.is_some() {
            return true;
        }
        match marks_of(&self.db) {
            Ok(marks) => marks == self.marks,
            Err(_) => false,
        }
    }
}
