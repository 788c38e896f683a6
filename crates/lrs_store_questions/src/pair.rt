//! The file of an inventory and its log at a path, opened to be read alone.

ghost use Rattle.std.specs.Prelude.{true, false, IsTrue, IfOk};
ghost use Rattle.lrs_store_questions.specs.StillFiles.{still_is_usable, IsFresh};

use crate::lock::ReadLock;
use crate::still::Still;
use sqlite::{Files, Start};
use sqlite_disk::Modelled;
use std::alloc::Global;
use std::fs;
use std::hash::{BuildHasher, RandomState};
use std::io::{self, ErrorKind, Read};
use std::os::fd::AsRawFd;
use std::os::unix::fs::MetadataExt;
use std::rt::HostRuntime;

/// A file that held what `S` says, opened to be read alone.
pub type StillFrom<S> = Modelled<Still, S>;

// Opens a regular file that has one name.
pub(crate) fn open_regular(rt: &HostRuntime, path: &str) -> io::Result<fs::File> {
    if !fs::symlink_metadata(rt, path)?.is_file() {
        return Err(ErrorKind::Unsupported.into());
    }
    let mut file = fs::open(rt, path)?;
    // What is meant for a standard stream that was closed must not be this file.
    if file.as_raw_fd() <= 2 {
        file = file.try_clone()?;
    }
    let (found, named) = (file.metadata()?, fs::symlink_metadata(rt, path)?);
    let is_named = found.dev() == named.dev() && found.ino() == named.ino();
    if !is_named || !found.is_file() || found.nlink() != 1 {
        return Err(ErrorKind::Unsupported.into());
    }
    Ok(file)
}

// Whether SQLite left a journal to play back. One that is missing, is empty or begins with a zero has nothing.
fn has_hot_journal(rt: &HostRuntime, path: &str) -> io::Result<bool> {
    match fs::symlink_metadata(rt, path) {
        Ok(found) if found.is_file() => {}
        Ok(_) => return Ok(true),
        Err(error) if error.kind() == ErrorKind::NotFound => return Ok(false),
        Err(error) => return Err(error),
    }
    let mut journal = fs::open(rt, path)?;
    let mut first = [0];
    Ok(journal.read(&mut first)? == 1 && first[0] != 0)
}

// Refuses a database beside which SQLite left a journal to play back.
fn refuse_journal(rt: &HostRuntime, path: &str) -> io::Result<()> {
    let journal = format!(in rt.alloc(); "{path}-journal")?;
    if has_hot_journal(rt, journal.as_str())? {
        return Err(ErrorKind::Unsupported.into());
    }
    Ok(())
}

// Opens the log of a database, if it is there.
fn open_log(rt: &HostRuntime, path: &str) -> io::Result<Option<fs::File>> {
    let log = format!(in rt.alloc(); "{path}-wal")?;
    match open_regular(rt, log.as_str()) {
        Ok(file) => Ok(Some(file)),
        Err(error) if error.kind() == ErrorKind::NotFound => Ok(None),
        Err(error) => Err(error),
    }
}

// Opens a database, if the locks are those on it.
fn open_locked(rt: &HostRuntime, path: &str, lock: &ReadLock) -> io::Result<fs::File> {
    let db = open_regular(rt, path)?;
    if !lock.is_on(&db)? {
        return Err(ErrorKind::Unsupported.into());
    }
    Ok(db)
}

// Opens a database and its log, as they are.
fn open_both(
    rt: &HostRuntime,
    path: &str,
    lock: &ReadLock,
) -> io::Result<(fs::File, Option<fs::File>)> {
    let db = open_locked(rt, path, lock)?;
    refuse_journal(rt, path)?;
    let log = open_log(rt, path)?;
    Ok((db, log))
}

// A file that held what `S` says, settled.
fn settled<S: Start>(
    file: Option<fs::File>,
    is_log: bool,
    alloc: Global,
    key: u64,
) -> io::Result<StillFrom<S>>
    ensures usable { IfOk result (λ file. IsTrue (still_is_usable S.Start file)) }
    ensures fresh { IfOk result (IsFresh is_log) }
{
    let still = Still::settled(file, alloc, key)?;
    Ok(Modelled::new(still, is_log, key))
}

// A log and a database file, settled.
fn settled_pair<S: Start>(
    db: fs::File,
    log: Option<fs::File>,
    alloc: Global,
    key: u64,
) -> io::Result<Files<StillFrom<S>>>
    ensures log { IfOk result (λ files. IsTrue (still_is_usable S.Start files.log)) }
    ensures db { IfOk result (λ files. IsTrue (still_is_usable S.Start files.db)) }
    ensures fresh { IfOk result (λ files. IsFresh true files.log × IsFresh false files.db) }
{
    let log = settled(log, true, alloc, key)?;
    let db = settled(Some(db), false, alloc, key)?;
    Ok(Files { log, db })
}

/// The log and the database file at `path`, of which none is made, under the locks on them. `_start` stands for what they
/// hold.
///
/// # Errors
/// Where the system does not open them, the locks are those of another file, or SQLite left a journal beside them.
pub(crate) fn open_pair<S: Start>(
    rt: &HostRuntime,
    path: &str,
    lock: &ReadLock,
    _start: S,
) -> io::Result<Files<StillFrom<S>>>
    ensures log { IfOk result (λ files. IsTrue (still_is_usable S.Start files.log)) }
    ensures db { IfOk result (λ files. IsTrue (still_is_usable S.Start files.db)) }
    ensures fresh { IfOk result (λ files. IsFresh true files.log × IsFresh false files.db) }
{
    let key = RandomState::new(rt)?.hash_one(&0u8);
    // As in SQLite, the files lie where a link leads, and no link is followed after that.
    let real = fs::canonicalize(rt, path)?;
    let (db, log) = open_both(rt, real.as_str(), lock)?;
    settled_pair(db, log, rt.alloc(), key)
}
