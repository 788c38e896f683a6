//! The database at a path, copied into memory: so nothing at the path is locked, made or changed.

use sqlite::{Connection, Error, ErrorCode, FileStore, Files, Options};
use sqlite_disk::{Disk, Memory};
use std::alloc::Global;
use std::fs;
use std::rt::HostRuntime;

// What is larger is not copied.
const MOST_BYTES: u64 = 1 << 28;

fn copied(alloc: Global, bytes: &[u8]) -> Option<Memory> {
    let mut copy = Memory::new(alloc);
    if copy.may_be_used() {
        copy.write_at(0, bytes).ok()?;
    }
    Some(copy)
}

fn read_copy(rt: &HostRuntime, path: &str) -> Option<Memory> {
    let bytes = fs::read(rt, path).ok()?;
    copied(rt.alloc(), bytes.as_slice())
}

// What is in the file at a path: nothing where there is none.
fn copy_at(rt: &HostRuntime, path: &str) -> Option<Memory> {
    match fs::metadata(rt, path) {
        Ok(found) if found.len() > MOST_BYTES => None,
        Ok(_) => read_copy(rt, path),
        Err(_) => Some(Memory::new(rt.alloc())),
    }
}

// The same of its log.
fn copy_of_log(rt: &HostRuntime, path: &str) -> Option<Memory> {
    let log_path = format!(in rt.alloc(); "{path}-wal").ok()?;
    copy_at(rt, log_path.as_str())
}

// Over any disk, as one function makes the call.
fn connect<D: Disk + Drop>(
    alloc: Global,
    files: Files<D>,
) -> Result<Connection<FileStore<D>>, Error> {
    if files.log.may_be_used() && files.db.may_be_used() {
        match Connection::open_files(alloc, files, Options::new(1)) {
            Ok(conn) => Ok(conn),
            Err((error, _)) => Err(error),
        }
    } else {
        Err(Error::SqliteFailure(ErrorCode::Closed))
    }
}

/// A connection to a copy of the database at a path, with what its log has. None where it is too large to be copied, is
/// not read, or memory runs out.
pub(crate) fn connect_to_copy(
    rt: &HostRuntime,
    path: &str,
) -> Option<Result<Connection<FileStore<Memory>>, Error>> {
    let log = copy_of_log(rt, path)?;
    let db = copy_at(rt, path)?;
    Some(connect(rt.alloc(), Files { log, db }))
}
