//! A log with commits whose database is lost.

use lrs_store_tables::StoreFault;
use std::fs;
use std::io::{self, ErrorKind};
use std::rt::HostRuntime;

/// The fewest bytes of a log that has a commit: its header, and one frame with its header and the smallest page. What a
/// close leaves, or a stop before the first commit, is shorter.
const SHORTEST_LOG: u64 = 32 + 24 + 512;

/// How many bytes the file at a path has: none where there is no file.
fn bytes_of(rt: &HostRuntime, path: &str) -> io::Result<u64> {
    match fs::metadata(rt, path) {
        Ok(found) => Ok(found.len()),
        Err(error) if error.kind() == ErrorKind::NotFound => Ok(0),
        Err(error) => Err(error),
    }
}

/// Where the log of a database is: beside the file to which a link leads.
fn log_path(rt: &HostRuntime, path: &str) -> io::Result<String> {
    match fs::canonicalize(rt, path) {
        Ok(real) => Ok(format!(in rt.alloc(); "{}-wal", real.as_str())?),
        Err(error) if error.kind() == ErrorKind::NotFound => {
            Ok(format!(in rt.alloc(); "{path}-wal")?)
        }
        Err(error) => Err(error),
    }
}

/// Whether the database at a path is missing or empty, and its log has commits.
fn is_lost(rt: &HostRuntime, path: &str) -> io::Result<bool> {
    if bytes_of(rt, path)? > 0 {
        return Ok(false);
    }
    let log = log_path(rt, path)?;
    Ok(bytes_of(rt, log.as_str())? >= SHORTEST_LOG)
}

/// Refuses a path whose database is missing or empty beside a log with commits. The kit's opening would take it for a
/// store that is still to be made, and write over the log, which has the only copy of what was committed. No contract
/// can say what a file gives, so this has none, and its body is to be read: its calls only read.
///
/// # Errors
/// `Store` for such a path, and where the system does not tell; `Memory` if memory runs out.
pub fn refuse_lost(rt: &HostRuntime, path: &str) -> Result<(), StoreFault> {
    match is_lost(rt, path) {
        Ok(false) => Ok(()),
        Err(error) if error.kind() == ErrorKind::OutOfMemory => Err(StoreFault::Memory),
        Ok(true) | Err(_) => Err(StoreFault::Store),
    }
}
