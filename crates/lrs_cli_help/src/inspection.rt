//! What is found at the path of an inventory that cannot be opened.

use crate::contents::{Contents, contents_at};
use crate::holder::{Holder, holder_of, is_locked};
use crate::site::{Site, log_path, site_at};
use std::alloc::Global;
use std::io::{ErrorKind, Read};
use std::os::unix::fs::MetadataExt;
use std::path::Path;
use std::rt::HostRuntime;
use std::{fs, io};

/// What is found at a path.
#[derive(Drop)]
pub(crate) enum Found {
    /// Neither a file nor the log of one.
    Nothing,
    /// The folder of the path is not there.
    NoFolder(String),
    /// A link to a file that is not there.
    LooseLink,
    /// No file, or one that is too short for a database, beside a log.
    LogAlone,
    Folder,
    /// A device, a pipe or a socket.
    NoFile,
    /// A file with another name beside this one.
    SecondName,
    /// The system does not say, or does not open it: why.
    Refused(String),
    /// Another program has it open: which one, where the system tells that.
    InUse(Option<Holder>),
    /// A journal of SQLite's, which only SQLite can play back, or something else of its name.
    Journal,
    /// A file in which an inventory can be made.
    Empty,
    /// No database of SQLite's.
    NoDatabase,
    /// A database of SQLite's.
    Database(Contents),
    /// Memory ran out.
    Unknown,
}

// Whether there is a log beside a path, or something else of its name.
fn has_log(rt: &HostRuntime, path: &str) -> bool {
    let Ok(log) = log_path(rt, path) else {
        return false;
    };
    match fs::metadata(rt, log.as_str()) {
        Ok(_) => true,
        Err(error) => error.kind() != ErrorKind::NotFound,
    }
}

fn refused(alloc: Global, error: &io::Error) -> Found {
    match format!(in alloc; "{error}") {
        Ok(text) => Found::Refused(text),
        Err(_) => Found::Unknown,
    }
}

// The first byte of a file.
fn first_byte(rt: &HostRuntime, path: &str) -> Option<u8> {
    let mut file = fs::open(rt, path).ok()?;
    let mut first = [0u8; 1];
    match file.read(&mut first) {
        Ok(1) => Some(first[0]),
        _ => None,
    }
}

// Whether a journal of SQLite's has something to play back, or something else has its name. One that begins with a zero
// is done with.
fn has_journal(rt: &HostRuntime, path: &str) -> bool {
    let Ok(journal) = format!(in rt.alloc(); "{path}-journal") else {
        return false;
    };
    match fs::symlink_metadata(rt, journal.as_str()) {
        Ok(found) if found.is_file() => match first_byte(rt, journal.as_str()) {
            Some(first) => first != 0,
            None => false,
        },
        Ok(_) => true,
        Err(_) => false,
    }
}

// Whether a file begins as the databases of SQLite do.
fn begins_as_sqlite(rt: &HostRuntime, path: &str) -> io::Result<bool> {
    let mut file = fs::open(rt, path)?;
    let mut first = [0u8; 16];
    match file.read(&mut first) {
        Ok(16) => Ok(first.starts_with(b"SQLite format 3\0")),
        Ok(_) => Ok(false),
        Err(error) => Err(error),
    }
}

// What is found in a file.
fn inside(rt: &HostRuntime, path: &str) -> Found {
    match begins_as_sqlite(rt, path) {
        Ok(true) => Found::Database(contents_at(rt, path)),
        Ok(false) => Found::NoDatabase,
        Err(error) => refused(rt.alloc(), &error),
    }
}

// What is found of a file that nobody else has open.
fn free_file_found(rt: &HostRuntime, path: &str) -> Found {
    match site_at(rt, path) {
        Site::Vacant | Site::Remnant => Found::Empty,
        Site::Foreign if has_log(rt, path) => Found::LogAlone,
        _ if has_journal(rt, path) => Found::Journal,
        _ => inside(rt, path),
    }
}

// What is found of a file.
fn file_found(rt: &HostRuntime, path: &str) -> Found {
    if let Some(holder) = holder_of(rt, path) {
        return Found::InUse(Some(holder));
    }
    if is_locked(rt, path) {
        return Found::InUse(None);
    }
    free_file_found(rt, path)
}

// What is found of a path where nothing is: whether its folder is there.
fn folder_found(rt: &HostRuntime, path: &str) -> Found {
    let folder = match Path::new(path).parent() {
        Some(folder) => folder.as_str(),
        None => "",
    };
    if folder.is_empty() || fs::metadata(rt, folder).is_ok() {
        return Found::Nothing;
    }
    match format!(in rt.alloc(); "{folder}") {
        Ok(folder) => Found::NoFolder(folder),
        Err(_) => Found::Unknown,
    }
}

// What is found of a path that leads to nothing.
fn nothing_found(rt: &HostRuntime, path: &str) -> Found {
    if has_log(rt, path) {
        Found::LogAlone
    } else if fs::symlink_metadata(rt, path).is_ok() {
        Found::LooseLink
    } else {
        folder_found(rt, path)
    }
}

/// Looks at a path. Nothing there is made or changed, and no lock is kept.
pub(crate) fn inspect(rt: &HostRuntime, path: &str) -> Found {
    match fs::metadata(rt, path) {
        Ok(found) if found.is_dir() => Found::Folder,
        Ok(found) if !found.is_file() => Found::NoFile,
        Ok(found) if found.nlink() > 1 => Found::SecondName,
        Ok(_) => file_found(rt, path),
        Err(error) if error.kind() == ErrorKind::NotFound => nothing_found(rt, path),
        Err(error) => refused(rt.alloc(), &error),
    }
}
