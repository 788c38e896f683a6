//! The file of a new inventory, which is taken away again where nothing is kept in it.

use crate::site::{Site, site_at};
use std::fs;
use std::fs::OpenOptions;
use std::os::unix::fs::{MetadataExt, OpenOptionsExt};
use std::rt::HostRuntime;

// Who may read and write a file that is made: as SQLite has it.
const MODE: u32 = 0o644;

/// A file that this run has made, whatever it is named.
#[derive(Clone, Copy)]
pub struct MadeFile {
    device: u64,
    number: u64,
}

fn make(rt: &HostRuntime, path: &str) -> Option<MadeFile> {
    let file = OpenOptions::new()
        .read(true)
        .write(true)
        .create_new(true)
        .mode(MODE)
        .open(rt, path)
        .ok()?;
    let found = file.metadata().ok()?;
    Some(MadeFile {
        device: found.dev(),
        number: found.ino(),
    })
}

/// Makes an empty file at a path where nothing is, and no log either. None is made where something is, or the system makes
/// none.
pub fn make_file(rt: &HostRuntime, path: &str) -> Option<MadeFile> {
    match site_at(rt, path) {
        Site::Vacant => make(rt, path),
        _ => None,
    }
}

/// Takes a file away that this run has made and has open, and its log, where the path still names it. Says whether it did.
pub fn remove_file(rt: &HostRuntime, path: &str, made: MadeFile) -> bool {
    let Ok(found) = fs::symlink_metadata(rt, path) else {
        return false;
    };
    if found.dev() != made.device || found.ino() != made.number {
        return false;
    }
    let Ok(log) = format!(in rt.alloc(); "{path}-wal") else {
        return false;
    };
    // the log first: a file without one is an inventory, and a log alone is none
    let _ = fs::remove_file(rt, log.as_str());
    fs::remove_file(rt, path).is_ok()
}
