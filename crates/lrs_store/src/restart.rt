//! Files that are closed and opened again.

ghost use Rattle.std.specs.Prelude.{IfOk};
ghost use Rattle.sqlite.specs.Files.{file_state};
ghost use Rattle.lrs_store.specs.Reopenings.{IsReopened};

use crate::Tables;
use crate::files::{NotOpened, close_files, open_files};
use lrs_store_files::CloseFault;
use lrs_store_tables::stored_rows::ReadImage;
use sqlite::{FileStore, Options};
use sqlite_disk::Disk;
use std::alloc::Global;

/// Why files are not opened again.
pub enum NotReopened<D: Disk> {
    /// They were not closed; the log has what the database lacks.
    Unclosed(CloseFault),
    /// They were closed, and not opened.
    Unopened(NotOpened<D>),
}

/// Closes the files of an inventory, and opens these files again: what was committed last is found.
///
/// # Errors
/// Those of `close_files`, and of `open_files`.
pub fn close_and_open<D: Disk + Drop, R: ReadImage + Drop>(
    alloc: Global,
    tables: Tables<FileStore<D>, R>,
    options: Options,
    reader: R,
) -> Result<Tables<FileStore<D>, R>, NotReopened<D>>
    ensures { IfOk result (λ opened. IsReopened tables (file_state opened.conn)) }
{
    // For the prover alone: what its contract says is known from here on.
    tables.prove_serving();
    let files = match close_files(tables) {
        Ok(files) => files,
        Err(fault) => return Err(NotReopened::Unclosed(fault)),
    };
    match open_files(alloc, files, options, reader) {
        Ok(opened) => Ok(opened),
        Err(refusal) => Err(NotReopened::Unopened(refusal)),
    }
}
