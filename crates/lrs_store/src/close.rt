//! Files that are closed, and what an opening finds in them.

ghost use Rattle.std.specs.Prelude.{Result};
ghost use Rattle.sqlite.specs.Files.{file_state};
ghost use Rattle.lrs_machine.specs.declared.image.Image.{Image as ImageRows};
ghost use Rattle.lrs_machine.specs.declared.table.Table.{Table as DeclaredTable};
ghost use Rattle.lrs_store_tables.specs.HeldRows.{MayHold};
ghost use Rattle.lrs_store.specs.Reopenings.{MayFind};

use crate::Tables;
use crate::files::close_files;
use lrs_store_tables::stored_rows::ReadImage;
use sqlite::{FileStore, Files};
use sqlite_disk::Disk;

/// Closes a keeper, and gives its files back where no write of it has failed: an opening finds in them what it might have
/// found before, and nothing else. There are none where they were not closed, or where a write had failed.
pub fn closed_files<D: Disk + Drop, R: ReadImage + Drop>(
    keeper: Tables<FileStore<D>, R>,
) -> Option<Files<D>>
    ensures { (c : Result ImageRows DeclaredTable) → MayFind D.Disk result c
        → MayHold (file_state keeper.conn) c }
{
    // For the prover alone: what its contract says is known from here on.
    keeper.prove_serving();
    let is_broken = keeper.has_failed();
    match close_files(keeper) {
        Ok(files) => {
            if is_broken {
                drop(files);
                return None;
            }
            Some(files)
        }
        Err(_) => None,
    }
}

/// Lets closed files go.
pub fn let_files_go<D: Disk + Drop>(files: Option<Files<D>>) {
    drop(files);
}
