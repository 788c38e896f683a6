//! Two files opened as a store, without a connection.

ghost use Rattle.std.specs.Prelude.{◌≡◌, map, IfOk, IfErr, OnOk, IsTrue};
ghost use Rattle.sqlite_wal.specs.PageSize.{bytes_of};
ghost use Rattle.sqlite_pool.specs.Stored.{used_size};
ghost use Rattle.sqlite_store.specs.FileStore.{view};
ghost use Rattle.sqlite_store.specs.Unopened.{state_of, files_of, AreUsable, Opens};
ghost use Rattle.sqlite.specs.Files.{IsCleanLeft, LeavesFiles, image_of};
ghost use Rattle.sqlite.specs.Opening.{unrooted, IsListed, IsAttached};
ghost use Rattle.lrs_store_questions.specs.OpenedFiles.{HasListed, IsOpened};

use crate::look::look;
use crate::plain::{list_plain, plain_layouts};
use lrs_store_files::values::take_values;
use sqlite::{Leftover, Options};
use sqlite_disk::{Disk, Files};
use sqlite_pager::Pager;
use sqlite_store::{FileStore, OpenError, Unopened};
use sqlite_trees::error::StoreError;
use sqlite_value::row::Row;
use sqlite_wal::PageSize;
use std::alloc::{AllocError, AllocFailed, Global};

/// Where a row of sqlite_schema has all but its root page.
const FRONT: [usize; 5] = [0, 1, 2, 3, 5];

/// Why a store is not opened.
fn fault_of(error: OpenError) -> StoreError {
    match error {
        OpenError::OutOfMemory => StoreError::OutOfMemory,
        _ => StoreError::Io,
    }
}

/// The rows of sqlite_schema without their root pages.
fn fronts_of(alloc: Global, rows: &[Row]) -> Result<Vec<Row>, AllocError>
    ensures { IfOk result (λ fronts. fronts.items ≡ map unrooted rows.now) }
{
    let mut fronts = Vec::with_capacity(alloc, rows.len())?;
    for row in rows {
        let mut front = Row::new(alloc);
        take_values(&mut front, row, &FRONT)?;
        fronts.push(front)?;
    }
    Ok(fronts)
}

/// What the files list in sqlite_schema.
fn read_fronts<D: Disk>(alloc: Global, files: &mut Unopened<D>) -> Result<Vec<Row>, StoreError>
    requires { AreUsable files.old }
    ensures usable { OnOk result (AreUsable files.new) }
    ensures honest { IsTrue (state_of files.new).is_clean → IsTrue (state_of files.old).is_clean }
    ensures ok { IsTrue (state_of files.new).is_clean
        → IfOk result (λ rows. HasListed files.old files.new rows.items) }
    ensures kept { IsTrue (state_of files.new).is_clean → Opens files.old (state_of files.new) }
{
    match files.read_catalog() {
        Ok(rows) => Ok(fronts_of(alloc, rows.as_slice())?),
        Err(error) => Err(fault_of(error)),
    }
}

/// Gives the files the schema that they list, if it has plain tables and indexes alone.
fn read_schema<D: Disk>(alloc: Global, files: &mut Unopened<D>) -> Result<(), StoreError>
    requires { AreUsable files.old }
    ensures usable { OnOk result (AreUsable files.new) }
    ensures honest { IsTrue (state_of files.new).is_clean → IsTrue (state_of files.old).is_clean }
    ensures ok { IsTrue (state_of files.new).is_clean → OnOk result (IsListed files.old files.new) }
    ensures kept { IsTrue (state_of files.new).is_clean → Opens files.old (state_of files.new) }
{
    let rows = read_fronts(alloc, files)?;
    if !list_plain(alloc, rows.as_slice())? {
        return Err(StoreError::Corrupt);
    }
    let layouts = plain_layouts(alloc, rows.as_slice())?;
    if files.list_schema(rows.as_slice(), layouts.as_slice())? {
        Ok(())
    } else {
        Err(StoreError::Corrupt)
    }
}

/// Recovers the files, and checks each page against the schema that they list.
fn attach<D: Disk>(
    alloc: Global,
    mut files: Unopened<D>,
) -> Result<FileStore<D>, (StoreError, Unopened<D>)>
    requires { AreUsable files }
    ensures honest { IfOk result (λ store. IsTrue (view store).is_clean
        → IsTrue (state_of files).is_clean) }
    ensures falls { IfErr result (λ e. IsTrue (state_of e.1).is_clean
        → IsTrue (state_of files).is_clean) }
    ensures ok { IfOk result (λ store. IsTrue (view store).is_clean → IsAttached files store) }
    ensures kept { IfErr result (λ e. IsTrue (state_of e.1).is_clean
        → Opens files (state_of e.1)) }
{
    if let Err(error) = read_schema(alloc, &mut files) {
        return Err((error, files));
    }
    match files.open_numbered() {
        Ok(store) => Ok(store),
        Err((error, left)) => Err((fault_of(error), left)),
    }
}

/// The files with room for their pages, of which nothing is read yet.
fn unopened<D: Disk>(
    alloc: Global,
    files: Files<D>,
    size: PageSize,
    has_sums: bool,
    options: Options,
) -> Result<Unopened<D>, Files<D>>
    ensures files { IfOk result (λ it. files_of it ≡ (files.log, files.db)) }
    ensures size { IfOk result (λ it.
        (state_of it).page_size ≡ used_size (bytes_of size) has_sums) }
    ensures back { IfErr result (λ left. (left.log ≡ files.log) × (left.db ≡ files.db)) }
{
    match Pager::new(alloc, files, size, options) {
        Ok(pager) => match Unopened::with_sums(alloc, pager, &[], has_sums) {
            Ok(files) => Ok(files),
            Err(AllocFailed { value }) => Err(value.close()),
        },
        Err(AllocFailed { value }) => Err(value),
    }
}

/// Opens two files as a store: each of its pages is sound, and no row was tested. Nothing is made where they hold no
/// database.
///
/// # Errors
/// `Broken` when the log of a file that keeps sums has pages. Another error when the files hold no database, or one with
/// more than plain tables and indexes; when a page is damaged or a file fails; or when memory runs out. What is left of the
/// files holds what they held.
pub(crate) fn open_store<D: Disk>(
    alloc: Global,
    mut files: Files<D>,
    options: Options,
) -> Result<FileStore<D>, (StoreError, Leftover<D>)>
    requires log { IsTrue (D.Disk.is_usable files.log) }
    requires db { IsTrue (D.Disk.is_usable files.db) }
    ensures ok { IfOk result (λ store. IsTrue (view store).is_clean
        → IsOpened (image_of D.Disk files) store) }
    ensures unharmed { IfErr result (λ e. IsCleanLeft e.1 → LeavesFiles files e.1) }
{
    let (size, has_sums) = match look(alloc, &mut files) {
        Ok(told) => told,
        Err(error) => return Err((error, Leftover::Files(files))),
    };
    let fresh = match unopened(alloc, files, size, has_sums, options) {
        Ok(fresh) => fresh,
        Err(left) => return Err((StoreError::OutOfMemory, Leftover::Files(left))),
    };
    match attach(alloc, fresh) {
        Ok(store) => Ok(store),
        Err((error, left)) => Err((error, Leftover::Unopened(left))),
    }
}
