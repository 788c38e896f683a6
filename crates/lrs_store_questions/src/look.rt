//! What two files tell before they are opened. Nothing is written.

ghost use Rattle.std.specs.Prelude.{◌≡◌, false, [], IfOk, OnOk, IsTrue};
ghost use Rattle.sqlite_trees.specs.Tree.{Trees};
ghost use Rattle.sqlite_pool.specs.Stored.{stored_size, used_size};
ghost use Rattle.sqlite_wal.specs.PageSize.{bytes_of};
ghost use Rattle.sqlite_wal.specs.Reads.{AreClean, OnlyReads};
ghost use Rattle.sqlite.specs.Files.{HoldsDatabase, IsBlankAs, IsNothing, NamesSize, BeginsWell, SaysSums, image_of};
ghost use Rattle.sqlite.specs.Opening.{AreToSeal};
ghost use Rattle.lrs_store_questions.specs.Looks.{LooksLike};

use sqlite::Files;
use sqlite_disk::Disk;
use sqlite_pool::probe_blank;
use sqlite_trees::error::StoreError;
use sqlite_wal::{Error, PageSize, probe_first_page, probe_frames, probe_page_size};
use std::alloc::Global;

/// The page size of a file that the kit makes.
const NEW_PAGE: usize = 4096;

/// What a first page says from byte 20 on, if eight bytes of each page are kept for a sum: that count, and three
/// numbers that are the same in each file.
const KEEPS_SUMS: u32 = 0x0840_2020;

/// Why files are not opened, by why they are not read.
fn fault_of(error: Error) -> StoreError {
    match error {
        Error::OutOfMemory => StoreError::OutOfMemory,
        _ => StoreError::Io,
    }
}

/// Whether the files hold no database yet, as the kit begins one with sums or without.
fn is_new_as<D: Disk>(
    alloc: Global,
    files: &mut Files<D>,
    has_sums: bool,
) -> Result<bool, StoreError>
    requires log { IsTrue (D.Disk.is_usable files.old.log) }
    requires db { IsTrue (D.Disk.is_usable files.old.db) }
    ensures ok { IfOk result (λ found. AreClean D.Disk files.new.log files.new.db
        → found ≡ false → ¬ IsBlankAs has_sums (image_of D.Disk files.old)) }
    ensures log { OnlyReads D.Disk files.old.log files.new.log }
    ensures db { OnlyReads D.Disk files.old.db files.new.db }
{
    let size = PageSize::new(NEW_PAGE).unwrap();
    match probe_blank(alloc, files, size, has_sums) {
        Ok(found) => Ok(found),
        Err(error) => Err(fault_of(error)),
    }
}

/// Whether the files hold no database yet.
fn are_new<D: Disk>(alloc: Global, files: &mut Files<D>) -> Result<bool, StoreError>
    requires log { IsTrue (D.Disk.is_usable files.old.log) }
    requires db { IsTrue (D.Disk.is_usable files.old.db) }
    ensures ok { IfOk result (λ found. AreClean D.Disk files.new.log files.new.db
        → found ≡ false → ¬ IsNothing (image_of D.Disk files.old)) }
    ensures log { OnlyReads D.Disk files.old.log files.new.log }
    ensures db { OnlyReads D.Disk files.old.db files.new.db }
{
    if is_new_as(alloc, files, false)? {
        return Ok(true);
    }
    is_new_as(alloc, files, true)
}

/// The page size that the log names, or else the database file.
fn page_size<D: Disk>(files: &mut Files<D>) -> Result<PageSize, StoreError>
    requires log { IsTrue (D.Disk.is_usable files.old.log) }
    requires db { IsTrue (D.Disk.is_usable files.old.db) }
    ensures named { IfOk result (λ size. AreClean D.Disk files.new.log files.new.db
        → NamesSize (image_of D.Disk files.old) (bytes_of size)) }
    ensures held { IfOk result (λ size. AreClean D.Disk files.new.log files.new.db
        → (db : Trees) (held : HoldsDatabase (image_of D.Disk files.old) db)
        → stored_size held.0 ≡ bytes_of size) }
    ensures log { OnlyReads D.Disk files.old.log files.new.log }
    ensures db { OnlyReads D.Disk files.old.db files.new.db }
{
    let Ok(found) = probe_page_size(files) else {
        return Err(StoreError::Io);
    };
    match found {
        Some(size) => Ok(size),
        None => Err(StoreError::Corrupt),
    }
}

/// Whether pages end in sums, as the first page says. Files whose first page does not begin as a database are refused.
fn keeps_sums<D: Disk>(
    alloc: Global,
    files: &mut Files<D>,
    size: PageSize,
) -> Result<bool, StoreError>
    requires log { IsTrue (D.Disk.is_usable files.old.log) }
    requires db { IsTrue (D.Disk.is_usable files.old.db) }
    ensures begins { OnOk result (AreClean D.Disk files.new.log files.new.db
        → BeginsWell (bytes_of size) (image_of D.Disk files.old)) }
    ensures says { IfOk result (λ sums. AreClean D.Disk files.new.log files.new.db
        → IsTrue sums → SaysSums (bytes_of size) (image_of D.Disk files.old)) }
    ensures held { IfOk result (λ sums. AreClean D.Disk files.new.log files.new.db
        → (db : Trees) (held : HoldsDatabase (image_of D.Disk files.old) db)
        → stored_size held.0 ≡ bytes_of size → held.0 ≡ used_size (bytes_of size) sums) }
    ensures log { OnlyReads D.Disk files.old.log files.new.log }
    ensures db { OnlyReads D.Disk files.old.db files.new.db }
{
    match probe_first_page(alloc, files, size) {
        Ok((b'S', word)) => Ok(word == KEEPS_SUMS),
        Ok(_) => Err(StoreError::Corrupt),
        Err(error) => Err(fault_of(error)),
    }
}

/// Refuses a log with pages of a file that keeps sums, by `Broken`: one that another program wrote there lacks its sum.
fn refuse_log<D: Disk>(
    alloc: Global,
    files: &mut Files<D>,
    size: PageSize,
    has_sums: bool,
) -> Result<(), StoreError>
    requires log { IsTrue (D.Disk.is_usable files.old.log) }
    requires db { IsTrue (D.Disk.is_usable files.old.db) }
    ensures ok { OnOk result (AreClean D.Disk files.new.log files.new.db
        → AreToSeal (used_size (bytes_of size) has_sums) (image_of D.Disk files.old) []) }
    ensures log { OnlyReads D.Disk files.old.log files.new.log }
    ensures db { OnlyReads D.Disk files.old.db files.new.db }
{
    if !has_sums {
        return Ok(());
    }
    match probe_frames(alloc, &mut files.log, size) {
        Ok(numbers) if numbers.is_empty() => Ok(()),
        Ok(_) => Err(StoreError::Broken),
        Err(error) => Err(fault_of(error)),
    }
}

/// How long the pages of a database in these files are, and whether they end in sums. Files without a database are
/// refused, and so is, by `Broken`, a log with pages that may lack their sums.
pub(crate) fn look<D: Disk>(
    alloc: Global,
    files: &mut Files<D>,
) -> Result<(PageSize, bool), StoreError>
    requires log { IsTrue (D.Disk.is_usable files.old.log) }
    requires db { IsTrue (D.Disk.is_usable files.old.db) }
    ensures ok { IfOk result (λ told. AreClean D.Disk files.new.log files.new.db
        → LooksLike (image_of D.Disk files.old) (bytes_of told.0) told.1) }
    ensures log { OnlyReads D.Disk files.old.log files.new.log }
    ensures db { OnlyReads D.Disk files.old.db files.new.db }
{
    if are_new(alloc, files)? {
        return Err(StoreError::Io);
    }
    let size = page_size(files)?;
    let has_sums = keeps_sums(alloc, files, size)?;
    refuse_log(alloc, files, size, has_sums)?;
    Ok((size, has_sums))
}
