//! The files of an inventory, opened for questions.

ghost use Rattle.std.specs.Prelude.{◌≡◌, ◌≢◌, true, false, None, IfOk, IfErr, IfSome, IsTrue, Result};
ghost use Rattle.sqlite_store.specs.FileStore.{view, recovers};
ghost use Rattle.sqlite_wal.specs.Files.{image_at};
ghost use Rattle.sqlite.specs.Files.{image_of, IsCleanLeft, LeavesFiles};
ghost use Rattle.lrs_machine.specs.declared.image.Image.{Image as ImageRows};
ghost use Rattle.lrs_machine.specs.declared.table.Table.{Table as DeclaredTable};
ghost use Rattle.lrs_store_questions.specs.StillFiles.{still_is_usable, IsFresh};
ghost use Rattle.lrs_store_questions.specs.Readings.{MayTell};
ghost use Rattle.lrs_store_questions.specs.FileAnswers.{HasRead, IsLeftAt};

use crate::files::open_store;
use crate::image::{TABLES, tables_in};
use crate::keeper::Questions;
use crate::lock::ReadLock;
use crate::pair::{StillFrom, open_pair};
use lrs_store_files::Known;
use lrs_store_tables::StoreFault;
use sqlite::{FileStore, Files, Leftover, Options, Start};
use sqlite_disk::Disk;
use sqlite_trees::error::StoreError;
use std::alloc::Global;
use std::hash::{BuildHasher, RandomState};
use std::io::ErrorKind;
use std::rt::HostRuntime;

/// Why files are not opened for questions, and what is left of them, if the system opened them.
#[derive(Drop)]
pub struct QuestionsNotOpened<D: Disk> {
    pub fault: StoreFault,
    /// Whether an opening for all work may take them: they lack tables of an inventory, or have sums, and pages in the log.
    /// All others it would refuse too, or make an inventory of them.
    pub may_be_taken: bool,
    pub left: Option<Leftover<D>>,
}

impl<D: Disk + Drop> QuestionsNotOpened<D> {
    /// Why they are not opened. What is left of them is dropped.
    pub fn into_fault(self) -> StoreFault
        ensures { result ≡ self.fault }
    {
        let QuestionsNotOpened {
            fault,
            may_be_taken: _,
            left,
        } = self;
        drop(left);
        fault
    }
}

impl<D: Disk + Drop> Questions<FileStore<D>> {
    /// Drops it.
    pub fn discard(self) {
        let Questions { store, .. } = self;
        drop(store);
    }
}

/// Why files are not opened, by why they are no store.
fn fault_of(error: StoreError) -> StoreFault {
    match error {
        StoreError::OutOfMemory => StoreFault::Memory,
        _ => StoreFault::Store,
    }
}

/// Why the tables of a store are not those of an inventory, and whether an opening for all work may make them so: nothing
/// where they are.
fn unfit_for<D: Disk + Drop>(alloc: Global, store: &FileStore<D>) -> Option<(StoreFault, bool)> {
    match tables_in(alloc, store) {
        Ok(Known::First(count)) if count == TABLES => None,
        Ok(Known::First(count)) => Some((StoreFault::Store, count > 0)),
        Ok(Known::Other) => Some((StoreFault::Store, false)),
        Err(error) => Some((fault_of(error), false)),
    }
}

/// The inventory in these files, kept for questions. Nothing is loaded yet, and nothing is made where they hold none.
///
/// # Errors
/// `Store` where the files hold no sound store of the tables of an inventory, a file fails, or the log of a file that
/// keeps sums has pages; `Memory` if memory runs out. What is left of the files holds what they held.
pub fn files_for_questions<D: Disk + Drop>(
    alloc: Global,
    files: Files<D>,
    options: Options,
) -> Result<Questions<FileStore<D>>, QuestionsNotOpened<D>>
    requires log { IsTrue (D.Disk.is_usable files.log) }
    requires db { IsTrue (D.Disk.is_usable files.db) }
    ensures unloaded { IfOk result (λ k. k.is_loaded ≡ false) }
    ensures open { IfOk result (λ k. IsTrue (view k.store).is_clean
        → IsTrue (view k.store).is_open) }
    ensures held { IfOk result (λ k. (c : Result ImageRows DeclaredTable)
        → MayTell view recovers c k.store → HasRead (image_of D.Disk files) c) }
    ensures still { IfOk result (λ k. IsTrue (view k.store).is_clean
        → LeavesFiles files (Leftover.Store k.store)) }
    ensures unharmed { IfErr result (λ e. IfSome e.left (λ left. IsCleanLeft left
        → LeavesFiles files left)) }
    ensures left { IfErr result (λ e. e.left ≢ None) }
{
    match open_store(alloc, files, options) {
        Ok(store) => match unfit_for(alloc, &store) {
            None => Ok(Questions {
                store,
                is_loaded: false,
                failures: 0,
            }),
            Some((fault, may_be_taken)) => Err(QuestionsNotOpened {
                fault,
                may_be_taken,
                left: Some(Leftover::Store(store)),
            }),
        },
        Err((error, left)) => Err(QuestionsNotOpened {
            fault: fault_of(error),
            may_be_taken: error == StoreError::Broken,
            left: Some(left),
        }),
    }
}

/// The files at a path.
fn pair_at<S: Start>(
    rt: &HostRuntime,
    path: &str,
    lock: &ReadLock,
    start: S,
) -> Result<Files<StillFrom<S>>, StoreFault>
    ensures usable { IfOk result (λ files. IsTrue (still_is_usable S.Start files.log)
        × IsTrue (still_is_usable S.Start files.db)) }
    ensures fresh { IfOk result (λ files. IsFresh true files.log × IsFresh false files.db) }
{
    if path == ":memory:" || path.starts_with("file:") {
        return Err(StoreFault::Store);
    }
    match open_pair(rt, path, lock, start) {
        Ok(files) => Ok(files),
        Err(error) if error.kind() == ErrorKind::OutOfMemory => Err(StoreFault::Memory),
        Err(_) => Err(StoreFault::Store),
    }
}

/// How a store is kept, with a number of its own for the sums of its log.
fn options(rt: &HostRuntime) -> Result<Options, StoreFault> {
    match RandomState::new(rt) {
        Ok(state) => Ok(Options::new(state.hash_one(&0u8))),
        Err(_) => Err(StoreFault::Store),
    }
}

/// The inventory in the files at a path, kept for questions, under the locks on them: who holds them until it is loaded
/// reads what was committed last before. `start` stands for what the files hold. Nothing is loaded yet. The files are
/// only read, and none is made.
///
/// # Errors
/// As `files_for_questions`, and `Store` where the system does not open the files, or the locks are those of another.
pub fn open_for_questions<S: Start>(
    rt: &HostRuntime,
    path: &str,
    lock: &ReadLock,
    start: S,
) -> Result<Questions<FileStore<StillFrom<S>>>, QuestionsNotOpened<StillFrom<S>>>
    ensures unloaded { IfOk result (λ k. k.is_loaded ≡ false) }
    ensures open { IfOk result (λ k. IsTrue (view k.store).is_clean
        → IsTrue (view k.store).is_open) }
    ensures held { IfOk result (λ k. (c : Result ImageRows DeclaredTable)
        → MayTell view recovers c k.store → HasRead (image_at S.Start) c) }
    ensures still { IfOk result (λ k. IsTrue (view k.store).is_clean
        → IsLeftAt (image_at S.Start) (Leftover.Store k.store)) }
    ensures unharmed { IfErr result (λ e. IfSome e.left (λ left. IsCleanLeft left
        → IsLeftAt (image_at S.Start) left)) }
{
    let files = match pair_at(rt, path, lock, start) {
        Ok(files) => files,
        Err(fault) => {
            return Err(QuestionsNotOpened {
                fault,
                may_be_taken: false,
                left: None,
            });
        }
    };
    let options = match options(rt) {
        Ok(options) => options,
        Err(fault) => {
            return Err(QuestionsNotOpened {
                fault,
                may_be_taken: false,
                left: None,
            });
        }
    };
    files_for_questions(rt.alloc(), files, options)
}
