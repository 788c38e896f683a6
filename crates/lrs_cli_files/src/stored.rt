//! Inventories in files of the system.

ghost use Rattle.std.specs.Prelude.{◌≡◌, IfErr, IfOk};
ghost use Rattle.sqlite_wal.specs.Files.{image_at};
ghost use Rattle.lrs_store_files.specs.OpenedFiles.{IsContentOf};
ghost use Rattle.lrs_store.specs.Reopenings.{MayFind};
ghost use Rattle.lrs_store_questions.specs.FileAnswers.{HasRead};

use crate::keeper::{FileKeeper, FileTables};
use crate::place::Place;
use crate::questions::FileQuestions;
use lrs_desk::{Files, OpenFault, Staged};
use lrs_store::{Tables, closed_files, discard_files, let_files_go, open_file};
use lrs_store_image::Reader;
use lrs_store_questions::{ReadLock, StillFrom, open_for_questions};
use lrs_store_tables::StoreFault;
use sqlite::{Alter, FileFrom, FileStore, Start};
use sqlite_disk::Disk;
use std::io::ErrorKind;
use std::mem;
use std::rt::HostRuntime;

/// The tables of a keeper.
fn tables_of<A: Alter>(keeper: FileKeeper<A>) -> Tables<A, Reader>
    ensures { result ≡ keeper.inner.batches.tables }
{
    let FileKeeper { inner } = keeper;
    let FileTables { tables, place: _ } = inner.into_inner();
    tables
}

/// The keeper of tables whose files stand at a path. Where memory runs out, they are let go.
fn keep_at<D: Disk + Drop>(
    rt: &HostRuntime,
    path: &str,
    tables: Tables<FileStore<D>, Reader>,
) -> Result<FileKeeper<FileStore<D>>, OpenFault>
    ensures kept { IfOk result (λ k. k.inner.batches.tables ≡ tables) }
    ensures fault { IfErr result (λ e. e ≡ OpenFault.Memory) }
{
    match Place::at(rt, path) {
        Ok(place) => Ok(FileKeeper {
            inner: Staged::over(FileTables { tables, place }, rt.alloc()),
        }),
        Err(fault) => {
            discard_files(tables);
            Err(fault)
        }
    }
}

/// Opens a file and its log at a path of the system. `S` stands for what they hold when they are opened for all work, and
/// `T` when they are opened for questions: each is used once, and what is proved holds for every such content. It has the
/// files that were closed.
#[derive(Drop)]
pub struct StoredFiles<S: Start, T: Start> {
    start: Option<S>,
    seen: Option<T>,
    /// Whether it was looked at, and is no file that an opening for all work takes. So none is tried, which makes a log.
    is_refused: bool,
    closed: Option<sqlite::Files<FileFrom<S>>>,
}

impl<S: Start, T: Start> StoredFiles<S, T> {
    /// Files that have not been opened.
    pub fn new(start: S, seen: T) -> StoredFiles<S, T> {
        StoredFiles {
            start: Some(start),
            seen: Some(seen),
            is_refused: false,
            closed: None,
        }
    }
}

impl<S: Start, T: Start> Files for StoredFiles<S, T> {
    type Kept = FileKeeper<FileStore<FileFrom<S>>>;

    type Seen = FileQuestions<FileStore<StillFrom<T>>>;

    ghost has_opened = { IsContentOf (image_at S.Start) };

    ghost has_read = { HasRead (image_at T.Start) };

    ghost may_find = { λ files c. MayFind ⟦<FileFrom<S> as Disk>⟧ files.closed c };

    fn open(
        &mut self,
        rt: &HostRuntime,
        path: &str,
        new_has_sums: bool,
    ) -> Result<Self::Kept, OpenFault> {
        if self.is_refused {
            return Err(OpenFault::Keep);
        }
        let Some(start) = self.start.take() else {
            return Err(OpenFault::Keep);
        };
        match open_file(rt, path, new_has_sums, start, Reader) {
            Ok(tables) => keep_at(rt, path, tables),
            Err(refusal) => Err(OpenFault::from(refusal.into_fault())),
        }
    }

    fn open_to_look(
        &mut self,
        rt: &HostRuntime,
        path: &str,
    ) -> Result<Option<Self::Seen>, OpenFault> {
        let Some(seen) = self.seen.take() else {
            return Ok(None);
        };
        let lock = match ReadLock::take(rt, path) {
            Ok(lock) => lock,
            Err(error) if error.kind() == ErrorKind::OutOfMemory => return Err(OpenFault::Memory),
            Err(_) => {
                self.is_refused = true;
                return Ok(None);
            }
        };
        match open_for_questions(rt, path, &lock, seen) {
            Ok(inner) => Ok(Some(FileQuestions {
                inner,
                lock: Some(lock),
            })),
            Err(refusal) => {
                // what was read while a program of SQLite's wrote the files says nothing of them
                self.is_refused = !refusal.may_be_taken && lock.holds_still();
                match refusal.into_fault() {
                    StoreFault::Memory => Err(OpenFault::Memory),
                    StoreFault::Store => Ok(None),
                }
            }
        }
    }

    fn close(&mut self, keeper: Self::Kept) {
        let closed = closed_files(tables_of(keeper));
        let_files_go(mem::replace(&mut self.closed, closed));
    }

    fn discard(keeper: Self::Kept) {
        discard_files(tables_of(keeper));
    }

    fn discard_seen(keeper: Self::Seen) {
        keeper.discard();
    }
}
