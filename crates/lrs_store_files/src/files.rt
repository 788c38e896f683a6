//! Stores of tables in files.

ghost use Rattle.std.specs.Prelude.{◌≡◌, None, Some, MatchOption, IfOk, IfErr, IfSome, IsSomeAnd, IsTrue, true, false};
ghost use Rattle.sqlite_wal.specs.Reads.{AreClean};
ghost use Rattle.sqlite_wal.specs.Files.{image_at};
ghost use Rattle.sqlite_std_file.specs.File.{IsFresh};
ghost use Rattle.sqlite.specs.State.{HasCleanDisk};
ghost use Rattle.sqlite_store.specs.FileStore.{view};
ghost use Rattle.sqlite.specs.Held.{IsNew};
ghost use Rattle.sqlite.specs.Start.{FindsIn};
ghost use Rattle.sqlite.specs.Files.{file_state, image_of, IsOpened, IsBlankAs};
ghost use Rattle.sqlite_wal.specs.Recovery.{Image};
ghost use Rattle.sqlite.specs.Closing.{IsCopied};
ghost use Rattle.lrs_store_tables.specs.Connections.{IsReady};
ghost use Rattle.lrs_store_files.specs.Openings.{IsFound};
ghost use Rattle.lrs_store_files.specs.FoundFiles.{HasFound, IsLeftOf, WasRead, LeavesRead};
ghost use Rattle.lrs_store_files.specs.Refusals.{HasGrounds, HasFailedOn};

use crate::connection::{fault_of, over};
use crate::lost::refuse_lost;
use lrs_store_tables::{StoreFault, TableStore};
use sqlite::{Connection, Error, ErrorCode, FileFrom, FileStore, Files, Leftover, Options, Start};
use sqlite_disk::Disk;
use std::alloc::Global;
use std::rt::HostRuntime;

/// What is left of files whose tables are not taken.
#[derive(Drop)]
pub enum Untaken<D: Disk> {
    /// What the kit's `sqlite` gave back, which refused them.
    Refused(Leftover<D>),
    /// The connection that opened them: their tables are no inventory's, memory ran out, or tables were to be made.
    Connected(Connection<FileStore<D>>),
}

impl<D: Disk + Drop> Untaken<D> {
    /// Drops what is left.
    pub fn discard(self) {
        drop(self);
    }
}

/// Why the store in files is not opened, and what is left of them: nothing where the system did not open them.
#[derive(Drop)]
pub struct TablesNotOpened<D: Disk> {
    pub fault: StoreFault,
    pub left: Option<Untaken<D>>,
}

/// The tables of a connection that was just opened over files, or why they are not taken: of each image that these files
/// may have had. It stands by itself, since a call over any store is costly to prove of one in files.
fn taken<D: Disk + Drop>(
    alloc: Global,
    conn: Connection<FileStore<D>>,
) -> Result<TableStore<FileStore<D>>, (StoreFault, Connection<FileStore<D>>)>
    requires fresh { IsNew conn }
    requires opened { HasCleanDisk (file_state conn) → IsOpened conn }
    requires found { IsFound (file_state conn) }
    ensures autocommit { IfOk result (λ t. t.conn.in_transaction ≡ false) }
    ensures ready { IfOk result (λ t. IsReady (file_state t.conn)) }
    ensures open { IfOk result (λ t. HasCleanDisk (file_state t.conn)
        → IsTrue (file_state t.conn).is_open) }
    ensures unlimited { IfOk result (λ t. (file_state t.conn).step_limit ≡ None) }
    ensures found { IfOk result (λ t. (image : Image) → WasRead image (file_state conn)
        → HasCleanDisk (file_state t.conn) → HasFound image (file_state t.conn)) }
    ensures cause { IfErr result (λ e. e.0 ≡ StoreFault.Store → (image : Image)
        → WasRead image (file_state conn) → HasFailedOn image (file_state e.1)) }
    ensures left { IfErr result (λ e. (image : Image) → WasRead image (file_state conn)
        → LeavesRead image (file_state e.1)) }
{
    match over(alloc, conn) {
        Ok(tables) => Ok(tables),
        Err((fault, conn)) => Err((fault, conn)),
    }
}

/// Opens the store in these files, or makes one where they hold none.
///
/// # Errors
/// When memory runs out, a file fails, or the files hold no store of an inventory: they are then as they were.
pub fn open_tables<D: Disk + Drop>(
    alloc: Global,
    files: Files<D>,
    options: Options,
) -> Result<TableStore<FileStore<D>>, TablesNotOpened<D>>
    requires log { IsTrue (D.Disk.is_usable files.log) }
    requires db { IsTrue (D.Disk.is_usable files.db) }
    ensures autocommit { IfOk result (λ t. t.conn.in_transaction ≡ false) }
    ensures ready { IfOk result (λ t. IsReady (file_state t.conn)) }
    ensures open { IfOk result (λ t. HasCleanDisk (file_state t.conn)
        → IsTrue (file_state t.conn).is_open) }
    ensures unlimited { IfOk result (λ t. (file_state t.conn).step_limit ≡ None) }
    ensures found { IfOk result (λ t. HasCleanDisk (file_state t.conn)
        → HasFound (image_of D.Disk files) (file_state t.conn)) }
    ensures cause { IfErr result (λ e. e.fault ≡ StoreFault.Store
        → IfSome e.left (HasGrounds (image_of D.Disk files))) }
    ensures left { IfErr result (λ e. IsSomeAnd e.left
        (IsLeftOf (image_of D.Disk files) (λ given. given ≡ files))) }
{
    match Connection::open_files(alloc, files, options) {
        Ok(conn) => match taken(alloc, conn) {
            Ok(tables) => Ok(tables),
            Err((fault, conn)) => Err(TablesNotOpened {
                fault,
                left: Some(Untaken::Connected(conn)),
            }),
        },
        Err((error, left)) => Err(TablesNotOpened {
            fault: fault_of(error),
            left: Some(Untaken::Refused(left)),
        }),
    }
}

/// What the kit's opening of a path left, if it opened the files.
fn refused<D: Disk + Drop>(left: Option<Leftover<D>>) -> Option<Untaken<D>>
    ensures { MatchOption left (result ≡ None) (λ l. result ≡ Some (Untaken.Refused l)) }
{
    match left {
        Some(left) => Some(Untaken::Refused(left)),
        None => None,
    }
}

/// Opens the files at a path. `new_has_sums` says whether each page of a file that is made ends in a sum of its bytes,
/// which an opening tests; a file that is there goes on as it was made.
fn connect_at<S: Start>(
    rt: &HostRuntime,
    path: &str,
    new_has_sums: bool,
    start: S,
) -> Result<Connection<FileStore<FileFrom<S>>>, TablesNotOpened<FileFrom<S>>>
    ensures fresh { IfOk result IsNew }
    ensures opened { IfOk result (λ c. HasCleanDisk (file_state c) → IsOpened c) }
    ensures found { IfOk result (λ c. HasCleanDisk (file_state c)
        → FindsIn (image_at S.Start) (file_state c)) }
    ensures sums { IfOk result (λ c. HasCleanDisk (file_state c)
        → IsBlankAs new_has_sums (image_at S.Start)
        → (view c.store).has_sums ≡ new_has_sums) }
    ensures cause { IfErr result (λ e. e.fault ≡ StoreFault.Store
        → IfSome e.left (HasGrounds (image_at S.Start))) }
    ensures left { IfErr result (λ e. IfSome e.left
        (IsLeftOf (image_at S.Start) (λ files. IsFresh true files.log × IsFresh false files.db))) }
{
    match Connection::open_from(rt, path, new_has_sums, start) {
        Ok(conn) => Ok(conn),
        Err((error, left)) => Err(TablesNotOpened {
            fault: fault_of(error),
            left: refused(left),
        }),
    }
}

/// Opens the store at a path, or makes one where there is none. `start` stands for what the files hold.
/// `new_has_sums` says whether each page of a file that is made ends in a sum of its bytes, which an opening tests; a
/// file that is there goes on as it was made.
///
/// # Errors
/// When memory runs out, a file fails, another program has it, it holds no store of an inventory, or it is missing or
/// empty beside a log with commits: the files are then as they were.
pub fn open_tables_at<S: Start>(
    rt: &HostRuntime,
    path: &str,
    new_has_sums: bool,
    start: S,
) -> Result<TableStore<FileStore<FileFrom<S>>>, TablesNotOpened<FileFrom<S>>>
    ensures autocommit { IfOk result (λ t. t.conn.in_transaction ≡ false) }
    ensures ready { IfOk result (λ t. IsReady (file_state t.conn)) }
    ensures open { IfOk result (λ t. HasCleanDisk (file_state t.conn)
        → IsTrue (file_state t.conn).is_open) }
    ensures unlimited { IfOk result (λ t. (file_state t.conn).step_limit ≡ None) }
    ensures found { IfOk result (λ t. HasCleanDisk (file_state t.conn)
        → HasFound (image_at S.Start) (file_state t.conn)) }
    ensures cause { IfErr result (λ e. e.fault ≡ StoreFault.Store
        → IfSome e.left (HasGrounds (image_at S.Start))) }
    ensures left { IfErr result (λ e. IfSome e.left
        (IsLeftOf (image_at S.Start) (λ files. IsFresh true files.log × IsFresh false files.db))) }
{
    if let Err(fault) = refuse_lost(rt, path) {
        return Err(TablesNotOpened { fault, left: None });
    }
    let conn = connect_at(rt, path, new_has_sums, start)?;
    match taken(rt.alloc(), conn) {
        Ok(tables) => Ok(tables),
        Err((fault, conn)) => Err(TablesNotOpened {
            fault,
            left: Some(Untaken::Connected(conn)),
        }),
    }
}

/// Why a store is not closed.
#[derive(Clone, Copy, PartialEq, Eq)]
pub enum CloseFault {
    /// There is too little memory.
    Memory,
    /// The store failed.
    Store,
}

fn close_fault_of(error: Error) -> CloseFault
    ensures memory { error ≡ Error.SqliteFailure ErrorCode.OutOfMemory
        → result ≡ CloseFault.Memory }
    ensures only { result ≡ CloseFault.Memory → error ≡ Error.SqliteFailure ErrorCode.OutOfMemory }
{
    match error {
        Error::SqliteFailure(ErrorCode::OutOfMemory) => CloseFault::Memory,
        _ => CloseFault::Store,
    }
}

/// Closes a store and gives its files back. What was committed last is in the database file.
///
/// # Errors
/// When memory runs out, or the store fails.
pub fn close_tables<D: Disk + Drop>(
    tables: TableStore<FileStore<D>>,
) -> Result<Files<D>, CloseFault>
    ensures usable { IfOk result (λ files. IsTrue (D.Disk.is_usable files.log)
        × IsTrue (D.Disk.is_usable files.db)) }
    ensures copied { IfOk result (λ files. AreClean D.Disk files.log files.db
        → IsCopied tables.conn files) }
{
    match tables.conn.close_files() {
        Ok(files) => Ok(files),
        Err((error, store)) => {
            drop(store.close());
            Err(close_fault_of(error))
        }
    }
}
