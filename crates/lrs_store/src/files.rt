//! A keeper over a store in files: opened, and closed.

ghost use Rattle.std.specs.Prelude.{◌≡◌, ◌≢◌, ◌⊎◌, false, true, None, IfOk, IfErr, IsTrue, MatchResult};
ghost use Rattle.sqlite_std_file.specs.File.{IsFresh};
ghost use Rattle.sqlite_wal.specs.Files.{image_at};
ghost use Rattle.sqlite_wal.specs.Recovery.{Image};
ghost use Rattle.sqlite_wal.specs.Reads.{AreClean};
ghost use Rattle.sqlite.specs.State.{HasCleanDisk};
ghost use Rattle.sqlite.specs.Files.{file_state, image_of};
ghost use Rattle.sqlite.specs.Closing.{IsCopied};
ghost use Rattle.lrs_store.specs.TableKeeper.HeldImages.{IsOpenIfClean};
ghost use Rattle.lrs_store.specs.TableKeeper.Openings.{IsSecond};
ghost use Rattle.lrs_machine.specs.declared.table.Table.{Table};
ghost use Rattle.lrs_store_tables.specs.Connections.{IsReady};
ghost use Rattle.lrs_store_files.specs.FoundFiles.{HasFound};
ghost use Rattle.lrs_store_files.specs.OpenedFiles.{HasOpened};
ghost use Rattle.lrs_store.specs.Refusals.{IsRefusedFor, IsUnsoundLeft, IsSoundLeft, WasLookedAt, IsHandedOn, HoldsUnsound, HoldsNoUnsound, HoldsStill, HoldsEachRow, HoldSecond, HaveRowsOf, HaveContentOf, AreUnsound, AreGivenUpFor};

use crate::Tables;
use crate::verdict::judge;
use lrs_image::LoadFault;
use lrs_store_files::{
    CloseFault, TablesNotOpened, Untaken, close_tables, open_tables, open_tables_at,
};
use lrs_store_tables::stored_rows::ReadImage;
use lrs_store_tables::{StoreFault, TableStore};
use sqlite::{Connection, FileFrom, FileStore, Files, Leftover, Options, Start};
use sqlite_disk::Disk;
use std::alloc::Global;
use std::rt::HostRuntime;

/// Why no keeper is there, by why the tables are not opened.
fn fault_of(fault: StoreFault) -> LoadFault
    ensures memory { result ≡ LoadFault.Memory → fault ≡ StoreFault.Memory }
    ensures store { fault ≡ StoreFault.Store → result ≡ LoadFault.Store }
    ensures only { result ≡ LoadFault.Store → fault ≡ StoreFault.Store }
    ensures unnamed { (t : Table) → result ≡ LoadFault.Unsound t → ⊥ }
{
    match fault {
        StoreFault::Memory => LoadFault::Memory,
        StoreFault::Store => LoadFault::Store,
    }
}

/// What an opening that failed gives back of the files.
pub enum Left<D: Disk> {
    /// What is left of files whose tables are not taken.
    Untaken(Untaken<D>),
    /// The connection that took their tables: the rows are no keeper's.
    Opened(Connection<FileStore<D>>),
    /// Nothing: the system did not open them.
    Nothing,
}

/// Why files are not opened as a keeper, and what is left of them.
pub struct NotOpened<D: Disk> {
    pub fault: LoadFault,
    pub left: Left<D>,
}

impl<D: Disk + Drop> NotOpened<D> {
    /// Why they are not opened. What is left of them is dropped.
    pub fn into_fault(self) -> LoadFault
        ensures { result ≡ self.fault }
    {
        let NotOpened { fault, left } = self;
        match left {
            Left::Untaken(untaken) => untaken.discard(),
            Left::Opened(conn) => Untaken::Connected(conn).discard(),
            Left::Nothing => {}
        }
        fault
    }
}

/// Why no keeper is there, by what is left of the files. The kit's `sqlite` opens a store only if each row obeys its
/// table, references too; where one does not, the rows are read without a connection, and their first unsound table
/// is named.
fn judge_left<D: Disk + Drop, R: ReadImage>(
    alloc: Global,
    left: &mut Untaken<D>,
    reader: &R,
) -> LoadFault
    ensures unsound { (t : Table) → result ≡ LoadFault.Unsound t → IsUnsoundLeft t left.new }
    ensures store { result ≡ LoadFault.Store → IsSoundLeft left.new }
    ensures still { (left.new ≡ left.old) ⊎ WasLookedAt left.old left.new }
{
    match left {
        Untaken::Refused(Leftover::Store(store)) => judge(alloc, store, reader),
        Untaken::Refused(_) | Untaken::Connected(_) => LoadFault::Store,
    }
}

/// Why no keeper is there, by why the tables are not opened.
fn not_opened<D: Disk + Drop, R: ReadImage>(
    alloc: Global,
    refusal: TablesNotOpened<D>,
    reader: &R,
) -> NotOpened<D>
    ensures unsound { (t : Table) → result.fault ≡ LoadFault.Unsound t
        → HoldsUnsound t result.left }
    ensures store { result.fault ≡ LoadFault.Store → HoldsNoUnsound result.left }
    ensures was { result.fault ≡ LoadFault.Store → refusal.fault ≡ StoreFault.Store }
    ensures still { IsHandedOn refusal.left result.left }
{
    let TablesNotOpened { fault, left } = refusal;
    match (fault, left) {
        (StoreFault::Store, Some(mut left)) => {
            let fault = judge_left(alloc, &mut left, reader);
            NotOpened {
                fault,
                left: Left::Untaken(left),
            }
        }
        (StoreFault::Memory, Some(left)) => NotOpened {
            fault: LoadFault::Memory,
            left: Left::Untaken(left),
        },
        (fault, None) => NotOpened {
            fault: fault_of(fault),
            left: Left::Nothing,
        },
    }
}

/// The keeper of tables that were opened in files, or why there is none, and the connection that took them: of each
/// image that these files may have had. It stands by itself, since a call over any store is costly to prove of one in files.
fn keep<D: Disk + Drop, R: ReadImage + Drop>(
    alloc: Global,
    tables: TableStore<FileStore<D>>,
    reader: R,
) -> Result<Tables<FileStore<D>, R>, (LoadFault, Connection<FileStore<D>>)>
    requires autocommit { tables.conn.in_transaction ≡ false }
    requires ready { IsReady (file_state tables.conn) }
    requires open { HasCleanDisk (file_state tables.conn)
        → IsTrue (file_state tables.conn).is_open }
    requires unlimited { (file_state tables.conn).step_limit ≡ None }
    ensures unloaded { IfOk result (λ k. k.is_loaded ≡ false) }
    ensures usable { IfOk result (λ k. k.is_broken ≡ false) }
    ensures open { IfOk result (λ k. IsOpenIfClean (file_state k.conn)) }
    ensures second { IfOk result (λ k. IsSecond (file_state k.conn)) }
    ensures found { IfOk result (λ k. (image : Image) → HaveRowsOf image (file_state tables.conn)
        → HasCleanDisk (file_state k.conn) → HasOpened image (file_state k.conn)) }
    ensures unsound { IfErr result (λ e. (t : Table) → e.0 ≡ LoadFault.Unsound t
        → AreUnsound t (file_state e.1)) }
    ensures cause { IfErr result (λ e. e.0 ≡ LoadFault.Store → (image : Image)
        → HaveRowsOf image (file_state tables.conn) → AreGivenUpFor image (file_state e.1)) }
    ensures still { IfErr result (λ e. (image : Image) → HaveRowsOf image (file_state tables.conn)
        → HaveContentOf image (file_state e.1)) }
    ensures rows { IfErr result (λ e. (t : Table) → e.0 ≡ LoadFault.Unsound t → (image : Image)
        → HaveRowsOf image (file_state tables.conn) → HaveRowsOf image (file_state e.1)) }
    ensures untouched { (image : Image) → HoldSecond image
        → HaveRowsOf image (file_state tables.conn) → MatchResult result (λ k.
        HaveRowsOf image (file_state k.conn)) (λ e. HaveRowsOf image (file_state e.1)) }
{
    match Tables::open(alloc, tables.conn, reader) {
        Ok(keeper) => Ok(keeper),
        Err((fault, conn)) => Err((fault, conn)),
    }
}

/// Opens the keeper of the inventory in these files, or of a new one where they hold none. Nothing is loaded yet.
///
/// # Errors
/// `Store` if a file fails or the files hold no store of an inventory, `Unsound` with the first unsound table of
/// rows that break a rule of their tables or are not of version 2, and `Memory` if memory runs out. The files are
/// given back in what is left, and hold what they held.
pub fn open_files<D: Disk + Drop, R: ReadImage + Drop>(
    alloc: Global,
    files: Files<D>,
    options: Options,
    reader: R,
) -> Result<Tables<FileStore<D>, R>, NotOpened<D>>
    requires log { IsTrue (D.Disk.is_usable files.log) }
    requires db { IsTrue (D.Disk.is_usable files.db) }
    ensures unloaded { IfOk result (λ k. k.is_loaded ≡ false) }
    ensures usable { IfOk result (λ k. k.is_broken ≡ false) }
    ensures open { IfOk result (λ k. IsOpenIfClean (file_state k.conn)) }
    ensures second { IfOk result (λ k. IsSecond (file_state k.conn)) }
    ensures found { IfOk result (λ k. HasCleanDisk (file_state k.conn)
        → HasOpened (image_of D.Disk files) (file_state k.conn)) }
    ensures unsound { IfErr result (λ e. (t : Table) → e.fault ≡ LoadFault.Unsound t
        → HoldsUnsound t e.left) }
    ensures store { IfErr result (λ e. e.fault ≡ LoadFault.Store → HoldsNoUnsound e.left) }
    ensures cause { IfErr result (λ e. e.fault ≡ LoadFault.Store
        → IsRefusedFor (image_of D.Disk files) e.left) }
    ensures still { IfErr result (λ e. HoldsStill (image_of D.Disk files) (λ given.
        given ≡ files) e.left) }
    ensures rows { IfErr result (λ e. (t : Table) → e.fault ≡ LoadFault.Unsound t
        → HoldsEachRow (image_of D.Disk files) (λ given. given ≡ files) e.left) }
    ensures untouched { HoldSecond (image_of D.Disk files) → MatchResult result (λ k.
        HasCleanDisk (file_state k.conn) → HasFound (image_of D.Disk files) (file_state k.conn)) (λ e.
        HoldsEachRow (image_of D.Disk files) (λ given. given ≡ files) e.left) }
    ensures left { IfErr result (λ e. e.left ≢ Left.Nothing) }
{
    let tables = match open_tables(alloc, files, options) {
        Ok(tables) => tables,
        Err(refusal) => return Err(not_opened(alloc, refusal, &reader)),
    };
    match keep(alloc, tables, reader) {
        Ok(keeper) => Ok(keeper),
        Err((fault, conn)) => Err(NotOpened {
            fault,
            left: Left::Opened(conn),
        }),
    }
}

/// Opens the keeper of the inventory in the file at a path, or of a new one where there is none. `new_has_sums` says
/// whether a new file gets sums of its pages, by which an opening tells damage; a file that is there goes on as it was
/// made. `start` stands for what the files hold. Nothing is loaded yet.
///
/// # Errors
/// `Store` if a file fails, another program has it, it holds no store of an inventory, or it is lost beside a log with
/// commits, `Unsound` with the first
/// unsound table of rows that break a rule of their tables or are not of version 2, and `Memory` if memory runs out.
/// What is left of the files holds what they held.
pub fn open_file<S: Start, R: ReadImage + Drop>(
    rt: &HostRuntime,
    path: &str,
    new_has_sums: bool,
    start: S,
    reader: R,
) -> Result<Tables<FileStore<FileFrom<S>>, R>, NotOpened<FileFrom<S>>>
    ensures unloaded { IfOk result (λ k. k.is_loaded ≡ false) }
    ensures usable { IfOk result (λ k. k.is_broken ≡ false) }
    ensures open { IfOk result (λ k. IsOpenIfClean (file_state k.conn)) }
    ensures second { IfOk result (λ k. IsSecond (file_state k.conn)) }
    ensures found { IfOk result (λ k. HasCleanDisk (file_state k.conn)
        → HasOpened (image_at S.Start) (file_state k.conn)) }
    ensures unsound { IfErr result (λ e. (t : Table) → e.fault ≡ LoadFault.Unsound t
        → HoldsUnsound t e.left) }
    ensures store { IfErr result (λ e. e.fault ≡ LoadFault.Store → HoldsNoUnsound e.left) }
    ensures cause { IfErr result (λ e. e.fault ≡ LoadFault.Store
        → IsRefusedFor (image_at S.Start) e.left) }
    ensures still { IfErr result (λ e. HoldsStill (image_at S.Start) (λ files.
        IsFresh true files.log × IsFresh false files.db) e.left) }
    ensures rows { IfErr result (λ e. (t : Table) → e.fault ≡ LoadFault.Unsound t
        → HoldsEachRow (image_at S.Start) (λ files. IsFresh true files.log × IsFresh false files.db) e.left) }
    ensures untouched { HoldSecond (image_at S.Start) → MatchResult result (λ k.
        HasCleanDisk (file_state k.conn) → HasFound (image_at S.Start) (file_state k.conn)) (λ e.
        HoldsEachRow (image_at S.Start) (λ files. IsFresh true files.log × IsFresh false files.db) e.left) }
{
    let tables = match open_tables_at(rt, path, new_has_sums, start) {
        Ok(tables) => tables,
        Err(refusal) => return Err(not_opened(rt.alloc(), refusal, &reader)),
    };
    match keep(rt.alloc(), tables, reader) {
        Ok(keeper) => Ok(keeper),
        Err((fault, conn)) => Err(NotOpened {
            fault,
            left: Left::Opened(conn),
        }),
    }
}

/// The connection of a keeper. It stands by itself, as `keep` does.
fn connection_of<D: Disk + Drop, R: ReadImage + Drop>(
    keeper: Tables<FileStore<D>, R>,
) -> Connection<FileStore<D>>
    ensures { result ≡ keeper.conn }
{
    keeper.into_connection()
}

/// Closes a keeper and gives its files back. What was committed last is in the database file, and the log says
/// nothing any more.
///
/// # Errors
/// When memory runs out, or the store fails. The log then has what the database lacks.
pub fn close_files<D: Disk + Drop, R: ReadImage + Drop>(
    keeper: Tables<FileStore<D>, R>,
) -> Result<Files<D>, CloseFault>
    ensures usable { IfOk result (λ files. IsTrue (D.Disk.is_usable files.log)
        × IsTrue (D.Disk.is_usable files.db)) }
    ensures copied { IfOk result (λ files. AreClean D.Disk files.log files.db
        → IsCopied keeper.conn files) }
{
    close_tables(TableStore {
        conn: connection_of(keeper),
    })
}

/// Lets a keeper go, which is not closed: what was committed last may be in the log alone, where the next opening finds
/// it.
pub fn discard_files<D: Disk + Drop, R: ReadImage + Drop>(keeper: Tables<FileStore<D>, R>) {
    Untaken::Connected(connection_of(keeper)).discard();
}
