//! An image is read from the rows of a store.

ghost use Rattle.std.specs.Prelude.{◌≡◌, ◌↔◌, [], ◌∷◌, pos, map, length, IfOk, OnOk, IsTrue, false, Result, Ok, Err};
ghost use Rattle.sqlite_trees.specs.Tree.{Trees};
ghost use Rattle.sqlite.specs.State.{HasCleanDisk};
ghost use Rattle.sqlite.specs.Held.{state};
ghost use Rattle.lrs_machine.specs.Sound.{IsSound};
ghost use Rattle.lrs_machine.specs.declared.image.Image.{Image as ImageRows};
ghost use Rattle.lrs_machine.specs.declared.table.Table.{Table as DeclaredTable};
ghost use Rattle.lrs_store_tables.specs.Contents.Tables.{AreSame};
ghost use Rattle.lrs_store_tables.specs.StoredRows.{stored, version_in, LeavesStore};
ghost use Rattle.lrs_store_tables.specs.Connections.{IsReady};
ghost use Rattle.lrs_store_tables.specs.Failures.{ErrHasReason, HasFailed};
ghost use Rattle.lrs_store_tables.specs.Rows.{tables_of};
ghost use Rattle.lrs_store_tables.specs.HeldRows.{MayHold};
ghost use Rattle.lrs_store_commit.specs.UndoneChanges.{GoesBack};
ghost use Rattle.lrs_store.specs.TableKeeper.HeldImages.{AreRowsOf, HasEdits, HoldNone, FindsUnsound, IsOpenIfClean};
ghost use Rattle.lrs_store.specs.TableKeeper.Openings.{IsSecond};

use lrs_image::LoadFault;
use lrs_machine::{Image, Table};
use lrs_store_tables::all_rows::read_rows;
use lrs_store_tables::stored_rows::{ReadImage, StoredRows};
use sqlite::types::ValueRef;
use sqlite::{Alter, Connection, Error, ErrorCode, Row};
use std::alloc::Global;

/// The rows of all tables, read in a transaction of its own, which is rolled back.
fn read_in_one<S: Alter>(conn: &mut Connection<S>) -> Result<StoredRows, Error>
    requires autocommit { conn.old.in_transaction ≡ false }
    requires ready { IsReady (state S.Store conn.old) }
    ensures autocommit { conn.new.in_transaction ≡ false }
    ensures ready { OnOk result (IsReady (state S.Store conn.new)) }
    ensures back { GoesBack (state S.Store conn.old) (state S.Store conn.new) }
    ensures rows { HasCleanDisk (state S.Store conn.new) → (db : Trees)
        → (state S.Store conn.new).may_leave db → IfOk result (λ r.
        AreSame (stored db) (tables_of r)) }
    ensures cause { ErrHasReason result (state S.Store conn.old) (state S.Store conn.new) }
    ensures survives { LeavesStore (state S.Store conn.old) (state S.Store conn.new) }
{
    let mut tx = conn.transaction();
    let rows = read_rows(&mut tx);
    tx.rollback();
    rows
}

/// The same. A connection that was open before it is at rest again, whatever is answered.
pub(crate) fn read_alone<S: Alter>(conn: &mut Connection<S>) -> Result<StoredRows, Error>
    requires autocommit { conn.old.in_transaction ≡ false }
    requires ready { IsReady (state S.Store conn.old) }
    ensures autocommit { conn.new.in_transaction ≡ false }
    ensures ready { OnOk result (IsReady (state S.Store conn.new)) }
    ensures undone { IsOpenIfClean (state S.Store conn.old) → IsReady (state S.Store conn.new) }
    ensures rows { HasCleanDisk (state S.Store conn.new) → (db : Trees)
        → (state S.Store conn.new).may_leave db → IfOk result (λ r.
        AreSame (stored db) (tables_of r)) }
    ensures cause { ErrHasReason result (state S.Store conn.old) (state S.Store conn.new) }
    ensures survives { LeavesStore (state S.Store conn.old) (state S.Store conn.new) }
{
    // For the prover alone: before and afterwards the trees list the schema.
    let _ = conn.schema();
    let rows = read_in_one(conn);
    let _ = conn.schema();
    rows
}

/// Fails where the connection is shut, as a rollback that fails leaves it. A statement is prepared and not run: no
/// connection that is shut prepares one.
pub(crate) fn check_open<S: Alter>(conn: &mut Connection<S>) -> Result<(), Error>
    requires autocommit { conn.old.in_transaction ≡ false }
    requires ready { IsReady (state S.Store conn.old) }
    ensures autocommit { conn.new.in_transaction ≡ false }
    ensures ready { IsReady (state S.Store conn.new) }
    ensures open { OnOk result (IsOpenIfClean (state S.Store conn.new)) }
    ensures was_open { OnOk result (HasCleanDisk (state S.Store conn.new)
        → IsTrue (state S.Store conn.old).is_open) }
    ensures cause { ErrHasReason result (state S.Store conn.old) (state S.Store conn.new) }
    ensures survives { LeavesStore (state S.Store conn.old) (state S.Store conn.new) }
{
    conn.prepare("SELECT v FROM version")?;
    Ok(())
}

/// The rows of all tables, of a connection that is open before and after it.
fn read_open<S: Alter>(conn: &mut Connection<S>) -> Result<StoredRows, Error>
    requires autocommit { conn.old.in_transaction ≡ false }
    requires ready { IsReady (state S.Store conn.old) }
    requires open { IsOpenIfClean (state S.Store conn.old) }
    ensures autocommit { conn.new.in_transaction ≡ false }
    ensures ready { IsReady (state S.Store conn.new) }
    ensures open { OnOk result (IsOpenIfClean (state S.Store conn.new)) }
    ensures rows { HasCleanDisk (state S.Store conn.new) → (db : Trees)
        → (state S.Store conn.new).may_leave db → IfOk result (λ r.
        AreSame (stored db) (tables_of r)) }
    ensures cause { ErrHasReason result (state S.Store conn.old) (state S.Store conn.new) }
    ensures survives { LeavesStore (state S.Store conn.old) (state S.Store conn.new) }
{
    let rows = read_alone(conn)?;
    check_open(conn)?;
    Ok(rows)
}

/// The same, of any connection. Only one that is open is read, so that it is at rest again whatever is answered.
fn read_checked<S: Alter>(conn: &mut Connection<S>) -> Result<StoredRows, Error>
    requires autocommit { conn.old.in_transaction ≡ false }
    requires ready { IsReady (state S.Store conn.old) }
    ensures autocommit { conn.new.in_transaction ≡ false }
    ensures ready { IsReady (state S.Store conn.new) }
    ensures open { OnOk result (IsOpenIfClean (state S.Store conn.new)) }
    ensures rows { HasCleanDisk (state S.Store conn.new) → (db : Trees)
        → (state S.Store conn.new).may_leave db → IfOk result (λ r.
        AreSame (stored db) (tables_of r)) }
    ensures cause { ErrHasReason result (state S.Store conn.old) (state S.Store conn.new) }
    ensures survives { LeavesStore (state S.Store conn.old) (state S.Store conn.new) }
{
    match check_open(conn) {
        Ok(()) => read_open(conn),
        Err(error) => Err(error),
    }
}

/// Whether a row of the version says 2.
fn says_two(row: &Row) -> bool
    ensures { IsTrue result ↔ version_in row.now ≡ pos 2 }
{
    match row.get_ref(0) {
        Ok(ValueRef::Int(n)) => n == 2,
        _ => false,
    }
}

/// Whether the version is 2.
pub(crate) fn is_second(rows: &[Row]) -> bool
    ensures { IsTrue result ↔ map version_in rows.now ≡ pos 2 ∷ [] }
{
    match rows {
        [row] => says_two(row),
        _ => false,
    }
}

/// The image that rows of version 2 hold.
///
/// # Errors
/// `Unsound` with the first unsound table, or with that of the version where this is another; or `Memory`.
pub(crate) fn image_of<R: ReadImage>(
    reader: &R,
    alloc: Global,
    rows: StoredRows,
) -> Result<Image, LoadFault>
    ensures image { IfOk result (λ image. AreRowsOf image (tables_of rows)) }
    ensures unsound { (t : DeclaredTable) → result ≡ Err (LoadFault.Unsound t)
        → HoldNone t (tables_of rows) }
    ensures never { result ≡ Err LoadFault.Store → ⊥ }
{
    if !is_second(rows.named.version.as_slice()) {
        return Err(LoadFault::Unsound(Table::Version));
    }
    reader.read(alloc, rows)
}

/// Why rows are not read: memory ran out, or the store answered another error.
pub(crate) fn read_fault(error: Error) -> LoadFault
    ensures unnamed { (t : DeclaredTable) → result ≡ LoadFault.Unsound t → ⊥ }
    ensures memory { result ≡ LoadFault.Memory
        → error ≡ Error.SqliteFailure ErrorCode.OutOfMemory }
    ensures always { error ≡ Error.SqliteFailure ErrorCode.OutOfMemory
        → result ≡ LoadFault.Memory }
{
    match error {
        Error::SqliteFailure(ErrorCode::OutOfMemory) => LoadFault::Memory,
        _ => LoadFault::Store,
    }
}

/// The image that the tables hold. Nothing is written. The connection is at rest again, whatever is answered.
pub(crate) fn load_from<S: Alter, R: ReadImage>(
    reader: &R,
    alloc: Global,
    conn: &mut Connection<S>,
) -> Result<Image, LoadFault>
    requires autocommit { conn.old.in_transaction ≡ false }
    requires ready { IsReady (state S.Store conn.old) }
    requires second { IsSecond (state S.Store conn.old) }
    ensures autocommit { conn.new.in_transaction ≡ false }
    ensures ready { IsReady (state S.Store conn.new) }
    ensures second { IsSecond (state S.Store conn.new) }
    ensures open { OnOk result (IsOpenIfClean (state S.Store conn.new)) }
    ensures image { IfOk result (λ image. (c : Result ImageRows DeclaredTable)
        → MayHold (state S.Store conn.new) c → c ≡ Ok image) }
    ensures edits { IfOk result (λ image. HasEdits (length image.edits) (state S.Store conn.new)) }
    ensures sound { IfOk result IsSound }
    ensures unsound { (t : DeclaredTable) → result ≡ Err (LoadFault.Unsound t)
        → FindsUnsound t (state S.Store conn.new) }
    ensures failed { result ≡ Err LoadFault.Store → HasCleanDisk (state S.Store conn.new)
        → HasFailed (state S.Store conn.old) (state S.Store conn.new) }
    ensures survives { LeavesStore (state S.Store conn.old) (state S.Store conn.new) }
{
    let rows = match read_checked(conn) {
        Ok(rows) => rows,
        Err(error) => return Err(read_fault(error)),
    };
    match image_of(reader, alloc, rows) {
        Ok(image) => Ok(image),
        Err(fault) => Err(fault),
    }
}
