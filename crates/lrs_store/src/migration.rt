//! A store whose rows are not of version 2 is brought up before a keeper takes it.

ghost use Rattle.std.specs.Prelude.{◌≡◌, ◌⊎◌, IfOk, OnOk, IsTrue, false, Result, Err};
ghost use Rattle.sqlite_trees.specs.Tree.{Trees};
ghost use Rattle.sqlite.specs.State.{HasCleanDisk};
ghost use Rattle.sqlite.specs.Held.{state};
ghost use Rattle.lrs_machine.specs.declared.image.Image.{Image as ImageRows};
ghost use Rattle.lrs_machine.specs.declared.table.Table.{Table as DeclaredTable};
ghost use Rattle.lrs_store_tables.specs.StoredRows.{stored, LeavesStore};
ghost use Rattle.lrs_store_tables.specs.Connections.{IsReady};
ghost use Rattle.lrs_store_tables.specs.Failures.{ErrHasReason, HasFailed};
ghost use Rattle.lrs_store_tables.specs.HeldRows.{MayHold};
ghost use Rattle.lrs_store.specs.TableKeeper.HeldImages.{IsOpenIfClean};
ghost use Rattle.lrs_store.specs.TableKeeper.Openings.{HoldsImage, HoldsAnImage, IsSecond, IsNotSecond, HasVersions};

use crate::image::{check_open, is_second, read_alone, read_fault};
use lrs_image::LoadFault;
use lrs_machine::Image;
use lrs_store_commit::bring_up;
use lrs_store_tables::select::read_versions;
use lrs_store_tables::stored_rows::ReadImage;
use sqlite::{Alter, Connection, Error, Row};
use std::alloc::Global;

/// The rows of the version, read in a transaction of its own, which is rolled back.
fn read_versions_alone<S: Alter>(conn: &mut Connection<S>) -> Result<Vec<Row>, Error>
    requires autocommit { conn.old.in_transaction ≡ false }
    requires ready { IsReady (state S.Store conn.old) }
    ensures autocommit { conn.new.in_transaction ≡ false }
    ensures ready { OnOk result (IsReady (state S.Store conn.new)) }
    ensures rows { HasCleanDisk (state S.Store conn.new) → (db : Trees)
        → (state S.Store conn.new).may_leave db → IfOk result (λ rows.
        HasVersions rows.items (stored db)) }
    ensures cause { ErrHasReason result (state S.Store conn.old) (state S.Store conn.new) }
    ensures survives { LeavesStore (state S.Store conn.old) (state S.Store conn.new) }
{
    let mut tx = conn.transaction();
    let rows = read_versions(&mut tx);
    tx.rollback();
    rows
}

/// Whether the rows are of version 2.
fn has_second<S: Alter>(conn: &mut Connection<S>) -> Result<bool, Error>
    requires autocommit { conn.old.in_transaction ≡ false }
    requires ready { IsReady (state S.Store conn.old) }
    ensures autocommit { conn.new.in_transaction ≡ false }
    ensures ready { OnOk result (IsReady (state S.Store conn.new)) }
    ensures open { OnOk result (IsOpenIfClean (state S.Store conn.new)) }
    ensures second { IfOk result (λ is. IsTrue is → IsSecond (state S.Store conn.new)) }
    ensures other { IfOk result (λ is. is ≡ false → IsNotSecond (state S.Store conn.new)) }
    ensures cause { ErrHasReason result (state S.Store conn.old) (state S.Store conn.new) }
    ensures survives { LeavesStore (state S.Store conn.old) (state S.Store conn.new) }
{
    let rows = read_versions_alone(conn)?;
    check_open(conn)?;
    Ok(is_second(rows.as_slice()))
}

/// The image that the rows hold, of whatever version.
fn held_image<S: Alter, R: ReadImage>(
    reader: &R,
    alloc: Global,
    conn: &mut Connection<S>,
) -> Result<Image, LoadFault>
    requires autocommit { conn.old.in_transaction ≡ false }
    requires ready { IsReady (state S.Store conn.old) }
    ensures autocommit { conn.new.in_transaction ≡ false }
    ensures ready { OnOk result (IsReady (state S.Store conn.new)) }
    ensures image { IfOk result (λ image. HoldsImage (state S.Store conn.new) image) }
    ensures unsound { (t : DeclaredTable) → result ≡ Err (LoadFault.Unsound t)
        → (c : Result ImageRows DeclaredTable) → MayHold (state S.Store conn.new) c → c ≡ Err t }
    ensures failed { result ≡ Err LoadFault.Store → HasCleanDisk (state S.Store conn.new)
        → HasFailed (state S.Store conn.old) (state S.Store conn.new) }
    ensures survives { LeavesStore (state S.Store conn.old) (state S.Store conn.new) }
{
    let rows = match read_alone(conn) {
        Ok(rows) => rows,
        Err(error) => return Err(read_fault(error)),
    };
    reader.read(alloc, rows)
}

/// Writes the rows of version 2 over those that hold an image.
fn write_second<S: Alter>(conn: &mut Connection<S>, image: &Image) -> Result<(), LoadFault>
    requires autocommit { conn.old.in_transaction ≡ false }
    requires ready { IsReady (state S.Store conn.old) }
    requires image { HoldsImage (state S.Store conn.old) image.now }
    ensures autocommit { conn.new.in_transaction ≡ false }
    ensures clean { HasCleanDisk (state S.Store conn.new) → HasCleanDisk (state S.Store conn.old) }
    ensures ready { OnOk result (IsReady (state S.Store conn.new)) }
    ensures open { OnOk result (IsOpenIfClean (state S.Store conn.new)) }
    ensures second { OnOk result (IsSecond (state S.Store conn.new)) }
    ensures content { (c : Result ImageRows DeclaredTable) → MayHold (state S.Store conn.new) c
        → MayHold (state S.Store conn.old) c }
    ensures never { (t : DeclaredTable) → result ≡ Err (LoadFault.Unsound t) → ⊥ }
    ensures still { HoldsImage (state S.Store conn.new) image.now }
    ensures limit { (state S.Store conn.new).step_limit ≡ (state S.Store conn.old).step_limit }
    ensures untouched { IsSecond (state S.Store conn.old) → IsNotSecond (state S.Store conn.old)
        → LeavesStore (state S.Store conn.old) (state S.Store conn.new) }
{
    match bring_up(conn, image.assets.as_slice()) {
        Ok(()) => Ok(()),
        Err(error) => Err(read_fault(error)),
    }
}

/// The image is read that the rows hold, which are not of version 2, and they become those of version 2.
fn rewrite<S: Alter, R: ReadImage>(
    reader: &R,
    alloc: Global,
    conn: &mut Connection<S>,
) -> Result<(), LoadFault>
    requires autocommit { conn.old.in_transaction ≡ false }
    requires ready { IsReady (state S.Store conn.old) }
    requires other { IsNotSecond (state S.Store conn.old) }
    ensures autocommit { conn.new.in_transaction ≡ false }
    ensures clean { HasCleanDisk (state S.Store conn.new) → HasCleanDisk (state S.Store conn.old) }
    ensures ready { OnOk result (IsReady (state S.Store conn.new)) }
    ensures open { OnOk result (IsOpenIfClean (state S.Store conn.new)) }
    ensures second { OnOk result (IsSecond (state S.Store conn.new)) }
    ensures content { (c : Result ImageRows DeclaredTable) → MayHold (state S.Store conn.new) c
        → MayHold (state S.Store conn.old) c }
    ensures unsound { (t : DeclaredTable) → result ≡ Err (LoadFault.Unsound t)
        → (c : Result ImageRows DeclaredTable) → MayHold (state S.Store conn.new) c → c ≡ Err t }
    ensures still { (t : DeclaredTable) → result ≡ Err (LoadFault.Unsound t)
        → LeavesStore (state S.Store conn.old) (state S.Store conn.new) }
    ensures cause { result ≡ Err LoadFault.Store → HasCleanDisk (state S.Store conn.new)
        → HasFailed (state S.Store conn.old) (state S.Store conn.new)
        ⊎ HoldsAnImage (state S.Store conn.new) }
    ensures limit { (state S.Store conn.new).step_limit ≡ (state S.Store conn.old).step_limit }
    ensures untouched { IsSecond (state S.Store conn.old)
        → LeavesStore (state S.Store conn.old) (state S.Store conn.new) }
{
    match held_image(reader, alloc, conn) {
        Ok(image) => write_second(conn, &image),
        Err(fault) => Err(fault),
    }
}

/// Has the rows be of version 2, if they hold an image. Those of version 2 are not read.
pub(crate) fn make_second<S: Alter, R: ReadImage>(
    reader: &R,
    alloc: Global,
    conn: &mut Connection<S>,
) -> Result<(), LoadFault>
    requires autocommit { conn.old.in_transaction ≡ false }
    requires ready { IsReady (state S.Store conn.old) }
    ensures autocommit { conn.new.in_transaction ≡ false }
    ensures clean { HasCleanDisk (state S.Store conn.new) → HasCleanDisk (state S.Store conn.old) }
    ensures ready { OnOk result (IsReady (state S.Store conn.new)) }
    ensures open { OnOk result (IsOpenIfClean (state S.Store conn.new)) }
    ensures second { OnOk result (IsSecond (state S.Store conn.new)) }
    ensures content { (c : Result ImageRows DeclaredTable) → MayHold (state S.Store conn.new) c
        → MayHold (state S.Store conn.old) c }
    ensures unsound { (t : DeclaredTable) → result ≡ Err (LoadFault.Unsound t)
        → (c : Result ImageRows DeclaredTable) → MayHold (state S.Store conn.new) c → c ≡ Err t }
    ensures still { (t : DeclaredTable) → result ≡ Err (LoadFault.Unsound t)
        → LeavesStore (state S.Store conn.old) (state S.Store conn.new) }
    ensures failed { IsSecond (state S.Store conn.old) → result ≡ Err LoadFault.Store
        → HasCleanDisk (state S.Store conn.new)
        → HasFailed (state S.Store conn.old) (state S.Store conn.new) }
    ensures cause { result ≡ Err LoadFault.Store → HasCleanDisk (state S.Store conn.new)
        → HasFailed (state S.Store conn.old) (state S.Store conn.new)
        ⊎ HoldsAnImage (state S.Store conn.new) }
    ensures limit { (state S.Store conn.new).step_limit ≡ (state S.Store conn.old).step_limit }
    ensures untouched { IsSecond (state S.Store conn.old)
        → LeavesStore (state S.Store conn.old) (state S.Store conn.new) }
{
    match has_second(conn) {
        Ok(true) => Ok(()),
        Ok(false) => rewrite(reader, alloc, conn),
        Err(error) => Err(read_fault(error)),
    }
}
