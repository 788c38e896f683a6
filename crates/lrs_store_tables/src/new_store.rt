//! A new store: its tables and the row of its version.

ghost use Rattle.std.specs.Prelude.{◌≡◌, OnOk, IsTrue, false};
ghost use Rattle.sqlite.specs.State.{HasCleanDisk, Survives};
ghost use Rattle.sqlite.specs.Held.{state};
ghost use Rattle.lrs_store_tables.specs.Contents.Tables.{AreSame};
ghost use Rattle.lrs_store_tables.specs.StoredRows.{stored, LeavesStore};
ghost use Rattle.lrs_store_tables.specs.TableCreation.{IsBegun, no_schema};
ghost use Rattle.lrs_store_tables.specs.Failures.{ErrHasReason};
ghost use Rattle.lrs_store_tables.specs.NewStores.{new_rows, IsStarted, IsNew, NewRowsHoldNothing};

use crate::create::make_tables;
use crate::insert::put_version;
use sqlite::{Alter, Connection, Error, Transaction};

/// Makes all tables, and puts the row of the version.
fn start<S: Alter>(tx: &mut Transaction<'_, S>) -> Result<(), Error>
    ensures same_reference { tx.new.conn.ghost_name ≡ tx.old.conn.ghost_name }
    ensures started { HasCleanDisk (state S.Store tx.new.conn.now)
        → IsBegun 0 (state S.Store tx.old.conn.now)
        → OnOk result (IsStarted (state S.Store tx.new.conn.now)) }
    ensures cause { IsBegun 0 (state S.Store tx.old.conn.now) → ErrHasReason result
        (state S.Store tx.old.conn.now) (state S.Store tx.new.conn.now) }
    ensures survives { LeavesStore (state S.Store tx.old.conn.now) (state S.Store tx.new.conn.now) }
{
    make_tables(tx, 0)?;
    put_version(tx, 2)?;
    Ok(())
}

/// Makes a new store of version 2 without entries, in one transaction.
///
/// # Errors
/// When the store fails, or memory runs out. What is stored is then as it was, or a new store.
pub fn make_store<S: Alter>(conn: &mut Connection<S>) -> Result<(), Error>
    requires autocommit { conn.old.in_transaction ≡ false }
    requires blank { HasCleanDisk (state S.Store conn.old) → IsTrue (state S.Store conn.old).is_open
        → (state S.Store conn.old).now.schema ≡ no_schema }
    ensures autocommit { conn.new.in_transaction ≡ false }
    ensures made { HasCleanDisk (state S.Store conn.new)
        → OnOk result (IsNew (state S.Store conn.new)) }
    ensures cause { ErrHasReason result (state S.Store conn.old) (state S.Store conn.new) }
    ensures crash { Survives (state S.Store conn.old) (state S.Store conn.new) (λ db.
        AreSame new_rows (stored db)) }
{
    let mut tx = conn.transaction();
    start(&mut tx)?;
    tx.commit()
}

/// A new store holds the image without entries.
pub fn new_rows_hold_nothing()
    ensures { NewRowsHoldNothing }
{}
