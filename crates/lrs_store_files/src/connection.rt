//! A connection becomes a store of tables: those that are missing are made, and no row changes.

ghost use Rattle.std.specs.Prelude.{◌≡◌, ◌<◌, OnOk, IfOk, IfErr, IsErrAnd, IsTrue, false};
ghost use Rattle.sqlite.specs.State.{HasCleanDisk, Survives};
ghost use Rattle.sqlite.specs.Held.{state};
ghost use Rattle.lrs_store_tables.specs.Contents.Tables.{AreSame};
ghost use Rattle.lrs_store_tables.specs.Schema.{inventory};
ghost use Rattle.lrs_store_tables.specs.StoredRows.{stored};
ghost use Rattle.lrs_store_tables.specs.TableCreation.{no_schema, first_tables, first_rows};
ghost use Rattle.lrs_store_tables.specs.Connections.{IsReady};
ghost use Rattle.lrs_store_tables.specs.Failures.{HasFailed, ErrHasReason};
ghost use Rattle.lrs_store_files.specs.Openings.{IsKnown, IsTaken, IsFound, LeavesFound, IsGrown};

use crate::table_list::{Known, wanted, which};
use lrs_store_tables::{StoreFault, TABLES, TableStore, make_store, make_tables};
use sqlite::{Alter, Connection, Error, ErrorCode};
use std::alloc::Global;

/// Makes the tables that a store lacks behind its first ones, in one transaction.
///
/// # Errors
/// When the store fails, or memory runs out. The rows are as they were.
pub fn grow<S: Alter>(conn: &mut Connection<S>, first: usize) -> Result<(), Error>
    requires autocommit { conn.old.in_transaction ≡ false }
    requires few { first < 12 }
    requires first { HasCleanDisk (state S.Store conn.old) → IsTrue (state S.Store conn.old).is_open
        → (state S.Store conn.old).now.schema ≡ first_tables first }
    ensures autocommit { conn.new.in_transaction ≡ false }
    ensures grown { HasCleanDisk (state S.Store conn.new)
        → OnOk result (IsGrown first (state S.Store conn.old) (state S.Store conn.new)) }
    ensures cause { ErrHasReason result (state S.Store conn.old) (state S.Store conn.new) }
    ensures survives { Survives (state S.Store conn.old) (state S.Store conn.new) (λ db.
        AreSame (first_rows first (stored (state S.Store conn.old).now.trees)) (stored db)) }
{
    let mut tx = conn.transaction();
    make_tables(&mut tx, first)?;
    tx.commit()
}

/// Why a store is not opened, by what its connection answered.
pub fn fault_of(error: Error) -> StoreFault
    ensures memory { error ≡ Error.SqliteFailure ErrorCode.OutOfMemory → result ≡ StoreFault.Memory }
    ensures only { result ≡ StoreFault.Memory → error ≡ Error.SqliteFailure ErrorCode.OutOfMemory }
{
    match error {
        Error::SqliteFailure(ErrorCode::OutOfMemory) => StoreFault::Memory,
        _ => StoreFault::Store,
    }
}

fn kept<S: Alter>(conn: Connection<S>) -> TableStore<S>
    requires autocommit { conn.in_transaction ≡ false }
    requires found { IsFound (state S.Store conn) }
    requires all { (state S.Store conn).now.schema ≡ inventory }
    ensures same { result.conn ≡ conn }
    ensures ready { IsReady (state S.Store result.conn) }
    ensures open { HasCleanDisk (state S.Store result.conn)
        → IsTrue (state S.Store result.conn).is_open }
    ensures limit { (state S.Store result.conn).step_limit ≡ (state S.Store conn).step_limit }
    ensures rows { IsTaken (state S.Store conn) (state S.Store result.conn) }
{
    // For the prover alone: what its contract says is known from here on.
    let _live = conn.schema();
    TableStore { conn }
}

/// A connection as it was opened, or whose tables were to be made: why they are not taken, and what an opening finds.
type NotTaken<S> = (StoreFault, Connection<S>);

fn made<S: Alter>(mut conn: Connection<S>) -> Result<TableStore<S>, NotTaken<S>>
    requires autocommit { conn.in_transaction ≡ false }
    requires found { IsFound (state S.Store conn) }
    requires nothing { (state S.Store conn).now.schema ≡ no_schema }
    ensures autocommit { IfOk result (λ t. t.conn.in_transaction ≡ false) }
    ensures clean { IfOk result (λ t. HasCleanDisk (state S.Store t.conn)
        → HasCleanDisk (state S.Store conn)) }
    ensures ready { IfOk result (λ t. IsReady (state S.Store t.conn)) }
    ensures open { IfOk result (λ t. HasCleanDisk (state S.Store t.conn)
        → IsTrue (state S.Store t.conn).is_open) }
    ensures limit { IfOk result (λ t. (state S.Store t.conn).step_limit
        ≡ (state S.Store conn).step_limit) }
    ensures rows { IfOk result (λ t. IsTaken (state S.Store conn) (state S.Store t.conn)) }
    ensures failed { IfErr result (λ e. e.0 ≡ StoreFault.Store → HasCleanDisk (state S.Store e.1)
        → HasFailed (state S.Store conn) (state S.Store e.1)) }
    ensures left { IfErr result (λ e. LeavesFound (state S.Store conn) (state S.Store e.1)) }
{
    match make_store(&mut conn) {
        Ok(()) => Ok(TableStore { conn }),
        Err(error) => Err((fault_of(error), conn)),
    }
}

fn grown<S: Alter>(mut conn: Connection<S>, first: usize) -> Result<TableStore<S>, NotTaken<S>>
    requires autocommit { conn.in_transaction ≡ false }
    requires found { IsFound (state S.Store conn) }
    requires some { 0 < first }
    requires few { first < 12 }
    requires first { (state S.Store conn).now.schema ≡ first_tables first }
    ensures autocommit { IfOk result (λ t. t.conn.in_transaction ≡ false) }
    ensures clean { IfOk result (λ t. HasCleanDisk (state S.Store t.conn)
        → HasCleanDisk (state S.Store conn)) }
    ensures ready { IfOk result (λ t. IsReady (state S.Store t.conn)) }
    ensures open { IfOk result (λ t. HasCleanDisk (state S.Store t.conn)
        → IsTrue (state S.Store t.conn).is_open) }
    ensures limit { IfOk result (λ t. (state S.Store t.conn).step_limit
        ≡ (state S.Store conn).step_limit) }
    ensures rows { IfOk result (λ t. IsTaken (state S.Store conn) (state S.Store t.conn)) }
    ensures failed { IfErr result (λ e. e.0 ≡ StoreFault.Store → HasCleanDisk (state S.Store e.1)
        → HasFailed (state S.Store conn) (state S.Store e.1)) }
    ensures left { IfErr result (λ e. LeavesFound (state S.Store conn) (state S.Store e.1)) }
{
    match grow(&mut conn, first) {
        Ok(()) => {
            // For the prover alone: what its contract says is known from here on.
            let _live = conn.schema();
            Ok(TableStore { conn })
        }
        Err(error) => Err((fault_of(error), conn)),
    }
}

/// A connection as it was opened.
fn unchanged<S: Alter>(fault: StoreFault, conn: Connection<S>) -> NotTaken<S>
    requires found { IsFound (state S.Store conn) }
    ensures same { result.1 ≡ conn }
    ensures fault { result.0 ≡ fault }
    ensures left { LeavesFound (state S.Store conn) (state S.Store result.1) }
{
    (fault, conn)
}

/// The tables of a connection that was just opened. Where there is none, they are made in one transaction, with the
/// row of the version; where the first of them are, the others are made, without a row.
///
/// # Errors
/// When memory runs out, the store fails, or it has other tables: it is then as it was.
pub fn over<S: Alter>(alloc: Global, conn: Connection<S>) -> Result<TableStore<S>, NotTaken<S>>
    requires autocommit { conn.in_transaction ≡ false }
    requires found { IsFound (state S.Store conn) }
    ensures autocommit { IfOk result (λ t. t.conn.in_transaction ≡ false) }
    ensures clean { IfOk result (λ t. HasCleanDisk (state S.Store t.conn)
        → HasCleanDisk (state S.Store conn)) }
    ensures ready { IfOk result (λ t. IsReady (state S.Store t.conn)) }
    ensures open { IfOk result (λ t. HasCleanDisk (state S.Store t.conn)
        → IsTrue (state S.Store t.conn).is_open) }
    ensures limit { IfOk result (λ t. (state S.Store t.conn).step_limit
        ≡ (state S.Store conn).step_limit) }
    ensures rows { IfOk result (λ t. IsTaken (state S.Store conn) (state S.Store t.conn)) }
    ensures same { (state S.Store conn).now.schema ≡ inventory → IfOk result (λ t. t.conn ≡ conn) }
    ensures other { (IsKnown (state S.Store conn).now.schema → ⊥) → IsErrAnd result (λ e. e.1 ≡ conn) }
    ensures failed { IsKnown (state S.Store conn).now.schema → IfErr result (λ e.
        e.0 ≡ StoreFault.Store → HasCleanDisk (state S.Store e.1)
        → HasFailed (state S.Store conn) (state S.Store e.1)) }
    ensures left { IfErr result (λ e. LeavesFound (state S.Store conn) (state S.Store e.1)) }
{
    let Ok(wanted) = wanted(alloc) else {
        return Err(unchanged(StoreFault::Memory, conn));
    };
    match which(conn.schema(), &wanted) {
        Known::First(0) => made(conn),
        Known::First(TABLES) => Ok(kept(conn)),
        Known::First(first) => grown(conn, first),
        Known::Other => Err(unchanged(StoreFault::Store, conn)),
    }
}
