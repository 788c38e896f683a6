//! Changes are committed to the tables of a store as its next edits.

ghost use Rattle.std.specs.Prelude.{◌≡◌, ◌+◌, ◌<◌, ◌^◌, ◌⊎◌, length, IfOk, OnOk, Result, Err, false};
ghost use Rattle.sqlite.specs.Held.{state};
ghost use Rattle.lrs_machine.specs.declared.image.Image.{Image};
ghost use Rattle.lrs_machine.specs.declared.table.Table.{Table};
ghost use Rattle.lrs_image.specs.ChangeLists.{CanMakeAll, IsChangedBy};
ghost use Rattle.lrs_store_tables.specs.Connections.{IsReady};
ghost use Rattle.lrs_store_tables.specs.StoredRows.{LeavesStore};
ghost use Rattle.lrs_store_tables.specs.HeldRows.{MayHold};
ghost use Rattle.lrs_store.specs.TableKeeper.HeldImages.{HasEdits, IsOpenIfClean, IsStillOpen, IsAsBefore};
ghost use Rattle.lrs_store.specs.TableKeeper.Openings.{IsSecond};

use crate::image::check_open;
use lrs_image::{Change, CommitFault};
use lrs_store_commit::texts::prove_all_texts;
use lrs_store_commit::write_changes;
use sqlite::{Alter, Connection, Error, ErrorCode};

/// Why changes were not written: memory ran out and the store is open all the same, or the store failed.
fn fault_of<S: Alter>(conn: &mut Connection<S>, error: Error) -> CommitFault
    requires autocommit { conn.old.in_transaction ≡ false }
    requires ready { IsReady (state S.Store conn.old) }
    ensures autocommit { conn.new.in_transaction ≡ false }
    ensures memory { result ≡ CommitFault.Memory
        → IsStillOpen (state S.Store conn.old) (state S.Store conn.new) }
    ensures survives { LeavesStore (state S.Store conn.old) (state S.Store conn.new) }
{
    match error {
        Error::SqliteFailure(ErrorCode::OutOfMemory) => match check_open(conn) {
            Ok(()) => CommitFault::Memory,
            Err(_) => CommitFault::Store,
        },
        _ => CommitFault::Store,
    }
}

/// Writes changes, of which the first is the edit of this number.
fn write_as<S: Alter>(
    conn: &mut Connection<S>,
    n: u64,
    edits: u64,
    changes: &[Change],
) -> Result<(), CommitFault>
    requires autocommit { conn.old.in_transaction ≡ false }
    requires ready { IsReady (state S.Store conn.old) }
    requires open { IsOpenIfClean (state S.Store conn.old) }
    requires next { n ≡ edits + 1 }
    requires some { 0 < length changes.now }
    requires fits { n + length changes.now < 2 ^ 64 }
    requires edits { HasEdits edits (state S.Store conn.old) }
    requires can { (c : Result Image Table) → MayHold (state S.Store conn.old) c
        → IfOk c (CanMakeAll changes.now) }
    ensures autocommit { conn.new.in_transaction ≡ false }
    ensures ready { OnOk result (IsReady (state S.Store conn.new)) }
    ensures second { OnOk result (IsSecond (state S.Store conn.new)) }
    ensures open { OnOk result (IsOpenIfClean (state S.Store conn.new)) }
    ensures edits { OnOk result (HasEdits (edits + length changes.now) (state S.Store conn.new)) }
    ensures ok { OnOk result ((c : Result Image Table) → MayHold (state S.Store conn.new) c
        → IsChangedBy (MayHold (state S.Store conn.old)) changes.now c) }
    ensures memory { result ≡ Err CommitFault.Memory
        → IsAsBefore edits (state S.Store conn.old) (state S.Store conn.new) }
    ensures store { result ≡ Err CommitFault.Store → (c : Result Image Table)
        → MayHold (state S.Store conn.new) c → MayHold (state S.Store conn.old) c
        ⊎ IsChangedBy (MayHold (state S.Store conn.old)) changes.now c }
    ensures limit { (state S.Store conn.new).step_limit ≡ (state S.Store conn.old).step_limit }
{
    prove_all_texts(changes);
    match write_changes(conn, n, changes) {
        Ok(()) => Ok(()),
        Err(error) => Err(fault_of(conn, error)),
    }
}

/// Writes changes as the edits after this number, all of them or none, and answers the number of the last edit.
/// With no change it does nothing.
pub(crate) fn write_next<S: Alter>(
    conn: &mut Connection<S>,
    edits: u64,
    changes: &[Change],
) -> Result<u64, CommitFault>
    requires autocommit { conn.old.in_transaction ≡ false }
    requires ready { IsReady (state S.Store conn.old) }
    requires open { IsOpenIfClean (state S.Store conn.old) }
    requires edits { HasEdits edits (state S.Store conn.old) }
    requires can { (c : Result Image Table) → MayHold (state S.Store conn.old) c
        → IfOk c (CanMakeAll changes.now) }
    ensures autocommit { conn.new.in_transaction ≡ false }
    ensures ready { OnOk result (IsReady (state S.Store conn.new)) }
    ensures second { OnOk result (IsSecond (state S.Store conn.new)) }
    ensures open { OnOk result (IsOpenIfClean (state S.Store conn.new)) }
    ensures edits { IfOk result (λ n. HasEdits n (state S.Store conn.new)) }
    ensures ok { OnOk result ((c : Result Image Table) → MayHold (state S.Store conn.new) c
        → IsChangedBy (MayHold (state S.Store conn.old)) changes.now c) }
    ensures memory { result ≡ Err CommitFault.Memory
        → IsAsBefore edits (state S.Store conn.old) (state S.Store conn.new) }
    ensures store { result ≡ Err CommitFault.Store → (c : Result Image Table)
        → MayHold (state S.Store conn.new) c → MayHold (state S.Store conn.old) c
        ⊎ IsChangedBy (MayHold (state S.Store conn.old)) changes.now c }
    ensures limit { (state S.Store conn.new).step_limit ≡ (state S.Store conn.old).step_limit }
{
    if changes.is_empty() {
        return Ok(edits);
    }
    let Some(n) = edits.checked_add(1) else {
        return Err(CommitFault::Store);
    };
    let Some(next) = n.checked_add(changes.len() as u64) else {
        return Err(CommitFault::Store);
    };
    write_as(conn, n, edits, changes)?;
    Ok(next - 1)
}
