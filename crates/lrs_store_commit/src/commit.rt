//! Changes are written, as a whole.

ghost use Rattle.std.specs.Prelude.{◌≡◌, ◌+◌, ◌<◌, ◌≤◌, ◌^◌, length, take, IfOk, OnOk, OnErr, IsTrue, false};
ghost use Rattle.sqlite.specs.State.{HasCleanDisk, Survives};
ghost use Rattle.sqlite.specs.Held.{state};
ghost use Rattle.lrs_store_tables.specs.StoredRows.{IsWriting, Makes, stored, Changes, LeavesStore};
ghost use Rattle.lrs_store_tables.specs.Writes.{MakesOf, Writes, WritesEach, AreWritten, with_some, changed_course, changed_route, new_course, new_route, with_ledgers};
ghost use Rattle.lrs_store_tables.specs.RowChanges.{without_route};
ghost use Rattle.lrs_store_tables.specs.Connections.{IsReady};
ghost use Rattle.lrs_store_commit.specs.UndoneChanges.{GoesBack, LeavesUndone};

use crate::insert_assets::insert_new_assets;
use crate::insert_lists::Ledger;
use crate::insert_named::put_named;
use crate::lists::write_all;
use crate::new_assets::are_new_assets;
use crate::routes::{change_route, drop_route, put_route};
use lrs_image::{Change, Difference, RouteChange, RouteKeys};
use lrs_machine::RouteRow;
use lrs_position::RouteName;
use lrs_store_tables::insert::put_edit;
use sqlite::{Alter, Connection, Error, Transaction};

/// A route goes, if one does, with what lies on it.
fn drop_some<S: Alter>(
    tx: &mut Transaction<'_, S>,
    route: &Option<RouteName>,
    keys: &RouteKeys,
) -> Result<(), Error>
    ensures { Changes S.Store (Makes (with_some (λ r. without_route r keys.now) route.now))
        tx.old tx.new result }
{
    match route {
        Some(route) => drop_route(tx, route, keys),
        None => Ok(()),
    }
}

/// A route that stays changes, if one does.
fn change_some<S: Alter>(
    tx: &mut Transaction<'_, S>,
    change: &Option<RouteChange>,
) -> Result<(), Error>
    ensures { Changes S.Store (MakesOf (changed_course change.now) (λ pieces.
        with_some (λ c. changed_route c pieces) change.now)) tx.old tx.new result }
{
    match change {
        Some(change) => change_route(tx, change),
        None => Ok(()),
    }
}

/// A route comes, if one does.
fn put_some<S: Alter>(
    tx: &mut Transaction<'_, S>,
    route_row: &Option<RouteRow>,
) -> Result<(), Error>
    ensures { Changes S.Store (MakesOf (new_course route_row.now) (λ pieces.
        with_some (λ e. new_route e pieces) route_row.now)) tx.old tx.new result }
{
    match route_row {
        Some(route_row) => put_route(tx, route_row),
        None => Ok(()),
    }
}

/// Inserts rows into the ledgers.
fn put_ledgers<S: Alter>(tx: &mut Transaction<'_, S>, difference: &Difference) -> Result<(), Error>
    ensures { Changes S.Store (Makes (with_ledgers difference.now)) tx.old tx.new result }
{
    write_all(tx, &Ledger, difference.entered.as_slice())?;
    write_all(tx, &Ledger, difference.gone.as_slice())
}

/// Writes the rows of a change, whose edit has this number. The removed route is deleted first: the route that
/// changes may get its referents, and a name is in the table once.
fn write_rows<S: Alter>(tx: &mut Transaction<'_, S>, n: u64, change: &Change) -> Result<(), Error>
    ensures { Changes S.Store (Writes n change.now) tx.old tx.new result }
{
    let difference = &change.difference;
    put_named(tx, difference)?;
    drop_some(tx, &difference.dropped, &difference.keys)?;
    change_some(tx, &difference.changed)?;
    put_some(tx, &difference.made)?;
    put_ledgers(tx, difference)?;
    put_edit(tx, n, &change.edit)
}

/// Writes the rows of the first changes: of eight, if these are entries, and else of one. The edit of the first has
/// this number, each next one more. Says how many it wrote.
fn write_next<S: Alter>(
    tx: &mut Transaction<'_, S>,
    n: u64,
    changes: &[Change],
) -> Result<usize, Error>
    requires some { 0 < length changes.now }
    requires fits { n + length changes.now < 2 ^ 64 }
    ensures same_reference { tx.new.conn.ghost_name ≡ tx.old.conn.ghost_name }
    ensures count { IfOk result (λ count. (0 < count) × (count ≤ length changes.now)) }
    ensures does { HasCleanDisk (state S.Store tx.new.conn.now)
        → IsWriting (state S.Store tx.old.conn.now)
        → IfOk result (λ count. WritesEach n (take count changes.now)
        (state S.Store tx.old.conn.now) (state S.Store tx.new.conn.now)) }
    ensures survives { LeavesStore (state S.Store tx.old.conn.now) (state S.Store tx.new.conn.now) }
{
    if changes.len() >= 8 {
        let eight = &changes[..8];
        if are_new_assets(eight) {
            insert_new_assets(tx, n, eight)?;
            return Ok(8);
        }
    }
    write_rows(tx, n, &changes[0])?;
    Ok(1)
}

/// Writes the rows of changes: the edit of the first has this number, each next one more.
fn write_each<S: Alter>(
    tx: &mut Transaction<'_, S>,
    n: u64,
    changes: &[Change],
) -> Result<(), Error>
    requires fits { n + length changes.now < 2 ^ 64 }
    ensures { Changes S.Store (WritesEach n changes.now) tx.old tx.new result }
{
    let mut done = 0;
    while done < changes.len() {
        done += write_next(tx, n + done as u64, &changes[done..])?;
    }
    Ok(())
}

/// Writes changes in one transaction: all of them, or nothing.
fn write_in_one<S: Alter>(conn: &mut Connection<S>, n: u64, changes: &[Change]) -> Result<(), Error>
    requires autocommit { conn.old.in_transaction ≡ false }
    requires ready { IsReady (state S.Store conn.old) }
    requires some { 0 < length changes.now }
    requires fits { n + length changes.now < 2 ^ 64 }
    ensures autocommit { conn.new.in_transaction ≡ false }
    ensures written { HasCleanDisk (state S.Store conn.new)
        → OnOk result (AreWritten n changes.now (stored (state S.Store conn.old).now.trees)
        (stored (state S.Store conn.new).committed.trees)) }
    ensures is_open { HasCleanDisk (state S.Store conn.new)
        → OnOk result (IsTrue (state S.Store conn.old).is_open
        × IsTrue (state S.Store conn.new).is_open) }
    ensures ready { OnOk result (IsReady (state S.Store conn.new)) }
    ensures back { OnErr result (GoesBack (state S.Store conn.old) (state S.Store conn.new)) }
    ensures crash { Survives (state S.Store conn.old) (state S.Store conn.new) (λ db.
        IsTrue (state S.Store conn.old).is_open × AreWritten n changes.now
        (stored (state S.Store conn.old).now.trees) (stored db)) }
{
    let mut tx = conn.transaction();
    write_each(&mut tx, n, changes)?;
    tx.commit()
}

/// Writes changes in one transaction: the edit of the first has this number, each next one more. It writes all of
/// them or nothing, and asks nothing of the store after the commit. With no change a commit would say nothing of
/// a store that was shut, so there is at least one.
///
/// # Errors
/// When the store fails, memory runs out, or a number is too large for it. What is stored is then as it was, or with all
/// changes; where the store is open, it is as it was.
pub fn write_changes<S: Alter>(
    conn: &mut Connection<S>,
    n: u64,
    changes: &[Change],
) -> Result<(), Error>
    requires autocommit { conn.old.in_transaction ≡ false }
    requires ready { IsReady (state S.Store conn.old) }
    requires some { 0 < length changes.now }
    requires fits { n + length changes.now < 2 ^ 64 }
    ensures autocommit { conn.new.in_transaction ≡ false }
    ensures written { HasCleanDisk (state S.Store conn.new)
        → OnOk result (AreWritten n changes.now (stored (state S.Store conn.old).now.trees)
        (stored (state S.Store conn.new).committed.trees)) }
    ensures is_open { HasCleanDisk (state S.Store conn.new)
        → OnOk result (IsTrue (state S.Store conn.old).is_open
        × IsTrue (state S.Store conn.new).is_open) }
    ensures ready { OnOk result (IsReady (state S.Store conn.new)) }
    ensures undone { OnErr result (LeavesUndone (state S.Store conn.old) (state S.Store conn.new)) }
    ensures crash { Survives (state S.Store conn.old) (state S.Store conn.new) (λ db.
        IsTrue (state S.Store conn.old).is_open × AreWritten n changes.now
        (stored (state S.Store conn.old).now.trees) (stored db)) }
{
    // For the prover alone: before and afterwards the trees list the schema.
    let _ = conn.schema();
    let written = write_in_one(conn, n, changes);
    let _ = conn.schema();
    written
}
