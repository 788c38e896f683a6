//! The tables of a store are made.

ghost use Rattle.std.specs.Prelude.{◌≡◌, ◌<◌, ◌≤◌, OnOk};
ghost use Rattle.sqlite.specs.State.{HasCleanDisk};
ghost use Rattle.sqlite.specs.Held.{state};
ghost use Rattle.lrs_store_tables.specs.StoredRows.{LeavesStore};
ghost use Rattle.lrs_store_tables.specs.Failures.{ErrHasReason};
ghost use Rattle.lrs_store_tables.specs.TableCreation as making;
ghost use Rattle.lrs_store_tables.specs.TableCreation.{IsBegun, IsMaking};

use sqlite::{Alter, Error, Transaction};

/// How many tables a store has.
pub const TABLES: usize = 12;

/// The statement that makes the table at a place among them.
fn create_at(place: usize) -> &'static str
    requires { place < 12 }
    ensures { result.now ≡ making.create_at place }
{
    match place {
        0 => "CREATE TABLE version (v INTEGER NOT NULL, PRIMARY KEY (v)) STRICT",
        1 =>
            "CREATE TABLE link (number INTEGER NOT NULL, length INTEGER NOT NULL, PRIMARY KEY (number)) STRICT",
        2 =>
            "CREATE TABLE class (name TEXT NOT NULL, kind INTEGER NOT NULL, PRIMARY KEY (name)) STRICT",
        3 =>
            "CREATE TABLE asset (number INTEGER NOT NULL, class TEXT NOT NULL REFERENCES class, value TEXT NOT NULL, lateral INTEGER NOT NULL, PRIMARY KEY (number)) STRICT",
        4 =>
            "CREATE TABLE piece (route TEXT NOT NULL, n INTEGER NOT NULL, link INTEGER NOT NULL REFERENCES link, a INTEGER NOT NULL, b INTEGER NOT NULL, dir INTEGER NOT NULL, PRIMARY KEY (route, n)) STRICT",
        5 =>
            "CREATE TABLE mark (route TEXT NOT NULL, n INTEGER NOT NULL, chainage INTEGER NOT NULL, measure INTEGER NOT NULL, PRIMARY KEY (route, n)) STRICT",
        6 =>
            "CREATE TABLE ref (name TEXT NOT NULL, route TEXT NOT NULL, place INTEGER NOT NULL, PRIMARY KEY (name)) STRICT",
        7 =>
            "CREATE TABLE span (asset INTEGER NOT NULL REFERENCES asset, route TEXT NOT NULL, lo INTEGER NOT NULL, hi INTEGER NOT NULL, side INTEGER NOT NULL, PRIMARY KEY (asset, route, lo)) STRICT",
        8 =>
            "CREATE TABLE entered (edit INTEGER NOT NULL, asset INTEGER NOT NULL, link INTEGER NOT NULL, lo INTEGER NOT NULL, hi INTEGER NOT NULL, side INTEGER NOT NULL, PRIMARY KEY (edit, asset, link, lo, side)) STRICT",
        9 =>
            "CREATE TABLE gone (edit INTEGER NOT NULL, cause INTEGER NOT NULL, asset INTEGER NOT NULL, link INTEGER NOT NULL, lo INTEGER NOT NULL, hi INTEGER NOT NULL, side INTEGER NOT NULL, PRIMARY KEY (edit, cause, asset, link, lo, side)) STRICT",
        10 =>
            "CREATE TABLE edit (number INTEGER NOT NULL, token TEXT NOT NULL UNIQUE, line TEXT NOT NULL, PRIMARY KEY (number)) STRICT",
        _ =>
            "CREATE TABLE origin (asset INTEGER NOT NULL REFERENCES asset, edit INTEGER NOT NULL, PRIMARY KEY (asset)) STRICT",
    }
}

/// Makes the tables behind the first ones, which are there: each without a row.
///
/// # Errors
/// When the store fails, or memory runs out.
pub fn make_tables<S: Alter>(tx: &mut Transaction<'_, S>, first: usize) -> Result<(), Error>
    requires { first ≤ 12 }
    ensures same_reference { tx.new.conn.ghost_name ≡ tx.old.conn.ghost_name }
    ensures made { HasCleanDisk (state S.Store tx.new.conn.now)
        → IsBegun first (state S.Store tx.old.conn.now)
        → OnOk result (IsMaking first 12
        (state S.Store tx.old.conn.now) (state S.Store tx.new.conn.now)) }
    ensures cause { IsBegun first (state S.Store tx.old.conn.now) → ErrHasReason result
        (state S.Store tx.old.conn.now) (state S.Store tx.new.conn.now) }
    ensures survives { LeavesStore (state S.Store tx.old.conn.now) (state S.Store tx.new.conn.now) }
{
    for place in first..TABLES {
        tx.execute(create_at(place), &[])?;
    }
    Ok(())
}
