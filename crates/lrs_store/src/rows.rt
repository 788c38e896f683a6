//! The rows of all tables, read from the trees of a store.

ghost use Rattle.std.specs.Prelude.{◌≡◌, IfOk, IfErr};
ghost use Rattle.lrs_store_tables.specs.StoredRows.{stored};
ghost use Rattle.lrs_store_tables.specs.Rows.{tables_of};
ghost use Rattle.lrs_store_files.specs.SeenRows.{HasSeen, HasStopped, HasLedgers, HasEdits};

use lrs_store_files::table_rows;
use lrs_store_tables::stored_rows::{LedgerRows, StoredRows};
use sqlite_trees::error::StoreError;
use sqlite_trees::store::Store;
use std::alloc::Global;

/// The rows of the ledgers, and of edits and origins.
fn read_ledgers<S: Store>(alloc: Global, store: &mut S) -> Result<LedgerRows, StoreError>
    ensures seen { IfOk result (λ r. HasSeen S.Store.view S.Store.recovers (λ db.
        HasLedgers r.entered.items r.gone.items db
        × HasEdits r.edit.items r.origin.items db) store.old store.new) }
    ensures err { IfErr result
        (HasStopped S.Store.view S.Store.faults S.Store.recovers store.old store.new) }
{
    let (entered, gone) = table_rows::read_ledgers(alloc, store)?;
    let (edit, origin) = table_rows::read_edits(alloc, store)?;
    Ok(LedgerRows {
        entered,
        gone,
        edit,
        origin,
    })
}

/// The rows of all tables of version 2.
///
/// # Errors
/// When the store fails, or memory runs out.
pub(crate) fn read_trees<S: Store>(alloc: Global, store: &mut S) -> Result<StoredRows, StoreError>
    ensures seen { IfOk result (λ r. HasSeen S.Store.view S.Store.recovers (λ db.
        tables_of r ≡ stored db) store.old store.new) }
    ensures err { IfErr result
        (HasStopped S.Store.view S.Store.faults S.Store.recovers store.old store.new) }
{
    let named = table_rows::read_named(alloc, store)?;
    let routes = table_rows::read_routes(alloc, store)?;
    let ledgers = read_ledgers(alloc, store)?;
    Ok(StoredRows {
        named,
        routes,
        ledgers,
    })
}
