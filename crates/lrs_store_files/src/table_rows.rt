//! The rows of tables, read from the trees of a store.

ghost use Rattle.std.specs.Prelude.{IfOk, IfErr};
ghost use Rattle.lrs_store_files.specs.SeenRows.{HasSeen, HasStopped, WasLookedAt, HasNamed, HasRoutes, HasLedgers, HasEdits};

use crate::trees::read_tree;
use lrs_store_tables::stored_rows::{NamedRows, RouteRows};
use sqlite::Row;
use sqlite_trees::error::StoreError;
use sqlite_trees::store::Store;
use std::alloc::Global;

/// The rows of the version, and of links, classes and assets. A key of one whole number is the number of its row.
///
/// # Errors
/// When the store fails, or memory runs out.
pub fn read_named<S: Store>(alloc: Global, store: &mut S) -> Result<NamedRows, StoreError>
    ensures seen { IfOk result (λ r. HasSeen S.Store.view S.Store.recovers
        (HasNamed r) store.old store.new) }
    ensures err { IfErr result
        (HasStopped S.Store.view S.Store.faults S.Store.recovers store.old store.new) }
    ensures still { WasLookedAt S.Store.view S.Store.recovers store.old store.new }
{
    let version = read_tree(alloc, store, 0, &[0])?;
    let link = read_tree(alloc, store, 1, &[0, 2])?;
    let class = read_tree(alloc, store, 2, &[1, 2])?;
    let asset = read_tree(alloc, store, 4, &[0, 2, 3, 4])?;
    Ok(NamedRows {
        version,
        link,
        class,
        asset,
    })
}

/// The rows of routes.
///
/// # Errors
/// When the store fails, or memory runs out.
pub fn read_routes<S: Store>(alloc: Global, store: &mut S) -> Result<RouteRows, StoreError>
    ensures seen { IfOk result (λ r. HasSeen S.Store.view S.Store.recovers
        (HasRoutes r) store.old store.new) }
    ensures err { IfErr result
        (HasStopped S.Store.view S.Store.faults S.Store.recovers store.old store.new) }
    ensures still { WasLookedAt S.Store.view S.Store.recovers store.old store.new }
{
    let piece = read_tree(alloc, store, 5, &[1, 2, 3, 4, 5, 6])?;
    let mark = read_tree(alloc, store, 7, &[1, 2, 3, 4])?;
    let referent = read_tree(alloc, store, 9, &[1, 2, 3])?;
    let span = read_tree(alloc, store, 11, &[1, 2, 3, 4, 5])?;
    Ok(RouteRows {
        piece,
        mark,
        referent,
        span,
    })
}

/// The rows of both ledgers: what was entered, and what is gone.
///
/// # Errors
/// When the store fails, or memory runs out.
pub fn read_ledgers<S: Store>(
    alloc: Global,
    store: &mut S,
) -> Result<(Vec<Row>, Vec<Row>), StoreError>
    ensures seen { IfOk result (λ r. HasSeen S.Store.view S.Store.recovers
        (HasLedgers r.0.items r.1.items) store.old store.new) }
    ensures err { IfErr result
        (HasStopped S.Store.view S.Store.faults S.Store.recovers store.old store.new) }
    ensures still { WasLookedAt S.Store.view S.Store.recovers store.old store.new }
{
    let entered = read_tree(alloc, store, 13, &[1, 2, 3, 4, 5, 6])?;
    let gone = read_tree(alloc, store, 15, &[1, 2, 3, 4, 5, 6, 7])?;
    Ok((entered, gone))
}

/// The rows of edits and of origins.
///
/// # Errors
/// When the store fails, or memory runs out.
pub fn read_edits<S: Store>(
    alloc: Global,
    store: &mut S,
) -> Result<(Vec<Row>, Vec<Row>), StoreError>
    ensures seen { IfOk result (λ r. HasSeen S.Store.view S.Store.recovers
        (HasEdits r.0.items r.1.items) store.old store.new) }
    ensures err { IfErr result
        (HasStopped S.Store.view S.Store.faults S.Store.recovers store.old store.new) }
    ensures still { WasLookedAt S.Store.view S.Store.recovers store.old store.new }
{
    let edit = read_tree(alloc, store, 17, &[0, 2, 3])?;
    let origin = read_tree(alloc, store, 19, &[0, 2])?;
    Ok((edit, origin))
}
