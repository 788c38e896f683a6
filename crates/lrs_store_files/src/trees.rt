//! The rows of one table, read from its tree.

ghost use Rattle.std.specs.Prelude.{◌≡◌, map, IfOk, IfErr};
ghost use Rattle.sqlite_value.specs.Order.{column};
ghost use Rattle.lrs_store_tables.specs.StoredRows.{rows_of};
ghost use Rattle.lrs_store_files.specs.SeenRows.{HasSeen, HasStopped, WasLookedAt};

use crate::values::take_values;
use sqlite::Row;
use sqlite_exec::check::all_rows;
use sqlite_exec::work::{FromRow, Workspace};
use sqlite_trees::error::StoreError;
use sqlite_trees::store::Store;
use sqlite_value::row;
use std::alloc::{AllocError, Global};

/// The rows of a tree, as the columns at these places show them. Each row is dropped once it is shown.
///
/// # Errors
/// When memory runs out.
pub fn rows_at(alloc: Global, rows: Vec<row::Row>, places: &[usize]) -> Result<Vec<Row>, AllocError>
    ensures { IfOk result (λ shown. shown.items ≡ map (λ r. map (column r) places.now) rows.items) }
{
    let mut values = row::Row::new(alloc);
    let mut shown = Vec::with_capacity(alloc, rows.len())?;
    for row in rows {
        take_values(&mut values, &row, places)?;
        shown.push(Row::from_row(alloc, &values)?)?;
    }
    Ok(shown)
}

/// The rows of the table that is this tree, as the columns at these places show them.
///
/// # Errors
/// When the store fails, or memory runs out.
pub fn read_tree<S: Store>(
    alloc: Global,
    store: &mut S,
    tree: u32,
    places: &[usize],
) -> Result<Vec<Row>, StoreError>
    ensures seen { IfOk result (λ rows. HasSeen S.Store.view S.Store.recovers (λ db.
        rows.items ≡ rows_of db tree places.now) store.old store.new) }
    ensures err { IfErr result
        (HasStopped S.Store.view S.Store.faults S.Store.recovers store.old store.new) }
    ensures still { WasLookedAt S.Store.view S.Store.recovers store.old store.new }
{
    let mut work = Workspace::new(alloc);
    let rows = all_rows(store, &mut work, tree)?;
    Ok(rows_at(alloc, rows, places)?)
}
