//! The first unsound table of a store that no connection takes.

ghost use Rattle.std.specs.Prelude.{◌≡◌, ◌≢◌, ◌≤◌, [], Err, IfOk, IfErr, IfSome, IsSomeAnd, if◌then◌else◌};
ghost use Rattle.sqlite_trees.specs.Tree.{Trees};
ghost use Rattle.sqlite_trees.specs.View.{doubt, IsClean};
ghost use Rattle.sqlite_trees.specs.Objects.{catalog_tree};
ghost use Rattle.lrs_machine.specs.declared.table.Table.{Table as DeclaredTable};
ghost use Rattle.lrs_store_tables.specs.Contents.Content.{content_of};
ghost use Rattle.lrs_store_tables.specs.TableCreation.{first_rows};
ghost use Rattle.lrs_store_tables.specs.Rows.{tables_of};
ghost use Rattle.lrs_store_files.specs.SeenRows.{HasSeen, StopsFor, HasStopped};
ghost use Rattle.lrs_store.specs.Verdicts.{AreFirst, ListsKnown, HasFound, IsUnsoundThere, IsSoundThere};

use crate::rows::read_trees;
use lrs_image::LoadFault;
use lrs_store_files::{Known, wanted, which};
use lrs_store_tables::stored_rows::{LedgerRows, NamedRows, ReadImage, RouteRows, StoredRows};
use sqlite::Row;
use sqlite_catalog::load::load;
use sqlite_trees::error::StoreError;
use sqlite_trees::store::Alter;
use std::alloc::Global;

/// Which of the known tables a store lists.
fn known_of<S: Alter>(alloc: Global, store: &S) -> Result<Known, StoreError>
    ensures known { IsClean (S.Store.view store.now)
        → IfOk result (λ known. ListsKnown known ((S.Store.view store.now).trees catalog_tree)) }
    ensures err { IsClean (S.Store.view store.now)
        → IfErr result (StopsFor (S.Store.view store.now)) }
{
    if store.is_broken() {
        return Err(StoreError::Broken);
    }
    let Some(schema) = load(store, alloc)? else {
        return Ok(Known::Other);
    };
    let wanted = wanted(alloc)?;
    Ok(which(&schema, &wanted))
}

/// The rows of a table, or none where it is missing.
fn rows_if(rows: Vec<Row>, is_there: bool) -> Vec<Row>
    ensures { result.items ≡ (if is_there then rows.items else []) }
{
    let mut rows = rows;
    if !is_there {
        rows.clear();
    }
    rows
}

/// The rows of the first of the tables; a table that is missing has none.
fn first_of(rows: StoredRows, count: usize) -> StoredRows
    ensures { tables_of result ≡ first_rows count (tables_of rows) }
{
    let StoredRows {
        named,
        routes,
        ledgers,
    } = rows;
    StoredRows {
        named: NamedRows {
            version: rows_if(named.version, 0 < count),
            link: rows_if(named.link, 1 < count),
            class: rows_if(named.class, 2 < count),
            asset: rows_if(named.asset, 3 < count),
        },
        routes: RouteRows {
            piece: rows_if(routes.piece, 4 < count),
            mark: rows_if(routes.mark, 5 < count),
            referent: rows_if(routes.referent, 6 < count),
            span: rows_if(routes.span, 7 < count),
        },
        ledgers: LedgerRows {
            entered: rows_if(ledgers.entered, 8 < count),
            gone: rows_if(ledgers.gone, 9 < count),
            edit: rows_if(ledgers.edit, 10 < count),
            origin: rows_if(ledgers.origin, 11 < count),
        },
    }
}

/// The rows of the first of the tables, where there are some.
fn known_rows(known: Known, rows: StoredRows) -> Option<StoredRows>
    ensures { AreFirst known rows result }
{
    match known {
        Known::First(0) | Known::Other => None,
        Known::First(count) => Some(first_of(rows, count)),
    }
}

/// The rows of a store's tables, if they are the first of an inventory's: those of version 1 tell no origins.
fn rows_of<S: Alter>(alloc: Global, store: &mut S) -> Result<Option<StoredRows>, StoreError>
    ensures found { IfOk result (λ found. HasSeen S.Store.view S.Store.recovers
        (HasFound found) store.old store.new) }
    ensures err { IfErr result
        (HasStopped S.Store.view S.Store.faults S.Store.recovers store.old store.new) }
{
    let known = known_of(alloc, store)?;
    let rows = read_trees(alloc, store)?;
    Ok(known_rows(known, rows))
}

/// Why these rows are no image's: with none, or rows that hold an image, that is not known here.
fn fault_of<R: ReadImage>(reader: &R, alloc: Global, rows: Option<StoredRows>) -> LoadFault
    ensures unsound { (t : DeclaredTable) → result ≡ LoadFault.Unsound t
        → IsSomeAnd rows (λ r. content_of (tables_of r) ≡ Err t) }
    ensures store { result ≡ LoadFault.Store → IfSome rows (λ r.
        (t : DeclaredTable) → content_of (tables_of r) ≢ Err t) }
{
    let Some(rows) = rows else {
        return LoadFault::Store;
    };
    match reader.read(alloc, rows) {
        Ok(_) => LoadFault::Store,
        Err(fault) => fault,
    }
}

/// Why a store holds no image that no connection takes, though its pages are sound: which of its tables is the first
/// unsound one, by its last commit. `Store` where it has other tables, where they hold an image, so that it is
/// refused for something else, or where it fails; `Memory` if memory runs out. Nothing is written: what a later opening
/// may find, it might find before.
pub fn judge<S: Alter, R: ReadImage>(alloc: Global, store: &mut S, reader: &R) -> LoadFault
    ensures quiet { doubt (S.Store.view store.old).is_clean
        ≤ doubt (S.Store.view store.new).is_clean }
    ensures outcomes { (db : Trees) → S.Store.recovers store.new db
        → S.Store.recovers store.old db }
    ensures unsound { (t : DeclaredTable) → result ≡ LoadFault.Unsound t
        → IsUnsoundThere S.Store.view S.Store.recovers t store.new }
    ensures store { result ≡ LoadFault.Store
        → IsSoundThere S.Store.view S.Store.faults S.Store.recovers store.new }
{
    store.rollback();
    match rows_of(alloc, store) {
        Ok(rows) => fault_of(reader, alloc, rows),
        Err(StoreError::OutOfMemory) => LoadFault::Memory,
        Err(_) => LoadFault::Store,
    }
}
