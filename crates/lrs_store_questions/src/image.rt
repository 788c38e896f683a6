//! The image of a store, read without a connection.

ghost use Rattle.std.specs.Prelude.{◌≡◌, IfOk, OnOk, Err, Result};
ghost use Rattle.sqlite_trees.specs.View.{IsClean};
ghost use Rattle.lrs_machine.specs.declared.image.Image.{Image as ImageRows};
ghost use Rattle.lrs_machine.specs.declared.table.Table.{Table as DeclaredTable};
ghost use Rattle.lrs_machine.specs.Sound.{IsSound};
ghost use Rattle.lrs_store_files.specs.SeenRows.{HasSeen, WasLookedAt};
ghost use Rattle.lrs_store_questions.specs.Readings.{ListInventory, HasFirst, HasContent, Says, HoldsThere, IsTold, MayTell};

use lrs_image::LoadFault;
use lrs_machine::Image;
use lrs_store_files::table_rows::{read_edits, read_ledgers, read_named, read_routes};
use lrs_store_files::{Known, wanted, which};
use lrs_store_image::{begin, finish, with_ledgers};
use lrs_store_tables::stored_rows::{NamedRows, RouteRows};
use sqlite_catalog::load::load;
use sqlite_trees::error::StoreError;
use sqlite_trees::store::Alter;
use std::alloc::Global;

/// How many tables an inventory has.
pub(crate) const TABLES: usize = 12;

/// Which tables a store has.
pub(crate) fn tables_in<S: Alter>(alloc: Global, store: &S) -> Result<Known, StoreError>
    ensures { IsClean (S.Store.view store.now) → IfOk result (λ found. found ≡ Known.First 12
        → ListInventory (S.Store.view store.now).trees) }
{
    if store.is_broken() {
        return Err(StoreError::Broken);
    }
    let Some(schema) = load(store, alloc)? else {
        return Err(StoreError::Corrupt);
    };
    let wanted = wanted(alloc)?;
    Ok(which(&schema, &wanted))
}

/// Refuses a store that has not the tables of an inventory, or has others too.
fn check_tables<S: Alter>(alloc: Global, store: &S) -> Result<(), StoreError>
    ensures { IsClean (S.Store.view store.now)
        → OnOk result (ListInventory (S.Store.view store.now).trees) }
{
    match tables_in(alloc, store)? {
        Known::First(count) if count == TABLES => Ok(()),
        _ => Err(StoreError::Corrupt),
    }
}

/// The rows beside those of the ledgers, of a store with the tables of an inventory.
fn read_first<S: Alter>(alloc: Global, store: &mut S) -> Result<(NamedRows, RouteRows), StoreError>
    ensures seen { IfOk result (λ rows. HasSeen S.Store.view S.Store.recovers
        (HasFirst rows.0 rows.1) store.old store.new) }
    ensures still { WasLookedAt S.Store.view S.Store.recovers store.old store.new }
{
    check_tables(alloc, store)?;
    let named = read_named(alloc, store)?;
    let routes = read_routes(alloc, store)?;
    Ok((named, routes))
}

/// Why an image is not read, by what the store answered.
fn fault_of(error: StoreError) -> LoadFault
    ensures { (t : DeclaredTable) → result ≡ LoadFault.Unsound t → ⊥ }
{
    match error {
        StoreError::OutOfMemory => LoadFault::Memory,
        _ => LoadFault::Store,
    }
}

/// The image that the tables of a store hold. The rows of a step are dropped before those of the next are read.
fn read_content<S: Alter>(alloc: Global, store: &mut S) -> Result<Image, LoadFault>
    ensures seen { (c : Result ImageRows DeclaredTable) → Says result c
        → HasSeen S.Store.view S.Store.recovers (HasContent c) store.old store.new }
    ensures still { WasLookedAt S.Store.view S.Store.recovers store.old store.new }
    ensures sound { IfOk result IsSound }
{
    let (named, routes) = match read_first(alloc, store) {
        Ok(rows) => rows,
        Err(error) => return Err(fault_of(error)),
    };
    let begun = begin(alloc, named, routes)?;
    let (entered, gone) = match read_ledgers(alloc, store) {
        Ok(rows) => rows,
        Err(error) => {
            // As a call, the drop is one step to prove, and not one for each part.
            drop(begun);
            return Err(fault_of(error));
        }
    };
    let held = with_ledgers(alloc, begun, entered, gone)?;
    match read_edits(alloc, store) {
        Ok((edits, origins)) => finish(alloc, held, edits, origins),
        Err(error) => {
            drop(held);
            Err(fault_of(error))
        }
    }
}

/// The image that the tables of a store hold, by its last commit. Nothing is written: what a later opening may find,
/// it might find before.
///
/// # Errors
/// `Unsound` with the first unsound table; `Store` where the store has not an inventory's tables, or fails; `Memory` if
/// memory runs out.
pub(crate) fn read_image<S: Alter>(alloc: Global, store: &mut S) -> Result<Image, LoadFault>
    ensures still { WasLookedAt S.Store.view S.Store.recovers store.old store.new }
    ensures there { (c : Result ImageRows DeclaredTable) → Says result c
        → HoldsThere S.Store.view S.Store.recovers c store.new }
    ensures sound { IfOk result IsSound }
    ensures told { OnOk result (IsClean (S.Store.view store.new)
        → IsTold S.Store.view store.new) }
    ensures named { (t : DeclaredTable) → result ≡ Err (LoadFault.Unsound t)
        → IsClean (S.Store.view store.new)
        → MayTell S.Store.view S.Store.recovers (Err t) store.new }
{
    store.rollback();
    read_content(alloc, store)
}
