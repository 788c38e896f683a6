//! The image of the rows of a store, in three steps: what has names and lies on routes, both ledgers, and edits with
//! origins. The rows of a step are dropped in it, so that those of several need not be in memory together.

ghost use Rattle.std.specs.Prelude.{◌≡◌, map, true, IfOk, Err};
ghost use Rattle.lrs_measure.specs.Lists.{each_two};
ghost use Rattle.lrs_machine.specs.Sound.{asset_before};
ghost use Rattle.lrs_machine.specs.declared.table.Table.{Table as DeclaredTable};
ghost use Rattle.lrs_store_tables.specs.Contents.Content.{image_of};
ghost use Rattle.lrs_store_tables.specs.StoredRows.{entered_in, gone_in};
ghost use Rattle.lrs_store_image.specs.TableReadings.{Reads};
ghost use Rattle.lrs_store_image.specs.Steps.{LedgerTables, EditTables, Begins, WithLedgers, HavePassed, HasPassed, HasOrder, content_of_held, whole_image, image_of_ledgers, image_of_registers, edits_in, tables_with};

use crate::emptiness::{no_edits, no_first, no_ledgers};
use crate::registers::{Named, read_named};
use crate::route_lists::read_entries;
use crate::{entering_edits, rows};
use lrs_events::{Gone, Part};
use lrs_image::LoadFault;
use lrs_machine::{Edit, Image, RouteRow, Table};
use lrs_measure::Rows;
use lrs_store_tables::stored_rows::{NamedRows, RouteRows};
use sqlite::Row;
use std::alloc::{AllocError, Global};

/// What the rows beside the ledgers hold, and the version of the store.
#[derive(Drop)]
pub struct Registers {
    pub version: u64,
    pub named: Named,
    pub routes: Rows<RouteRow>,
}

/// What was read first: nothing where there was no row.
#[derive(Drop)]
pub enum Begun {
    Nothing,
    Read(Registers),
}

/// What was read first, and both ledgers.
#[derive(Drop)]
pub struct Ledgers {
    pub first: Registers,
    pub entered: Rows<Part>,
    pub gone: Rows<Gone>,
}

/// What was read in both steps: nothing where there was no row.
#[derive(Drop)]
pub enum Held {
    Nothing,
    Read(Ledgers),
}

/// What some rows hold that are not those of the ledgers.
fn read_registers(
    alloc: Global,
    named: NamedRows,
    routes: RouteRows,
) -> Result<Registers, LoadFault>
    ensures image { IfOk result (λ p. (l : LedgerTables) (e : EditTables)
        → image_of (tables_with named routes l e) ≡ image_of_registers p l e) }
    ensures passed { IfOk result HavePassed }
    ensures unsound { (t : DeclaredTable) → result ≡ Err (LoadFault.Unsound t) → (l : LedgerTables)
        (e : EditTables) → image_of (tables_with named routes l e) ≡ Err t }
    ensures never { result ≡ Err LoadFault.Store → ⊥ }
{
    let version = match rows::version(named.version.as_slice()) {
        Ok(version) => version,
        Err(table) => return Err(LoadFault::Unsound(table)),
    };
    let named = read_named(alloc, named.link, named.class, named.asset)?;
    let routes = read_entries(alloc, &named, routes)?;
    Ok(Registers {
        version,
        named,
        routes,
    })
}

/// Reads the rows of what has a name and lies on routes, which are dropped.
///
/// # Errors
/// `Unsound` where one of their tables is the first unsound one, whatever the other rows are; or `Memory`.
pub fn begin(alloc: Global, named: NamedRows, routes: RouteRows) -> Result<Begun, LoadFault>
    ensures begins { Begins named routes result }
    ensures passed { IfOk result HasPassed }
{
    if no_first(&named, &routes) {
        return Ok(Begun::Nothing);
    }
    Ok(Begun::Read(read_registers(alloc, named, routes)?))
}

/// Both ledgers, beside what was read first.
fn read_ledgers(
    alloc: Global,
    first: Registers,
    entered: Vec<Row>,
    gone: Vec<Row>,
) -> Result<Ledgers, LoadFault>
    requires passed { HavePassed first }
    ensures image { IfOk result (λ found. (e : EditTables) → image_of_registers first (record
        { entered = map entered_in entered.items; gone = map gone_in gone.items }) e
        ≡ image_of_ledgers found e) }
    ensures order { IfOk result (λ found. each_two asset_before found.first.named.assets ≡ true) }
    ensures unsound { (t : DeclaredTable) → result ≡ Err (LoadFault.Unsound t) → (e : EditTables)
        → image_of_registers first (record
        { entered = map entered_in entered.items; gone = map gone_in gone.items }) e ≡ Err t }
    ensures never { result ≡ Err LoadFault.Store → ⊥ }
{
    let links = first.named.links.as_slice();
    let assets = first.named.assets.as_slice();
    let routes = first.routes.as_slice();
    let parts = rows::entered(alloc, links, assets, entered.as_slice())?;
    drop(entered);
    let left = rows::gone(
        alloc,
        links,
        assets,
        routes,
        parts.as_slice(),
        gone.as_slice(),
    )?;
    Ok(Ledgers {
        first,
        entered: parts,
        gone: left,
    })
}

/// Reads the rows of both ledgers beside what was read first. They are dropped.
///
/// # Errors
/// `Unsound` where one of their tables is the first unsound one, whatever the other rows are; or `Memory`.
pub fn with_ledgers(
    alloc: Global,
    begun: Begun,
    entered: Vec<Row>,
    gone: Vec<Row>,
) -> Result<Held, LoadFault>
    requires passed { HasPassed begun }
    ensures holds { WithLedgers begun (record
        { entered = map entered_in entered.items; gone = map gone_in gone.items }) result }
    ensures order { IfOk result HasOrder }
{
    match begun {
        Begun::Read(first) => Ok(Held::Read(read_ledgers(alloc, first, entered, gone)?)),
        Begun::Nothing => {
            if no_ledgers(entered.as_slice(), gone.as_slice()) {
                Ok(Held::Nothing)
            } else {
                Err(LoadFault::Unsound(Table::Version))
            }
        }
    }
}

/// The image of what was read in both steps, and of edits; the ledger tells which edit entered an asset.
fn with_edits(alloc: Global, held: Ledgers, edits: Rows<Edit>) -> Result<Image, AllocError>
    requires { each_two asset_before held.first.named.assets ≡ true }
    ensures { IfOk result (λ image. image ≡ whole_image held edits) }
{
    let Ledgers {
        first,
        entered,
        gone,
    } = held;
    let Registers { named, routes, .. } = first;
    let assets = named.assets.as_slice();
    let assets = entering_edits::with_edits(alloc, entered.as_slice(), assets)?;
    Ok(Image {
        links: named.links,
        classes: named.classes,
        assets,
        routes,
        entered,
        gone,
        edits,
    })
}

/// The image of what was read in both steps, and of the rows of edits and origins.
fn read_image(
    alloc: Global,
    held: Ledgers,
    edits: Vec<Row>,
    origins: Vec<Row>,
) -> Result<Image, LoadFault>
    requires order { each_two asset_before held.first.named.assets ≡ true }
    ensures { Reads (image_of_ledgers held (edits_in edits.items origins.items)) result }
{
    let version = held.first.version;
    let said = match rows::edits(alloc, held.entered.as_slice(), held.gone.as_slice(), edits) {
        Ok(said) => said,
        Err(fault) => {
            drop(held);
            drop(origins);
            return Err(fault);
        }
    };
    let image = match with_edits(alloc, held, said) {
        Ok(image) => image,
        Err(fault) => {
            drop(origins);
            return Err(LoadFault::from(fault));
        }
    };
    let assets = image.assets.as_slice();
    let entered = image.entered.as_slice();
    match rows::origins(alloc, version, assets, entered, origins.as_slice()) {
        Ok(found) => {
            drop(found);
            drop(origins);
            Ok(image)
        }
        Err(fault) => {
            drop(image);
            drop(origins);
            Err(fault)
        }
    }
}

/// Reads the rows of edits and of origins beside what was read in both steps.
///
/// # Errors
/// `Unsound` with the first unsound table, or `Memory`.
pub fn finish(
    alloc: Global,
    held: Held,
    edits: Vec<Row>,
    origins: Vec<Row>,
) -> Result<Image, LoadFault>
    requires order { HasOrder held }
    ensures { Reads (content_of_held held (edits_in edits.items origins.items)) result }
{
    match held {
        Held::Read(held) => read_image(alloc, held, edits, origins),
        Held::Nothing => {
            if no_edits(edits.as_slice(), origins.as_slice()) {
                Ok(Image::empty(alloc))
            } else {
                Err(LoadFault::Unsound(Table::Version))
            }
        }
    }
}
