//! All rows of a store, read table by table.

ghost use Rattle.lrs_store_tables.specs.Contents.Tables.{AreSame};
ghost use Rattle.lrs_store_tables.specs.Rows.{AreNamed, AreOfRoutes, AreOfLedgers, tables_of};
ghost use Rattle.lrs_store_tables.specs.TableReads.{Reads};

use crate::select::{
    read_assets, read_classes, read_edits, read_entered, read_gone, read_links, read_marks,
    read_origins, read_pieces, read_refs, read_spans, read_versions,
};
use crate::stored_rows::{LedgerRows, NamedRows, RouteRows, StoredRows};
use sqlite::{Alter, Error, Transaction};

/// The rows of links, classes and assets, and of the version.
fn read_named<S: Alter>(tx: &mut Transaction<'_, S>) -> Result<NamedRows, Error>
    ensures { Reads S.Store AreNamed tx.old tx.new result }
{
    let version = read_versions(tx)?;
    let link = read_links(tx)?;
    let class = read_classes(tx)?;
    let asset = read_assets(tx)?;
    Ok(NamedRows {
        version,
        link,
        class,
        asset,
    })
}

/// The rows of routes.
fn read_routes<S: Alter>(tx: &mut Transaction<'_, S>) -> Result<RouteRows, Error>
    ensures { Reads S.Store AreOfRoutes tx.old tx.new result }
{
    let piece = read_pieces(tx)?;
    let mark = read_marks(tx)?;
    let referent = read_refs(tx)?;
    let span = read_spans(tx)?;
    Ok(RouteRows {
        piece,
        mark,
        referent,
        span,
    })
}

/// The rows of the ledgers, and of edits and origins.
fn read_ledgers<S: Alter>(tx: &mut Transaction<'_, S>) -> Result<LedgerRows, Error>
    ensures { Reads S.Store AreOfLedgers tx.old tx.new result }
{
    let entered = read_entered(tx)?;
    let gone = read_gone(tx)?;
    let edit = read_edits(tx)?;
    let origin = read_origins(tx)?;
    Ok(LedgerRows {
        entered,
        gone,
        edit,
        origin,
    })
}

/// The rows of all tables, each read by one statement.
pub fn read_rows<S: Alter>(tx: &mut Transaction<'_, S>) -> Result<StoredRows, Error>
    ensures { Reads S.Store (λ r t. AreSame t (tables_of r)) tx.old tx.new result }
{
    let named = read_named(tx)?;
    let routes = read_routes(tx)?;
    let ledgers = read_ledgers(tx)?;
    Ok(StoredRows {
        named,
        routes,
        ledgers,
    })
}
