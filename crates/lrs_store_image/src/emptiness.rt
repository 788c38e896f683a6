//! Whether tables have no row.

ghost use Rattle.std.specs.Prelude.{◌≡◌, ◌&&◌, map};
ghost use Rattle.lrs_measure.specs.Lists.{is_nothing};
ghost use Rattle.lrs_store_tables.specs.StoredRows.{entered_in, gone_in};
ghost use Rattle.lrs_store_image.specs.Steps.{have_no_first, have_no_ledgers, have_no_edits, edits_in};

use lrs_store_tables::stored_rows::{NamedRows, RouteRows};
use sqlite::Row;

fn is_nothing(rows: &[Row]) -> bool
    ensures { result ≡ is_nothing rows.now }
{
    rows.is_empty()
}

fn no_named(rows: &NamedRows) -> bool
    ensures { result ≡ (is_nothing rows.now.version.items && is_nothing rows.now.link.items
        && is_nothing rows.now.class.items && is_nothing rows.now.asset.items) }
{
    is_nothing(rows.version.as_slice())
        && is_nothing(rows.link.as_slice())
        && is_nothing(rows.class.as_slice())
        && is_nothing(rows.asset.as_slice())
}

fn no_routes(rows: &RouteRows) -> bool
    ensures { result ≡ (is_nothing rows.now.piece.items && is_nothing rows.now.mark.items
        && is_nothing rows.now.referent.items && is_nothing rows.now.span.items) }
{
    is_nothing(rows.piece.as_slice())
        && is_nothing(rows.mark.as_slice())
        && is_nothing(rows.referent.as_slice())
        && is_nothing(rows.span.as_slice())
}

/// Whether no table has a row that is not one of the ledgers.
pub(crate) fn no_first(named: &NamedRows, routes: &RouteRows) -> bool
    ensures { result ≡ have_no_first named.now routes.now }
{
    no_named(named) && no_routes(routes)
}

/// Whether no ledger has a row.
pub(crate) fn no_ledgers(entered: &[Row], gone: &[Row]) -> bool
    ensures { result ≡ have_no_ledgers (record
        { entered = map entered_in entered.now; gone = map gone_in gone.now }) }
{
    is_nothing(entered) && is_nothing(gone)
}

/// Whether the tables of edits and of origins have no row.
pub(crate) fn no_edits(edits: &[Row], origins: &[Row]) -> bool
    ensures { result ≡ have_no_edits (edits_in edits.now origins.now) }
{
    is_nothing(edits) && is_nothing(origins)
}
