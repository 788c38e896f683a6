//! Tables are read, each by one statement, in whatever order their rows are given.

ghost use Rattle.lrs_store_tables.specs.StoredRows.{version_in, link_in, class_in, asset_in, piece_in, mark_in, ref_in, span_in, entered_in, gone_in, edit_in, origin_in};
ghost use Rattle.lrs_store_tables.specs.TableReads.{Reads, AreRowsOf};

use sqlite::{Alter, Error, Row, Transaction};

/// The rows of the table `version`.
pub fn read_versions<S: Alter>(tx: &mut Transaction<'_, S>) -> Result<Vec<Row>, Error>
    ensures { Reads S.Store (AreRowsOf (λ t. t.version) version_in) tx.old tx.new result }
{
    tx.query_all("SELECT v FROM version", &[])
}

/// The rows of the table `link`.
pub fn read_links<S: Alter>(tx: &mut Transaction<'_, S>) -> Result<Vec<Row>, Error>
    ensures { Reads S.Store (AreRowsOf (λ t. t.link) link_in) tx.old tx.new result }
{
    tx.query_all("SELECT number, length FROM link", &[])
}

/// The rows of the table `class`.
pub fn read_classes<S: Alter>(tx: &mut Transaction<'_, S>) -> Result<Vec<Row>, Error>
    ensures { Reads S.Store (AreRowsOf (λ t. t.class) class_in) tx.old tx.new result }
{
    tx.query_all("SELECT name, kind FROM class", &[])
}

/// The rows of the table `asset`.
pub fn read_assets<S: Alter>(tx: &mut Transaction<'_, S>) -> Result<Vec<Row>, Error>
    ensures { Reads S.Store (AreRowsOf (λ t. t.asset) asset_in) tx.old tx.new result }
{
    tx.query_all("SELECT number, class, value, lateral FROM asset", &[])
}

/// The rows of the table `piece`.
pub fn read_pieces<S: Alter>(tx: &mut Transaction<'_, S>) -> Result<Vec<Row>, Error>
    ensures { Reads S.Store (AreRowsOf (λ t. t.piece) piece_in) tx.old tx.new result }
{
    tx.query_all("SELECT route, n, link, a, b, dir FROM piece", &[])
}

/// The rows of the table `mark`.
pub fn read_marks<S: Alter>(tx: &mut Transaction<'_, S>) -> Result<Vec<Row>, Error>
    ensures { Reads S.Store (AreRowsOf (λ t. t.mark) mark_in) tx.old tx.new result }
{
    tx.query_all("SELECT route, n, chainage, measure FROM mark", &[])
}

/// The rows of the table `ref`.
pub fn read_refs<S: Alter>(tx: &mut Transaction<'_, S>) -> Result<Vec<Row>, Error>
    ensures { Reads S.Store (AreRowsOf (λ t. t.ref) ref_in) tx.old tx.new result }
{
    tx.query_all("SELECT name, route, place FROM ref", &[])
}

/// The rows of the table `span`.
pub fn read_spans<S: Alter>(tx: &mut Transaction<'_, S>) -> Result<Vec<Row>, Error>
    ensures { Reads S.Store (AreRowsOf (λ t. t.span) span_in) tx.old tx.new result }
{
    tx.query_all("SELECT asset, route, lo, hi, side FROM span", &[])
}

/// The rows of the table `entered`.
pub fn read_entered<S: Alter>(tx: &mut Transaction<'_, S>) -> Result<Vec<Row>, Error>
    ensures { Reads S.Store (AreRowsOf (λ t. t.entered) entered_in) tx.old tx.new result }
{
    tx.query_all("SELECT edit, asset, link, lo, hi, side FROM entered", &[])
}

/// The rows of the table `gone`.
pub fn read_gone<S: Alter>(tx: &mut Transaction<'_, S>) -> Result<Vec<Row>, Error>
    ensures { Reads S.Store (AreRowsOf (λ t. t.gone) gone_in) tx.old tx.new result }
{
    tx.query_all(
        "SELECT edit, cause, asset, link, lo, hi, side FROM gone",
        &[],
    )
}

/// The rows of the table `edit`.
pub fn read_edits<S: Alter>(tx: &mut Transaction<'_, S>) -> Result<Vec<Row>, Error>
    ensures { Reads S.Store (AreRowsOf (λ t. t.edit) edit_in) tx.old tx.new result }
{
    tx.query_all("SELECT number, token, line FROM edit", &[])
}

/// The rows of the table `origin`.
pub fn read_origins<S: Alter>(tx: &mut Transaction<'_, S>) -> Result<Vec<Row>, Error>
    ensures { Reads S.Store (AreRowsOf (λ t. t.origin) origin_in) tx.old tx.new result }
{
    tx.query_all("SELECT asset, edit FROM origin", &[])
}
