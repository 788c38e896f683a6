//! All rows of a store, table by table, and what reads an image from them.

ghost use Rattle.lrs_store_tables.specs.Rows.{Tells, tables_of};

use lrs_image::LoadFault;
use lrs_machine::Image;
use sqlite::Row;
use std::alloc::Global;

/// Rows of the version, and of what has names and numbers of its own.
#[derive(Drop)]
pub struct NamedRows {
    pub version: Vec<Row>,
    pub link: Vec<Row>,
    pub class: Vec<Row>,
    pub asset: Vec<Row>,
}

/// Rows of routes.
#[derive(Drop)]
pub struct RouteRows {
    pub piece: Vec<Row>,
    pub mark: Vec<Row>,
    pub referent: Vec<Row>,
    pub span: Vec<Row>,
}

/// Rows of the ledgers, of edits, and of the edits that entered assets.
#[derive(Drop)]
pub struct LedgerRows {
    pub entered: Vec<Row>,
    pub gone: Vec<Row>,
    pub edit: Vec<Row>,
    pub origin: Vec<Row>,
}

/// The rows of each table, in whatever order the store gave them.
#[derive(Drop)]
pub struct StoredRows {
    pub named: NamedRows,
    pub routes: RouteRows,
    pub ledgers: LedgerRows,
}

/// Reads the image that the rows of a store hold.
pub trait ReadImage {
    /// The image that the rows hold.
    ///
    /// # Errors
    /// `Unsound` with the first unsound table, or `Memory`; never `Store`.
    fn read(&self, alloc: Global, rows: StoredRows) -> Result<Image, LoadFault>
        ensures { Tells result (tables_of rows) };
}
