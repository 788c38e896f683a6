//! The reader of the image that the tables of a store hold.

use crate::steps::{begin, finish, with_ledgers};
use lrs_image::LoadFault;
use lrs_machine::Image;
use lrs_store_tables::stored_rows::{LedgerRows, ReadImage, StoredRows};
use std::alloc::Global;

/// Reads the image that the rows of a store hold, each table beside those before it.
#[derive(Clone, Copy)]
pub struct Reader;

impl ReadImage for Reader {
    fn read(&self, alloc: Global, rows: StoredRows) -> Result<Image, LoadFault> {
        let StoredRows {
            named,
            routes,
            ledgers,
        } = rows;
        let LedgerRows {
            entered,
            gone,
            edit,
            origin,
        } = ledgers;
        let begun = begin(alloc, named, routes)?;
        let held = with_ledgers(alloc, begun, entered, gone)?;
        finish(alloc, held, edit, origin)
    }
}
