//! A store of an inventory's tables.

ghost use Rattle.std.specs.Prelude.{◌≡◌, false, IfOk};
ghost use Rattle.sqlite.specs.Held.{state};
ghost use Rattle.sqlite.specs.Steps.{over_memory};
ghost use Rattle.lrs_store_tables.specs.Connections.{IsReady};
ghost use Rattle.lrs_store_tables.specs.HeldRows.{HoldsOnly};
ghost use Rattle.lrs_store_tables.specs.NewStores.{new_rows};

use crate::new_store::make_store;
use sqlite::{Alter, Connection, Error, ErrorCode, MemStore};
use std::alloc::Global;

/// The tables of an inventory in a store.
#[derive(Drop)]
pub struct TableStore<S: Alter> {
    pub conn: Connection<S>,
}

/// Why a store is not opened.
#[derive(Clone, Copy, PartialEq, Eq)]
pub enum StoreFault {
    /// There is too little memory.
    Memory,
    /// The store failed.
    Store,
}

impl TableStore<MemStore> {
    /// A new store in memory, without entries.
    ///
    /// # Errors
    /// When memory runs out.
    pub fn in_memory(alloc: Global) -> Result<TableStore<MemStore>, StoreFault>
        ensures ready { IfOk result (λ t. (t.conn.in_transaction ≡ false)
            × IsReady (state over_memory t.conn)) }
        ensures empty { IfOk result (λ t. HoldsOnly (state over_memory t.conn) new_rows) }
    {
        let Ok(mut conn) = Connection::open_in_memory(alloc) else {
            return Err(StoreFault::Memory);
        };
        match make_store(&mut conn) {
            Ok(()) => Ok(TableStore { conn }),
            Err(Error::SqliteFailure(ErrorCode::OutOfMemory)) => Err(StoreFault::Memory),
            Err(_) => Err(StoreFault::Store),
        }
    }
}
