//! A new store in memory, which a keeper takes.

ghost use Rattle.std.specs.Prelude.{◌≡◌, IfOk, false};
ghost use Rattle.sqlite.specs.Held.{state};
ghost use Rattle.sqlite.specs.Steps.{over_memory};
ghost use Rattle.lrs_store_tables.specs.NewStores.{IsNew};

use lrs_store_tables::{StoreFault, make_store};
use sqlite::{Connection, Error, ErrorCode, MemStore};
use std::alloc::Global;

/// A connection to a new store in memory, with all tables and no entries.
///
/// # Errors
/// When memory runs out.
pub(crate) fn new_store(alloc: Global) -> Result<Connection<MemStore>, StoreFault>
    ensures autocommit { IfOk result (λ conn. conn.in_transaction ≡ false) }
    ensures made { IfOk result (λ conn. IsNew (state over_memory conn)) }
{
    let Ok(mut conn) = Connection::open_in_memory(alloc) else {
        return Err(StoreFault::Memory);
    };
    match make_store(&mut conn) {
        Ok(()) => Ok(conn),
        Err(Error::SqliteFailure(ErrorCode::OutOfMemory)) => Err(StoreFault::Memory),
        Err(_) => Err(StoreFault::Store),
    }
}
