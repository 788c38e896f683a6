//! Which of the tables that this program makes a store has.

ghost use Rattle.std.specs.Prelude.{◌≡◌, ◌↔◌, ℕ, ◌≤◌, IfOk};
ghost use Rattle.lrs_store_tables.specs.Schema.{inventory};
ghost use Rattle.lrs_store_tables.specs.TableCreation.{first_tables};

use crate::comparison::has_only;
use lrs_store_tables::{TABLES, TableStore};
use sqlite_schema::schema::Schema;
use std::alloc::{AllocError, Global};

/// How many indexes the first tables have, by how many tables they are.
const INDEXES: [usize; TABLES + 1] = [0, 0, 0, 1, 1, 2, 3, 4, 5, 6, 7, 8, 8];

/// What a store has.
#[derive(Clone, Copy, PartialEq, Eq)]
pub enum Known {
    /// The first of the tables, in the order in which they are made: none, some or all. Those of version 1 are all but
    /// the last, which tells origins.
    First(usize),
    /// Other tables.
    Other,
}

/// The tables of version 2, as a store that is made defines them.
///
/// # Errors
/// When memory runs out: making a store in memory fails for nothing else.
pub fn wanted(alloc: Global) -> Result<Schema, AllocError>
    ensures { IfOk result (λ schema. schema ≡ inventory) }
{
    let Ok(made) = TableStore::in_memory(alloc) else {
        return Err(AllocError);
    };
    made.conn.schema().copy(alloc)
}

/// Which tables the schema of a store has, beside those of version 2.
pub fn which(found: &Schema, wanted: &Schema) -> Known
    requires wanted { wanted.now ≡ inventory }
    ensures { (n : ℕ) → (result ≡ Known.First n) ↔ ((n ≤ 12) × (found.now ≡ first_tables n)) }
{
    let count = found.tables.len();
    if count > TABLES {
        return Known::Other;
    }
    let tables = &wanted.tables.as_slice()[..count];
    let indexes = &wanted.indexes.as_slice()[..INDEXES[count]];
    if has_only(found, tables, indexes) {
        Known::First(count)
    } else {
        Known::Other
    }
}
