//! Stores of tables and of indexes alone, without REAL columns, whose keys rise by their bytes.

ghost use Rattle.std.specs.Prelude.{◌≡◌, ◌==◌, map, IfOk, IsTrue};
ghost use Rattle.sqlite_value.specs.Order.{column};
ghost use Rattle.std.specs.List.{list_all};
ghost use Rattle.sqlite_schema.specs.Rules.{table_reals};
ghost use Rattle.lrs_store_questions.specs.PlainStores.{plain_shape, plain_layout, plain_row, IsPlain, ListPlain};

use sqlite_catalog::load;
use sqlite_schema::schema::{Index, Schema, Table};
use sqlite_trees::store::Shape;
use sqlite_value::keys::Order;
use sqlite_value::order::compare;
use sqlite_value::row::Row;
use sqlite_value::value::ValueRef;
use std::alloc::{AllocError, Global};

/// The shape of the tree that a row of sqlite_schema names, if it is a table or such an index.
fn plain_shape(row: &Row) -> Shape
    ensures { result ≡ plain_shape row.now }
{
    if compare(row.get(1), ValueRef::Text(b"table")).is_eq() {
        Shape::Table
    } else {
        Shape::Index(Order::PLAIN)
    }
}

/// The shape of the tree of each row, and which of its columns are REAL: none.
pub(crate) fn plain_layouts(alloc: Global, rows: &[Row]) -> Result<Vec<(Shape, u64)>, AllocError>
    ensures { IfOk result (λ layouts. layouts.items ≡ map plain_layout rows.now) }
{
    let mut layouts = Vec::with_capacity(alloc, rows.len())?;
    for row in rows {
        layouts.push((plain_shape(row), 0))?;
    }
    Ok(layouts)
}

/// The rows with the codes of these shapes.
fn plain_rows(alloc: Global, rows: &[Row]) -> Result<Vec<Row>, AllocError>
    ensures { IfOk result (λ coded. coded.items ≡ map plain_row rows.now) }
{
    let mut coded = Vec::with_capacity(alloc, rows.len())?;
    for row in rows {
        coded.push(load::with_code(alloc, row, plain_shape(row))?)?;
    }
    Ok(coded)
}

/// Whether no column of a table is REAL.
fn has_no_reals(table: &Table) -> bool
    ensures { result ≡ (table_reals table.now == 0) }
{
    load::reals_of_table(table) == Some(0)
}

/// Whether no column of any table is REAL.
fn have_no_reals(tables: &[Table]) -> bool
    ensures { result ≡ list_all (λ t. table_reals t == 0) tables.now }
{
    tables.iter().all(|t| has_no_reals(t))
}

/// Whether the keys of all indexes rise by their bytes.
fn rise_plainly(indexes: &[Index]) -> bool
    ensures { result ≡ list_all (λ i. i.order.digits == 0) indexes.now }
{
    indexes.iter().all(|i| i.order == Order::PLAIN)
}

/// Whether there are no views, no REAL columns and no other keys.
fn is_plain(schema: &Schema) -> bool
    ensures { IsTrue result → IsPlain schema.now }
{
    schema.views.is_empty()
        && have_no_reals(schema.tables.as_slice())
        && rise_plainly(schema.indexes.as_slice())
}

/// Whether these rows of sqlite_schema list plain tables and indexes alone.
pub(crate) fn list_plain(alloc: Global, rows: &[Row]) -> Result<bool, AllocError>
    ensures { IfOk result (λ found. IsTrue found → ListPlain rows.now) }
{
    let coded = plain_rows(alloc, rows)?;
    match load::read(alloc, coded.as_slice())? {
        Some(schema) => Ok(is_plain(&schema)),
        None => Ok(false),
    }
}
