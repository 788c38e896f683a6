//! Whether two definitions are the same.

ghost use Rattle.std.specs.Prelude.{◌≡◌, ◌↔◌, [], IsTrue, ⊤};
ghost use Rattle.std.specs.List.{AllByRecursion};
ghost use Rattle.sqlite_value.specs.declared.value.Value.TheVariants.{Null};
ghost use Rattle.lrs_store_files.specs.PlainTables.{IsPlainColumn, IsPlainTable};

use sqlite_items::Items;
use sqlite_schema::code::Terms;
use sqlite_schema::schema::{Column, Index, Reference, Schema, Stamps, Table};
use sqlite_value::keys::Order;
use sqlite_value::value::{Bytes, Value};

/// What can be compared with a definition that is plain.
pub trait Same {
    // The definitions with which others are compared: of another one, nothing is the same.
    ghost is_plain: { Self → Type 0 };

    /// Whether this is the other, and the other is plain.
    fn is_same(&self, other: &Self) -> bool
        ensures { IsTrue result ↔ ((self.now ≡ other.now) × is_plain other.now) };
}

/// Whether two lists are the same, and the second is of plain definitions.
pub fn are_same<T: Same>(first: &[T], second: &[T]) -> bool
    ensures { IsTrue result ↔ ((first.now ≡ second.now) × AllByRecursion T.is_plain second.now) }
{
    match (first, second) {
        ([], []) => true,
        ([a, first @ ..], [b, second @ ..]) => a.is_same(b) && are_same(first, second),
        _ => false,
    }
}

impl Same for Bytes {
    ghost is_plain = { λ _. ⊤ };

    fn is_same(&self, other: &Bytes) -> bool {
        self.as_slice() == other.as_slice()
    }
}

impl Same for Items<usize> {
    ghost is_plain = { λ _. ⊤ };

    fn is_same(&self, other: &Items<usize>) -> bool {
        self.as_slice() == other.as_slice()
    }
}

fn are_null(first: &Value, second: &Value) -> bool
    ensures { IsTrue result ↔ ((first.now ≡ second.now) × (second.now ≡ Null)) }
{
    matches!((first, second), (Value::Null, Value::Null))
}

fn are_none(first: &Terms, second: &Terms) -> bool
    ensures { IsTrue result ↔ ((first.now ≡ second.now) × (second.now ≡ [])) }
{
    first.roots.is_empty() && second.roots.is_empty()
}

impl Same for Column {
    ghost is_plain = { IsPlainColumn };

    fn is_same(&self, other: &Column) -> bool {
        self.name.is_same(&other.name)
            && self.kind == other.kind
            && self.is_strict == other.is_strict
            && self.not_null == other.not_null
            && are_null(&self.default, &other.default)
            && self.collation == other.collation
    }
}

impl Same for Reference {
    ghost is_plain = { λ _. ⊤ };

    fn is_same(&self, other: &Reference) -> bool {
        self.columns.is_same(&other.columns)
            && self.parent.is_same(&other.parent)
            && are_same(
                self.parent_columns.as_slice(),
                other.parent_columns.as_slice(),
            )
            && self.on_delete == other.on_delete
            && self.on_update == other.on_update
            && self.is_deferred == other.is_deferred
    }
}

impl Same for Index {
    ghost is_plain = { λ _. ⊤ };

    fn is_same(&self, other: &Index) -> bool {
        self.name.is_same(&other.name)
            && self.tree == other.tree
            && self.table == other.table
            && self.columns.is_same(&other.columns)
            && self.order == other.order
            && self.is_unique == other.is_unique
    }
}

#[tactic(auto, using(crate::proofs::PlainTables::all_true))]
fn are_same_stamps(first: &Stamps, second: &Stamps) -> bool
    ensures { IsTrue result ↔ ((first.now ≡ second.now) × (second.now.terms ≡ [])) }
{
    first.places.is_same(&second.places)
        && are_none(&first.terms, &second.terms)
        && are_same(first.formats.as_slice(), second.formats.as_slice())
}

impl Same for Order {
    ghost is_plain = { λ _. ⊤ };

    fn is_same(&self, other: &Order) -> bool {
        self.digits == other.digits
    }
}

#[tactic(auto, using(crate::proofs::PlainTables::all_true))]
fn have_same_uniques(first: &Table, second: &Table) -> bool
    ensures { IsTrue result ↔ ((first.now.uniques ≡ second.now.uniques)
        × (first.now.orders ≡ second.now.orders)) }
{
    are_same(first.uniques.as_slice(), second.uniques.as_slice())
        && are_same(first.orders.as_slice(), second.orders.as_slice())
}

fn have_same_keys(first: &Table, second: &Table) -> bool
    ensures { IsTrue result ↔ ((first.now.key ≡ second.now.key)
        × (first.now.primary ≡ second.now.primary) × (first.now.uniques ≡ second.now.uniques)
        × (first.now.orders ≡ second.now.orders)) }
{
    first.key == second.key
        && first.primary.is_same(&second.primary)
        && have_same_uniques(first, second)
}

impl Same for Table {
    ghost is_plain = { IsPlainTable };

    fn is_same(&self, other: &Table) -> bool {
        self.name.is_same(&other.name)
            && self.tree == other.tree
            && are_same(self.columns.as_slice(), other.columns.as_slice())
            && have_same_keys(self, other)
            && are_none(&self.checks, &other.checks)
            && are_same(self.references.as_slice(), other.references.as_slice())
            && self.computed.is_same(&other.computed)
            && are_same_stamps(&self.stamps, &other.stamps)
            && self.is_counted == other.is_counted
    }
}

/// Whether a schema has these tables and indexes, all plain, and no view.
pub fn has_only(schema: &Schema, tables: &[Table], indexes: &[Index]) -> bool
    ensures { IsTrue result
        ↔ ((schema.now ≡ record { tables = tables.now; indexes = indexes.now; views = [] })
        × AllByRecursion IsPlainTable tables.now) }
{
    are_same(schema.tables.as_slice(), tables)
        && are_same(schema.indexes.as_slice(), indexes)
        && schema.views.is_empty()
}
