//! What a database has that is no inventory.

use crate::copy::connect_to_copy;
use crate::shown::shown;
use sqlite::{Alter, Connection, Error};
use std::alloc::Global;
use std::rt::HostRuntime;

/// What a database has.
#[derive(Drop)]
pub(crate) enum Contents {
    /// The tables of an inventory, as they are to be.
    Inventory,
    /// The tables of an inventory, in another order or with other columns.
    OtherOrder,
    /// The tables of an inventory, and something that no inventory has: what SQL calls such a thing, and its name.
    Added(&'static str, String),
    /// These tables, with a space before each.
    Tables(String),
    /// It is not opened: what the kit's `sqlite` says.
    Unreadable(String),
    /// It was not looked into: it is large, or memory ran out.
    Unknown,
}

// The tables of an inventory, and how many columns each has.
const TABLES: [(&str, usize); 12] = [
    ("version", 1),
    ("link", 2),
    ("class", 2),
    ("asset", 4),
    ("piece", 6),
    ("mark", 4),
    ("ref", 3),
    ("span", 5),
    ("entered", 6),
    ("gone", 7),
    ("edit", 3),
    ("origin", 2),
];

// What SQL calls an object, by the text that made it, as SQLite keeps it.
fn sort_of(text: &[u8]) -> &'static str {
    if text.starts_with(b"CREATE VIEW") {
        "VIEW"
    } else if text.starts_with(b"CREATE TRIGGER") {
        "TRIGGER"
    } else if text.starts_with(b"CREATE INDEX") || text.starts_with(b"CREATE UNIQUE INDEX") {
        "INDEX"
    } else {
        "TABLE"
    }
}

fn push_name(alloc: Global, names: &mut String, name: &[u8]) -> Option<()> {
    names.push_str(" ").ok()?;
    let name = shown(alloc, name)?;
    names.push_str(name.as_str()).ok()
}

fn push_names<S: Alter>(alloc: Global, names: &mut String, conn: &Connection<S>) -> Option<()> {
    for table in conn.schema().tables.as_slice() {
        push_name(alloc, names, table.name.as_slice())?;
    }
    Some(())
}

// The names of a database's tables, with a space before each.
fn table_names<S: Alter>(alloc: Global, conn: &Connection<S>) -> Option<String> {
    let mut names = String::new(alloc);
    push_names(alloc, &mut names, conn)?;
    Some(names)
}

// Whether a database has a table of this name. One that cannot be changed by SQL stands among the views.
fn has_table<S: Alter>(conn: &Connection<S>, name: &str) -> bool {
    for table in conn.schema().tables.as_slice() {
        if table.name.as_slice() == name.as_bytes() {
            return true;
        }
    }
    for view in conn.schema().views.as_slice() {
        if view.name.as_slice() == name.as_bytes() && sort_of(view.sql.as_slice()) == "TABLE" {
            return true;
        }
    }
    false
}

// Whether a database has the tables of an inventory, in whatever order.
fn has_each_table<S: Alter>(conn: &Connection<S>) -> bool {
    for (name, _) in &TABLES {
        if !has_table(conn, name) {
            return false;
        }
    }
    true
}

// Whether a database has the tables of an inventory in their order, with as many columns.
fn has_tables_in_order<S: Alter>(conn: &Connection<S>) -> bool {
    let tables = conn.schema().tables.as_slice();
    if tables.len() != TABLES.len() {
        return false;
    }
    for (place, table) in tables.iter().enumerate() {
        let (name, width) = TABLES[place];
        if table.name.as_slice() != name.as_bytes() || table.columns.as_slice().len() != width {
            return false;
        }
    }
    true
}

fn is_of_inventory(table: &[u8]) -> bool {
    for (name, _) in &TABLES {
        if name.as_bytes() == table {
            return true;
        }
    }
    false
}

// Whether SQLite made an index by itself, for the key of a table.
fn is_automatic(name: &[u8]) -> bool {
    name.starts_with(b"sqlite_autoindex_")
}

fn added(alloc: Global, sort: &'static str, name: &[u8]) -> Contents {
    match shown(alloc, name) {
        Some(name) => Contents::Added(sort, name),
        None => Contents::Unknown,
    }
}

// The first view, trigger or table of a database that no inventory has.
fn added_view<S: Alter>(alloc: Global, conn: &Connection<S>) -> Option<Contents> {
    for view in conn.schema().views.as_slice() {
        let sort = sort_of(view.sql.as_slice());
        let is_known = sort == "TABLE" && is_of_inventory(view.name.as_slice());
        if !is_known && !is_automatic(view.name.as_slice()) {
            return Some(added(alloc, sort, view.name.as_slice()));
        }
    }
    for table in conn.schema().tables.as_slice() {
        if !is_of_inventory(table.name.as_slice()) {
            return Some(added(alloc, "TABLE", table.name.as_slice()));
        }
    }
    None
}

fn added_index<S: Alter>(alloc: Global, conn: &Connection<S>) -> Option<Contents> {
    for index in conn.schema().indexes.as_slice() {
        if !is_automatic(index.name.as_slice()) {
            return Some(added(alloc, "INDEX", index.name.as_slice()));
        }
    }
    None
}

fn contents_of<S: Alter>(alloc: Global, conn: &Connection<S>) -> Contents {
    if !has_each_table(conn) {
        return match table_names(alloc, conn) {
            Some(names) => Contents::Tables(names),
            None => Contents::Unknown,
        };
    }
    if let Some(found) = added_view(alloc, conn) {
        return found;
    }
    match added_index(alloc, conn) {
        Some(found) => found,
        None if has_tables_in_order(conn) => Contents::Inventory,
        None => Contents::OtherOrder,
    }
}

// Over any store, since a function over one that is in files is costly to prove.
fn contents_in<S: Alter + Drop>(alloc: Global, conn: Result<Connection<S>, Error>) -> Contents {
    match conn {
        Ok(conn) => contents_of(alloc, &conn),
        Err(error) => match format!(in alloc; "{error}") {
            Ok(text) => Contents::Unreadable(text),
            Err(_) => Contents::Unknown,
        },
    }
}

/// What the database at a path has, by a copy of it.
pub(crate) fn contents_at(rt: &HostRuntime, path: &str) -> Contents {
    match connect_to_copy(rt, path) {
        Some(conn) => contents_in(rt.alloc(), conn),
        None => Contents::Unknown,
    }
}
