//! The rules of the tables of an inventory, and a row that breaks one of them, where SQL can tell.

use crate::copy::connect_to_copy;
use crate::shown::shown;
use sqlite::{Alter, Connection, Error, Row};
use std::alloc::Global;
use std::rt::HostRuntime;

/// A row of a table, and what is wrong with it.
#[derive(Drop)]
pub(crate) struct BrokenRow {
    pub(crate) row: String,
    pub(crate) flaw: &'static str,
}

// A rule of a table: what finds the rows that break it, each as one text, and what is wrong with them.
#[derive(Clone, Copy)]
struct Rule {
    table: &'static str,
    query: &'static str,
    flaw: &'static str,
}

const RULES: [Rule; 20] = [
    Rule {
        table: "version",
        query: "SELECT v || '' FROM version WHERE v <> 2",
        flaw: "the version is another than 2",
    },
    Rule {
        table: "link",
        query: "SELECT number || '' FROM link WHERE number < 1 OR number > 999999",
        flaw: "its number is out of range",
    },
    Rule {
        table: "link",
        query: "SELECT number || '' FROM link WHERE length < 1 OR length > 1000000000",
        flaw: "its length is out of range",
    },
    Rule {
        table: "class",
        query: "SELECT name FROM class WHERE kind < 0 OR kind > 2",
        flaw: "its kind is none of 0, 1 and 2",
    },
    Rule {
        table: "asset",
        query: "SELECT number || '' FROM asset WHERE number < 1 OR number > 1000000000000",
        flaw: "its number is out of range",
    },
    Rule {
        table: "asset",
        query: "SELECT number || '' FROM asset WHERE lateral < 0 OR lateral > 100000",
        flaw: "its lateral offset is out of range",
    },
    Rule {
        table: "piece",
        query: "SELECT route || ' ' || n FROM piece WHERE a < 0 OR a >= b",
        flaw: "it ends where it begins, or before",
    },
    Rule {
        table: "piece",
        query: "SELECT route || ' ' || n FROM piece WHERE dir < 0 OR dir > 1",
        flaw: "its direction is neither 0 nor 1",
    },
    Rule {
        table: "mark",
        query: "SELECT route || ' ' || n FROM mark WHERE route NOT IN (SELECT route FROM piece)",
        flaw: "there is no such route",
    },
    Rule {
        table: "mark",
        query: "SELECT route || ' ' || n FROM mark WHERE n = 0 AND chainage <> 0",
        flaw: "the first mark of a route is not at 0",
    },
    Rule {
        table: "ref",
        query: "SELECT name FROM ref WHERE route NOT IN (SELECT route FROM piece)",
        flaw: "there is no such route",
    },
    Rule {
        table: "span",
        query: "SELECT asset || ' ' || route || ' ' || lo FROM span WHERE lo >= hi",
        flaw: "it ends where it begins, or before",
    },
    Rule {
        table: "span",
        query: "SELECT asset || ' ' || route || ' ' || lo FROM span WHERE side < 0 OR side > 2",
        flaw: "its side is none of 0, 1 and 2",
    },
    Rule {
        table: "span",
        query: "SELECT asset || ' ' || route || ' ' || lo FROM span WHERE route NOT IN (SELECT route FROM piece)",
        flaw: "there is no such route",
    },
    Rule {
        table: "entered",
        query: "SELECT edit || ' ' || asset || ' ' || link || ' ' || lo FROM entered WHERE lo >= hi",
        flaw: "it ends where it begins, or before",
    },
    Rule {
        table: "entered",
        query: "SELECT edit || ' ' || asset || ' ' || link || ' ' || lo FROM entered WHERE side < 0 OR side > 1",
        flaw: "its side is neither 0 nor 1",
    },
    Rule {
        table: "gone",
        query: "SELECT edit || ' ' || asset || ' ' || link || ' ' || lo FROM gone WHERE lo >= hi",
        flaw: "it ends where it begins, or before",
    },
    Rule {
        table: "gone",
        query: "SELECT edit || ' ' || asset || ' ' || link || ' ' || lo FROM gone WHERE side < 0 OR side > 1",
        flaw: "its side is neither 0 nor 1",
    },
    Rule {
        table: "edit",
        query: "SELECT number || '' FROM edit WHERE number < 1 OR number > (SELECT count(*) FROM edit)",
        flaw: "its number is above the number of edits",
    },
    Rule {
        table: "origin",
        query: "SELECT asset || '' FROM origin WHERE asset NOT IN (SELECT asset FROM entered)",
        flaw: "the asset was never entered",
    },
];

fn text_in(alloc: Global, row: &Row) -> Option<String> {
    let text = row.get::<String>(0).ok()?;
    shown(alloc, text.as_str().as_bytes())
}

// The first row that a query finds, as one text.
fn first_row<S: Alter>(alloc: Global, conn: &mut Connection<S>, query: &str) -> Option<String> {
    let row = conn.query_row(query, &[]).ok()?;
    text_in(alloc, &row)
}

// The first row that breaks a rule.
fn row_by<S: Alter>(alloc: Global, conn: &mut Connection<S>, rule: &Rule) -> Option<BrokenRow> {
    let row = first_row(alloc, conn, rule.query)?;
    Some(BrokenRow {
        row,
        flaw: rule.flaw,
    })
}

fn first_broken<S: Alter>(
    alloc: Global,
    conn: &mut Connection<S>,
    table: &str,
) -> Option<BrokenRow> {
    for rule in &RULES {
        if rule.table == table {
            if let Some(broken) = row_by(alloc, conn, rule) {
                return Some(broken);
            }
        }
    }
    None
}

// Over any store, since a function over one that is in files is costly to prove. What looks for the row borrows the
// connection, so that there is one place where it is dropped.
fn broken_in<S: Alter + Drop>(
    alloc: Global,
    conn: Result<Connection<S>, Error>,
    table: &str,
) -> Option<BrokenRow> {
    match conn {
        Ok(mut conn) => first_broken(alloc, &mut conn, table),
        Err(_) => None,
    }
}

/// A row of a table in the file at a path that breaks a rule of its own, by its key. None where the rows have to be seen
/// together, or the file is not looked into.
pub(crate) fn broken_row(rt: &HostRuntime, path: &str, table: &str) -> Option<BrokenRow> {
    let conn = connect_to_copy(rt, path)?;
    broken_in(rt.alloc(), conn, table)
}

/// What has to be so of all rows of a table.
pub(crate) fn rules_of(table: &str) -> &'static str {
    match table {
        "version" => "there is one, and it is 2",
        "link" => "each number and length is in range",
        "class" => "each has a name and one of three kinds",
        "asset" => "each has a class that is there, and a number, a value and an offset in range",
        "piece" => {
            "those of a route are numbered from 0 on, each on a link that is there, and no millimetre is in two"
        }
        "mark" => {
            "those of a route are numbered from 0 on, and both chainage and measure rise, from 0 to its length"
        }
        "ref" => "each has a name of its own, and lies on a route",
        "span" => {
            "each lies on its route, an asset of its own a place, and no two of an exclusive class one place"
        }
        "entered" => {
            "each lies on a link that is there, of an asset that is there, and none of them twice"
        }
        "gone" => "each was entered before, is held no more, and is gone once",
        "edit" => {
            "they are numbered from 1 on, each key is there once, and so is each edit of entered and gone"
        }
        _ => "each asset was entered, by the edit that stands there",
    }
}
