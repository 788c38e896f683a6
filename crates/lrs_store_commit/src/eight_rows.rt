//! The values of eight rows, for one statement.

ghost use Rattle.std.specs.Prelude.{◌≡◌, ◌+◌, ◌*◌, ◌<◌, ◌^◌, ℕ, length, OnOk};
ghost use Rattle.std.specs.List.{AllByRecursion};
ghost use Rattle.sqlite.specs.Values.{bound};
ghost use Rattle.lrs_store_tables.specs.Cells.{all_cells};

use sqlite::Error;
use sqlite::types::ValueRef;

/// A value that has a row in some table, beside what else the row says.
pub trait Filled<C> {
    ghost use Rattle.sqlite_value.specs.Order.{Row};

    // whether it has one
    ghost has: { C → Self → Type 0 };

    // how many columns the table has
    ghost columns: { ℕ };

    // what the columns hold for this value, which has this number in its list
    ghost values: { C → ℕ → Self → Row };

    /// Fills in the values of the row.
    fn fill<'a>(&'a self, of: &'a C, n: u64, cells: &mut [ValueRef<'a>]) -> Result<(), Error>
        requires there { has of.now self.now }
        requires room { length cells.old ≡ columns }
        ensures filled { OnOk result (bound cells.new ≡ values of.now n self.now) }
        ensures room { length cells.new ≡ columns };
}

/// Fills in the values of eight rows, one row after the other. The first has this number, each next one more.
pub fn fill_eight<'a, C, R: Filled<C>>(
    of: &'a C,
    n: u64,
    rows: &'a [R],
    cells: &mut [ValueRef<'a>],
) -> Result<(), Error>
    requires there { AllByRecursion (R.has of.now) rows.now }
    requires eight { length rows.now ≡ 8 }
    requires fits { n + 8 < 2 ^ 64 }
    requires room { length cells.old ≡ 8 * R.columns }
    ensures filled { OnOk result (bound cells.new ≡ all_cells (R.values of.now) n rows.now) }
{
    let width = cells.len() / 8;
    for i in 0..8 {
        let from = width * i;
        rows[i].fill(of, n + i as u64, &mut cells[from..from + width])?;
    }
    Ok(())
}
