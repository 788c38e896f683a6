//! Lists of values whose rows come or go.

ghost use Rattle.std.specs.Prelude.{◌≡◌, ℕ, List, [], ◌∷◌};
ghost use Rattle.lrs_store_tables.specs.StoredRows.{Makes, Changes};

use sqlite::{Alter, Error, Transaction};

/// A value for which a row is written, beside what else the row says.
pub trait Written<C> {
    ghost use Rattle.std.specs.Prelude.{◌+◌, ◌++◌, length};
    ghost use Rattle.lrs_store_tables.specs.Contents.Tables.{Tables};
    ghost use Rattle.lrs_store_tables.specs.Contents.Tables.{AreSame};

    // What these values, of which the first has this number, make of the rows of a store.
    ghost all: { C → ℕ → List Self → Tables → Tables };

    /// Writes the row of the value, which has this number in its list.
    fn write<S: Alter>(&self, tx: &mut Transaction<'_, S>, of: &C, n: u64) -> Result<(), Error>
        ensures { Changes S.Store (Makes (all of.now n (self.now ∷ []))) tx.old tx.new result };

    // No value changes nothing, and one more value makes its change of what the others made.
    ghost none: { (c : C) (n : ℕ) (t : Tables) → AreSame (all c n [] t) t };

    ghost more: { (c : C) (n k : ℕ) (xs : List Self) (x : Self) (t u : Tables) → k ≡ n + length xs → AreSame (all c n xs t) u → AreSame (all c n (xs ++ x ∷ []) t) (all c k (x ∷ []) u) };
}

/// Writes the rows of a list, in turn.
pub fn write_all<C, R: Written<C>, S: Alter>(
    tx: &mut Transaction<'_, S>,
    of: &C,
    rows: &[R],
) -> Result<(), Error>
    ensures { Changes S.Store (Makes (R.all of.now 0 rows.now)) tx.old tx.new result }
{
    for i in 0..rows.len() {
        rows[i].write(tx, of, i as u64)?;
    }
    Ok(())
}
