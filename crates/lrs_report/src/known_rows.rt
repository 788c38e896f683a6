//! Rows that are found by their keys.

ghost use Rattle.std.specs.Prelude.{◌≡◌, ◌≤◌, true, length};
ghost use Rattle.std.specs.List.{find};
ghost use Rattle.std.specs.Option.{option_map};
ghost use Rattle.std.specs.Ordering.{is_eq, is_ge};
ghost use Rattle.lrs_measure.specs.Lists.{each_two};
ghost use Rattle.lrs_measure.specs.OrderedLists.{place_by};

use lrs_measure::Keyed;
use lrs_ordered::Chunked;

/// Known rows, found by their key.
pub trait KnownRows<T: Keyed<K>, K> {
    ghost use Rattle.std.specs.Prelude.{List};

    /// The rows, in the order of their keys.
    ghost rows: { Self → List T };

    /// The row of this key.
    fn row(&self, key: &K) -> Option<&T>
        requires order { each_two T.before (rows self.now) ≡ true }
        ensures { option_map (λ row. row.now) result ≡ find (λ row.
            is_eq (T.key_order row key.now)) (rows self.now) };
}

/// How many of the rows have a lower key.
fn rows_below<T: Keyed<K>, K>(rows: &[T], key: &K) -> usize
    requires order { each_two T.before rows.now ≡ true }
    ensures place { result ≡ place_by (λ row. is_ge (T.key_order row key.now)) rows.now }
    ensures bound { result ≤ length rows.now }
{
    rows.partition_point(|row| row.cmp_key(key).is_lt())
}

/// The row of this key, by binary search.
fn find_row<'a, T: Keyed<K>, K>(rows: &'a [T], key: &K) -> Option<&'a T>
    requires order { each_two T.before rows.now ≡ true }
    ensures { option_map (λ row. row.now) result ≡ find (λ row.
        is_eq (T.key_order row key.now)) rows.now }
{
    let at = rows_below(rows, key);
    if at >= rows.len() {
        return None;
    }
    let row = &rows[at];
    if row.cmp_key(key).is_eq() {
        return Some(row);
    }
    None
}

impl<'a, T: Keyed<K>, K> KnownRows<T, K> for &'a [T] {
    ghost rows = { λ rows. rows.now };

    fn row(&self, key: &K) -> Option<&T> {
        find_row(*self, key)
    }
}

impl<T: Keyed<K>, K> KnownRows<T, K> for Chunked<T> {
    ghost rows = { λ all. all.rows };

    fn row(&self, key: &K) -> Option<&T> {
        self.find(key)
    }
}
