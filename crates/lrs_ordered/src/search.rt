//! A row among chunks of rows in order, by binary search.

ghost use Rattle.std.specs.Prelude.{◌≡◌, ◌+◌, ◌-◌, ◌<◌, ◌≤◌, List, false, length, take, drop, true, IfSome, IfNone, slice_index_or};
ghost use Rattle.std.specs.List.{find};
ghost use Rattle.std.specs.Option.{option_map};
ghost use Rattle.std.specs.Ordering.{is_eq, is_ge, is_gt};
ghost use Rattle.lrs_measure.specs.OrderedLists.{place_by};
ghost use Rattle.lrs_ordered.specs.SearchedLists.{joined, first_passes, rises_by, none_by, are_filled};

use crate::chunk::Chunk;
use crate::firsts::Firsts;
use lrs_measure::Keyed;

// Whether a row has a key.
fn has_key<K, T: Keyed<K>>(row: &T, key: &K) -> bool
    ensures { result ≡ is_eq (T.key_order row.now key.now) }
{
    row.cmp_key(key).is_eq()
}

// How many rows are below a key, by binary search.
fn place_from<K, T: Keyed<K>>(rows: &[T], key: &K) -> usize
    requires order { rises_by (λ row. T.key_order row key.now) rows.now ≡ true }
    ensures place { result ≡ place_by (λ row. is_ge (T.key_order row key.now)) rows.now }
    ensures within { result ≤ length rows.now }
{
    rows.partition_point(|row| !row.cmp_key(key).is_ge())
}

/// At which place the row of a key is among others, by binary search.
pub fn place_of_key<K, T: Keyed<K>>(rows: &[T], key: &K) -> Option<usize>
    requires order { rises_by (λ row. T.key_order row key.now) rows.now ≡ true }
    ensures within { IfSome result (λ at. at < length rows.now) }
    ensures found { IfSome result (λ at. (d : T)
        → is_eq (T.key_order (slice_index_or rows.now at d) key.now) ≡ true) }
    ensures missed { IfNone result (none_by (λ row. T.key_order row key.now) rows.now ≡ true) }
{
    let at = place_from(rows, key);
    if at >= rows.len() {
        return None;
    }
    let row = &rows[at];
    if has_key(row, key) {
        return Some(at);
    }
    None
}

// The row of a key among others.
fn find_in<'a, K, T: Keyed<K>>(rows: &'a [T], key: &K) -> Option<&'a T>
    requires order { rises_by (λ row. T.key_order row key.now) rows.now ≡ true }
    ensures { option_map (λ row. row.now) result ≡ find (λ row.
        is_eq (T.key_order row key.now)) rows.now }
{
    let at = place_from(rows, key);
    if at >= rows.len() {
        return None;
    }
    let row = &rows[at];
    if has_key(row, key) {
        return Some(row);
    }
    None
}

// Whether a chunk begins above a key.
fn begins_above<K, T: Keyed<K>>(chunk: &Chunk<T>, key: &K) -> bool
    ensures { result ≡ first_passes (λ row. is_gt (T.key_order row key.now)) chunk.now }
{
    match chunk.as_slice().first() {
        Some(first) => first.cmp_key(key).is_gt(),
        None => true,
    }
}

// Whether just the chunks before a place do not begin above a key, as its two neighbours say.
fn are_up_to<K, T: Keyed<K>>(chunks: &[Chunk<T>], key: &K, count: usize) -> bool
    ensures within { result ≡ true → count ≤ length chunks.now }
    ensures front { result ≡ true → 0 < count → (d : List T)
        → first_passes (λ row. is_gt (T.key_order row key.now))
        (slice_index_or chunks.now (count - 1) d) ≡ false }
    ensures rear { result ≡ true → count < length chunks.now → (d : List T)
        → first_passes (λ row. is_gt (T.key_order row key.now)) (slice_index_or chunks.now count d)
        ≡ true }
{
    if count > chunks.len() || (count > 0 && begins_above(&chunks[count - 1], key)) {
        return false;
    }
    count == chunks.len() || begins_above(&chunks[count], key)
}

// How many chunks do not begin above a key: as many as the ranks say, or else by binary search.
fn chunks_up_to<K, T: Keyed<K>>(chunks: &[Chunk<T>], firsts: &Firsts, key: &K) -> usize
    requires filled { are_filled chunks.now ≡ true }
    requires order { rises_by (λ row. T.key_order row key.now) (joined chunks.now) ≡ true }
    ensures place { result ≡ place_by (first_passes (λ row.
        is_gt (T.key_order row key.now))) chunks.now }
    ensures within { result ≤ length chunks.now }
{
    let likely = firsts.up_to(T::key_rank(key));
    if are_up_to(chunks, key, likely) {
        return likely;
    }
    chunks.partition_point(|chunk| !begins_above(chunk, key))
}

/// Which chunk the row of a key is in, if there is one.
pub fn chunk_of<K, T: Keyed<K>>(chunks: &[Chunk<T>], firsts: &Firsts, key: &K) -> usize
    requires filled { are_filled chunks.now ≡ true }
    requires order { rises_by (λ row. T.key_order row key.now) (joined chunks.now) ≡ true }
    requires some { 0 < length chunks.now }
    ensures within { result < length chunks.now }
    ensures front { none_by (λ row. T.key_order row key.now) (joined (take result chunks.now))
        ≡ true }
    ensures rear { none_by (λ row. T.key_order row key.now) (joined (drop (result + 1) chunks.now))
        ≡ true }
{
    chunks_up_to(chunks, firsts, key).saturating_sub(1)
}

/// The row of a key among the rows of chunks.
pub fn find_among<'a, K, T: Keyed<K>>(
    chunks: &'a [Chunk<T>],
    firsts: &Firsts,
    key: &K,
) -> Option<&'a T>
    requires filled { are_filled chunks.now ≡ true }
    requires order { rises_by (λ row. T.key_order row key.now) (joined chunks.now) ≡ true }
    ensures { option_map (λ row. row.now) result ≡ find (λ row.
        is_eq (T.key_order row key.now)) (joined chunks.now) }
{
    if chunks.is_empty() {
        return None;
    }
    let at = chunk_of(chunks, firsts, key);
    let chunk = &chunks[at];
    find_in(chunk.as_slice(), key)
}
