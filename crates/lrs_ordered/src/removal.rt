//! A row taken out of chunks of rows in order.

ghost use Rattle.std.specs.Prelude.{◌≡◌, ◌+◌, ◌-◌, ◌<◌, ◌≤◌, [], ◌∷◌, ◌++◌, filter, length, take, drop, not, true, vec_len, vec_capacity};
ghost use Rattle.std.specs.List.{find};
ghost use Rattle.std.specs.Ordering.{is_eq};
ghost use Rattle.lrs_ordered.specs.SearchedLists.{joined, rises_by, none_by, are_filled, is_filled};

use crate::chunk::Chunk;
use crate::firsts::Firsts;
use crate::search::{chunk_of, place_of_key};
use lrs_measure::Keyed;

// Takes the row of a key out of a chunk, if there is one.
fn remove_in<K, T: Keyed<K> + Drop>(chunk: &mut Chunk<T>, key: &K) -> Option<T>
    requires order { rises_by (λ row. T.key_order row key.now) chunk.old ≡ true }
    ensures row { result ≡ find (λ row. is_eq (T.key_order row key.now)) chunk.old }
    ensures rows { chunk.new ≡ filter (λ row. not (is_eq (T.key_order row key.now))) chunk.old }
{
    match place_of_key(chunk.as_slice(), key) {
        Some(at) => Some(chunk.remove(at)),
        None => None,
    }
}

// Lets a chunk go that has no rows any more.
fn drop_empty<T: Drop>(chunks: &mut Vec<Chunk<T>>, at: usize)
    requires within { at < vec_len chunks.old }
    requires front { are_filled (take at chunks.old.items) ≡ true }
    requires rear { are_filled (drop (at + 1) chunks.old.items) ≡ true }
    ensures rows { joined chunks.new.items ≡ joined chunks.old.items }
    ensures filled { are_filled chunks.new.items ≡ true }
    ensures len { vec_len chunks.new ≤ vec_len chunks.old }
    ensures capacity { vec_capacity chunks.new ≡ vec_capacity chunks.old }
{
    if chunks[at].is_empty() {
        drop(chunks.remove(at));
    }
}

// Takes the row of a key out of the chunk at a place, where no other chunk has it.
fn remove_at<K, T: Keyed<K> + Drop>(chunks: &mut Vec<Chunk<T>>, at: usize, key: &K) -> Option<T>
    requires filled { are_filled chunks.old.items ≡ true }
    requires order { rises_by (λ row. T.key_order row key.now) (joined chunks.old.items) ≡ true }
    requires within { at < vec_len chunks.old }
    requires front { none_by (λ row. T.key_order row key.now) (joined (take at chunks.old.items))
        ≡ true }
    requires rear { none_by (λ row. T.key_order row key.now)
        (joined (drop (at + 1) chunks.old.items)) ≡ true }
    ensures row { result ≡ find (λ row. is_eq (T.key_order row key.now)) (joined chunks.old.items) }
    ensures rows { joined chunks.new.items ≡ filter (λ row.
        not (is_eq (T.key_order row key.now))) (joined chunks.old.items) }
    ensures filled { are_filled chunks.new.items ≡ true }
    ensures len { vec_len chunks.new ≤ vec_len chunks.old }
    ensures capacity { vec_capacity chunks.new ≡ vec_capacity chunks.old }
{
    let row = remove_in(&mut chunks[at], key);
    drop_empty(chunks, at);
    row
}

/// Takes the row of a key out, if there is one. It takes no memory.
pub fn remove_among<K, T: Keyed<K> + Drop>(
    chunks: &mut Vec<Chunk<T>>,
    firsts: &mut Firsts,
    key: &K,
) -> Option<T>
    requires filled { are_filled chunks.old.items ≡ true }
    requires order { rises_by (λ row. T.key_order row key.now) (joined chunks.old.items) ≡ true }
    ensures row { result ≡ find (λ row. is_eq (T.key_order row key.now)) (joined chunks.old.items) }
    ensures rows { joined chunks.new.items ≡ filter (λ row.
        not (is_eq (T.key_order row key.now))) (joined chunks.old.items) }
    ensures filled { are_filled chunks.new.items ≡ true }
    ensures len { vec_len chunks.new ≤ vec_len chunks.old }
    ensures capacity { vec_capacity chunks.new ≡ vec_capacity chunks.old }
{
    if chunks.is_empty() {
        return None;
    }
    let count = chunks.len();
    let at = chunk_of(chunks.as_slice(), firsts, key);
    let row = remove_at(chunks, at, key);
    firsts.note_taken(chunks.as_slice(), at, count);
    row
}
