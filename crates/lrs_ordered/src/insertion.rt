//! A row more in chunks of rows in order.

ghost use Rattle.std.specs.Prelude.{◌≡◌, ◌+◌, ◌-◌, ◌<◌, ◌≤◌, List, [], ◌∷◌, ◌++◌, false, slice_index_or, length, take, drop, true, not, insert, vec_len, vec_capacity};
ghost use Rattle.std.specs.List.{list_all};
ghost use Rattle.std.specs.Option.{option_to_list};
ghost use Rattle.lrs_measure.specs.OrderedLists.{place_by, insert_by};
ghost use Rattle.lrs_ordered.specs.SearchedLists.{is_split_by, joined, first_passes, is_filled, are_filled, are_empty};

use crate::chunk::{Chunk, HALF, MOST};
use crate::firsts::Firsts;
use lrs_measure::Ordered;

// Whether a row comes before a chunk's first.
fn comes_before<T: Ordered>(row: &T, chunk: &Chunk<T>) -> bool
    ensures { result ≡ first_passes (T.before row.now) chunk.now }
{
    match chunk.as_slice().first() {
        Some(first) => row.is_before(first),
        None => true,
    }
}

// Whether just the chunks before a place begin with no row after this one, as its two neighbours say.
fn is_place<T: Ordered>(chunks: &[Chunk<T>], row: &T, count: usize) -> bool
    ensures within { result ≡ true → count ≤ length chunks.now }
    ensures front { result ≡ true → 0 < count → (d : List T)
        → first_passes (T.before row.now) (slice_index_or chunks.now (count - 1) d) ≡ false }
    ensures rear { result ≡ true → count < length chunks.now → (d : List T)
        → first_passes (T.before row.now) (slice_index_or chunks.now count d) ≡ true }
{
    if count > chunks.len() || (count > 0 && comes_before(row, &chunks[count - 1])) {
        return false;
    }
    count == chunks.len() || comes_before(row, &chunks[count])
}

// How many chunks begin with no row after this one: as many as the ranks say, or else by binary search.
pub fn place_among<T: Ordered>(chunks: &[Chunk<T>], firsts: &Firsts, row: &T) -> usize
    requires filled { are_filled chunks.now ≡ true }
    requires order { is_split_by T.before row.now (joined chunks.now) ≡ true }
    ensures place { result ≡ place_by (first_passes (T.before row.now)) chunks.now }
    ensures within { result ≤ length chunks.now }
{
    let likely = firsts.up_to(row.rank());
    if is_place(chunks, row, likely) {
        return likely;
    }
    chunks.partition_point(|chunk| !comes_before(row, chunk))
}

// Which chunk a row belongs in.
fn target_of<T: Ordered>(chunks: &[Chunk<T>], firsts: &Firsts, row: &T) -> usize
    requires filled { are_filled chunks.now ≡ true }
    requires order { is_split_by T.before row.now (joined chunks.now) ≡ true }
    requires some { 0 < length chunks.now }
    ensures within { result < length chunks.now }
    ensures front { list_all (λ y. not (T.before row.now y)) (joined (take result chunks.now))
        ≡ true }
    ensures rear { first_passes (T.before row.now) (joined (drop (result + 1) chunks.now)) ≡ true }
{
    place_among(chunks, firsts, row).saturating_sub(1)
}

// Splits a full chunk, and puts a row into one of the two.
fn put_and_split<T: Drop>(chunk: &mut Chunk<T>, rear: &mut Chunk<T>, at: usize, row: T)
    requires full { length chunk.old ≡ 128 }
    requires empty { rear.old ≡ [] }
    requires place { at ≤ 128 }
    ensures rows { chunk.new ++ rear.new ≡ insert chunk.old at row }
    ensures filled { is_filled chunk.new ≡ true }
    ensures filled_rear { is_filled rear.new ≡ true }
{
    chunk.split_into(HALF, rear);
    if at <= HALF {
        chunk.insert(at, row);
    } else {
        rear.insert(at - HALF, row);
    }
}

// Takes one of the spare chunks.
fn take_spare<T>(spares: &mut Vec<Chunk<T>>) -> Chunk<T>
    requires empty { are_empty spares.old.items ≡ true }
    requires spare { 0 < vec_len spares.old }
    ensures spare { result ≡ [] }
    ensures empty { are_empty spares.new.items ≡ true }
    ensures len { vec_len spares.new + 1 ≡ vec_len spares.old }
{
    spares.take_last()
}

// Puts a row into a chunk. A chunk that is full gives a part of its rows to a spare one.
fn put_in_chunk<T: Ordered + Drop>(
    chunk: &mut Chunk<T>,
    spares: &mut Vec<Chunk<T>>,
    row: T,
    is_last: bool,
) -> Option<Chunk<T>>
    requires filled { is_filled chunk.old ≡ true }
    requires order { is_split_by T.before row chunk.old ≡ true }
    requires empty { are_empty spares.old.items ≡ true }
    requires spare { 0 < vec_len spares.old }
    ensures rows { chunk.new ++ joined (option_to_list result) ≡ insert_by T.before row chunk.old }
    ensures filled { is_filled chunk.new ≡ true }
    ensures filled_rear { are_filled (option_to_list result) ≡ true }
    ensures empty { are_empty spares.new.items ≡ true }
    ensures len { vec_len spares.old ≤ vec_len spares.new + 1 }
{
    let at = chunk.place_of(&row);
    let count = chunk.len();
    if count < MOST {
        chunk.insert(at, row);
        return None;
    }
    let mut rear = take_spare(spares);
    if is_last && at == count {
        rear.push(row);
    } else {
        put_and_split(chunk, &mut rear, at, row);
    }
    Some(rear)
}

// Puts a chunk among others, where there is a place for it.
fn insert_chunk<T: Drop>(chunks: &mut Vec<Chunk<T>>, at: usize, chunk: Chunk<T>)
    requires room { vec_len chunks.old < vec_capacity chunks.old }
    requires place { at ≤ vec_len chunks.old }
    ensures chunks { chunks.new.items ≡ insert chunks.old.items at chunk }
    ensures len { vec_len chunks.new ≡ vec_len chunks.old + 1 }
    ensures capacity { vec_capacity chunks.old ≤ vec_capacity chunks.new }
{
    if chunks.insert(at, chunk).is_err() {
        unreachable!()
    }
}

// Puts a row into the chunk at a place, where those before hold no row after it, and those after none before
// it.
fn put_at<T: Ordered + Drop>(
    chunks: &mut Vec<Chunk<T>>,
    at: usize,
    spares: &mut Vec<Chunk<T>>,
    row: T,
)
    requires filled { are_filled chunks.old.items ≡ true }
    requires order { is_split_by T.before row (joined chunks.old.items) ≡ true }
    requires within { at < vec_len chunks.old }
    requires front { list_all (λ y. not (T.before row y)) (joined (take at chunks.old.items))
        ≡ true }
    requires rear { first_passes (T.before row) (joined (drop (at + 1) chunks.old.items)) ≡ true }
    requires empty { are_empty spares.old.items ≡ true }
    requires spare { 0 < vec_len spares.old }
    requires place { vec_len chunks.old < vec_capacity chunks.old }
    ensures rows { joined chunks.new.items ≡ insert_by T.before row (joined chunks.old.items) }
    ensures filled { are_filled chunks.new.items ≡ true }
    ensures empty { are_empty spares.new.items ≡ true }
    ensures spares_len { vec_len spares.old ≤ vec_len spares.new + 1 }
    ensures len { vec_len chunks.new ≤ vec_len chunks.old + 1 }
    ensures capacity { vec_capacity chunks.old ≤ vec_capacity chunks.new }
{
    let is_last = at + 1 == chunks.len();
    let rear = put_in_chunk(&mut chunks[at], spares, row, is_last);
    if let Some(rear) = rear {
        insert_chunk(chunks, at + 1, rear);
    }
}

// Puts a row into the first chunk of all.
fn put_first<T: Drop>(chunks: &mut Vec<Chunk<T>>, spares: &mut Vec<Chunk<T>>, row: T)
    requires none { chunks.old.items ≡ [] }
    requires empty { are_empty spares.old.items ≡ true }
    requires spare { 0 < vec_len spares.old }
    requires place { vec_len chunks.old < vec_capacity chunks.old }
    ensures rows { joined chunks.new.items ≡ row ∷ [] }
    ensures filled { are_filled chunks.new.items ≡ true }
    ensures empty { are_empty spares.new.items ≡ true }
    ensures spares_len { vec_len spares.old ≤ vec_len spares.new + 1 }
    ensures len { vec_len chunks.new ≤ vec_len chunks.old + 1 }
    ensures capacity { vec_capacity chunks.old ≤ vec_capacity chunks.new }
{
    let mut first = take_spare(spares);
    first.push(row);
    chunks.push_reserved(first);
}

/// Puts a row where it belongs among the rows of chunks. No more than the rows of one chunk are moved. It takes
/// no memory.
pub fn put<T: Ordered + Drop>(
    chunks: &mut Vec<Chunk<T>>,
    firsts: &mut Firsts,
    spares: &mut Vec<Chunk<T>>,
    row: T,
)
    requires filled { are_filled chunks.old.items ≡ true }
    requires order { is_split_by T.before row (joined chunks.old.items) ≡ true }
    requires empty { are_empty spares.old.items ≡ true }
    requires spare { 0 < vec_len spares.old }
    requires place { vec_len chunks.old < vec_capacity chunks.old }
    ensures rows { joined chunks.new.items ≡ insert_by T.before row (joined chunks.old.items) }
    ensures filled { are_filled chunks.new.items ≡ true }
    ensures empty { are_empty spares.new.items ≡ true }
    ensures spares_len { vec_len spares.old ≤ vec_len spares.new + 1 }
    ensures len { vec_len chunks.new ≤ vec_len chunks.old + 1 }
    ensures capacity { vec_capacity chunks.old ≤ vec_capacity chunks.new }
{
    let count = chunks.len();
    if count == 0 {
        firsts.came(0, row.rank());
        put_first(chunks, spares, row);
    } else {
        let at = target_of(chunks.as_slice(), firsts, &row);
        put_at(chunks, at, spares, row);
        firsts.note_put(chunks.as_slice(), at, count);
    }
}

// Puts a row at the end of the last chunk, if it is not full.
fn push_last<T: Drop>(chunks: &mut Vec<Chunk<T>>, row: T) -> Option<T>
    requires some { 0 < vec_len chunks.old }
    requires filled { are_filled chunks.old.items ≡ true }
    ensures rows { joined chunks.new.items ++ option_to_list result ≡ joined chunks.old.items ++ row
        ∷ [] }
    ensures filled { are_filled chunks.new.items ≡ true }
    ensures len { vec_len chunks.new ≡ vec_len chunks.old }
    ensures capacity { vec_capacity chunks.new ≡ vec_capacity chunks.old }
{
    let at = chunks.len() - 1;
    let chunk = &mut chunks[at];
    if chunk.len() < MOST {
        chunk.push(row);
        return None;
    }
    Some(row)
}

/// Puts a row at the end. It takes no memory.
pub fn put_last<T: Ordered + Drop>(
    chunks: &mut Vec<Chunk<T>>,
    firsts: &mut Firsts,
    spares: &mut Vec<Chunk<T>>,
    row: T,
)
    requires filled { are_filled chunks.old.items ≡ true }
    requires empty { are_empty spares.old.items ≡ true }
    requires spare { 0 < vec_len spares.old }
    requires place { vec_len chunks.old < vec_capacity chunks.old }
    ensures rows { joined chunks.new.items ≡ joined chunks.old.items ++ row ∷ [] }
    ensures filled { are_filled chunks.new.items ≡ true }
    ensures empty { are_empty spares.new.items ≡ true }
    ensures spares_len { vec_len spares.old ≤ vec_len spares.new + 1 }
    ensures len { vec_len chunks.new ≤ vec_len chunks.old + 1 }
    ensures capacity { vec_capacity chunks.old ≤ vec_capacity chunks.new }
{
    let left = push_some(chunks, row);
    if let Some(row) = left {
        firsts.came(chunks.len(), row.rank());
        push_fresh(chunks, spares, row);
    }
}

// The same, where there may be no chunk.
fn push_some<T: Drop>(chunks: &mut Vec<Chunk<T>>, row: T) -> Option<T>
    requires filled { are_filled chunks.old.items ≡ true }
    ensures rows { joined chunks.new.items ++ option_to_list result ≡ joined chunks.old.items ++ row
        ∷ [] }
    ensures filled { are_filled chunks.new.items ≡ true }
    ensures len { vec_len chunks.new ≡ vec_len chunks.old }
    ensures capacity { vec_capacity chunks.new ≡ vec_capacity chunks.old }
{
    if chunks.is_empty() {
        return Some(row);
    }
    push_last(chunks, row)
}

// Puts a row at the end, in a chunk of its own.
fn push_fresh<T: Drop>(chunks: &mut Vec<Chunk<T>>, spares: &mut Vec<Chunk<T>>, row: T)
    requires filled { are_filled chunks.old.items ≡ true }
    requires empty { are_empty spares.old.items ≡ true }
    requires spare { 0 < vec_len spares.old }
    requires place { vec_len chunks.old < vec_capacity chunks.old }
    ensures rows { joined chunks.new.items ≡ joined chunks.old.items ++ row ∷ [] }
    ensures filled { are_filled chunks.new.items ≡ true }
    ensures empty { are_empty spares.new.items ≡ true }
    ensures spares_len { vec_len spares.old ≤ vec_len spares.new + 1 }
    ensures len { vec_len chunks.new ≤ vec_len chunks.old + 1 }
    ensures capacity { vec_capacity chunks.old ≤ vec_capacity chunks.new }
{
    let mut fresh = take_spare(spares);
    fresh.push(row);
    chunks.push_reserved(fresh);
}
