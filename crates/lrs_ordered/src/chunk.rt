//! A few hundred rows at most, in memory that is taken once.

ghost use Rattle.std.specs.Prelude.{◌≡◌, ◌+◌, ◌<◌, ◌≤◌, [], ◌∷◌, ◌++◌, length, take, drop, insert, not, true, IfOk, IfSome, IsTrue, ◌↔◌, IsSome, slice_index_or};
ghost use Rattle.std.specs.Option.{option_map};
ghost use Rattle.lrs_measure.specs.OrderedLists.{place_by, insert_by};
ghost use Rattle.lrs_ordered.specs.SearchedLists.{is_split_by, is_filled};

use lrs_measure::Ordered;
use std::alloc::{AllocError, Global};
use std::marker::Model;

/// How many rows a chunk holds at most.
pub const MOST: usize = 128;

/// Where a full chunk is split.
pub const HALF: usize = 64;

/// Rows that take no memory until there are `MOST` of them.
#[derive(Drop)]
pub struct Chunk<T> {
    rows: Vec<T>,
}

impl<T> Model for Chunk<T> {
    ghost use Rattle.std.specs.Prelude.{List, length, ◌≤◌, vec_capacity};

    ghost Value = { List T };

    ghost view = { λ chunk. chunk.rows.items };

    ghost invariant = { λ chunk. (length chunk.rows.items ≤ 128) × (128 ≤ vec_capacity chunk.rows) };
}

impl<T> Chunk<T> {
    /// A chunk without rows.
    ///
    /// # Errors
    /// When memory runs out.
    pub fn new(alloc: Global) -> Result<Chunk<T>, AllocError>
        ensures { IfOk result (λ chunk. chunk ≡ []) }
    {
        Ok(Chunk {
            rows: Vec::with_capacity(alloc, MOST)?,
        })
    }

    pub fn len(&self) -> usize
        ensures len { result ≡ length self.now }
        ensures most { result ≤ 128 }
    {
        self.rows.len()
    }

    pub fn is_empty(&self) -> bool
        ensures { result ≡ not (is_filled self.now) }
    {
        self.rows.is_empty()
    }

    pub fn as_slice(&self) -> &[T]
        ensures { result.now ≡ self.now }
    {
        self.rows.as_slice()
    }
}

impl<T: Drop> Chunk<T> {
    /// Puts a row at a place. It takes no memory.
    pub fn insert(&mut self, at: usize, row: T)
        requires room { length self.old < 128 }
        requires place { at ≤ length self.old }
        ensures { self.new ≡ insert self.old at row }
    {
        if self.rows.insert(at, row).is_err() {
            unreachable!()
        }
    }

    /// Puts a row at the end. It takes no memory.
    pub fn push(&mut self, row: T)
        requires room { length self.old < 128 }
        ensures { self.new ≡ self.old ++ row ∷ [] }
    {
        self.rows.push_reserved(row);
    }

    /// Takes the row at a place out.
    pub fn remove(&mut self, at: usize) -> T
        requires place { at < length self.old }
        ensures row { result ≡ slice_index_or self.old at result }
        ensures rows { self.new ≡ take at self.old ++ drop (at + 1) self.old }
    {
        self.rows.remove(at)
    }

    /// Takes the last row out.
    pub fn pop(&mut self) -> T
        requires place { 0 < length self.old }
        ensures { self.old ≡ self.new ++ result ∷ [] }
    {
        self.rows.take_last()
    }

    /// Moves the rows from a place on into a chunk without rows. It takes no memory.
    pub fn split_into(&mut self, at: usize, rear: &mut Chunk<T>)
        requires place { at ≤ length self.old }
        requires empty { rear.old ≡ [] }
        ensures front { self.new ≡ take at self.old }
        ensures rear { rear.new ≡ drop at self.old }
        ensures len { length self.new ≡ at }
        ensures len_rear { length rear.new + at ≡ length self.old }
    {
        let mut all = Chunk::len(self);
        while at < all {
            all -= 1;
            rear.push(self.pop());
        }
        rear.rows.as_mut_slice().reverse();
    }
}

impl<T: Ordered> Chunk<T> {
    /// Where a row belongs, by binary search.
    pub fn place_of(&self, row: &T) -> usize
        requires order { is_split_by T.before row.now self.now ≡ true }
        ensures place { result ≡ place_by (T.before row.now) self.now }
        ensures within { result ≤ length self.now }
    {
        place_in(self.rows.as_slice(), row)
    }
}

// Where a row belongs among others, by binary search.
fn place_in<T: Ordered>(rows: &[T], row: &T) -> usize
    requires order { is_split_by T.before row.now rows.now ≡ true }
    ensures place { result ≡ place_by (T.before row.now) rows.now }
    ensures within { result ≤ length rows.now }
{
    rows.partition_point(|other| !row.is_before(other))
}
