//! Rows in order, in chunks.

ghost use Rattle.std.specs.Prelude.{◌≡◌, ◌+◌, ◌<◌, ◌≤◌, [], ◌∷◌, ◌++◌, length, filter, not, true, IsTrue, ◌↔◌, OnOk, OnErr, vec_len, vec_capacity};
ghost use Rattle.std.specs.List.{find};
ghost use Rattle.std.specs.Option.{option_map};
ghost use Rattle.std.specs.Ordering.{is_eq};
ghost use Rattle.lrs_measure.specs.Lists.{each_two};
ghost use Rattle.lrs_measure.specs.OrderedLists.{insert_by, insert_some, insert_all};
ghost use Rattle.lrs_ordered.specs.SearchedLists.{is_split_by, are_empty};

use crate::chunk::Chunk;
use crate::firsts::Firsts;
use crate::insertion::{put, put_last};
use crate::iter::RowsIter;
use crate::removal::remove_among;
use crate::search::find_among;
use lrs_measure::{Keyed, Ordered};
use std::alloc::{AllocError, Global};
use std::marker::Model;

/// Rows in order, one more of which moves few others. Contracts see the rows, and for how many more of them
/// there is room.
#[derive(Drop)]
pub struct Chunked<T> {
    chunks: Vec<Chunk<T>>,
    // where to look first
    firsts: Firsts,
    spares: Vec<Chunk<T>>,
    len: usize,
    room: usize,
    alloc: Global,
}

impl<T> Model for Chunked<T> {
    ghost use Rattle.std.specs.Prelude.{vec_capacity};
    ghost use Rattle.lrs_ordered.specs.SearchedLists.{joined};
    ghost use Rattle.lrs_ordered.specs.Stock.{Stock, IsStocked};

    ghost Value = { Stock T };

    ghost view = { λ all. record { rows = joined all.chunks.items; room = all.room } };

    ghost invariant = { λ all. IsStocked all.chunks.items all.spares.items all.len all.room (vec_capacity all.chunks) };
}

impl<T> Chunked<T> {
    /// No rows. It takes no memory.
    pub fn new(alloc: Global) -> Chunked<T>
        ensures rows { result.rows ≡ [] }
        ensures room { result.room ≡ 0 }
    {
        Chunked {
            chunks: Vec::new(alloc),
            firsts: Firsts::new(alloc),
            spares: Vec::new(alloc),
            len: 0,
            room: 0,
            alloc,
        }
    }

    /// How many rows there are.
    pub fn len(&self) -> usize
        ensures { result ≡ length self.now.rows }
    {
        self.len
    }

    /// Whether there are none.
    pub fn is_empty(&self) -> bool
        ensures { IsTrue result ↔ (length self.now.rows ≡ 0) }
    {
        self.len == 0
    }

    /// The rows in order.
    pub fn iter(&self) -> RowsIter<'_, T>
        ensures { result ≡ self.now.rows }
    {
        RowsIter::new(self.chunks.as_slice())
    }

    /// The row of a key, by binary search.
    pub fn find<K>(&self, key: &K) -> Option<&T>
    where
        T: Keyed<K>,
        requires order { each_two T.before self.now.rows ≡ true }
        ensures { option_map (λ row. row.now) result ≡ find (λ row.
            is_eq (T.key_order row key.now)) self.now.rows }
    {
        find_among(self.chunks.as_slice(), &self.firsts, key)
    }
}

// Makes spare chunks, until there are this many.
fn make_spares<T: Drop>(
    alloc: Global,
    spares: &mut Vec<Chunk<T>>,
    wanted: usize,
) -> Result<(), AllocError>
    requires empty { are_empty spares.old.items ≡ true }
    ensures empty { are_empty spares.new.items ≡ true }
    ensures len { vec_len spares.old ≤ vec_len spares.new }
    ensures wanted { OnOk result (wanted ≤ vec_len spares.new) }
{
    for _spare in spares.len()..wanted {
        spares.push(Chunk::new(alloc)?)?;
    }
    Ok(())
}

impl<T: Drop> Chunked<T> {
    /// Makes room for more rows, wherever they belong.
    ///
    /// # Errors
    /// When memory runs out.
    pub fn reserve(&mut self, more: usize) -> Result<(), AllocError>
        ensures rows { self.new.rows ≡ self.old.rows }
        ensures kept { self.old.room ≤ self.new.room }
        ensures room { OnOk result (more ≤ self.new.room) }
    {
        if self.room < more {
            if usize::MAX - self.len < more {
                return Err(AllocError);
            }
            self.chunks.reserve(more)?;
            self.firsts.reserve(more)?;
            make_spares(self.alloc, &mut self.spares, more)?;
            self.room = more;
        }
        Ok(())
    }
}

impl<T: Ordered + Drop> Chunked<T> {
    /// Puts a row at the end.
    ///
    /// # Errors
    /// When memory runs out; the rows are then as they were.
    pub fn push(&mut self, row: T) -> Result<(), AllocError>
        ensures ok { OnOk result (self.new.rows ≡ self.old.rows ++ row ∷ []) }
        ensures err { OnErr result (self.new.rows ≡ self.old.rows) }
    {
        self.reserve(1)?;
        put_last(&mut self.chunks, &mut self.firsts, &mut self.spares, row);
        self.len += 1;
        self.room -= 1;
        Ok(())
    }
}

impl<T: Drop> Chunked<T> {
    /// Takes the row of a key out, if there is one. It takes no memory.
    pub fn remove<K>(&mut self, key: &K) -> Option<T>
    where
        T: Keyed<K>,
        requires order { each_two T.before self.old.rows ≡ true }
        ensures row { result ≡ find (λ row. is_eq (T.key_order row key.now)) self.old.rows }
        ensures rows { self.new.rows ≡ filter (λ row.
            not (is_eq (T.key_order row key.now))) self.old.rows }
        ensures room { self.new.room ≡ self.old.room }
    {
        let row = remove_among(&mut self.chunks, &mut self.firsts, key);
        if row.is_some() {
            self.len -= 1;
        }
        row
    }
}

impl<T: Ordered + Drop> Chunked<T> {
    /// Puts a row in its place, where there is room for one. It takes no memory.
    pub fn insert_ordered(&mut self, row: T)
        requires room { 1 ≤ self.old.room }
        requires order { each_two T.before (insert_by T.before row self.old.rows) ≡ true }
        ensures rows { self.new.rows ≡ insert_by T.before row self.old.rows }
        ensures room { self.new.room + 1 ≡ self.old.room }
    {
        put(&mut self.chunks, &mut self.firsts, &mut self.spares, row);
        self.len += 1;
        self.room -= 1;
    }

    /// Puts a row, if there is one, in its place, where there is room for one.
    pub fn insert_some_ordered(&mut self, row: Option<T>)
        requires room { 1 ≤ self.old.room }
        requires order { each_two T.before (insert_some T.before row self.old.rows) ≡ true }
        ensures rows { self.new.rows ≡ insert_some T.before row self.old.rows }
    {
        match row {
            Some(row) => self.insert_ordered(row),
            None => {}
        }
    }

    /// Puts rows, one after the other, in their places, where there is room for them.
    pub fn insert_all_ordered(&mut self, rows: Vec<T>)
        requires room { vec_len rows ≤ self.old.room }
        requires order { each_two T.before (insert_all T.before rows.items self.old.rows) ≡ true }
        ensures rows { self.new.rows ≡ insert_all T.before rows.items self.old.rows }
    {
        for row in rows {
            self.insert_ordered(row);
        }
    }
}
