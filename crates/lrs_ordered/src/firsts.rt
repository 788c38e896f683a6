//! The ranks of the rows that chunks begin with, side by side, so that a search looks at few rows.
//!
//! Nothing rests on them: a place that they give is tested, and where it is wrong the chunks are searched by
//! halves. So they have no clauses.

use crate::chunk::Chunk;
use lrs_measure::Ordered;
use std::alloc::{AllocError, Global};

/// For each chunk the rank of its first row.
#[derive(Drop)]
pub struct Firsts {
    ranks: Vec<u64>,
}

impl Firsts {
    /// Of no chunks. It takes no memory.
    pub fn new(alloc: Global) -> Firsts {
        Firsts {
            ranks: Vec::new(alloc),
        }
    }

    /// Makes room for a number of rows more.
    ///
    /// # Errors
    /// When memory runs out.
    pub fn reserve(&mut self, more: usize) -> Result<(), AllocError> {
        self.ranks.reserve(more)
    }

    /// How many chunks begin with no higher rank.
    pub fn up_to(&self, rank: u64) -> usize {
        self.ranks.partition_point(|first| *first <= rank)
    }

    // The chunk at a place begins with another row.
    fn set(&mut self, at: usize, rank: u64) {
        if let Some(first) = self.ranks.get_mut(at) {
            *first = rank;
        }
    }

    /// A chunk came at a place. It takes no memory where room was made.
    pub fn came(&mut self, at: usize, rank: u64) {
        if at <= self.ranks.len() {
            let _ = self.ranks.insert(at, rank);
        }
    }

    /// A row was put into the chunk at a place, of a number of chunks: a new one stands behind it.
    pub fn note_put<T: Ordered>(&mut self, chunks: &[Chunk<T>], at: usize, count: usize) {
        if let Some(rank) = rank_at(chunks, at) {
            self.set(at, rank);
        }
        let behind = at.saturating_add(1);
        if count < chunks.len()
            && let Some(rank) = rank_at(chunks, behind)
        {
            self.came(behind, rank);
        }
    }

    /// A row was taken out of the chunk at a place, of a number of chunks.
    pub fn note_taken<T: Ordered>(&mut self, chunks: &[Chunk<T>], at: usize, count: usize) {
        if chunks.len() < count {
            if at < self.ranks.len() {
                self.ranks.remove(at);
            }
        } else if let Some(rank) = rank_at(chunks, at) {
            self.set(at, rank);
        }
    }
}

// The rank of the first row of the chunk at a place.
fn rank_at<T: Ordered>(chunks: &[Chunk<T>], at: usize) -> Option<u64> {
    let first = chunks.get(at)?.as_slice().first()?;
    Some(first.rank())
}
