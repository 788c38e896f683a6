//! Lists in vectors that have room, and in chunks.

ghost use Rattle.std.specs.Prelude.{◌≡◌, ◌+◌, ◌<◌, ◌≤◌, [], ◌∷◌, ◌++◌, length, IfOk, OnOk, vec_len, vec_capacity};

use lrs_measure::{Ordered, Rows, TryCopy};
use lrs_ordered::Chunked;
use std::alloc::{AllocError, Global};

/// Makes room for more elements.
pub fn make_room<T>(items: &mut Vec<T>, more: usize) -> Result<(), AllocError>
    ensures items { items.new.items ≡ items.old.items }
    ensures room { OnOk result (vec_len items.new + more ≤ vec_capacity items.new) }
{
    items.reserve(more)
}

/// Puts an element at the end of a vector that has room for it.
pub fn push_in_room<T: Drop>(items: &mut Vec<T>, item: T)
    requires room { vec_len items.old < vec_capacity items.old }
    ensures items { items.new.items ≡ items.old.items ++ item ∷ [] }
{
    if items.push(item).is_err() {
        unreachable!()
    }
}

/// Puts elements at the end of a vector that has room for them.
pub fn append_in_room<T: Drop>(items: &mut Vec<T>, mut others: Vec<T>)
    requires room { vec_len items.old + vec_len others ≤ vec_capacity items.old }
    ensures items { items.new.items ≡ items.old.items ++ others.items }
{
    if items.append(&mut others).is_err() {
        unreachable!()
    }
}

/// These rows in chunks.
pub fn chunks_of<T: Ordered + Drop>(alloc: Global, rows: Vec<T>) -> Result<Chunked<T>, AllocError>
    ensures { IfOk result (λ chunks. chunks.rows ≡ rows.items) }
{
    let mut chunks = Chunked::new(alloc);
    for row in rows {
        chunks.push(row)?;
    }
    Ok(chunks)
}

/// The rows of chunks in one list.
pub fn rows_of<T: Copy + Drop>(alloc: Global, chunks: &Chunked<T>) -> Result<Rows<T>, AllocError>
    ensures { IfOk result (λ rows. rows ≡ chunks.now.rows) }
{
    let mut rows = Vec::with_capacity(alloc, chunks.len())?;
    for row in chunks.iter() {
        rows.push(*row)?;
    }
    Ok(Rows::from_vec(rows))
}

/// Copies of the rows of chunks in one list.
pub fn copies_of<T: TryCopy + Drop>(
    alloc: Global,
    chunks: &Chunked<T>,
) -> Result<Rows<T>, AllocError>
    ensures { IfOk result (λ rows. rows ≡ chunks.now.rows) }
{
    let mut rows = Vec::with_capacity(alloc, chunks.len())?;
    for row in chunks.iter() {
        rows.push(row.copy(alloc)?)?;
    }
    Ok(Rows::from_vec(rows))
}
