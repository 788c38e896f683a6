//! A list in a vector, which contracts see as a list.

ghost use Rattle.std.specs.Prelude.{◌≡◌, [], length, IsTrue, ◌↔◌, IfOk};

use std::alloc::{AllocError, Global};
use std::marker::Model;

/// A value whose copy takes memory.
pub trait TryCopy: Sized {
    ghost use Rattle.std.specs.Prelude.{◌≡◌, IfOk};

    /// An equal value.
    ///
    /// # Errors
    /// When memory runs out.
    fn copy(&self, alloc: Global) -> Result<Self, AllocError>
        ensures { IfOk result (λ copy. copy ≡ self.now) };
}

/// A list. Its room plays no part in what it is equal to.
///
/// `items` is public, so that a caller can reserve room before a commit and put elements in place after it.
#[derive(Drop)]
pub struct Rows<T> {
    pub items: Vec<T>,
}

impl<T> Model for Rows<T> {
    ghost use Rattle.std.specs.Prelude.{List};

    ghost Value = { List T };

    ghost view = { λ rows. rows.items.items };
}

impl<T> Rows<T> {
    /// A list without elements. It takes no memory.
    pub fn new(alloc: Global) -> Self
        ensures { result ≡ [] }
    {
        Rows {
            items: Vec::new(alloc),
        }
    }

    /// The list of a vector's elements. It takes no memory.
    pub fn from_vec(items: Vec<T>) -> Self
        ensures { result ≡ items.items }
    {
        Rows { items }
    }

    /// Gives the vector back.
    pub fn into_vec(self) -> Vec<T>
        ensures { result.items ≡ self }
    {
        self.items
    }

    /// How many elements the list has.
    pub fn len(&self) -> usize
        ensures { result ≡ length self.now }
    {
        self.items.len()
    }

    /// Whether it has none.
    pub fn is_empty(&self) -> bool
        ensures { IsTrue result ↔ (length self.now ≡ 0) }
    {
        self.items.is_empty()
    }

    /// The elements in order.
    pub fn as_slice(&self) -> &[T]
        ensures { result.now ≡ self.now }
    {
        self.items.as_slice()
    }
}

impl<T: Copy> Rows<T> {
    /// An equal list.
    ///
    /// # Errors
    /// When memory runs out.
    pub fn copy(&self, alloc: Global) -> Result<Rows<T>, AllocError>
        ensures { IfOk result (λ rows. rows ≡ self.now) }
    {
        Ok(Rows {
            items: Vec::from_slice(alloc, &self.items)?,
        })
    }
}

impl<T: TryCopy + Drop> Rows<T> {
    /// An equal list, of copies.
    ///
    /// # Errors
    /// When memory runs out.
    pub fn copy_each(&self, alloc: Global) -> Result<Rows<T>, AllocError>
        ensures { IfOk result (λ rows. rows ≡ self.now) }
    {
        let mut items = Vec::new(alloc);
        for item in &self.items {
            items.push(item.copy(alloc)?)?;
        }
        Ok(Rows { items })
    }
}
