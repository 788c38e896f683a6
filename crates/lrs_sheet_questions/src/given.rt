//! Bytes that only clauses read.

ghost use Rattle.std.specs.Prelude.{◌≡◌, ℕ, List, ◌++◌};
ghost use Rattle.std.specs.Borrow.{ftrue};

use std::marker::{Model, PhantomData};

/// The bytes that a writer was given. No memory holds them.
#[derive(Drop)]
pub(crate) struct Given {
    marker: PhantomData<u8>,
    pub(crate) ghost text: { List ℕ },
}

impl Model for Given {
    ghost also_owns = { λ _. ftrue };
}

impl Given {
    /// What comes before the first of them is up to who knows it.
    pub(crate) fn new() -> Given
        ghost start: { List ℕ }
        ensures { result.text ≡ start }
    {
        Given {
            marker: PhantomData,
        }
    }

    /// Some more bytes.
    pub(crate) fn note(&mut self, _bytes: &[u8])
        ensures { self.new.text ≡ self.old.text ++ _bytes.now }
    {}
}
