//! Changes that are staged for a keeper that is given all of them at once.

ghost use Rattle.std.specs.Prelude.{◌≡◌, []};

use crate::batches::Batches;
use crate::change::Change;
use crate::holder::Holder;
use crate::keeper::{CommitFault, Keeper, LoadFault};
use lrs_machine::Image;
use std::alloc::{AllocError, Global};

/// A keeper over what is given all changes of a commit at once: it has those that are staged.
#[derive(Drop)]
pub struct Staged<B: Batches> {
    batches: B,
    staged: Vec<Change>,
}

impl<B: Batches> Staged<B> {
    /// Nothing is staged yet.
    pub fn over(batches: B, alloc: Global) -> Staged<B>
        ensures batches { result.batches ≡ batches }
        ensures staged { result.staged.items ≡ [] }
    {
        Staged {
            batches,
            staged: Vec::new(alloc),
        }
    }

    /// Gives back what the changes were for. What is staged is dropped.
    pub fn into_inner(self) -> B
        ensures { result ≡ self.batches }
    {
        let Staged { batches, .. } = self;
        batches
    }
}

impl<B: Batches> Holder for Staged<B> {
    ghost may_hold = { λ k c. B.may_hold k.batches c };

    ghost is_clean = { λ k. B.is_clean k.batches };

    ghost is_open = { λ k. B.is_open k.batches };

    ghost is_loaded = { λ k. B.is_loaded k.batches };

    ghost failures = { λ k. B.failures k.batches };
}

impl<B: Batches> Keeper for Staged<B> {
    ghost staged = { λ k. k.staged.items };

    fn load(&mut self, alloc: Global) -> Result<Image, LoadFault> {
        self.staged.clear();
        self.batches.load(alloc)
    }

    fn stage(&mut self, change: Change) -> Result<(), AllocError> {
        self.staged.push(change)?;
        Ok(())
    }

    fn commit(&mut self) -> Result<(), CommitFault> {
        let written = self.batches.write(&self.staged);
        self.staged.clear();
        written
    }

    ghost finds = { λ k clean opened. B.finds k.batches clean opened };
}
