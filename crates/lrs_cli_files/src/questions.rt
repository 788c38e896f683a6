//! The keeper of an inventory in a file that is only asked: others may write the file once it is loaded.

use lrs_desk::{Change, CommitFault, Holder, Image, Keeper, LoadFault};
use lrs_store_questions::{Questions, ReadLock};
use sqlite::{Alter, FileStore};
use sqlite_disk::Disk;
use std::alloc::{AllocError, Global};

/// Keeps an inventory for questions, which is loaded once: under the locks on its files, which go then.
pub struct FileQuestions<A: Alter> {
    pub(crate) inner: Questions<A>,
    pub(crate) lock: Option<ReadLock>,
}

// Lets the locks go, if there are any, and says whether they kept all others out.
fn let_go(lock: Option<ReadLock>) -> bool {
    match lock {
        Some(lock) => lock.holds_still(),
        None => false,
    }
}

impl<A: Alter> Holder for FileQuestions<A> {
    ghost may_hold = { λ k. ⟦<Questions<A> as Holder>⟧.may_hold k.inner };

    ghost is_clean = { λ k. ⟦<Questions<A> as Holder>⟧.is_clean k.inner };

    ghost is_open = { λ k. ⟦<Questions<A> as Holder>⟧.is_open k.inner };

    ghost is_loaded = { λ k. ⟦<Questions<A> as Holder>⟧.is_loaded k.inner };

    ghost failures = { λ k. ⟦<Questions<A> as Holder>⟧.failures k.inner };
}

impl<A: Alter> Keeper for FileQuestions<A> {
    ghost use Rattle.lrs_store_questions.specs.Readings.{finds_told};

    ghost staged = { λ k. ⟦<Questions<A> as Keeper>⟧.staged k.inner };

    fn load(&mut self, alloc: Global) -> Result<Image, LoadFault> {
        let answer = self.inner.load(alloc);
        if let_go(self.lock.take()) {
            return answer;
        }
        self.inner.give_up();
        Err(LoadFault::Store)
    }

    fn stage(&mut self, change: Change) -> Result<(), AllocError> {
        self.inner.stage(change)
    }

    fn commit(&mut self) -> Result<(), CommitFault> {
        self.inner.commit()
    }

    ghost finds = { λ k clean told. finds_told A.Store.view A.Store.recovers k.inner.store clean told (A.Store.stays k.inner.store told.is_open) };
}

impl<D: Disk + Drop> FileQuestions<FileStore<D>> {
    /// Drops it.
    pub(crate) fn discard(self) {
        let FileQuestions { inner, lock } = self;
        drop(lock);
        inner.discard();
    }
}
