//! An inventory in a store, kept for questions alone.

ghost use Rattle.std.specs.Prelude.{◌≡◌, ◌≤◌};
ghost use Rattle.lrs_image.specs.KeeperCalls.{HasRisen};

use crate::image::read_image;
use lrs_image::{Change, CommitFault, Holder, Keeper, LoadFault};
use lrs_machine::Image;
use sqlite_trees::store::Alter;
use std::alloc::{AllocError, Global};

/// Keeps an inventory for questions: loading reads the trees of the store, and no change is taken.
#[derive(Drop)]
pub struct Questions<S: Alter> {
    pub(crate) store: S,
    pub(crate) is_loaded: bool,
    pub(crate) failures: u64,
}

/// The count of failures after a fault of loading.
fn failures_after(failures: u64, fault: &LoadFault) -> u64
    ensures store { fault.now ≡ LoadFault.Store → HasRisen failures result }
    ensures quiet { (fault.now ≡ LoadFault.Store → ⊥) → result ≡ failures }
    ensures counts { failures ≤ result }
{
    match fault {
        LoadFault::Store => failures.saturating_add(1),
        LoadFault::Memory | LoadFault::Unsound(_) => failures,
    }
}

impl<S: Alter> Questions<S> {
    /// Gives up what was read, as where others may have written meanwhile. What may be found stays as it is; the count of
    /// failures rises.
    pub fn give_up(&mut self)
        ensures risen { HasRisen self.old.failures self.new.failures }
        ensures counts { self.old.failures ≤ self.new.failures }
        ensures kept { self.new.store ≡ self.old.store }
    {
        self.is_loaded = false;
        self.failures = failures_after(self.failures, &LoadFault::Store);
    }
}

impl<S: Alter> Holder for Questions<S> {
    ghost use Rattle.sqlite_trees.specs.View.{IsClean};
    ghost use Rattle.lrs_store_questions.specs.Readings.{MayTell, IsTold};

    ghost may_hold = { λ k c. MayTell S.Store.view S.Store.recovers c k.store };

    ghost is_clean = { λ k. IsClean (S.Store.view k.store) };

    ghost is_open = { λ k. IsTold S.Store.view k.store };

    ghost is_loaded = { λ k. k.is_loaded };

    ghost failures = { λ k. k.failures };
}

impl<S: Alter> Keeper for Questions<S> {
    ghost use Rattle.std.specs.Prelude.{[]};
    ghost use Rattle.lrs_store_questions.specs.Readings.{finds_told};

    ghost staged = { λ k. [] };

    fn load(&mut self, alloc: Global) -> Result<Image, LoadFault> {
        match read_image(alloc, &mut self.store) {
            Ok(image) => {
                self.is_loaded = true;
                Ok(image)
            }
            Err(fault) => {
                self.is_loaded = false;
                self.failures = failures_after(self.failures, &fault);
                Err(fault)
            }
        }
    }

    fn stage(&mut self, change: Change) -> Result<(), AllocError> {
        drop(change);
        Err(AllocError)
    }

    fn commit(&mut self) -> Result<(), CommitFault> {
        self.failures = self.failures.saturating_add(1);
        Err(CommitFault::Store)
    }

    ghost finds = { λ k clean told. finds_told S.Store.view S.Store.recovers k.store clean told (S.Store.stays k.store told.is_open) };
}
