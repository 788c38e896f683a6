//! The keeper of an inventory in a file of the system, as a type of its own: what is told of it above is one plain type,
//! and not all that it is made of, which would be more than the prover can compare. So are its tables.

use crate::place::Place;
use lrs_desk::{Batches, Change, CommitFault, Holder, Image, Keeper, LoadFault, Staged};
use lrs_store::Tables;
use lrs_store_image::Reader;
use sqlite::Alter;
use std::alloc::{AllocError, Global};

/// Keeps an inventory in the tables of a file and its log, at a path of the system. A write is done only where these files
/// still stand there: else it would be acknowledged into nothing.
pub struct FileTables<A: Alter> {
    pub(crate) tables: Tables<A, Reader>,
    pub(crate) place: Place,
}

impl<A: Alter> Holder for FileTables<A> {
    ghost may_hold = { λ k. ⟦<Tables<A, Reader> as Holder>⟧.may_hold k.tables };

    ghost is_clean = { λ k. ⟦<Tables<A, Reader> as Holder>⟧.is_clean k.tables };

    ghost is_open = { λ k. ⟦<Tables<A, Reader> as Holder>⟧.is_open k.tables };

    ghost is_loaded = { λ k. ⟦<Tables<A, Reader> as Holder>⟧.is_loaded k.tables };

    ghost failures = { λ k. ⟦<Tables<A, Reader> as Holder>⟧.failures k.tables };
}

impl<A: Alter> Batches for FileTables<A> {
    ghost use Rattle.lrs_store.specs.TableKeeper.HeldImages.{finds_left};

    fn load(&mut self, alloc: Global) -> Result<Image, LoadFault> {
        self.tables.load(alloc)
    }

    fn write(&mut self, changes: &[Change]) -> Result<(), CommitFault> {
        match self.tables.write(changes) {
            Ok(()) if self.place.is_same() => Ok(()),
            Ok(()) => {
                self.tables.give_up();
                Err(CommitFault::Store)
            }
            Err(fault) => Err(fault),
        }
    }

    ghost finds = { λ k clean opened. finds_left _ _ clean (A.Store.stays k.tables.conn.store opened) };
}

/// The same, with the changes that are staged for its tables.
pub struct FileKeeper<A: Alter> {
    pub(crate) inner: Staged<FileTables<A>>,
}

impl<A: Alter> Holder for FileKeeper<A> {
    ghost may_hold = { λ k. ⟦<Staged<FileTables<A>> as Holder>⟧.may_hold k.inner };

    ghost is_clean = { λ k. ⟦<Staged<FileTables<A>> as Holder>⟧.is_clean k.inner };

    ghost is_open = { λ k. ⟦<Staged<FileTables<A>> as Holder>⟧.is_open k.inner };

    ghost is_loaded = { λ k. ⟦<Staged<FileTables<A>> as Holder>⟧.is_loaded k.inner };

    ghost failures = { λ k. ⟦<Staged<FileTables<A>> as Holder>⟧.failures k.inner };
}

impl<A: Alter> Keeper for FileKeeper<A> {
    ghost use Rattle.lrs_store.specs.TableKeeper.HeldImages.{finds_left};

    ghost staged = { λ k. ⟦<Staged<FileTables<A>> as Keeper>⟧.staged k.inner };

    fn load(&mut self, alloc: Global) -> Result<Image, LoadFault> {
        self.inner.load(alloc)
    }

    fn stage(&mut self, change: Change) -> Result<(), AllocError> {
        self.inner.stage(change)
    }

    fn commit(&mut self) -> Result<(), CommitFault> {
        self.inner.commit()
    }

    ghost finds = { λ k clean opened. finds_left _ _ clean (A.Store.stays k.inner.batches.tables.conn.store opened) };
}
