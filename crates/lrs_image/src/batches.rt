//! Where changes are kept several at a time, as a store's transaction does.

use crate::change::Change;
use crate::holder::Holder;
use crate::keeper::{CommitFault, LoadFault};
use lrs_machine::Image;
use std::alloc::Global;

/// Keeps an image, and is given all changes of a commit at once. `Staged` makes a keeper of it.
pub trait Batches: Holder {
    ghost use Rattle.std.specs.Prelude.{◌≡◌, true, OnErr, Result};
    ghost use Rattle.lrs_machine.specs.declared.image.Image.{Image};
    ghost use Rattle.lrs_machine.specs.declared.table.Table.{Table};
    ghost use Rattle.lrs_image.specs.KeeperCalls.{HasRisen, HoldsSound, Loads};
    ghost use Rattle.lrs_image.specs.ChangeLists.{CanKeep, Keeps};

    /// Reads the image. It leaves the content as it is, whatever it answers.
    fn load(&mut self, alloc: Global) -> Result<Image, LoadFault>
        ensures loads { Loads Self.Holder self.old self.new result };

    /// Keeps these changes, each made of what those before it made.
    ///
    /// # Errors
    /// `Memory` where memory runs out, and none of them is kept. `Store` where the device fails: all of them are kept
    /// then, or none.
    fn write(&mut self, changes: &[Change]) -> Result<(), CommitFault>
        requires loaded { Self.is_loaded self.old ≡ true }
        requires sound { HoldsSound (Self.may_hold self.old) }
        requires can { CanKeep (Self.may_hold self.old) changes.now }
        ensures keeps { Keeps Self.Holder changes.now self.old self.new result }
        ensures cause { OnErr result (HasRisen (Self.failures self.old) (Self.failures self.new)) };

    // Where the device is clean something is found, so that not everything is promised of nothing.
    ghost finds: { (batches : Self) → Self.is_clean batches → Self.is_open batches
        → (c : Result Image Table) × Self.may_hold batches c };
}
