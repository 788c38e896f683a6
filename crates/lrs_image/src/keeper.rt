//! Where an image is kept.

use crate::change::Change;
use crate::holder::Holder;
use lrs_machine::{Image, Table};
use std::alloc::{AllocError, Global};

/// Why an image is not loaded.
#[derive(Clone, Copy, PartialEq, Eq)]
pub enum LoadFault {
    /// There is too little memory.
    Memory,
    /// The device failed.
    Store,
    /// What is kept is no sound image: this is its first unsound table.
    Unsound(Table),
}

impl From<AllocError> for LoadFault {
    ghost use Rattle.std.specs.Prelude.{◌≡◌};
    ghost use Rattle.lrs_image.specs.declared.keeper.LoadFault.TheVariants.{Memory};

    ghost from_gives = { λ _ e. e ≡ Memory };

    fn from(_: AllocError) -> Self {
        LoadFault::Memory
    }
}

/// Why a change is not made, or what is staged is not kept.
#[derive(Clone, Copy, PartialEq, Eq)]
pub enum CommitFault {
    /// There is too little memory. What is kept is as it was.
    Memory,
    /// The device failed. What is kept is as it was, or with all changes.
    Store,
}

impl From<AllocError> for CommitFault {
    ghost use Rattle.std.specs.Prelude.{◌≡◌};
    ghost use Rattle.lrs_image.specs.declared.keeper.CommitFault.TheVariants.{Memory};

    ghost from_gives = { λ _ e. e ≡ Memory };

    fn from(_: AllocError) -> Self {
        CommitFault::Memory
    }
}

/// Keeps an image, on a device that may fail. A change is staged first, which may take memory; a commit then keeps
/// all that is staged, and takes none that it cannot do without.
pub trait Keeper: Holder {
    ghost use Rattle.std.specs.Prelude.{◌≡◌, true, OnOk, OnErr, List, [], ◌∷◌, ◌++◌, Result};
    ghost use Rattle.lrs_machine.specs.declared.image.Image.{Image};
    ghost use Rattle.lrs_machine.specs.declared.table.Table.{Table};
    ghost use Rattle.lrs_image.specs.declared.change.Change.{Change as StagedChange};
    ghost use Rattle.lrs_image.specs.KeeperCalls.{HasRisen, HoldsSound, Loads, OnlyStages};
    ghost use Rattle.lrs_image.specs.ChangeLists.{CanKeep, Keeps};

    /// What the next commit is to keep. An opening finds nothing of it.
    ghost staged: { Self → List StagedChange };

    /// Reads the image. It leaves the content as it is, whatever it answers, and nothing staged.
    fn load(&mut self, alloc: Global) -> Result<Image, LoadFault>
        ensures loads { Loads Self.Holder self.old self.new result }
        ensures staged { staged self.new ≡ [] };

    /// Takes a change over, behind those that are staged. It makes no call of the device.
    ///
    /// # Errors
    /// When memory runs out; all is then as it was, and the change is dropped.
    fn stage(&mut self, change: Change) -> Result<(), AllocError>
        ensures ok { OnOk result (staged self.new ≡ staged self.old ++ change ∷ []) }
        ensures err { OnErr result (staged self.new ≡ staged self.old) }
        ensures rest { OnlyStages Self.Holder self.old self.new };

    /// Keeps what is staged, each change of what those before it made. Nothing is staged then, whatever it answers.
    ///
    /// # Errors
    /// `Memory` where memory runs out, and nothing is kept. `Store` where the device fails: all that was staged is kept
    /// then, or nothing of it.
    fn commit(&mut self) -> Result<(), CommitFault>
        requires loaded { Self.is_loaded self.old ≡ true }
        requires sound { HoldsSound (Self.may_hold self.old) }
        requires can { CanKeep (Self.may_hold self.old) (staged self.old) }
        ensures keeps { Keeps Self.Holder (staged self.old) self.old self.new result }
        ensures cause { OnErr result (HasRisen (Self.failures self.old) (Self.failures self.new)) }
        ensures staged { staged self.new ≡ [] };

    // Where the device is clean an open keeper finds something, so it cannot promise everything of nothing.
    ghost finds: { (keeper : Self) → Self.is_clean keeper → Self.is_open keeper
        → (c : Result Image Table) × Self.may_hold keeper c };
}
