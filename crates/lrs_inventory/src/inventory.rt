//! An inventory: its image, and what is looked up in it.

ghost use Rattle.std.specs.Prelude.{◌≡◌, ◌∷◌, ◌++◌, [], IfOk, OnOk, OnErr, length};
ghost use Rattle.lrs_image.specs.KeeperCalls.{HasLoaded, OnlyStages};
ghost use Rattle.lrs_image.specs.ChangeLists.{KeepsOne};
ghost use Rattle.lrs_inventory.specs.Prelude.{IsSound, image_of};
ghost use Rattle.lrs_image.specs.Change.{apply, CanMake};
ghost use Rattle.lrs_inventory.specs.Plans.{change_of, TellsGround};

mod lookups;
mod stretches;

use crate::indexes::Indexes;
use crate::plan::Plan;
use lrs_image::{Change, CommitFault, ImageLists, Keeper, make_change, stage_change};
use lrs_machine::{Edit, Image};
use std::alloc::{AllocError, Global};
use std::marker::Model;
pub use stretches::RouteStretch;

/// A sound image, with indexes of its keys, of the ground of its routes and of its referents. Contracts see
/// the image.
#[derive(Drop)]
pub struct Inventory {
    kept: ImageLists,
    indexes: Indexes,
}

impl Model for Inventory {
    ghost use Rattle.lrs_machine.specs.declared.image.Image.{Image};
    ghost use Rattle.lrs_image.specs.OpenLists.{image_of};
    ghost use Rattle.lrs_inventory.specs.Inventory.{IsKnown};

    ghost Value = { Image };

    ghost view = { λ a. image_of a.kept };

    ghost invariant = { λ a. IsKnown (image_of a.kept) a.indexes };
}

impl Inventory {
    /// An image with its indexes.
    ///
    /// # Errors
    /// When memory runs out.
    pub fn new(alloc: Global, image: Image) -> Result<Inventory, AllocError>
        requires sound { IsSound image }
        ensures { IfOk result (λ inventory. inventory ≡ image) }
    {
        let indexes = Indexes::of_image(alloc, &image)?;
        let kept = ImageLists::of_image(alloc, image)?;
        Ok(Inventory { kept, indexes })
    }

    /// Drops it. As a call of this crate it is one step to prove for a caller, and not one for each part.
    pub fn discard(self) {
        drop(self);
    }

    /// A copy of the image.
    ///
    /// # Errors
    /// When memory runs out.
    pub fn image(&self, alloc: Global) -> Result<Image, AllocError>
        ensures image { IfOk result (λ image. image ≡ self.now) }
        ensures sound { IsSound self.now }
    {
        self.kept.image(alloc)
    }

    /// The lists of the image, for those who read them.
    pub fn kept(&self) -> &ImageLists
        ensures image { image_of result.now ≡ self.now }
        ensures sound { IsSound self.now }
    {
        &self.kept
    }

    /// The image is sound: a fact for proofs, which takes no time.
    pub fn prove_sound(&self)
        ensures { IsSound self.now }
    {
        let _ = &self.kept;
    }

    /// How many edits there are.
    pub fn edits(&self) -> u64
        ensures { result ≡ length self.now.edits }
    {
        self.kept.edits.len() as u64
    }

    /// How many links there are.
    pub fn links(&self) -> u64
        ensures { result ≡ length self.now.links }
    {
        self.kept.links.len() as u64
    }

    /// How many assets there are.
    pub fn assets(&self) -> u64
        ensures { result ≡ length self.now.assets }
    {
        self.kept.assets.len() as u64
    }

    /// How many routes there are.
    pub fn routes(&self) -> u64
        ensures { result ≡ length self.now.routes }
    {
        self.kept.routes.len() as u64
    }
}

impl Inventory {
    /// Makes a change by its plan here, and stages it. What is new is indexed first, which takes memory, and removed
    /// again where the change is not staged, which takes none.
    ///
    /// # Errors
    /// When memory runs out; nothing has changed then.
    pub fn stage<K: Keeper>(
        &mut self,
        alloc: Global,
        keeper: &mut K,
        edit: Edit,
        plan: Plan,
    ) -> Result<(), AllocError>
        requires can { CanMake (change_of edit plan) self.old }
        requires tells { TellsGround plan self.old }
        ensures ok { OnOk result (self.new ≡ apply (change_of edit plan) self.old) }
        ensures staged { OnOk result (K.staged keeper.new
            ≡ K.staged keeper.old ++ change_of edit plan ∷ []) }
        ensures err { OnErr result (self.new ≡ self.old) }
        ensures not_staged { OnErr result (K.staged keeper.new ≡ K.staged keeper.old) }
        ensures rest { OnlyStages K.Holder keeper.old keeper.new }
    {
        let Plan {
            difference,
            ground,
            referents,
        } = plan;
        let key = edit.key;
        let change = Change { edit, difference };
        let place = self.kept.edits.as_slice().len() as u64;
        match self.indexes.put_in(&key, place, &ground, &referents.come) {
            Ok(()) => {}
            Err(fault) => {
                drop(change);
                drop(ground);
                drop(referents);
                return Err(fault);
            }
        }
        match stage_change(alloc, &mut self.kept, keeper, change) {
            Ok(()) => {
                self.indexes.let_go(&ground, referents.gone.as_slice());
                drop(ground);
                drop(referents);
                Ok(())
            }
            Err(fault) => {
                self.indexes.take_out(&key, place, &ground, &referents.come);
                drop(ground);
                drop(referents);
                Err(fault)
            }
        }
    }

    /// Makes a change by its plan, in what is kept and then here. What is new is indexed before the commit, which takes
    /// memory, and removed again where the commit fails, which takes none.
    ///
    /// # Errors
    /// `Memory` when memory runs out, and `Store` where the device fails; here nothing has changed then.
    pub fn make<K: Keeper>(
        &mut self,
        alloc: Global,
        keeper: &mut K,
        edit: Edit,
        plan: Plan,
    ) -> Result<(), CommitFault>
        requires has { HasLoaded K.Holder keeper.old self.old }
        requires staged { K.staged keeper.old ≡ [] }
        requires can { CanMake (change_of edit plan) self.old }
        requires tells { TellsGround plan self.old }
        ensures ok { OnOk result (self.new ≡ apply (change_of edit plan) self.old) }
        ensures err { OnErr result (self.new ≡ self.old) }
        ensures keeps { KeepsOne K.Holder CommitFault.Memory CommitFault.Store
            (change_of edit plan) self.old keeper.old keeper.new result }
        ensures staged { K.staged keeper.new ≡ [] }
    {
        let Plan {
            difference,
            ground,
            referents,
        } = plan;
        let key = edit.key;
        let change = Change { edit, difference };
        let place = self.kept.edits.as_slice().len() as u64;
        match self.indexes.put_in(&key, place, &ground, &referents.come) {
            Ok(()) => {}
            Err(fault) => {
                drop(change);
                drop(ground);
                drop(referents);
                return Err(CommitFault::from(fault));
            }
        }
        match make_change(alloc, &mut self.kept, keeper, change) {
            Ok(()) => {
                self.indexes.let_go(&ground, referents.gone.as_slice());
                drop(ground);
                drop(referents);
                Ok(())
            }
            Err(fault) => {
                self.indexes.take_out(&key, place, &ground, &referents.come);
                drop(ground);
                drop(referents);
                Err(fault)
            }
        }
    }
}
