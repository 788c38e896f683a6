//! What is looked up in an inventory other than by its order: edits by their keys, routes by the ground that
//! they run over, and referents by their names.

ghost use Rattle.std.specs.FinMap as map;
ghost use Rattle.std.specs.Prelude.{◌≡◌, None, IfOk, OnOk, OnErr, if◌then◌else◌};
ghost use Rattle.std.specs.List.{list_any};
ghost use Rattle.lrs_inventory.specs.Prelude.{Name, same_name, Millimetre, IsSound};
ghost use Rattle.lrs_position.specs.Index.Ground.{route_over};
ghost use Rattle.lrs_inventory.specs.Changes.{CanChangeGround, IsNewReferent};
ghost use Rattle.lrs_inventory.specs.Indexes.{IsIndexed, IsPutIn, TellSame, AreWholeFor, ground_made};
ghost use Rattle.lrs_inventory.specs.Keys.{IsNewPlace};
ghost use Rattle.lrs_inventory.specs.declared.indexes.Indexes.{Indexes as IndexValues};

use crate::ground::{cut_and_add, free_and_hand_over, ground_of_routes, take_out_added};
use crate::keys::KeyIndex;
use crate::plan::{GroundChange, ReferentPlace};
use crate::referents::ReferentIndex;
use lrs_machine::{Image, Key};
use lrs_position::{GroundIndex, RefName};
use std::alloc::{AllocError, Global};

/// The indexes of an image.
#[derive(Drop)]
pub struct Indexes {
    pub keys: KeyIndex,
    pub ground: GroundIndex,
    pub referents: ReferentIndex,
}

impl Indexes {
    /// The indexes of an image.
    ///
    /// # Errors
    /// When memory runs out.
    pub fn of_image(alloc: Global, image: &Image) -> Result<Indexes, AllocError>
        requires sound { IsSound image.now }
        ensures { IfOk result (IsIndexed image.now) }
    {
        Ok(Indexes {
            keys: KeyIndex::of_edits(alloc, image.edits.as_slice())?,
            ground: ground_of_routes(alloc, image.routes.as_slice())?,
            referents: ReferentIndex::of_routes(alloc, image.routes.as_slice())?,
        })
    }

    /// Inserts what is new by an edit: its key, ground and a referent. What it removes or passes to another
    /// route is made ready for that.
    ///
    /// # Errors
    /// When memory runs out; the same is found then.
    pub fn put_in(
        &mut self,
        key: &Key,
        place: u64,
        ground: &Option<GroundChange>,
        come: &Option<ReferentPlace>,
    ) -> Result<(), AllocError>
        requires new_place { IsNewPlace place self.old.keys }
        requires can { CanChangeGround ground.now (route_over self.old.ground) }
        requires new_referent { IsNewReferent come.now (map.get self.old.referents) }
        ensures ok { OnOk result (IsPutIn key.now place ground.now come.now self.old self.new) }
        ensures err { OnErr result (TellSame self.old self.new) }
    {
        cut_and_add(&mut self.ground, ground)?;
        if let Err(fault) = self.keys.insert(key, place) {
            take_out_added(&mut self.ground, ground);
            return Err(fault);
        }
        if let Err(fault) = self.referents.put_in(come) {
            self.keys.remove(key, place);
            take_out_added(&mut self.ground, ground);
            return Err(fault);
        }
        Ok(())
    }

    /// Takes out again what was put in. It takes no memory.
    pub fn take_out(
        &mut self,
        key: &Key,
        place: u64,
        ground: &Option<GroundChange>,
        come: &Option<ReferentPlace>,
    )
        ensures { (before : IndexValues) → IsPutIn key.now place ground.now come.now before self.old
            → TellSame before self.new }
    {
        self.keys.remove(key, place);
        take_out_added(&mut self.ground, ground);
        self.referents.take_out(come);
    }

    /// Removes what an edit removes, and hands over what passes to another route. It takes no memory.
    pub fn let_go(&mut self, ground: &Option<GroundChange>, gone: &[RefName])
        requires whole { AreWholeFor ground.now self.old.ground }
        ensures keys { self.new.keys ≡ self.old.keys }
        ensures ground { (m : Millimetre) → route_over self.new.ground m
            ≡ ground_made ground.now (route_over self.old.ground) m }
        ensures referents { (name : Name) → map.get self.new.referents name
            ≡
            (if list_any (same_name name) gone.now then None else map.get self.old.referents name) }
    {
        free_and_hand_over(&mut self.ground, ground);
        self.referents.remove_all(gone);
    }
}
