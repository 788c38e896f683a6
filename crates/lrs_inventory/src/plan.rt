//! What a verb gives: what its command changes, or why it does not act.

ghost use Rattle.std.specs.Prelude.{◌≡◌, if◌then◌else◌, Ok, Err};
ghost use Rattle.lrs_inventory.specs.Plans.{no_plan};

use lrs_element::Piece;
use lrs_image::Difference;
use lrs_machine::Cause;
use lrs_measure::Rows;
use lrs_position::{RefName, RouteName};
use std::alloc::{AllocError, AllocFailed, Global};

/// Why a verb does not act.
#[derive(Clone, Copy, PartialEq, Eq)]
pub enum Stop {
    /// The first check of the verb that fails.
    Refused(Cause),
    /// There is too little memory.
    Memory,
}

impl From<Cause> for Stop {
    ghost use Rattle.std.specs.Prelude.{◌≡◌};
    ghost use Rattle.lrs_inventory.specs.declared.plan.Stop.TheVariants.{Refused};

    ghost from_gives = { λ c e. e ≡ Refused c };

    fn from(cause: Cause) -> Self {
        Stop::Refused(cause)
    }
}

impl From<AllocError> for Stop {
    ghost use Rattle.std.specs.Prelude.{◌≡◌};
    ghost use Rattle.lrs_inventory.specs.declared.plan.Stop.TheVariants.{Memory};

    ghost from_gives = { λ _ e. e ≡ Memory };

    fn from(_: AllocError) -> Self {
        Stop::Memory
    }
}

impl<T: Drop> From<AllocFailed<T>> for Stop {
    ghost use Rattle.std.specs.Prelude.{◌≡◌};
    ghost use Rattle.lrs_inventory.specs.declared.plan.Stop.TheVariants.{Memory};

    ghost from_gives = { λ _ e. e ≡ Memory };

    fn from(_: AllocFailed<T>) -> Self {
        Stop::Memory
    }
}

/// Refuses a command for this cause where a check fails.
pub fn refuse_if(fails: bool, cause: Cause) -> Result<(), Stop>
    ensures { result ≡ (if fails then Err (Stop.Refused cause) else Ok tt) }
{
    if fails {
        Err(Stop::Refused(cause))
    } else {
        Ok(())
    }
}

/// What changes of the ground that routes run over: what no route runs over any more, what passes from its
/// route to this one, and what this one gets.
#[derive(Drop)]
pub struct GroundChange {
    pub route: RouteName,
    pub gone: Rows<Piece>,
    pub passed: Rows<Piece>,
    pub come: Rows<Piece>,
}

/// In which millimetre of a link a referent stands.
#[derive(Clone, Copy)]
pub struct ReferentPlace {
    pub name: RefName,
    pub link: u32,
    pub mm: u32,
}

/// Which referent comes, and which go.
#[derive(Drop)]
pub struct ReferentPlaces {
    pub come: Option<ReferentPlace>,
    pub gone: Rows<RefName>,
}

/// What a command changes: of the image, and of what is looked up by ground and by a referent's name.
#[derive(Drop)]
pub struct Plan {
    pub difference: Difference,
    pub ground: Option<GroundChange>,
    pub referents: ReferentPlaces,
}

impl Plan {
    /// The plan that changes nothing. It takes no memory.
    pub fn none(alloc: Global) -> Plan
        ensures { result ≡ no_plan }
    {
        Plan {
            difference: Difference::none(alloc),
            ground: None,
            referents: ReferentPlaces {
                come: None,
                gone: Rows::new(alloc),
            },
        }
    }

    /// Drops it. As a call of this crate it is one step to prove for a caller, and not one for each part.
    pub fn discard(self) {
        drop(self);
    }
}
