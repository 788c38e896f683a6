//! What holds of plans.

ghost use Rattle.lrs_inventory.specs.Plans.{PlansCanBeMade};

/// The plan of a command can be made under a new key, where there is room: it leaves a sound inventory sound.
pub fn plans_can_be_made()
    ensures { PlansCanBeMade }
{}
