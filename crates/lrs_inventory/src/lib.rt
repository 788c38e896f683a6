//! The inventory: an image with its indexes, the look-ups that verbs and questions make, and the plans that change it.
#![tactic(auto)]

pub mod checks;
mod ground;
mod indexes;
mod inventory;
mod keys;
mod link_rows;
mod plan;
mod referents;
pub mod route_changes;

pub use inventory::{Inventory, RouteStretch};
pub use keys::KeyIndex;
pub use plan::{GroundChange, Plan, ReferentPlace, ReferentPlaces, Stop, refuse_if};
pub use referents::ReferentIndex;
