//! Canonical rows of one route: what a change makes of them.
//!
//! The spans of a route are kept as rows, sorted by class, asset and start, and as few as what they hold can be written
//! in. Each function here reads such rows, or the part of them that a caller found, and says which rows go and which
//! come. Nothing here changes rows in place.

pub mod addition;
pub mod change;
pub mod clips;
pub mod cuts;
pub mod inverses;
pub mod joins;
pub mod laws;
pub mod merger;
pub mod order;
pub mod removals;
pub mod run_laws;
pub mod sides;
pub mod turns;
