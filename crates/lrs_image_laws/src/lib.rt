//! Laws of images: when an image is sound, and what it becomes where routes and their ground change.
//!
//! An image is sound exactly where its rows are in order and its state is lawful. The verbs prove the order of the rows
//! that they make; every command keeps a lawful state lawful.
#![tactic(auto)]

pub mod ground_laws;
mod ledger;
pub mod ledger_laws;
pub mod route_laws;
pub mod soundness;

pub use ledger::taken_away;
