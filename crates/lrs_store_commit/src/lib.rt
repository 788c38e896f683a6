//! Commits: the changes of some commands, written to the tables of a store by one transaction.
#![tactic(auto)]

mod cells;
pub mod change_laws;
mod commit;
mod delete;
mod eight_rows;
pub mod image_laws;
mod insert_assets;
mod insert_lists;
mod insert_named;
mod lists;
mod migration;
mod new_assets;
mod routes;
pub mod texts;
mod update;

pub use commit::write_changes;
pub use migration::bring_up;
