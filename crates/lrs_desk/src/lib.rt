//! The desk: it does commands under keys, over any keeper, and its answers are the ground machine's.
#![tactic(auto)]

mod answers;
mod commands;
mod decision;
mod desk;
mod files;
mod group;
mod plain;

pub use desk::{Desk, OpenFault};
pub use files::Files;
pub use group::FirstAnswers;
pub use lrs_image::{Batches, Change, CommitFault, Difference, Holder, Keeper, LoadFault, Staged};
pub use lrs_inventory::Inventory;
pub use lrs_machine::{
    Answer, Cause, Command, Destination, Fault, Image, Key, Limits, Question, Table,
};
pub use lrs_report_answers::{AskFault, AtAnswer, Counts, FoundRow, Told};
pub use plain::Plain;
