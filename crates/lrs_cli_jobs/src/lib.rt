//! What the program does for its words: a job, in memory or in a file, whatever opens its files.
#![tactic(auto)]

mod comparison;
mod desk;
mod explanation;
mod jobs;
mod output;
mod program;
mod question;
mod service;
mod target;
#[cfg(test)]
mod tests;

pub use jobs::do_job;
pub use lrs_cli_sheets::{Sheets, SystemSheets, World};
pub use program::run;
