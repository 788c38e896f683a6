//! The rows of a ledger for what rows of a route hold: parts of links, each on one side.

mod cuts;
mod ledger;
mod run;

pub use ledger::{gone, parts};
