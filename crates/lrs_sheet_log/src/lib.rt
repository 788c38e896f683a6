//! The log of an inventory: its accepted commands as an edit sheet, which makes the same inventory again; its sum; a
//! route as such a sheet; and the first table in which two images differ.
#![tactic(auto)]

mod difference;
pub mod laws;
mod lines;
mod route_sheet;
mod sums;

pub use difference::first_difference;
pub use lines::{write_log, write_log_of_key};
pub use route_sheet::write_route_sheet;
pub use sums::{identity_of_log, sum_of_log};
