//! The promises of an inventory, one function each: what a caller may rely on, whatever is done.
#![tactic(auto)]

mod call_list;
mod calls;
mod canonical_rows;
pub mod determinism;
pub mod log;
pub mod row_laws;
pub mod safe;
mod service;
mod steps;
mod stop;
mod translation;

pub use call_list::headline;
pub use calls::{Call, CallFault};
pub use canonical_rows::rows;
pub use lrs_sheet::SheetFault;
pub use lrs_web::WebFault;
pub use service::serve;
pub use steps::{act, act_in_memory, act_on_first, close, open};
pub use stop::stops;
pub use translation::{Trip, round_trip};
