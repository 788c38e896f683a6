//! Advice about a sheet: for each record that is refused, a line for people that says where it is, what is wrong with it
//! and what to do about it; or an item for programs, which has that line and its parts.
//!
//! The sentences stand in three tables: `sentence` for causes, `wanted` for fields, `flaw` for what was found.
#![tactic(auto)]

mod advice;
mod advice_list;
mod cause;
mod column;
mod fault;
mod flaw;
mod item;
pub mod laws;
mod line;
mod malformed;
mod part;
mod place;
mod records;
mod refused;
mod refused_lines;
mod reply;
mod sentence;
mod slot;
mod summary;
mod tidy_sheet;
mod wanted;
mod whole;

pub use advice::write_advice;
pub use advice_list::{AdviceItem, AdviceList, list_advice, list_fault_advice};
pub use fault::AdviceFault;
pub use refused_lines::refusals;
pub use summary::write_summary;
pub use tidy_sheet::{TidyFault, tidy};
pub use whole::{SheetFlaw, write_fault_advice};
