//! Sheets of commands, and surveys: bytes in, bytes out. Records are read, done by a desk and answered by lines, one
//! after the other or some together, so that nothing grows with the number of records. A sheet is tried at a copy of an
//! inventory, in memory.
#![tactic(auto)]

mod desk_copy;
pub mod laws;
mod log_run;
mod queue;
mod repetition;
mod reply;
mod resumption;
mod run;
mod trial;

pub use desk_copy::{copy_desk, discard_copy, empty_desk};
pub use log_run::run_log;
pub use lrs_desk::{Desk, Fault, Keeper};
pub use lrs_sheet_records::{ReadFault, Sheet, SheetFault, command_of, survey_of};
pub use repetition::{RepeatedKey, repeated_key};
pub use reply::{Reply, Tally};
pub use resumption::{Decided, ResumeFault, last_edit, resume_sheet};
pub use run::{RECORDS_TOGETHER, Run, run_arriving, run_behind, run_edits, run_sheet, run_survey};
pub use trial::{Trial, try_sheet};
