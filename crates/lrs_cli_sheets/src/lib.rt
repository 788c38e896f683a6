//! What the program does with sheets, whatever keeps the inventory: they are done, tried, asked, tidied and drafted; and an
//! inventory is compared with what its log makes, and with another.
#![tactic(auto)]

mod advice;
mod audit;
mod confirmation;
mod cuts;
mod difference;
mod difference_summary;
mod draft_sheet;
mod holdings;
mod inventory_difference;
mod likely_measures;
mod nearby;
mod nearest;
mod place_notes;
mod places;
mod progress;
mod question_sheets;
mod remains;
mod report;
mod sheets;
mod streams;
mod tidy_sheet;
mod trial;
mod trial_notes;
mod world;

pub use audit::do_audit;
pub use confirmation::do_confirmed;
pub use draft_sheet::do_draft;
pub use inventory_difference::{do_difference, do_since, made_by_log};
pub use place_notes::tell_of_question;
pub use progress::{Extent, ProgressDisplay};
pub use question_sheets::{QuestionPace, answer_sheet, do_questions};
pub use sheets::Pace;
pub use streams::write_out;
pub use tidy_sheet::do_tidy;
pub use trial::{do_check, do_records};
pub use world::{Sheets, SystemSheet, SystemSheets, World};
