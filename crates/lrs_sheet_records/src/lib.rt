//! Records of sheets and of surveys: which command a record says, and under which key, or which of its fields is the
//! first malformed one.
#![tactic(auto)]

mod arguments;
mod arrival;
mod fault;
mod header;
pub mod laws;
mod list;
mod optional;
mod place;
mod question;
mod record;
pub mod rows;
mod shape;
mod sheet;
mod spot;
mod verb;

pub use fault::{ReadFault, SheetFault};
pub use header::{column, is_header, is_question_header};
pub use list::{cut_at, read_mark, read_piece};
pub use question::{column_name, question_in};
pub use record::{command_in, command_of, survey_of};
pub use shape::place_of;
pub use sheet::{Sheet, SheetRecord, text_at};
pub use verb::{Verb, read_verb};
