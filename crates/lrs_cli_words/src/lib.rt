//! The words of the program: which job they ask for, and which question.
#![tactic(auto)]

mod arguments;
mod command_line;
mod comparison;
mod job;
mod lists;
mod parts;
mod question;
mod sheet_help;
mod word_help;
mod words;

pub use comparison::{Compared, Source, compared_of};
pub use job::{Job, new_has_sums};
pub use lists::summed_of;
pub use question::{BadWord, QuestionFault, Service, question_of, service_of};
pub use words::{WordsFault, job_of};
