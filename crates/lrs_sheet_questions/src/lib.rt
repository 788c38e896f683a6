//! Sheets of questions: bytes in, bytes out. Each record is read, asked at a desk and answered by its lines before the
//! next one is read, so that nothing grows with their number. Nothing changes what is kept.
#![tactic(auto)]

mod answer;
mod counter;
mod entries;
mod given;
mod kind;
mod lines;
mod list;
mod run;
mod stage;
mod tally;

pub use run::{ask_all, ask_arriving};
pub use tally::QuestionTally;
