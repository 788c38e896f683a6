//! What the program says beside its answers: help on verbs, hints on words that cannot be read, explanations of faults.
#![tactic(auto)]

mod contents;
mod copy;
pub mod explanation;
mod flaw;
mod hints;
mod holder;
mod inspection;
mod job_texts;
mod lines;
mod made_file;
mod options;
mod outlet;
mod rules;
mod shown;
mod site;
mod spreadsheet;
mod turn;
mod verbs;

pub use hints::hint_at;
pub use made_file::{MadeFile, make_file, remove_file};
pub use options::{GivenWords, NextWord, Options, expected_of, options_of, read_words, wait_of};
pub use outlet::{is_error_read, is_reader_gone};
pub use site::{Site, site_at};
pub use turn::{Patience, Purpose, Turn, take_turn};
pub use verbs::verb_help;
