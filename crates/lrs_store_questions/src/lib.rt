//! An inventory in files, opened for questions without a connection.
//!
//! `open_for_questions` opens the file at a path, by a file layer of its own that only reads; `files_for_questions` opens
//! two files that are given, and `Questions` keeps what they hold: a desk over it answers questions, and takes no change.
#![tactic(auto)]

mod access;
mod files;
mod image;
mod keeper;
mod laws;
mod lock;
mod look;
mod overlay;
mod pair;
mod plain;
mod record;
mod still;

pub use access::{QuestionsNotOpened, files_for_questions, open_for_questions};
pub use keeper::Questions;
pub use laws::same_answer;
pub use lock::ReadLock;
pub use pair::StillFrom;
pub use still::Still;
