//! Keepers of inventories in files of the system: for all work, or for questions alone.
#![tactic(auto)]

mod keeper;
mod place;
mod questions;
mod stored;
mod system;

pub use keeper::FileKeeper;
pub use questions::FileQuestions;
pub use stored::StoredFiles;
pub use system::SystemFiles;
