//! An inventory in the tables of a file: opened, kept and closed.
//!
//! `Tables` keeps an inventory in a store (`keeper`), `open_file` and `open_files` open one in a file or in two files
//! that are given, `close_files` gives the files back, `discard_files` drops them, and `Tables::in_memory` is a new one in memory.
#![tactic(auto)]

mod close;
mod commit;
mod files;
mod image;
mod keeper;
mod memory;
mod migration;
mod restart;
mod rows;
mod verdict;

pub use close::{closed_files, let_files_go};
pub use files::{Left, NotOpened, close_files, discard_files, open_file, open_files};
pub use keeper::Tables;
pub use lrs_store_files::{CloseFault, Untaken};
pub use lrs_store_tables::StoreFault;
pub use lrs_store_tables::stored_rows::ReadImage;
pub use restart::{NotReopened, close_and_open};
