//! Stores of an inventory's tables in files: opened, made where there is none, closed, and read by their trees.
#![tactic(auto)]

mod comparison;
mod connection;
mod files;
mod lost;
mod table_list;
pub mod table_rows;
pub mod trees;
pub mod values;

pub use files::{CloseFault, TablesNotOpened, Untaken, close_tables, open_tables, open_tables_at};
pub use table_list::{Known, wanted, which};
