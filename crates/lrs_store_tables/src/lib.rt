//! The tables of a store: created, read, and their rows decoded.
#![tactic(auto)]

pub mod all_rows;
mod create;
pub mod decode;
pub mod insert;
pub mod laws;
mod new_store;
pub mod number;
mod numbers;
pub mod order_laws;
pub mod select;
pub mod stored_rows;
mod tables;

pub use create::{TABLES, make_tables};
pub use new_store::make_store;
pub use numbers::{short, whole};
pub use tables::{StoreFault, TableStore};
