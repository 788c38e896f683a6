//! How long each value of each class is, on one route or on all: each millimetre of a route once for a class and a value,
//! however many assets hold it.

mod assets;
mod entries;
mod held_assets;
mod held_lengths;
pub mod laws;
mod lines;
mod order;
mod report;
mod table;

pub use lines::write_lengths;
pub use report::lengths;
pub use table::ValueLength;
