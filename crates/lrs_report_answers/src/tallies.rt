//! Totals of each class, what was entered, retired, abandoned and is present of it, counted edit by edit.

mod counts;
mod tally;

pub use counts::Counts;
