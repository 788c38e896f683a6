//! Numbers, exact fractions and short texts.
//!
//! The base of linear referencing without floating point: a fraction is its value in lowest terms, a
//! text of bounded length lies in the value itself, and a list is seen by contracts as its elements.
#![tactic(auto)]

pub mod alphabet;
mod fraction;
pub mod laws;
pub mod limits;
mod metres;
mod numerals;
mod order;
mod rows;
mod text;

pub use fraction::{Frac, gcd};
pub use metres::Metres;
pub use numerals::{read_digits, read_fraction, read_signed};
pub use order::{Keyed, Ordered, name_rank};
pub use rows::{Rows, TryCopy};
pub use text::Text;
