//! Rows of a route in order: changed in place, without memory, and searched from where they begin.

mod lane;
mod order;
mod sorted_rows;

pub use lane::Lane;
pub use order::{RowOrder, comes_before, compare};
pub use sorted_rows::change_in_room;
