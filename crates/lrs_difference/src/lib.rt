//! The difference of two inventories: what the one says and the other does not, line by line.
#![tactic(auto)]

mod alone;
mod entries;
mod groups;
mod held_rows;
mod known_rows;
pub mod laws;
mod line;
mod link_stretches;
mod merge;
mod referent_list;
mod sweep;
mod text;

pub use groups::{a_difference_is_its_groups, write_listed_differences};
pub use held_rows::HeldRow;
pub use known_rows::{only_held, write_difference};
pub use line::{AssetFacts, Item, Line, Sign};
pub use link_stretches::{HeldStretch, held_stretches};
pub use referent_list::{PlacedReferent, referents_by_name};
pub use text::{sign_text, write_line, write_lines};
