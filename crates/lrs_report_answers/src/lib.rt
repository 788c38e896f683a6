//! Answers to questions, over the lists of an inventory: the assets at a position, where an asset is, segments, positions
//! by another method, diagrams, totals, lengths; and what is listed.
#![tactic(auto)]

mod asset_rows;
mod bands;
mod cause;
mod class_faults;
mod combination_lines;
pub mod combinations;
mod entered_parts;
mod fault;
mod ground_routes;
mod hits;
pub mod laws;
mod list_totals;
mod overlay;
mod overlay_lines;
pub mod places;
mod position;
mod questions;
mod route;
mod route_diagram;
mod rows;
mod search;
mod segmentation;
mod stretch;
mod tallies;
mod told;

pub use cause::{AskCause, cause_of};
pub use combination_lines::write_combinations;
pub use combinations::Combination;
pub use fault::AskFault;
pub use hits::{AtAnswer, at};
pub use list_totals::totals_of_image;
pub use overlay::{is_segment_wanted, overlay_segments};
pub use overlay_lines::write_overlay;
pub use places::{Whereabouts, whereabouts};
pub use position::{to_link, translate};
pub use questions::tell;
pub use route::{length_of, named_route};
pub use route_diagram::diagram;
pub use rows::{FoundRow, push_rows};
pub use search::find;
pub use segmentation::{RouteSegments, segments};
pub use stretch::{End, end_of};
pub use tallies::Counts;
pub use told::Told;
