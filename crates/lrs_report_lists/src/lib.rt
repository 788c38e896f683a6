//! Lists of an inventory as CSV: a header, and a line for each route, link, class, referent, mark, piece, row, part that is
//! gone, or event of an asset. No field has to be quoted.
#![tactic(auto)]

mod absence;
mod assets;
mod classes;
mod edits;
mod history;
pub mod laws;
mod ledger;
pub mod length_lists;
mod link_rows;
mod links;
mod marks;
mod measures;
mod pieces;
mod presence;
mod referents;
mod road_order;
mod route_lines;
mod route_list;
mod row_list;
mod wanted;

pub use absence::{lacks_asset, lacks_class, lacks_edit, lacks_route, missing_row};
pub use assets::asset_numbered;
pub use classes::write_classes;
pub use edits::{edit_numbered, verb_of};
pub use history::{is_part_of, write_history};
pub use ledger::{link_side_text, reason_text, write_gone};
pub use length_lists::{ValueLength, lengths, write_lengths};
pub use link_rows::{LinkStretch, on_piece};
pub use links::write_links;
pub use marks::write_marks;
pub use measures::{measure_on, thousandths_on};
pub use pieces::{direction_text, write_pieces};
pub use referents::write_refs;
pub use road_order::rows_in_road_order;
pub use route_list::write_routes;
pub use row_list::write_rows;
pub use wanted::{is_gone_wanted, is_wanted};
