//! Soundness decided fast: each table of an image tested as the definitions test it, by sorts, neighbours and
//! searches in place of every millimetre.
#![tactic(auto)]

mod assets;
mod balance;
mod courses;
mod edits;
mod ends;
mod exclusive;
mod holdings;
pub mod image;
pub mod laws;
mod ledgers;
mod lookups;
mod order;
mod origins;
mod referents;
mod spans;
mod sums;
mod sweep;

pub use assets::are_assets;
pub use courses::are_courses;
pub use edits::are_edits;
pub use image::first_unsound;
pub use ledgers::{are_entered, are_gone};
pub use order::{are_classes, are_links, gone_key, part_key};
pub use origins::are_origins;
pub use referents::{are_referents, differ, push_names};
pub use spans::are_spans;
