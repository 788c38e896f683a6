//! The ground machine: commands under keys, their answers, what they make of an inventory, and what is read off it.
//!
//! What each command asks and changes is defined over a small model with one entry for each millimetre
//! (`specs/Machine`). An image, which is what a desk keeps, stands for a state of that model
//! (`specs/Image`). The laws of the model, over all states and lists of commands, are in `laws`.
#![tactic(auto)]

mod absence;
mod answer;
mod command;
mod hit;
mod image;
mod key;
pub mod laws;
mod line;
mod operands;
mod place;
mod question;
mod segment;
pub mod stops;
mod table;
mod texts;
mod total;

pub use absence::{Missing, missing_text};
pub use answer::{Answer, Cause, Field, Limits, What};
pub use command::{Command, NewAsset};
pub use hit::Hit;
pub use image::{Edit, Image, RouteRow};
pub use key::Key;
pub use line::Line;
pub use operands::{AssetNumber, Chainage, LateralOffset, MarkList, PieceList};
pub use place::read_place;
pub use question::{
    AskedPlace, Destination, GoneWanted, Listing, OverlayAsked, OverlayWanted, Place, Question,
    RowForm, RowsAsked, RowsWanted,
};
pub use segment::{SegFault, Segment};
pub use stops::Fault;
pub use table::Table;
pub use texts::piece_text;
pub use total::Total;
