//! Links, courses and marks: the linear elements of ISO 19148 and their measure lines.
//!
//! A course is its list of ground millimetres, one entry for each; marks are a line.
#![tactic(auto)]

mod checks;
mod course;
mod known_links;
mod line;
mod link;
mod marks;
mod pieces;

pub use checks::have_repeat;
pub use course::{Course, CourseFault, JoinFault};
pub use known_links::KnownLinks;
pub use link::{Ground, Link, Piece};
pub use marks::{Mark, MarkFault, Marks};
pub use pieces::{starts_of, starts_up_to};
