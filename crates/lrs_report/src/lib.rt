//! Reports of a route and of all: linear segments by one sweep over the rows of the classes (ISO 19148: linear segment), the
//! strip of segments, totals of classes, and straight-line diagrams.
#![tactic(auto)]

mod class_totals;
mod columns;
pub mod diagrams;
mod known_rows;
pub mod laws;
mod list_tally;
mod lookups;
mod segmentation;
mod sweep;

pub use class_totals::totals;
pub use diagrams::{
    ClassBands, Diagram, DrawnPiece, DrawnRow, Scale, strip, strip_of, write_diagram,
};
pub use known_rows::KnownRows;
pub use segmentation::{segments, sweep_segments};
pub use sweep::Segments;
