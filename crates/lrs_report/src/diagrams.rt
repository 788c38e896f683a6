//! Straight-line diagrams: a route as a straight axis, with its measures, referents and links, and the rows of assets on
//! bands above it (left) and below it (right), as the bytes of an SVG picture.
//!
//! A strip shows linear segments as text, in columns.
//!
//! The unit of the page is a tenth of a pixel. All numbers are whole.

mod axis;
mod bands;
mod diagram;
mod labels;
pub mod laws;
mod picture;
mod scale;
mod shapes;
mod strip_text;

pub use diagram::{ClassBands, Diagram, DrawnPiece, DrawnRow};
pub use picture::write_diagram;
pub use scale::Scale;
pub use strip_text::{strip, strip_of};
