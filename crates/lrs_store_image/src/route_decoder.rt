//! Routes from the rows of a store, in any order: courses, marks, referents and spans.

mod canonical_rows;
mod cells;
mod courses;
mod decode;
mod decode_spans;
mod decoded_rows;
mod fault;
mod groups;
mod known_routes;
mod marks;
mod referents;
mod spans;

pub use cells::{MarkCells, PieceCells, RefCells, SpanCells};
pub use courses::{RouteCourse, read_courses};
pub use decoded_rows::OfRoute;
pub use fault::RowsFault;
pub use groups::{said_of, sort_by_route};
pub use marks::{Measured, read_marks};
pub use referents::read_referents;
pub use spans::read_spans;
