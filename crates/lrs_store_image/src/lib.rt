//! The image that the rows of a store hold, or the first unsound table.
#![tactic(auto)]

mod cells;
pub mod edits;
mod emptiness;
pub mod entering_edits;
mod fault;
mod order;
pub mod origins;
mod reader;
mod registers;
mod route_decoder;
mod route_lists;
mod routes;
pub mod rows;
mod steps;
mod table_fault;
pub mod tests;

pub use reader::Reader;
pub use route_decoder::{
    MarkCells, Measured, OfRoute, PieceCells, RefCells, RouteCourse, RowsFault, SpanCells,
    read_courses, read_marks, read_referents, read_spans, said_of, sort_by_route,
};
pub use steps::{Begun, Held, Ledgers, Registers, begin, finish, with_ledgers};
