//! What assets hold on one route: the canonical rows of a set of (class, asset, millimetre, side), found by search
//! and changed by differences.

mod class_places;
mod edits;
mod lanes;
mod open_spans;
mod overlaps;
mod plans;
mod queries;
mod search;
mod spans;

pub use lanes::ClassLanes;
pub use open_spans::OpenSpans;
pub use spans::Spans;
