//! Segments of a route.

use lrs_events::Value;
use lrs_measure::Rows;

/// The chainages `from <= j < to`, over which each class asked for has one value or none.
#[derive(Drop)]
pub struct Segment {
    pub from: u64,
    pub to: u64,
    pub values: Rows<Option<Value>>,
}

/// Why segments are refused, in the order of the checks; an index is that of the class asked for.
#[derive(Clone, Copy, PartialEq, Eq)]
pub enum SegFault {
    NoClass(u64),
    NotExclusive(u64),
    SideB,
    Memory,
}
