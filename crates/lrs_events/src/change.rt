//! What changes in the rows of a route.

use crate::span::Span;

/// The removed and the inserted rows of a route. No row is both.
#[derive(Drop)]
pub struct SpanChange {
    pub gone: Vec<Span>,
    pub come: Vec<Span>,
}
