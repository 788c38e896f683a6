//! The links of an inventory, found by their numbers.

use lrs_element::{KnownLinks, Link};
use lrs_ordered::Chunked;

/// The links over which the pieces of a course run.
#[derive(Drop)]
pub(crate) struct LinkRows<'a> {
    pub(crate) rows: &'a Chunked<Link>,
}

impl<'a> KnownLinks for LinkRows<'a> {
    ghost links = { λ known. known.rows.now.rows };

    fn link(&self, number: u32) -> Option<Link> {
        self.rows.find(&number).copied()
    }
}
