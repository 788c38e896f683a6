//! Parts of links, as the ledgers keep them.

use crate::side::LinkSide;

/// The millimetres `from <= k < to` of a link on one side of it, which an edit entered for an asset or took
/// away from it.
#[derive(Clone, Copy, PartialEq, Eq)]
pub struct Part {
    pub edit: u64,
    pub asset: u64,
    pub link: u32,
    pub from: u32,
    pub to: u32,
    pub side: LinkSide,
}

/// A part that was taken away: abandoned with its ground, or else retired.
#[derive(Clone, Copy, PartialEq, Eq)]
pub struct Gone {
    pub part: Part,
    pub abandoned: bool,
}
