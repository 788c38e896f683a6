//! The tables of an inventory.

/// The tables of a store, in the order in which an unsound one is named.
#[derive(Clone, Copy, PartialEq, Eq)]
pub enum Table {
    Version,
    Link,
    Class,
    Asset,
    Piece,
    Mark,
    Ref,
    Span,
    Entered,
    Gone,
    Edit,
    Origin,
}
