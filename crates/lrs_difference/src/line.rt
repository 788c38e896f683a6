//! The lines of a difference.

use lrs_element::{Course, Marks};
use lrs_events::{ClassName, Kind, Side, Value};
use lrs_position::{RefName, RouteName};

/// Whether an item is removed or added.
#[derive(Clone, Copy, PartialEq, Eq)]
pub enum Sign {
    Removed,
    Added,
}

/// What a difference tells of an asset: its lateral offset is in millimetres.
#[derive(Clone, Copy, PartialEq, Eq)]
pub struct AssetFacts {
    pub number: u64,
    pub class: ClassName,
    pub value: Value,
    pub lateral: u32,
}

/// One thing that an inventory says. Lengths and places are in millimetres along the link.
#[derive(Drop)]
pub enum Item {
    Link {
        number: u32,
        length: u32,
    },
    Class {
        name: ClassName,
        kind: Kind,
    },
    Route {
        name: RouteName,
        course: Course,
        marks: Marks,
    },
    Referent {
        name: RefName,
        link: u32,
        mm: u32,
    },
    Asset(AssetFacts),
    /// The asset holds the millimetres `from <= k < to` of the link, on this side of the link.
    Holds {
        asset: AssetFacts,
        link: u32,
        from: u32,
        to: u32,
        side: Side,
    },
}

/// A line of a difference.
#[derive(Drop)]
pub struct Line {
    pub sign: Sign,
    pub item: Item,
}
