//! What a diagram shows.

ghost use Rattle.std.specs.Prelude.{◌<◌, ◌^◌, length};

use crate::Scale;
use lrs_element::{Mark, Piece};
use lrs_events::{Class, Value};
use lrs_measure::Rows;
use lrs_position::{Referent, RouteName};

/// A stretch that an asset holds, from chainage `from` up to `to` in millimetres, on one side of the route. It has no
/// value where the asset is not known.
#[derive(Clone, Copy, PartialEq, Eq)]
pub struct DrawnRow {
    pub from: u64,
    pub to: u64,
    pub asset: u64,
    pub value: Option<Value>,
    /// Whether it is drawn as a tick, as the rows of a class of points are.
    pub is_point: bool,
}

/// A piece of a link, and where along the route it lies, in millimetres.
#[derive(Clone, Copy, PartialEq, Eq)]
pub struct DrawnPiece {
    pub from: u64,
    pub to: u64,
    pub piece: Piece,
}

/// What is drawn of a class: the rows on each side of the route, seen along it. A row on both sides is in both.
#[derive(Drop)]
pub struct ClassBands {
    pub class: Class,
    pub left: Rows<DrawnRow>,
    pub right: Rows<DrawnRow>,
}

/// A straight-line diagram of a route, or of a stretch of it.
#[derive(Drop)]
pub struct Diagram {
    pub route: RouteName,
    pub scale: Scale,
    pub marks: Rows<Mark>,
    pub referents: Rows<Referent>,
    pub pieces: Rows<DrawnPiece>,
    pub classes: Rows<ClassBands>,
    pub ghost few: { length classes < 2 ^ 32 },
}
