//! Assets and where they lie: classes, sides, span lists and the parts of links that they hold
//! (ISO 19148, linearly located events).
//!
//! A span list is a set of (asset, class, millimetre, side), kept as its canonical rows.
#![tactic(auto)]

mod change;
mod class;
mod lanes;
mod ledgers;
mod part;
pub mod rows;
mod side;
mod span;
mod spans;

pub use change::SpanChange;
pub use class::{Asset, Class, ClassName, Kind, Value};
pub use lanes::{Lane, RowOrder, change_in_room, comes_before, compare};
pub use ledgers::{gone, parts};
pub use part::{Gone, Part};
pub use side::{LinkSide, Side, read_side};
pub use span::{Span, is_same};
pub use spans::{ClassLanes, OpenSpans, Spans};
