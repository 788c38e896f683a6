//! Who holds a millimetre of a route.

use lrs_events::{Asset, Side};

/// An asset that holds a millimetre of a route, and the side on which it does, seen along the route: that of
/// increasing measure (ISO 19148, lateral offset).
#[derive(Clone, Copy, PartialEq, Eq)]
pub struct Hit {
    pub asset: Asset,
    pub side: Side,
}
