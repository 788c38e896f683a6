//! Spans: the stretches of a route that assets hold.

ghost use Rattle.std.specs.Prelude.{◌≡◌};
ghost use Rattle.lrs_events.specs.Changes.{same_row};

use crate::class::ClassName;
use crate::side::Side;

/// A stretch of a route that an asset holds, from chainage `from` up to `to` in millimetres. Its side is
/// seen along the route.
#[derive(Clone, Copy, PartialEq, Eq)]
pub struct Span {
    pub asset: u64,
    pub class: ClassName,
    pub from: u64,
    pub to: u64,
    pub side: Side,
}

/// Whether two rows are one.
pub fn is_same(r: &Span, s: &Span) -> bool
    ensures { result ≡ same_row r.now s.now }
{
    r.class == s.class && r.asset == s.asset && r.from == s.from && r.to == s.to && r.side == s.side
}
