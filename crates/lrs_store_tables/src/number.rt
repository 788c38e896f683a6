//! Numbers, as a store takes them.

ghost use Rattle.std.specs.Prelude.{◌≡◌, ◌≤◌, ◌^◌, pos, MatchResult};
ghost use Rattle.sqlite_value.specs.declared.value.Value.TheVariants.{Int};
ghost use Rattle.sqlite_value.specs.Value.{owned};
ghost use Rattle.lrs_store_tables.specs.Contents.Encoders as encoding;

use lrs_events::{Kind, LinkSide, Side};
use sqlite::types::ValueRef;
use sqlite::{Error, ErrorCode};

/// A whole number.
pub fn number(n: u64) -> Result<ValueRef<'static>, Error>
    ensures { MatchResult result (λ v. owned v ≡ Int (pos n)) (λ e. 2 ^ 63 ≤ n) }
{
    match i64::try_from(n) {
        Ok(n) => Ok(ValueRef::Int(n)),
        Err(_) => Err(Error::SqliteFailure(ErrorCode::TooBig)),
    }
}

/// The number of a kind of class.
pub fn kind_number(kind: Kind) -> u64
    ensures { result ≡ encoding.kind_number kind }
{
    match kind {
        Kind::Point => 0,
        Kind::Stretch => 1,
        Kind::Exclusive => 2,
    }
}

/// The number of a side of a route.
pub fn side_number(side: Side) -> u64
    ensures { result ≡ encoding.side_number side }
{
    match side {
        Side::L => 0,
        Side::R => 1,
        Side::B => 2,
    }
}

/// The number of a side of a link.
pub fn link_side_number(side: LinkSide) -> u64
    ensures { result ≡ encoding.link_side_number side }
{
    match side {
        LinkSide::Left => 0,
        LinkSide::Right => 1,
    }
}

/// The number of a direction of a piece.
pub fn direction_number(forward: bool) -> u64
    ensures { result ≡ encoding.direction_number forward }
{
    if forward { 0 } else { 1 }
}

/// The number of what became of a part that is gone.
pub fn cause_number(abandoned: bool) -> u64
    ensures { result ≡ encoding.cause_number abandoned }
{
    if abandoned { 1 } else { 0 }
}
