//! Sides: lateral offset directions (ISO 19148, lateral offset).

ghost use Rattle.std.specs.Prelude.{◌≡◌, Some, IfSome};
ghost use Rattle.lrs_events.specs.declared.side.Side.{Side};
ghost use Rattle.lrs_events.specs.Names.{side_text};

use std::fmt;

/// A side of a route, seen along it: left, right or both.
#[derive(Clone, Copy, PartialEq, Eq)]
pub enum Side {
    L,
    R,
    B,
}

/// One side of a link, seen along it.
#[derive(Clone, Copy, PartialEq, Eq)]
pub enum LinkSide {
    Left,
    Right,
}

impl fmt::Display for Side {
    ghost use Rattle.std.specs.Prelude.{Some};
    ghost use Rattle.lrs_events.specs.Names.{side_text};

    ghost output = { λ side. Some (side_text side) };

    fn fmt<W: fmt::Write>(&self, f: &mut fmt::Formatter<W>) -> fmt::Result {
        match self {
            Side::L => f.write_str("L"),
            Side::R => f.write_str("R"),
            Side::B => f.write_str("B"),
        }
    }
}

/// The side of this text: `L`, `R` or `B`.
pub fn read_side(bytes: &[u8]) -> Option<Side>
    ensures read { IfSome result (λ side. bytes.now ≡ side_text side) }
    ensures found { (side : Side) → bytes.now ≡ side_text side → result ≡ Some side }
{
    match bytes {
        b"L" => Some(Side::L),
        b"R" => Some(Side::R),
        b"B" => Some(Side::B),
        _ => None,
    }
}
