//! Numbers and lists as commands state them, in the limits of their texts.

ghost use Rattle.std.specs.Prelude.{◌≡◌, IsTrue};
ghost use Rattle.std.specs.List.{list_all};
ghost use Rattle.std.specs.Option.{SomeIff};
ghost use Rattle.lrs_measure.specs.Limits;
ghost use Rattle.lrs_machine.specs.EnteredNumbers;

use lrs_element::{Mark, Piece};
use lrs_measure::limits::{
    GREATEST_ASSET, GREATEST_LATERAL, GREATEST_LINK, GREATEST_MEASURE, LONGEST_LINK, LONGEST_ROUTE,
    MOST_MARKS, MOST_PIECES,
};
use std::marker::Model;

fn is_link_number(number: u32) -> bool
    ensures { result ≡ Limits.is_link_number number }
{
    1 <= number && number <= GREATEST_LINK
}

fn is_entered_piece(piece: &Piece) -> bool
    ensures { result ≡ EnteredNumbers.is_entered_piece piece.now }
{
    is_link_number(piece.link) && piece.from <= LONGEST_LINK && piece.to <= LONGEST_LINK
}

fn each_is_entered(pieces: &[Piece]) -> bool
    ensures { result ≡ list_all EnteredNumbers.is_entered_piece pieces.now }
{
    pieces.iter().all(|piece| is_entered_piece(piece))
}

fn are_entered_pieces(pieces: &[Piece]) -> bool
    ensures { result ≡ EnteredNumbers.are_entered_pieces pieces.now }
{
    let count = pieces.len();
    1 <= count && count <= MOST_PIECES && each_is_entered(pieces)
}

fn is_entered_mark(mark: &Mark) -> bool
    ensures { result ≡ EnteredNumbers.is_entered_mark mark.now }
{
    mark.chainage <= LONGEST_ROUTE && mark.measure <= GREATEST_MEASURE
}

fn each_is_entered_mark(marks: &[Mark]) -> bool
    ensures { result ≡ list_all EnteredNumbers.is_entered_mark marks.now }
{
    marks.iter().all(|mark| is_entered_mark(mark))
}

fn are_entered_marks(marks: &[Mark]) -> bool
    ensures { result ≡ EnteredNumbers.are_entered_marks marks.now }
{
    let count = marks.len();
    2 <= count && count <= MOST_MARKS && each_is_entered_mark(marks)
}

/// The number of an asset: 1 to 1,000,000,000,000.
#[derive(Clone, Copy, PartialEq, Eq)]
pub struct AssetNumber {
    number: u64,
}

impl Model for AssetNumber {
    ghost use Rattle.std.specs.Prelude.{ℕ, IsTrue};
    ghost use Rattle.lrs_machine.specs.EnteredNumbers.{is_asset_number};

    ghost Value = { ℕ };

    ghost view = { λ asset. asset.number };

    ghost invariant = { λ asset. IsTrue (is_asset_number asset.number) };

    ghost inverse = { λ number. record { number = number } };
}

impl AssetNumber {
    ghost use Rattle.lrs_machine.specs.EnteredNumbers.{is_asset_number};

    /// This number, if an asset can have it.
    pub fn new(number: u64) -> Option<AssetNumber>
        ensures { SomeIff result (IsTrue (is_asset_number number)) number }
    {
        if number < 1 || number > GREATEST_ASSET {
            return None;
        }
        Some(AssetNumber { number })
    }

    /// The number.
    pub fn get(self) -> u64
        ensures number { result ≡ self }
        ensures limits { IsTrue (is_asset_number self) }
    {
        self.number
    }
}

/// A distance in millimetres from the start of a route, as a command states it: at most 10,000,000,000.
#[derive(Clone, Copy, PartialEq, Eq)]
pub struct Chainage {
    distance: u64,
}

impl Model for Chainage {
    ghost use Rattle.std.specs.Prelude.{ℕ, IsTrue};
    ghost use Rattle.lrs_machine.specs.EnteredNumbers.{is_chainage};

    ghost Value = { ℕ };

    ghost view = { λ chainage. chainage.distance };

    ghost invariant = { λ chainage. IsTrue (is_chainage chainage.distance) };

    ghost inverse = { λ distance. record { distance = distance } };
}

impl Chainage {
    ghost use Rattle.lrs_machine.specs.EnteredNumbers.{is_chainage};

    /// This chainage, if a route can be so long.
    pub fn new(distance: u64) -> Option<Chainage>
        ensures { SomeIff result (IsTrue (is_chainage distance)) distance }
    {
        if distance > LONGEST_ROUTE {
            return None;
        }
        Some(Chainage { distance })
    }

    /// The chainage in millimetres.
    pub fn get(self) -> u64
        ensures distance { result ≡ self }
        ensures limits { IsTrue (is_chainage self) }
    {
        self.distance
    }
}

/// A lateral offset (ISO 19148) in millimetres: at most 100,000.
#[derive(Clone, Copy, PartialEq, Eq)]
pub struct LateralOffset {
    distance: u32,
}

impl Model for LateralOffset {
    ghost use Rattle.std.specs.Prelude.{ℕ, IsTrue};
    ghost use Rattle.lrs_machine.specs.EnteredNumbers.{is_lateral_offset};

    ghost Value = { ℕ };

    ghost view = { λ offset. offset.distance };

    ghost invariant = { λ offset. IsTrue (is_lateral_offset offset.distance) };

    ghost inverse = { λ distance. record { distance = distance } };
}

impl LateralOffset {
    ghost use Rattle.lrs_machine.specs.EnteredNumbers.{is_lateral_offset};

    /// This offset, if it is in its limit.
    pub fn new(distance: u32) -> Option<LateralOffset>
        ensures { SomeIff result (IsTrue (is_lateral_offset distance)) distance }
    {
        if distance > GREATEST_LATERAL {
            return None;
        }
        Some(LateralOffset { distance })
    }

    /// The offset in millimetres.
    pub fn get(self) -> u32
        ensures distance { result ≡ self }
        ensures limits { IsTrue (is_lateral_offset self) }
    {
        self.distance
    }
}

/// 1 to 1,000 pieces whose links and ends are in the limits of a piece's text. What they are refused for,
/// as an end before its start or ground that is not there, they can still say.
#[derive(Drop)]
pub struct PieceList {
    pieces: Vec<Piece>,
}

impl Model for PieceList {
    ghost use Rattle.std.specs.Prelude.{List, IsTrue};
    ghost use Rattle.lrs_element.specs.declared.link.Piece.{Piece};
    ghost use Rattle.lrs_machine.specs.EnteredNumbers.{are_entered_pieces};

    ghost Value = { List Piece };

    ghost view = { λ list. list.pieces.items };

    ghost invariant = { λ list. IsTrue (are_entered_pieces list.pieces.items) };
}

/// 2 to 1,000 marks whose chainages and measures are in the limits of a mark's text, in any order.
#[derive(Drop)]
pub struct MarkList {
    marks: Vec<Mark>,
}

impl Model for MarkList {
    ghost use Rattle.std.specs.Prelude.{List, IsTrue};
    ghost use Rattle.lrs_element.specs.declared.marks.Mark.{Mark};
    ghost use Rattle.lrs_machine.specs.EnteredNumbers.{are_entered_marks};

    ghost Value = { List Mark };

    ghost view = { λ list. list.marks.items };

    ghost invariant = { λ list. IsTrue (are_entered_marks list.marks.items) };
}

impl PieceList {
    ghost use Rattle.lrs_machine.specs.EnteredNumbers.{are_entered_pieces};

    /// These pieces, if there are 1 to 1,000 of them, each in the limits of its text.
    pub fn new(pieces: Vec<Piece>) -> Option<PieceList>
        ensures { SomeIff result (IsTrue (are_entered_pieces pieces.items)) pieces.items }
    {
        if !are_entered_pieces(pieces.as_slice()) {
            return None;
        }
        Some(PieceList { pieces })
    }

    /// The pieces in their order.
    pub fn as_slice(&self) -> &[Piece]
        ensures pieces { result.now ≡ self.now }
        ensures entered { IsTrue (are_entered_pieces self.now) }
    {
        self.pieces.as_slice()
    }
}

impl MarkList {
    ghost use Rattle.lrs_machine.specs.EnteredNumbers.{are_entered_marks};

    /// These marks, if there are 2 to 1,000 of them, each in the limits of its text.
    pub fn new(marks: Vec<Mark>) -> Option<MarkList>
        ensures { SomeIff result (IsTrue (are_entered_marks marks.items)) marks.items }
    {
        if !are_entered_marks(marks.as_slice()) {
            return None;
        }
        Some(MarkList { marks })
    }

    /// The marks in their order.
    pub fn as_slice(&self) -> &[Mark]
        ensures marks { result.now ≡ self.now }
        ensures entered { IsTrue (are_entered_marks self.now) }
    {
        self.marks.as_slice()
    }
}
