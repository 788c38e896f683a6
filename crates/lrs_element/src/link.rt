//! Links, their pieces and their millimetres.

ghost use Rattle.std.specs.Prelude.{IsTrue};
ghost use Rattle.lrs_measure.specs.Limits.{is_link};

/// A permanent linear element of fixed length (ISO 19148, linear element).
///
/// Its number is from 1 to 999,999, its length from 1 to 1,000,000,000 mm.
#[derive(Clone, Copy, PartialEq, Eq)]
pub struct Link {
    pub number: u32,
    pub length: u32,
    pub ghost limits: { IsTrue (is_link number length) },
}

/// The millimetres `from <= k < to` of a link, run forwards or backwards.
#[derive(Clone, Copy, PartialEq, Eq)]
pub struct Piece {
    pub link: u32,
    pub from: u32,
    pub to: u32,
    pub forward: bool,
}

/// One millimetre of a link, and the direction in which a course runs over it.
#[derive(Clone, Copy, PartialEq, Eq)]
pub struct Ground {
    pub link: u32,
    pub mm: u32,
    pub forward: bool,
}

impl Piece {
    ghost use Rattle.std.specs.Prelude.{◌≡◌, ◌-◌, ◌^◌, ◌<◌, ◌≤◌, ◌↔◌, ◌++◌, IsTrue, take, drop};
    ghost use Rattle.lrs_element.specs.Course.{expand, turned};
    ghost use Rattle.lrs_element.specs.Pieces.{piece_len, ground_of, pieces_meet, Continues, IsFilled};

    /// How many millimetres the piece has.
    pub fn len(self) -> u64
        requires { IsFilled self }
        ensures len { result ≡ piece_len self }
        ensures small { result < 2 ^ 32 }
    {
        (self.to - self.from) as u64
    }

    /// The millimetre at the piece's place `i`.
    pub(crate) fn ground(self, i: u64) -> Ground
        requires { i < piece_len self }
        ensures { result ≡ ground_of self i }
    {
        let i = i as u32;
        Ground {
            link: self.link,
            mm: if self.forward {
                self.from + i
            } else {
                self.to - 1 - i
            },
            forward: self.forward,
        }
    }

    /// The part from the piece's place `from` up to its place `to`.
    pub(crate) fn part(self, from: u64, to: u64) -> Piece
        requires order { from < to }
        requires inside { to ≤ piece_len self }
        ensures part { expand result ≡ take (to - from) (drop from (expand self)) }
        ensures filled { IsFilled result }
    {
        let from = from as u32;
        let to = to as u32;
        if self.forward {
            Piece {
                from: self.from + from,
                to: self.from + to,
                ..self
            }
        } else {
            Piece {
                from: self.to - to,
                to: self.to - from,
                ..self
            }
        }
    }

    /// Whether `next` goes on where this piece ends, on its link and in its direction.
    pub(crate) fn is_continued_by(self, next: Piece) -> bool
        ensures { IsTrue result ↔ Continues self next }
    {
        self.link == next.link
            && self.forward == next.forward
            && if self.forward {
                self.to == next.from
            } else {
                next.to == self.from
            }
    }

    /// This piece and the one that continues it, as one.
    pub(crate) fn joined(self, next: Piece) -> Piece
        requires continued { Continues self next }
        requires filled { IsFilled self }
        requires next_filled { IsFilled next }
        ensures filled { IsFilled result }
        ensures joined { expand result ≡ expand self ++ expand next }
    {
        if self.forward {
            Piece {
                to: next.to,
                ..self
            }
        } else {
            Piece {
                from: next.from,
                ..self
            }
        }
    }

    /// Whether the piece and another one, which both have a millimetre, have one in common.
    pub(crate) fn meets(self, other: Piece) -> bool
        ensures { result ≡ pieces_meet self other }
    {
        self.link == other.link && self.from < other.to && other.from < self.to
    }

    /// The piece run the other way.
    pub(crate) fn turned(self) -> Piece
        ensures turned { expand result ≡ turned (expand self) }
        ensures filled { IsFilled self → IsFilled result }
    {
        Piece {
            forward: !self.forward,
            ..self
        }
    }
}
