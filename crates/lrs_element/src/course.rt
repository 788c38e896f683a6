//! Courses: the ground that a route runs over.

ghost use Rattle.std.specs.Prelude.{◌≡◌, ◌≢◌, ℕ, ◌+◌, ◌-◌, ◌≤◌, ◌<◌, ◌↔◌, ◌++◌, [], true, false, length, take, drop, IsTrue, OnOk, OnErr, IsOk, IfOk, IfNone, IfSome, slice_get, position};
ghost use Rattle.lrs_element.specs.Pieces.{lesser_link};
ghost use Rattle.lrs_element.specs.Course.{course_of, expand, turned, meets, share_link, is_too_long, are_in_order, lacks_link, is_bad_piece, first_repeated, IsFewest, AreGood};

use crate::checks::{first_bad_piece, first_repeated, first_unlinked};
use crate::known_links::KnownLinks;
use crate::link::{Ground, Piece};
use crate::pieces::{fewest_of, one_meets, push_range, starts_of, starts_up_to, turned_pieces};
use lrs_measure::limits::{LONGEST_ROUTE, MOST_PIECES};
use std::alloc::{AllocError, Global};
use std::marker::Model;

/// Why courses are not joined.
#[derive(Clone, Copy, PartialEq, Eq)]
pub enum JoinFault {
    /// The result would have above 1,000 pieces or 10,000,000,000 mm.
    TooLong,
    /// There is too little memory.
    Memory,
}

impl From<AllocError> for JoinFault {
    ghost use Rattle.std.specs.Prelude.{◌≡◌};
    ghost use Rattle.lrs_element.specs.declared.course.JoinFault.TheVariants.{Memory};

    ghost from_gives = { λ _ e. e ≡ Memory };

    fn from(_e: AllocError) -> JoinFault {
        JoinFault::Memory
    }
}

/// What is wrong with the pieces of a course: the first check that fails, at the first piece that fails it.
#[derive(Clone, Copy, PartialEq, Eq)]
pub enum CourseFault {
    /// The piece is of no link.
    NoLink(usize),
    /// The piece has no millimetre, or goes past the end of its link.
    BadPiece(usize),
    /// The piece shares a millimetre with one before it.
    Twice(usize),
    /// The course would have above 1,000 pieces or 10,000,000,000 mm.
    TooLong,
    /// There is too little memory.
    Memory,
}

impl From<AllocError> for CourseFault {
    ghost use Rattle.std.specs.Prelude.{◌≡◌};
    ghost use Rattle.lrs_element.specs.declared.course.CourseFault.TheVariants.{Memory};

    ghost from_gives = { λ _ e. e ≡ Memory };

    fn from(_e: AllocError) -> CourseFault {
        CourseFault::Memory
    }
}

impl From<JoinFault> for CourseFault {
    ghost use Rattle.lrs_element.specs.Faults.{SameFault};

    ghost from_gives = { SameFault };

    fn from(fault: JoinFault) -> CourseFault {
        match fault {
            JoinFault::TooLong => CourseFault::TooLong,
            JoinFault::Memory => CourseFault::Memory,
        }
    }
}

/// The lesser of two links, one of which may be missing.
fn lesser(least: Option<u32>, link: u32) -> u32
    ensures { result ≡ lesser_link least link }
{
    match least {
        Some(other) if other < link => other,
        _ => link,
    }
}

/// The ground that a route runs over, in its fewest pieces: neighbours that continue each other on one
/// link in one direction are one piece. Contracts see it as its list of ground millimetres.
#[derive(Drop)]
pub struct Course {
    pieces: Vec<Piece>,
    starts: Vec<u64>,
    len: u64,
}

impl Model for Course {
    ghost use Rattle.std.specs.Prelude.{List};
    ghost use Rattle.lrs_element.specs.declared.link.Ground.{Ground};

    ghost Value = { List Ground };

    ghost use Rattle.lrs_element.specs.CourseFields.{ground_of_course, IsKept};

    ghost view = { ground_of_course };

    ghost invariant = { IsKept };
}

impl Course {
    /// The course that runs over these pieces of links, one after another.
    ///
    /// # Errors
    /// The first check that fails, each at the first piece that fails it, in the order of `CourseFault`.
    pub fn new<L: KnownLinks>(
        alloc: Global,
        pieces: &[Piece],
        links: &L,
    ) -> Result<Course, CourseFault>
        requires { IsTrue (are_in_order (L.links links.now)) }
        ensures course { IfOk result (λ course. course ≡ course_of pieces.now) }
        ensures ok { OnOk result (AreGood (L.links links.now) pieces.now) }
        ensures no_link { (i : ℕ) → result ≡ Err (CourseFault.NoLink i)
            → position (lacks_link (L.links links.now)) pieces.now ≡ Some i }
        ensures bad_piece { (i : ℕ) → result ≡ Err (CourseFault.BadPiece i)
            → (position (lacks_link (L.links links.now)) pieces.now ≡ None)
            × (position (is_bad_piece (L.links links.now)) pieces.now ≡ Some i) }
        ensures twice { (i : ℕ) → result ≡ Err (CourseFault.Twice i)
            → (position (lacks_link (L.links links.now)) pieces.now ≡ None)
            × (position (is_bad_piece (L.links links.now)) pieces.now ≡ None)
            × (first_repeated [] pieces.now ≡ Some i) }
        ensures too_long { result ≡ Err CourseFault.TooLong
            → (position (lacks_link (L.links links.now)) pieces.now ≡ None)
            × (position (is_bad_piece (L.links links.now)) pieces.now ≡ None)
            × (first_repeated [] pieces.now ≡ None) × (is_too_long (course_of pieces.now) ≡ true) }
    {
        if let Some(i) = first_unlinked(links, pieces) {
            return Err(CourseFault::NoLink(i));
        }
        if let Some(i) = first_bad_piece(links, pieces) {
            return Err(CourseFault::BadPiece(i));
        }
        if let Some(i) = first_repeated(alloc, pieces)? {
            return Err(CourseFault::Twice(i));
        }
        let course = Course::checked(fewest_of(alloc, pieces)?)?;
        Ok(course)
    }

    /// The course of these pieces.
    fn from_pieces(pieces: Vec<Piece>) -> Result<Course, AllocError>
        requires fewest { IsFewest pieces.items }
        requires limits { is_too_long (course_of pieces.items) ≡ false }
        ensures { IfOk result (λ course. course ≡ course_of pieces.items) }
    {
        let (starts, len) = starts_of(*pieces.allocator(), &pieces)?;
        Ok(Course {
            pieces,
            starts,
            len,
        })
    }

    /// The course of these pieces, if they keep the limits of a route.
    fn checked(pieces: Vec<Piece>) -> Result<Course, JoinFault>
        requires { IsFewest pieces.items }
        ensures ok { IfOk result (λ course. course ≡ course_of pieces.items) }
        ensures limits { IsOk result → is_too_long (course_of pieces.items) ≡ false }
        ensures too_long { result ≡ Err JoinFault.TooLong
            → is_too_long (course_of pieces.items) ≡ true }
    {
        if pieces.len() > MOST_PIECES {
            return Err(JoinFault::TooLong);
        }
        let (starts, len) = starts_of(*pieces.allocator(), &pieces)?;
        if len > LONGEST_ROUTE {
            return Err(JoinFault::TooLong);
        }
        Ok(Course {
            pieces,
            starts,
            len,
        })
    }

    /// How many millimetres the course has.
    pub fn len(&self) -> u64
        ensures len { result ≡ length self.now }
        ensures limits { is_too_long self.now ≡ false }
    {
        self.len
    }

    /// Whether it has none.
    pub fn is_empty(&self) -> bool
        ensures { IsTrue result ↔ (self.now ≡ []) }
    {
        self.pieces.is_empty()
    }

    /// The fewest pieces that the course can be written in, in its order.
    pub fn pieces(&self) -> &[Piece]
        ensures course { course_of result.now ≡ self.now }
        ensures fewest { IsFewest result.now }
        ensures limits { is_too_long self.now ≡ false }
    {
        self.pieces.as_slice()
    }

    /// The millimetre at chainage `j`.
    pub fn ground(&self, j: u64) -> Ground
        requires { j < length self.now }
        ensures { slice_get self.now j ≡ Some result }
    {
        let at = starts_up_to(&self.starts, j) - 1;
        self.pieces[at].ground(j - self.starts[at])
    }

    /// Whether the course runs over a millimetre of the piece, whichever way either is run.
    pub fn covers(&self, piece: Piece) -> bool
        ensures { result ≡ meets (expand piece) self.now }
    {
        piece.from < piece.to && one_meets(&self.pieces, piece)
    }

    /// The least link of which both courses run over one millimetre, whichever way each is run.
    pub fn meets(&self, other: &Course) -> Option<u32>
        ensures apart { IfNone result (meets self.now other.now ≡ false) }
        ensures shared { IfSome result (λ link. share_link self.now other.now link ≡ true) }
        ensures least { IfSome result (λ link. (n : ℕ) → n < link
            → share_link self.now other.now n ≡ false) }
    {
        let mut least = None;
        for piece in &self.pieces {
            if other.covers(*piece) {
                least = Some(lesser(least, piece.link));
            }
        }
        least
    }

    /// An equal course.
    ///
    /// # Errors
    /// When memory runs out.
    pub fn copy(&self) -> Result<Course, AllocError>
        ensures { IfOk result (λ course. course ≡ self.now) }
    {
        let alloc = *self.pieces.allocator();
        Ok(Course {
            pieces: Vec::from_slice(alloc, &self.pieces)?,
            starts: Vec::from_slice(alloc, &self.starts)?,
            len: self.len,
        })
    }

    /// The course before chainage `at`, and the one from there on.
    ///
    /// # Errors
    /// When memory runs out.
    pub fn cut(&self, at: u64) -> Result<(Course, Course), AllocError>
        requires { at ≤ length self.now }
        ensures before { IfOk result (λ parts. parts.0 ≡ take at self.now) }
        ensures after { IfOk result (λ parts. parts.1 ≡ drop at self.now) }
    {
        let before = self.part(0, at)?;
        let after = self.part(at, self.len)?;
        Ok((before, after))
    }

    /// The course from chainage `from` up to chainage `to`.
    fn part(&self, from: u64, to: u64) -> Result<Course, AllocError>
        ensures { IfOk result (λ course. course ≡ take (to - from) (drop from self.now)) }
    {
        let mut pieces = Vec::new(*self.pieces.allocator());
        push_range(&mut pieces, &self.pieces, from, to)?;
        Course::from_pieces(pieces)
    }

    /// Adds the other course at the end.
    ///
    /// # Errors
    /// `TooLong` where the result passes a limit, and `Memory`; the course is then as it was.
    pub fn concat(&mut self, other: &Course) -> Result<(), JoinFault>
        ensures ok { OnOk result (self.new ≡ self.old ++ other.now) }
        ensures limits { IsOk result → is_too_long (self.old ++ other.now) ≡ false }
        ensures too_long { result ≡ Err JoinFault.TooLong
            → is_too_long (self.old ++ other.now) ≡ true }
        ensures err { OnErr result (self.new ≡ self.old) }
    {
        self.replace(self.len, self.len, other)
    }

    /// Puts the other course in the place of what lies from chainage `from` up to chainage `to`.
    ///
    /// # Errors
    /// `TooLong` where the result passes a limit, and `Memory`; the course is then as it was.
    pub fn replace(&mut self, from: u64, to: u64, other: &Course) -> Result<(), JoinFault>
        requires order { from ≤ to }
        requires inside { to ≤ length self.old }
        ensures ok { OnOk result (self.new ≡ take from self.old ++ other.now ++ drop to self.old) }
        ensures limits { IsOk result → is_too_long
            (take from self.old ++ other.now ++ drop to self.old) ≡ false }
        ensures too_long { result ≡ Err JoinFault.TooLong
            → is_too_long (take from self.old ++ other.now ++ drop to self.old) ≡ true }
        ensures err { OnErr result (self.new ≡ self.old) }
    {
        *self = self.replaced(from, to, other)?;
        Ok(())
    }

    /// The course with the other one in the place of what lies from chainage `from` up to chainage `to`.
    fn replaced(&self, from: u64, to: u64, other: &Course) -> Result<Course, JoinFault>
        requires order { from ≤ to }
        requires inside { to ≤ length self.now }
        ensures ok { IfOk result (λ course. course ≡ take from self.now ++ other.now
            ++ drop to self.now) }
        ensures limits { IsOk result → is_too_long
            (take from self.now ++ other.now ++ drop to self.now) ≡ false }
        ensures too_long { result ≡ Err JoinFault.TooLong
            → is_too_long (take from self.now ++ other.now ++ drop to self.now) ≡ true }
    {
        let mut pieces = Vec::new(*self.pieces.allocator());
        push_range(&mut pieces, &self.pieces, 0, from)?;
        push_range(&mut pieces, &other.pieces, 0, other.len)?;
        push_range(&mut pieces, &self.pieces, to, self.len)?;
        Course::checked(pieces)
    }

    /// The course from its other end.
    ///
    /// # Errors
    /// When memory runs out.
    pub fn turned(&self) -> Result<Course, AllocError>
        ensures { IfOk result (λ course. course ≡ turned self.now) }
    {
        Course::from_pieces(turned_pieces(*self.pieces.allocator(), &self.pieces)?)
    }
}
