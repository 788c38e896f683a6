//! What is wrong with the pieces of a course.

ghost use Rattle.std.specs.Prelude.{◌≡◌, ℕ, ◌+◌, ◌<◌, [], is_some, position, length, true, false, slice_index_or, IsTrue, IfOk};
ghost use Rattle.std.specs.Bool.{OnTrue, OnFalse};
ghost use Rattle.std.specs.List.{AllByRecursion, AllAdjacentBelow};
ghost use Rattle.std.specs.List.Sorted.{IsPermutation};
ghost use Rattle.lrs_element.specs.Course.{lacks_link, are_in_order, is_bad_piece, first_repeated};
ghost use Rattle.lrs_element.specs.declared.link.Piece.{Piece};
ghost use Rattle.lrs_element.specs.Pieces.{pieces_meet, IsFilled, IsInOrder};

use crate::known_links::KnownLinks;
use crate::link::Piece;
use std::alloc::{AllocError, Global};

/// Whether a piece is of no link.
fn lacks_link<L: KnownLinks>(links: &L, piece: Piece) -> bool
    requires { IsTrue (are_in_order (L.links links.now)) }
    ensures { result ≡ lacks_link (L.links links.now) piece }
{
    links.link(piece.link).is_none()
}

/// Whether a piece has no millimetre, or goes past the end of its link.
fn is_bad_piece<L: KnownLinks>(links: &L, piece: Piece) -> bool
    requires { IsTrue (are_in_order (L.links links.now)) }
    ensures { result ≡ is_bad_piece (L.links links.now) piece }
{
    let length = links.link(piece.link).map_or(0, |link| link.length);
    piece.to <= piece.from || length < piece.to
}

/// The first piece of no link.
pub(crate) fn first_unlinked<L: KnownLinks>(links: &L, pieces: &[Piece]) -> Option<usize>
    requires { IsTrue (are_in_order (L.links links.now)) }
    ensures { result ≡ position (lacks_link (L.links links.now)) pieces.now }
{
    pieces.iter().position(|piece| lacks_link(links, *piece))
}

/// The first piece that has no millimetre, or goes past the end of its link.
pub(crate) fn first_bad_piece<L: KnownLinks>(links: &L, pieces: &[Piece]) -> Option<usize>
    requires { IsTrue (are_in_order (L.links links.now)) }
    ensures { result ≡ position (is_bad_piece (L.links links.now)) pieces.now }
{
    pieces.iter().position(|piece| is_bad_piece(links, *piece))
}

/// Whether two neighbours share a millimetre.
fn neighbours_meet(pieces: &[Piece]) -> bool
    ensures meet { OnTrue result ((k : ℕ) × (k + 1 < length pieces.now)
        × ((d : Piece) → pieces_meet (slice_index_or pieces.now k d)
        (slice_index_or pieces.now (k + 1) d) ≡ true)) }
    ensures apart { OnFalse result ((k : ℕ) (d : Piece) → k + 1 < length pieces.now
        → pieces_meet (slice_index_or pieces.now k d) (slice_index_or pieces.now (k + 1) d)
        ≡ false) }
{
    for i in 1..pieces.len() {
        if pieces[i - 1].meets(pieces[i]) {
            return true;
        }
    }
    false
}

/// The pieces sorted by link and start.
fn sorted_by_start(alloc: Global, pieces: &[Piece]) -> Result<Vec<Piece>, AllocError>
    ensures permutation { IfOk result (λ sorted. IsPermutation pieces.now sorted.items) }
    ensures sorted { IfOk result (λ sorted. AllAdjacentBelow IsInOrder sorted.items
        (length sorted.items)) }
{
    let mut sorted = Vec::from_slice(alloc, pieces)?;
    sorted.sort_unstable_by_key(|piece| (piece.link, piece.from));
    Ok(sorted)
}

/// Whether two of the pieces share a millimetre.
///
/// A sort by link and start brings two that do side by side.
///
/// # Errors
/// When memory runs out.
pub fn have_repeat(alloc: Global, pieces: &[Piece]) -> Result<bool, AllocError>
    requires { AllByRecursion IsFilled pieces.now }
    ensures { IfOk result (λ repeat. repeat ≡ is_some (first_repeated [] pieces.now)) }
{
    let sorted = sorted_by_start(alloc, pieces)?;
    Ok(neighbours_meet(&sorted))
}

/// The first piece that shares a millimetre with one before it: a binary search for the longest front
/// whose pieces share none.
pub(crate) fn first_repeated(alloc: Global, pieces: &[Piece]) -> Result<Option<usize>, AllocError>
    requires { AllByRecursion IsFilled pieces.now }
    ensures { IfOk result (λ first. first ≡ first_repeated [] pieces.now) }
{
    if !have_repeat(alloc, pieces)? {
        return Ok(None);
    }
    let mut clean = 0;
    let mut repeats = pieces.len();
    while clean + 1 < repeats {
        let middle = clean + (repeats - clean) / 2;
        if have_repeat(alloc, &pieces[..middle])? {
            repeats = middle;
        } else {
            clean = middle;
        }
    }
    Ok(Some(clean))
}
