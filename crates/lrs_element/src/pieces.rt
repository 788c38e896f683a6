//! Lists of pieces, kept in their fewest.

ghost use Rattle.std.specs.Prelude.{◌≡◌, ℕ, ◌+◌, ◌-◌, ◌<◌, ◌≤◌, ◌++◌, length, slice_index, take, drop, vec_len, OnOk, OnErr, IfOk, IfSome, IfNone};
ghost use Rattle.std.specs.List.{AllByRecursion, list_any};
ghost use Rattle.std.specs.List.Sorted.{IsNonDecreasing};
ghost use Rattle.lrs_element.specs.Course.{expand, course_of, turned, IsFewest};
ghost use Rattle.lrs_measure.specs.Limits.{most_pieces};
ghost use Rattle.lrs_element.specs.Pieces.{pieces_meet, IsFilled, IsContinuedAt, ContinuesNone, AreStarts};

use crate::link::Piece;
use std::alloc::{AllocError, Global};

/// The place of the last piece, where `piece` continues that.
fn continued_place(pieces: &[Piece], piece: Piece) -> Option<usize>
    ensures found { IfSome result (λ i. IsContinuedAt pieces.now i piece) }
    ensures none { IfNone result (ContinuesNone pieces.now piece) }
{
    let last = pieces.len().checked_sub(1)?;
    if pieces[last].is_continued_by(piece) {
        Some(last)
    } else {
        None
    }
}

/// Adds a piece at the end, as a part of the last piece where it continues that.
pub(crate) fn push_piece(pieces: &mut Vec<Piece>, piece: Piece) -> Result<(), AllocError>
    requires filled { IsFilled piece }
    requires fewest { IsFewest pieces.old.items }
    ensures ok { OnOk result (course_of pieces.new.items ≡ course_of pieces.old.items
        ++ expand piece) }
    ensures err { OnErr result (pieces.new.items ≡ pieces.old.items) }
    ensures fewest { IsFewest pieces.new.items }
    ensures count { length pieces.new.items ≤ length pieces.old.items + 1 }
{
    match continued_place(pieces, piece) {
        Some(at) => {
            let last = pieces[at];
            pieces[at] = last.joined(piece);
        }
        None => pieces.push(piece)?,
    }
    Ok(())
}

/// Adds the part of `piece` from its place `from` up to its place `to`, as far as it has these.
fn push_part(pieces: &mut Vec<Piece>, piece: Piece, from: u64, to: u64) -> Result<(), AllocError>
    requires filled { IsFilled piece }
    requires fewest { IsFewest pieces.old.items }
    ensures ok { OnOk result (course_of pieces.new.items ≡ course_of pieces.old.items
        ++ take (to - from) (drop from (expand piece))) }
    ensures fewest { IsFewest pieces.new.items }
    ensures count { length pieces.new.items ≤ length pieces.old.items + 1 }
{
    let end = to.min(piece.len());
    if from < end {
        push_piece(pieces, piece.part(from, end))?;
    }
    Ok(())
}

/// Adds what `pieces` run over from entry `from` up to entry `to`.
pub(crate) fn push_range(
    out: &mut Vec<Piece>,
    pieces: &[Piece],
    from: u64,
    to: u64,
) -> Result<(), AllocError>
    requires filled { AllByRecursion IsFilled pieces.now }
    requires fewest { IsFewest out.old.items }
    ensures ok { OnOk result (course_of out.new.items ≡ course_of out.old.items
        ++ take (to - from) (drop from (course_of pieces.now))) }
    ensures fewest { IsFewest out.new.items }
    ensures count { length out.new.items ≤ length out.old.items + length pieces.now }
{
    let mut from = from;
    let mut to = to;
    for piece in pieces {
        push_part(out, *piece, from, to)?;
        let len = piece.len();
        from = from.saturating_sub(len);
        to = to.saturating_sub(len);
    }
    Ok(())
}

/// Whether one of the pieces has a millimetre in common with `piece`, where each has one.
pub(crate) fn one_meets(pieces: &[Piece], piece: Piece) -> bool
    ensures { result ≡ list_any (pieces_meet piece) pieces.now }
{
    pieces.iter().any(|other| piece.meets(*other))
}

/// The fewest pieces that run over what these do.
pub(crate) fn fewest_of(alloc: Global, pieces: &[Piece]) -> Result<Vec<Piece>, AllocError>
    requires { AllByRecursion IsFilled pieces.now }
    ensures course { IfOk result (λ out. course_of out.items ≡ course_of pieces.now) }
    ensures fewest { IfOk result (λ out. IsFewest out.items) }
{
    let mut out = Vec::new(alloc);
    for piece in pieces {
        push_piece(&mut out, *piece)?;
    }
    Ok(out)
}

/// The pieces from their other end.
pub(crate) fn turned_pieces(alloc: Global, pieces: &[Piece]) -> Result<Vec<Piece>, AllocError>
    requires { AllByRecursion IsFilled pieces.now }
    ensures turned { IfOk result (λ out. course_of out.items ≡ turned (course_of pieces.now)) }
    ensures fewest { IfOk result (λ out. IsFewest out.items) }
    ensures count { IfOk result (λ out. length out.items ≤ length pieces.now) }
{
    let mut out = Vec::new(alloc);
    for i in (0..pieces.len()).rev() {
        push_piece(&mut out, pieces[i].turned())?;
    }
    Ok(out)
}

/// Where each piece starts, and how long they are together, in millimetres.
///
/// # Errors
/// When memory runs out.
pub fn starts_of(alloc: Global, pieces: &[Piece]) -> Result<(Vec<u64>, u64), AllocError>
    requires filled { AllByRecursion IsFilled pieces.now }
    requires few { length pieces.now ≤ most_pieces }
    ensures starts { IfOk result (λ made. AreStarts made.0.items pieces.now) }
    ensures len { IfOk result (λ made. made.1 ≡ length (course_of pieces.now)) }
{
    let mut starts = Vec::with_capacity(alloc, pieces.len())?;
    let mut len = 0;
    for piece in pieces {
        starts.push(len)?;
        len += piece.len();
    }
    Ok((starts, len))
}

/// How many of the starts are not behind entry `j`.
pub fn starts_up_to(starts: &[u64], j: u64) -> usize
    requires { IsNonDecreasing starts.now }
    ensures bound { result ≤ length starts.now }
    ensures up_to { (k : ℕ) → k < result → slice_index starts.now k ≤ j }
    ensures behind { (k : ℕ) → result ≤ k → k < length starts.now → j < slice_index starts.now k }
{
    starts.partition_point(|start| *start <= j)
}
