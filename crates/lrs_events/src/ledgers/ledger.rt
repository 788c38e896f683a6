//! Parts of rows in the order of a ledger.

ghost use Rattle.std.specs.Prelude.{◌≡◌, ℕ, ◌&&◌, nat_eq, nat_lt, true, false, map, length, IsTrue, IfOk, IsPermutation};
ghost use Rattle.std.specs.List.{list_any, list_all, AllAdjacentBelow};
ghost use Rattle.lrs_measure.specs.Lists.{each_two};
ghost use Rattle.lrs_events.specs.declared.part.Gone.{Gone};
ghost use Rattle.lrs_events.specs.Parts.{has_for, has_pair, times_had, IsHadOnce, part_before, side_number};
ghost use Rattle.lrs_events.specs.Places.{Place, differs};
ghost use Rattle.lrs_events.specs.Spans.{are_rows, holds_by_spans};
ghost use Rattle.lrs_events.specs.Ledger.Cuts.{AreCut};
ghost use Rattle.lrs_events.specs.Ledger.Ledger.{times_in_rows, AreInPieces, AreWhole, NoneIsShorter};

use crate::ledgers::cuts::push_side;
use crate::{Gone, LinkSide, Part, Span};
use lrs_element::{Course, Piece, starts_of};
use std::alloc::{AllocError, Global};

/// The parts of rows of a route on both sides of its course, side by side.
fn parts_on(
    alloc: Global,
    edit: u64,
    rows: &[Span],
    course: &Course,
) -> Result<Vec<Part>, AllocError>
    ensures { IfOk result (λ parts. AreCut edit rows.now course.now parts.items) }
{
    let pieces = course.pieces();
    let (starts, _) = starts_of(alloc, pieces)?;
    let mut parts = Vec::new(alloc);
    push_side(&mut parts, edit, rows, LinkSide::Left, pieces, &starts)?;
    push_side(&mut parts, edit, rows, LinkSide::Right, pieces, &starts)?;
    Ok(parts)
}

/// What orders the rows of a ledger: edit, asset and link, then start and side.
fn key_of(part: &Part) -> ((u64, u64, u32), (u32, u8))
    ensures { result ≡ (
      (part.now.edit, part.now.asset, part.now.link),
      (part.now.from, side_number part.now.side),
    ) }
{
    let side = match part.side {
        LinkSide::Left => 0,
        LinkSide::Right => 1,
    };
    ((part.edit, part.asset, part.link), (part.from, side))
}

/// The parts in the order of a ledger.
fn sort(parts: &mut Vec<Part>)
    ensures same { IsPermutation parts.old.items parts.new.items }
    ensures order { AllAdjacentBelow (λ x y. part_before y x ≡ false) parts.new.items
        (length parts.new.items) }
{
    parts.sort_unstable_by_key(|part| key_of(part));
}

/// The rows of a ledger for what these rows of a route hold on its course, in the order of edit, asset,
/// link, start and side (left before right). Sides are seen along the links, and bounds are in
/// millimetres from the start of each link.
///
/// They have each place as often as the rows do: once, where the course has no millimetre twice. Each
/// lies on one piece of the course, and they are as few as the pieces allow.
///
/// # Errors
/// When memory runs out.
pub fn parts(
    alloc: Global,
    edit: u64,
    rows: &[Span],
    course: &Course,
) -> Result<Vec<Part>, AllocError>
    requires { IsTrue (are_rows rows.now) }
    ensures edit { IfOk result (λ parts. list_all (λ part. nat_eq part.edit edit) parts.items
        ≡ true) }
    ensures pairs { IfOk result (λ parts. (m asset : ℕ) (p : Place)
        → list_any (λ part. has_pair part m asset p) parts.items
        ≡ (nat_eq m edit && holds_by_spans course.now rows.now asset p)) }
    ensures shows { IfOk result (λ parts. (asset : ℕ) (p : Place)
        → list_any (has_for asset p) parts.items ≡ holds_by_spans course.now rows.now asset p) }
    ensures times { IfOk result (λ parts. (asset : ℕ) (p : Place)
        → times_had asset p parts.items ≡ times_in_rows course.now rows.now asset p) }
    ensures once { IfOk result (λ parts. each_two differs course.now ≡ true
        → IsHadOnce parts.items) }
    ensures order { IfOk result (λ parts. each_two differs course.now ≡ true
        → each_two part_before parts.items ≡ true) }
    ensures filled { IfOk result (λ parts. list_all (λ part. nat_lt part.from part.to) parts.items
        ≡ true) }
    ensures within { IfOk result (λ parts. AreInPieces course.now parts.items) }
    ensures whole { IfOk result (λ parts. AreWhole course.now rows.now parts.items) }
    ensures fewest { IfOk result (λ parts. each_two differs course.now ≡ true
        → NoneIsShorter course.now rows.now parts.items) }
{
    let mut parts = parts_on(alloc, edit, rows, course)?;
    sort(&mut parts);
    Ok(parts)
}

/// These parts as taken away by an edit: abandoned with their ground, or else retired.
///
/// # Errors
/// When memory runs out.
pub fn gone(alloc: Global, parts: &[Part], abandoned: bool) -> Result<Vec<Gone>, AllocError>
    ensures { IfOk result (λ gone. gone.items ≡ map (λ part.
        record { part = part; abandoned = abandoned }) parts.now) }
{
    let mut gone = Vec::with_capacity(alloc, parts.len())?;
    for part in parts {
        gone.push(Gone {
            part: *part,
            abandoned,
        })?;
    }
    Ok(gone)
}
