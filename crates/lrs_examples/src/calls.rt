//! The calls of `Spans`, each made only where what it requires is seen to hold.

ghost use Rattle.std.specs.Prelude.{◌≡◌, ◌+◌, nat_le};
ghost use Rattle.std.specs.List.{list_all};
ghost use Rattle.lrs_events.specs.Spans.{is_row};
ghost use Rattle.lrs_events.specs.Row.Joins.{end_by, have_room, is_of_one_class, are_of_one_class};

use lrs_events::{Span, Spans};
use lrs_measure::limits::LONGEST_ROUTE;
use std::alloc::{AllocError, Global};

fn is_row(span: &Span) -> bool
    ensures { result ≡ is_row span.now }
{
    span.from < span.to && span.to <= LONGEST_ROUTE
}

fn end_by(rows: &[Span], at: u64) -> bool
    ensures { result ≡ end_by at rows.now }
{
    rows.iter().all(|row| row.to <= at)
}

fn has_room(row: &Span, shift: u64) -> bool
    ensures { result ≡ nat_le (row.now.to + shift) 10000000000 }
{
    shift <= LONGEST_ROUTE && row.to <= LONGEST_ROUTE - shift
}

fn have_room(rows: &[Span], shift: u64) -> bool
    ensures { result ≡ have_room shift rows.now }
{
    rows.iter().all(|row| has_room(row, shift))
}

fn is_of_one_class(row: &Span, other: &Span) -> bool
    ensures { result ≡ is_of_one_class row.now other.now }
{
    row.asset != other.asset || row.class == other.class
}

fn each_is_of_one_class(row: &Span, others: &[Span]) -> bool
    ensures { result ≡ list_all (is_of_one_class row.now) others.now }
{
    others.iter().all(|other| is_of_one_class(row, other))
}

fn are_of_one_class(rows: &[Span], others: &[Span]) -> bool
    ensures { result ≡ are_of_one_class rows.now others.now }
{
    rows.iter().all(|row| each_is_of_one_class(row, others))
}

/// Adds the span where it is free, and answers whether it was.
pub fn add(spans: &mut Spans, alloc: Global, span: &Span) -> Result<bool, AllocError> {
    if !is_row(span) || !spans.is_free(span) {
        return Ok(false);
    }
    spans.add(alloc, *span)?;
    Ok(true)
}

/// Lets the route go on as the other, where that can be, and answers whether it could.
pub fn concat(
    spans: &mut Spans,
    alloc: Global,
    other: &Spans,
    shift: u64,
) -> Result<bool, AllocError> {
    if !end_by(spans.rows(), shift)
        || !have_room(other.rows(), shift)
        || !are_of_one_class(spans.rows(), other.rows())
    {
        return Ok(false);
    }
    spans.concat(alloc, other, shift)?;
    Ok(true)
}

/// The spans from the other end of a route of this length, if none ends behind it.
pub fn turned(spans: &Spans, alloc: Global, len: u64) -> Result<Option<Spans>, AllocError> {
    if len > LONGEST_ROUTE || !end_by(spans.rows(), len) {
        return Ok(None);
    }
    let turned = spans.turned(alloc, len)?;
    Ok(Some(turned))
}
