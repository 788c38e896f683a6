//! What changed from some rows to others.

ghost use Rattle.std.specs.Prelude.{◌≡◌, IsTrue, IfOk};
ghost use Rattle.lrs_events.specs.Changes.{changed_rows};
ghost use Rattle.lrs_events.specs.Spans.{are_rows};
ghost use Rattle.lrs_events.specs.Row.Changes.{IsChange, missing};

use crate::rows::order::has;
use crate::{Span, SpanChange};
use std::alloc::{AllocError, Global};

/// The rows that others have not.
///
/// # Errors
/// When memory runs out.
pub fn missing(alloc: Global, others: &[Span], rows: &[Span]) -> Result<Vec<Span>, AllocError>
    requires { IsTrue (are_rows others.now) }
    ensures { IfOk result (λ out. out.items ≡ missing others.now rows.now) }
{
    let mut out = Vec::new(alloc);
    for row in rows {
        if !has(others, row) {
            out.push(*row)?;
        }
    }
    Ok(out)
}

/// Which rows go and which come, from the old ones to the new.
///
/// # Errors
/// When memory runs out.
pub fn difference(alloc: Global, old: &[Span], new: &[Span]) -> Result<SpanChange, AllocError>
    requires old { IsTrue (are_rows old.now) }
    requires new { IsTrue (are_rows new.now) }
    ensures gone { IfOk result (λ change. change.gone.items ≡ missing new.now old.now) }
    ensures come { IfOk result (λ change. change.come.items ≡ missing old.now new.now) }
    ensures change { IfOk result (λ change.
        IsChange old.now change.gone.items change.come.items new.now) }
    ensures new { IfOk result (λ change. changed_rows change old.now ≡ new.now) }
{
    Ok(SpanChange {
        gone: missing(alloc, new, old)?,
        come: missing(alloc, old, new)?,
    })
}
