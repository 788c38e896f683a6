//! What lies on a stretch is removed from canonical rows.

ghost use Rattle.std.specs.Prelude.{◌≡◌, [], IsTrue, IfOk};
ghost use Rattle.lrs_measure.specs.Lists.{each_two};
ghost use Rattle.lrs_events.specs.Spans.{are_rows, span_before};
ghost use Rattle.lrs_events.specs.Row.Removals.{Clears};

use crate::rows::change::difference;
use crate::rows::clips::{clips, rests};
use crate::{Span, SpanChange};
use std::alloc::{AllocError, Global};

/// What is taken away, as canonical rows, and the change that leaves the rest.
#[derive(Drop)]
pub struct Removal {
    pub left: Vec<Span>,
    pub change: SpanChange,
}

/// The removal of nothing.
fn no_removal(alloc: Global) -> Removal
    ensures left { result.left.items ≡ [] }
    ensures gone { result.change.gone.items ≡ [] }
    ensures come { result.change.come.items ≡ [] }
{
    Removal {
        left: Vec::new(alloc),
        change: SpanChange {
            gone: Vec::new(alloc),
            come: Vec::new(alloc),
        },
    }
}

/// Removes what lies from chainage low up to high, given the rows of a route that were found there: all of them, or all
/// of an asset or a class. A found row that stays whole neither goes nor comes; of an empty stretch nothing goes.
///
/// # Errors
/// When memory runs out.
pub fn cleared(alloc: Global, found: &[Span], low: u64, high: u64) -> Result<Removal, AllocError>
    requires rows { IsTrue (are_rows found.now) }
    ensures removal { IfOk result (λ removal. Clears found.now low high removal) }
    ensures in_order { IfOk result (λ removal. IsTrue
        (each_two span_before removal.change.gone.items)) }
{
    // Nothing is cut in two at an empty stretch.
    if high <= low {
        return Ok(no_removal(alloc));
    }
    let left = clips(alloc, found, low, high)?;
    let rest = rests(alloc, found, low, high)?;
    let change = difference(alloc, found, &rest)?;
    Ok(Removal { left, change })
}
