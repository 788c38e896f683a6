//! Canonical rows are cut in two at a chainage.

ghost use Rattle.std.specs.Prelude.{IsTrue, IfOk};
ghost use Rattle.lrs_measure.specs.Lists.{each_two};
ghost use Rattle.lrs_events.specs.Spans.{are_rows, span_before};
ghost use Rattle.lrs_events.specs.Row.Cuts.{Cuts};

use crate::rows::change::difference;
use crate::rows::clips::{clips, rears};
use crate::{Span, SpanChange};
use std::alloc::{AllocError, Global};

/// The canonical rows behind a chainage, counted from there, and the change that leaves those before it.
#[derive(Drop)]
pub struct Cut {
    pub rear: Vec<Span>,
    pub change: SpanChange,
}

/// Cuts rows at a chainage, given those of a route that end behind it. A row that crosses it is cut.
///
/// # Errors
/// When memory runs out.
pub fn cut_at(alloc: Global, found: &[Span], at: u64) -> Result<Cut, AllocError>
    requires { IsTrue (are_rows found.now) }
    ensures cut { IfOk result (λ cut. Cuts found.now at cut) }
    ensures in_order { IfOk result (λ cut. IsTrue (each_two span_before cut.change.gone.items)) }
{
    let front = clips(alloc, found, 0, at)?;
    let change = difference(alloc, found, &front)?;
    let rear = rears(alloc, found, at)?;
    Ok(Cut { rear, change })
}
