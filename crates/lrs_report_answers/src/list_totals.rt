//! Totals of an image, counted over its lists.

ghost use Rattle.std.specs.Prelude.{◌≡◌, map, IfOk};
ghost use Rattle.lrs_machine.specs.Image.{state_of};
ghost use Rattle.lrs_machine.specs.Sound.{IsSound};
ghost use Rattle.lrs_report_answers.specs.Totals.{totals_of};

use lrs_events::Spans;
use lrs_machine::{Image, RouteRow, Total};
use lrs_report::totals;
use std::alloc::{AllocError, Global};

/// What lies on each route.
fn spans_of(alloc: Global, routes: &[RouteRow]) -> Result<Vec<&Spans>, AllocError>
    ensures { IfOk result (λ spans. map (λ s. s.now) spans.items
        ≡ map (λ e. e.spans) routes.now) }
{
    let mut spans = Vec::with_capacity(alloc, routes.len())?;
    for row in routes {
        spans.push(&row.spans)?;
    }
    Ok(spans)
}

/// The totals of each class in a sound image, counted over its lists: those of the state that it stands for, in side
/// millimetres.
///
/// # Errors
/// When memory runs out.
pub fn totals_of_image(alloc: Global, image: &Image) -> Result<Vec<Total>, AllocError>
    requires { IsSound image.now }
    ensures { IfOk result (λ totals. totals.items ≡ totals_of (state_of image.now)) }
{
    let spans = spans_of(alloc, image.routes.as_slice())?;
    totals(
        alloc,
        image.classes.as_slice(),
        image.assets.as_slice(),
        &spans,
        image.entered.as_slice(),
        image.gone.as_slice(),
    )
}
