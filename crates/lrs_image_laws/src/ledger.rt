//! The rows of the ledger for what an edit takes away.

ghost use Rattle.std.specs.Prelude.{◌≡◌, true, if◌then◌else◌, IsTrue, IfOk};
ghost use Rattle.lrs_measure.specs.Lists.{each_two};
ghost use Rattle.lrs_events.specs.Places.{differs};
ghost use Rattle.lrs_events.specs.Spans.{are_rows, holds_by_spans};
ghost use Rattle.lrs_machine.specs.State.{Abandoned, Retired};
ghost use Rattle.lrs_image_laws.specs.GoneRows.{AreGone};

use lrs_element::Course;
use lrs_events::{Gone, Span};
use lrs_measure::Rows;
use std::alloc::{AllocError, Global};

/// The rows of the ledger by which an edit takes away all that these rows of a route hold on its course: abandoned
/// with their ground, or else retired. They are in the order of a ledger, with sides as seen along the links and
/// bounds in millimetres from the start of each link.
///
/// # Errors
/// When memory runs out.
pub fn taken_away(
    alloc: Global,
    edit: u64,
    rows: &[Span],
    course: &Course,
    abandoned: bool,
) -> Result<Rows<Gone>, AllocError>
    requires rows { IsTrue (are_rows rows.now) }
    requires once { each_two differs course.now ≡ true }
    ensures { IfOk result (λ gone. AreGone edit (if abandoned then Abandoned else Retired)
        (holds_by_spans course.now rows.now) gone) }
{
    let parts = lrs_events::parts(alloc, edit, rows, course)?;
    let gone = lrs_events::gone(alloc, &parts, abandoned)?;
    Ok(Rows::from_vec(gone))
}
