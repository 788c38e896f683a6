//! The two sides of a route, walked together.

ghost use Rattle.std.specs.Prelude.{◌≡◌, ◌≤◌, Some, IfOk};
ghost use Rattle.std.specs.Option.{option_copied};
ghost use Rattle.lrs_machine.specs.declared.segment.Segment.{Segment};
ghost use Rattle.lrs_report_answers.specs.CombinationParts.{Joins, has_ended, unless_ended};

use crate::combinations::Combination;
use crate::combinations::stretches::push_stretch;
use crate::segmentation::RouteSegments;
use lrs_machine::Segment;
use std::alloc::{AllocError, Global};

/// Adds what both sides have from a chainage on up to where the first of these segments ends, and answers where that is.
fn push_joint(
    alloc: Global,
    entries: &mut Vec<Combination>,
    at: u64,
    left: &Segment,
    right: &Segment,
) -> Result<u64, AllocError>
    requires left { at ≤ left.now.to }
    requires right { at ≤ right.now.to }
    ensures { IfOk result (Joins at left.now right.now entries.old.items entries.new.items) }
{
    let to = left.to.min(right.to);
    push_stretch(alloc, entries, left, right, to - at)?;
    Ok(to)
}

/// Adds what both sides have up to where the first segment of a side ends, and answers where that is.
pub(crate) fn push_next(
    alloc: Global,
    entries: &mut Vec<Combination>,
    at: u64,
    left: &Segment,
    right: Option<&Segment>,
) -> Result<u64, AllocError>
    requires left { at ≤ left.now.to }
    requires right { (s : Segment) → option_copied right ≡ Some s → at ≤ s.to }
    ensures { (s : Segment) → option_copied right.entry ≡ Some s
        → IfOk result (Joins at left.now s entries.old.items entries.new.items) }
{
    match right {
        Some(right) => push_joint(alloc, entries, at, left, right),
        None => Ok(at),
    }
}

fn has_ended(segment: Option<&Segment>, at: u64) -> bool
    ensures { result ≡ has_ended at (option_copied segment.entry) }
{
    match segment {
        Some(segment) => segment.to <= at,
        None => false,
    }
}

/// Passes the first segment where it ends at the chainage or before.
pub(crate) fn pass_ended(segments: &mut RouteSegments<'_>, at: u64)
    ensures { segments.new ≡ unless_ended at segments.old }
{
    let ended = has_ended(segments.first(), at);
    if ended {
        segments.pass();
    }
}
