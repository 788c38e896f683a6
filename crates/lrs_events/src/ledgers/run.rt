//! Runs of millimetres that assets hold on one side of a route.

ghost use Rattle.std.specs.Prelude.{◌≡◌, ℕ, ◌+◌, [], true, false, length, slice_index_or, OnOk, IfOk, IfSome, IfNone};
ghost use Rattle.lrs_events.specs.Members.{has_side};
ghost use Rattle.lrs_events.specs.declared.ledgers.run.Run.{Run};
ghost use Rattle.lrs_events.specs.Ledger.Runs.{goes_on, with_run, runs_from};

use crate::{LinkSide, Side, Span};
use std::alloc::{AllocError, Global};

/// The millimetres of a route from chainage `from` up to chainage `to`, which an asset holds on one side.
#[derive(Clone, Copy, PartialEq, Eq)]
pub struct Run {
    pub asset: u64,
    pub from: u64,
    pub to: u64,
}

fn has_side(side: Side, of: LinkSide) -> bool
    ensures { result ≡ has_side side of }
{
    match side {
        Side::L => matches!(of, LinkSide::Left),
        Side::R => matches!(of, LinkSide::Right),
        Side::B => true,
    }
}

/// Whether the asset goes on in the second run where the first ends.
fn goes_on(run: Run, next: Run) -> bool
    ensures { result ≡ goes_on run next }
{
    run.asset == next.asset && run.to == next.from
}

/// The place of the last run, where this one goes on with it.
fn joined_place(runs: &[Run], next: Run) -> Option<usize>
    ensures found { IfSome result (λ last. (length runs.now ≡ last + 1)
        × ((d : Run) → goes_on (slice_index_or runs.now last d) next ≡ true)) }
    ensures none { IfNone result ((k : ℕ) (d : Run) → k + 1 ≡ length runs.now
        → goes_on (slice_index_or runs.now k d) next ≡ false) }
{
    let last = runs.len().checked_sub(1)?;
    let run = runs[last];
    if goes_on(run, next) { Some(last) } else { None }
}

/// Adds a run at the end, as a part of the last one where it goes on with that.
fn push_run(runs: &mut Vec<Run>, run: Run) -> Result<(), AllocError>
    ensures { OnOk result (runs.new.items ≡ with_run runs.old.items run) }
{
    match joined_place(runs, run) {
        Some(last) => {
            let longer = Run {
                to: run.to,
                ..runs[last]
            };
            runs[last] = longer;
        }
        None => runs.push(run)?,
    }
    Ok(())
}

/// What rows have on one side of the route, those of an asset that touch as one run.
pub(crate) fn runs_on(alloc: Global, rows: &[Span], side: LinkSide) -> Result<Vec<Run>, AllocError>
    ensures { IfOk result (λ runs. runs.items ≡ runs_from side [] rows.now) }
{
    let mut runs = Vec::new(alloc);
    for row in rows {
        let Span {
            asset,
            from,
            to,
            ..
        } = *row;
        if has_side(row.side, side) {
            push_run(&mut runs, Run { asset, from, to })?;
        }
    }
    Ok(runs)
}
