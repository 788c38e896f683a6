//! Where an asset lies.

ghost use Rattle.std.specs.Prelude.{◌≡◌, ◌++◌, map, OnOk};
ghost use Rattle.lrs_report_answers.specs.AssetStretches.{row_of_span};

use lrs_events::{Side, Span};
use lrs_position::RouteName;
use std::alloc::AllocError;

/// A stretch of a route that an asset holds, from chainage `from` up to `to` in millimetres, on a side seen along the
/// route.
#[derive(Clone, Copy, PartialEq, Eq)]
pub struct FoundRow {
    pub route: RouteName,
    pub from: u64,
    pub to: u64,
    pub side: Side,
}

/// Adds rows of a route.
///
/// # Errors
/// When memory runs out; some of the rows may have been added then.
pub fn push_rows(
    found: &mut Vec<FoundRow>,
    route: RouteName,
    rows: &[Span],
) -> Result<(), AllocError>
    ensures { OnOk result (found.new.items ≡ found.old.items ++ map (row_of_span route) rows.now) }
{
    for row in rows {
        found.push(FoundRow {
            route,
            from: row.from,
            to: row.to,
            side: row.side,
        })?;
    }
    Ok(())
}
