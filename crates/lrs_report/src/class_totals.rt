//! Totals of classes over the rows of an inventory.

ghost use Rattle.std.specs.Prelude.{◌≡◌, true, map, IfOk};
ghost use Rattle.lrs_measure.specs.Lists.{each_two};
ghost use Rattle.lrs_machine.specs.Sound.{asset_before, class_before};
ghost use Rattle.lrs_report.specs.ListTotals.{list_totals};

use crate::list_tally::{add_entered, add_gone, add_routes, no_totals};
use lrs_events::{Asset, Class, Gone, Part, Spans};
use lrs_machine::Total;
use std::alloc::{AllocError, Global};

/// What was entered, retired and abandoned of each class, and what of it is present, in side millimetres: a stretch on both
/// sides counts once on each. There is one total for each class, in the order of their names, also where there is nothing of it.
///
/// `entered` and `gone` are the rows of the ledgers, and `spans` what lies on the routes. Classes are in the order of their
/// names and assets in the order of their numbers, as in each sound inventory; a part of an asset that is not there counts for
/// no class. No sum grows beyond the greatest number; those of a sound inventory stay far below it.
///
/// # Errors
/// When memory runs out.
pub fn totals(
    alloc: Global,
    classes: &[Class],
    assets: &[Asset],
    spans: &[&Spans],
    entered: &[Part],
    gone: &[Gone],
) -> Result<Vec<Total>, AllocError>
    requires classes_order { each_two class_before classes.now ≡ true }
    requires assets_order { each_two asset_before assets.now ≡ true }
    ensures { IfOk result (λ totals. totals.items ≡ list_totals classes.now assets.now
        (map (λ s. s.now) spans.now) entered.now gone.now) }
{
    let mut totals = no_totals(alloc, classes)?;
    add_entered(&mut totals, assets, entered);
    add_gone(&mut totals, assets, gone);
    add_routes(&mut totals, spans);
    Ok(totals)
}
