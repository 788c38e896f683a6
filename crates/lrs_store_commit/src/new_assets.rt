//! Which changes are entries: they only enter an asset, with one span of it.

ghost use Rattle.std.specs.Prelude.{None, Some, IsTrue};
ghost use Rattle.std.specs.List.{AllByRecursion};
ghost use Rattle.lrs_store_commit.specs.NewAssets.{IsNewAsset, BringsOneSpan, BringsOneAsset, HasTwoParts};

use lrs_image::{Change, Difference, RouteChange};

/// Whether the route stays as it is, but for one new span.
fn brings_one_span(change: &RouteChange) -> bool
    ensures { IsTrue result → BringsOneSpan change.now }
{
    if change.name != change.route {
        return false;
    }
    if !change.keys.refs.is_empty() || !change.keys.spans.is_empty() {
        return false;
    }
    if !change.refs.gone.is_empty() || !change.refs.come.is_empty() {
        return false;
    }
    if !change.spans_gone.is_empty() || change.spans_come.len() != 1 {
        return false;
    }
    change.course.is_none() && change.marks.is_none()
}

/// Whether an asset comes, and nothing else but what changes on one route and is entered.
fn brings_one_asset(difference: &Difference) -> bool
    ensures { IsTrue result → BringsOneAsset difference.now }
{
    let Difference {
        link,
        class,
        asset,
        dropped,
        keys,
        made,
        gone,
        ..
    } = difference;
    match (link, class, asset, dropped, made) {
        (None, None, Some(_), None, None) => {
            keys.refs.is_empty() && keys.spans.is_empty() && gone.is_empty()
        }
        _ => false,
    }
}

/// Whether the change only enters an asset.
fn is_new_asset(change: &Change) -> bool
    ensures { IsTrue result → IsNewAsset change.now }
{
    let difference = &change.difference;
    if difference.entered.is_empty() {
        return false;
    }
    match &difference.changed {
        Some(changed) => brings_one_span(changed) && brings_one_asset(difference),
        None => false,
    }
}

/// Whether all are entries.
pub fn are_new_assets(changes: &[Change]) -> bool
    ensures { IsTrue result → AllByRecursion IsNewAsset changes.now }
{
    for i in 0..changes.len() {
        if !is_new_asset(&changes[i]) {
            return false;
        }
    }
    true
}

/// Whether each enters two parts.
pub fn have_two_parts(changes: &[Change]) -> bool
    ensures { IsTrue result → AllByRecursion HasTwoParts changes.now }
{
    for i in 0..changes.len() {
        if changes[i].difference.entered.len() != 2 {
            return false;
        }
    }
    true
}
