//! The ledgers of what was entered and what is gone.

ghost use Rattle.std.specs.Prelude.{◌≡◌, ℕ, ◌+◌, ◌<◌, length, slice_index_or, true, IfOk};
ghost use Rattle.lrs_events.specs.declared.part.Part.{Part};
ghost use Rattle.lrs_image_sound.specs.SweptParts.{IsInOrder};
ghost use Rattle.std.specs.List.{list_all};
ghost use Rattle.lrs_measure.specs.Lists.{each_two};
ghost use Rattle.lrs_machine.specs.Sound.{are_links, asset_before, is_part, are_parts, are_entered, are_courses, are_gone, parts_of};
ghost use Rattle.lrs_image_sound.specs.Tables.{fits_route, route_courses, route_spans};

use crate::balance::do_balance;
use crate::holdings::held_parts;
use crate::lookups::{knows_asset, link_reaches};
use crate::order::{entered_rise, gone_rise};
use crate::sums::have_few_places;
use crate::sweep::{do_share_nothing_in_order, sorted_by_line};
use lrs_element::Link;
use lrs_events::{Asset, Gone, Part};
use lrs_machine::RouteRow;
use lrs_measure::limits::MOST_PAIRS;
use std::alloc::{AllocError, Global};

/// Whether a part has a millimetre, lies within a known link and is of a known asset.
fn is_part(links: &[Link], assets: &[Asset], part: &Part) -> bool
    requires links { are_links links.now ≡ true }
    requires assets { each_two asset_before assets.now ≡ true }
    ensures { result ≡ is_part links.now assets.now part.now }
{
    part.from < part.to
        && link_reaches(links, part.link, part.to)
        && knows_asset(assets, part.asset)
}

fn are_inside(links: &[Link], assets: &[Asset], parts: &[Part]) -> bool
    requires links { are_links links.now ≡ true }
    requires assets { each_two asset_before assets.now ≡ true }
    ensures { result ≡ list_all (is_part links.now assets.now) parts.now }
{
    parts.iter().all(|part| is_part(links, assets, part))
}

/// Whether parts in the order of their lines are within known links and of known assets, have each pair of asset
/// and place once, and not too many of one asset.
fn are_parts_in_order(links: &[Link], assets: &[Asset], sorted: &[Part]) -> bool
    requires links { are_links links.now ≡ true }
    requires assets { each_two asset_before assets.now ≡ true }
    requires order { (k : ℕ) (d : Part) → k + 1 < length sorted.now
        → IsInOrder (slice_index_or sorted.now k d) (slice_index_or sorted.now (k + 1) d) }
    ensures { result ≡ are_parts links.now assets.now sorted.now }
{
    if !are_inside(links, assets, sorted) {
        return false;
    }
    if !do_share_nothing_in_order(sorted) {
        return false;
    }
    have_few_places(sorted, MOST_PAIRS)
}

/// Whether the parts of a ledger lie within known links, are of known assets, have each pair of asset and
/// place once, and not too many of one asset: all by one sort.
fn are_parts(
    alloc: Global,
    links: &[Link],
    assets: &[Asset],
    parts: &[Part],
) -> Result<bool, AllocError>
    requires links { are_links links.now ≡ true }
    requires assets { each_two asset_before assets.now ≡ true }
    ensures { IfOk result (λ sound. sound ≡ are_parts links.now assets.now parts.now) }
{
    let sorted = sorted_by_line(alloc, parts)?;
    Ok(are_parts_in_order(links, assets, &sorted))
}

/// Whether entered parts are in their order, within known links, of known assets, have each pair of asset
/// and place once, and not too many of one asset.
///
/// # Errors
/// When memory runs out.
pub fn are_entered(
    alloc: Global,
    links: &[Link],
    assets: &[Asset],
    entered: &[Part],
) -> Result<bool, AllocError>
    requires links { are_links links.now ≡ true }
    requires assets { each_two asset_before assets.now ≡ true }
    ensures { IfOk result (λ sound. sound ≡ are_entered links.now assets.now entered.now) }
{
    if !entered_rise(entered) {
        return Ok(false);
    }
    are_parts(alloc, links, assets, entered)
}

/// The parts that are gone, whatever became of them.
fn parts_of(alloc: Global, gone: &[Gone]) -> Result<Vec<Part>, AllocError>
    ensures { IfOk result (λ parts. parts.items ≡ parts_of gone.now) }
{
    let mut parts = Vec::with_capacity(alloc, gone.len())?;
    for row in gone {
        parts.push(row.part)?;
    }
    Ok(parts)
}

/// Whether parts that are gone are in their order, within known links, of known assets, have each pair of
/// asset and place once, and not too many of one asset; and whether held is what was entered and is not
/// gone, and nothing is gone that was not entered.
///
/// # Errors
/// When memory runs out.
pub fn are_gone(
    alloc: Global,
    links: &[Link],
    assets: &[Asset],
    routes: &[RouteRow],
    entered: &[Part],
    gone: &[Gone],
) -> Result<bool, AllocError>
    requires links { are_links links.now ≡ true }
    requires assets { each_two asset_before assets.now ≡ true }
    requires courses { are_courses links.now (route_courses routes.now) ≡ true }
    requires spans { list_all (fits_route assets.now) routes.now ≡ true }
    requires entered { are_entered links.now assets.now entered.now ≡ true }
    ensures { IfOk result (λ sound. sound ≡ are_gone links.now assets.now
        (route_spans routes.now) entered.now gone.now) }
{
    if !gone_rise(gone) {
        return Ok(false);
    }
    let parts = parts_of(alloc, gone)?;
    if !are_parts(alloc, links, assets, &parts)? {
        return Ok(false);
    }
    let held = held_parts(alloc, routes)?;
    do_balance(alloc, &held, entered, &parts)
}
