//! The edit that entered each asset, which the ledger of what was entered tells.

ghost use Rattle.std.specs.Prelude.{◌≡◌, ◌<◌, [], map, length, get_or, set, true, IfOk};
ghost use Rattle.lrs_measure.specs.Lists.{each_two};
ghost use Rattle.lrs_machine.specs.Sound.{asset_before};
ghost use Rattle.lrs_store_tables.specs.Contents.Content.{with_edit};
ghost use Rattle.lrs_store_image.specs.EnteringEdits.{entered_by, entered_all, IsPlaceOf};

use lrs_events::{Asset, Part};
use lrs_measure::Rows;
use std::alloc::{AllocError, Global};

/// Where the asset of this number stands, by binary search.
fn place_of(assets: &[Asset], number: u64) -> Option<usize>
    requires order { each_two asset_before assets.now ≡ true }
    ensures { IsPlaceOf number assets.now result }
{
    match assets.binary_search_by_key(&number, |asset| asset.number) {
        Ok(at) => Some(at),
        Err(_) => None,
    }
}

fn set_edit(assets: &mut Vec<Asset>, at: usize, edit: u64)
    requires { at < length assets.old.items }
    ensures { assets.new.items ≡ set assets.old.items at
        (record
        (get_or assets.old.items at
        (record { number = 0; class = []; value = []; lateral = 0; entered_by = 0 }))
        { entered_by = edit }) }
{
    let asset = Asset {
        entered_by: edit,
        ..assets[at]
    };
    assets[at] = asset;
}

/// Notes the edit of a part with its asset.
fn enter(assets: &mut Vec<Asset>, part: &Part)
    requires order { each_two asset_before assets.old.items ≡ true }
    ensures { assets.new.items ≡ map (entered_by part.now) assets.old.items }
{
    match place_of(assets, part.asset) {
        Some(at) => set_edit(assets, at, part.edit),
        None => {}
    }
}

/// Notes the edits of parts with their assets, that of the first part of an asset last.
fn enter_all(assets: &mut Vec<Asset>, entered: &[Part])
    requires order { each_two asset_before assets.old.items ≡ true }
    ensures { assets.new.items ≡ entered_all entered.now assets.old.items }
{
    for i in (0..entered.len()).rev() {
        enter(assets, &entered[i]);
    }
}

fn without_edit(asset: &Asset) -> Asset
    ensures { result ≡ with_edit [] asset.now }
{
    Asset {
        entered_by: 0,
        ..*asset
    }
}

fn without_edits(alloc: Global, assets: &[Asset]) -> Result<Vec<Asset>, AllocError>
    ensures { IfOk result (λ found. found.items ≡ map (with_edit []) assets.now) }
{
    let mut found = Vec::with_capacity(alloc, assets.len())?;
    for asset in assets {
        found.push(without_edit(asset))?;
    }
    Ok(found)
}

/// The assets, each with the edit of the first of these parts that is of it, or 0. For n assets and m parts it
/// takes time O(n + m log n).
///
/// # Errors
/// When memory runs out.
pub fn with_edits(
    alloc: Global,
    entered: &[Part],
    assets: &[Asset],
) -> Result<Rows<Asset>, AllocError>
    requires order { each_two asset_before assets.now ≡ true }
    ensures { IfOk result (λ found. found ≡ map (with_edit entered.now) assets.now) }
{
    let mut found = without_edits(alloc, assets)?;
    enter_all(&mut found, entered);
    Ok(Rows::from_vec(found))
}
