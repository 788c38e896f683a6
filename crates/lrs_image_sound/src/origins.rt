//! The table of origins: which edit entered each asset.

ghost use Rattle.std.specs.Prelude.{◌≡◌, ◌||◌, true, not, nat_eq, map, IfOk, IsPermutation};
ghost use Rattle.std.specs.List.{list_any, list_all};
ghost use Rattle.std.specs.List.Sorted.{IsSorted};
ghost use Rattle.std.specs.Ordering.{nat_cmp};
ghost use Rattle.lrs_measure.specs.Lists.{each_two};
ghost use Rattle.lrs_machine.specs.Sound.{asset_before, are_origins};
ghost use Rattle.lrs_image_sound.specs.Origins.{has_number, is_named, agrees, agrees_with_all};

use crate::lookups::asset_of;
use crate::sweep::sorted_by_line;
use lrs_events::{Asset, Part};
use std::alloc::{AllocError, Global};

fn numbers_of(alloc: Global, entered: &[Part]) -> Result<Vec<u64>, AllocError>
    ensures { IfOk result (λ numbers. numbers.items ≡ map (λ p. p.asset) entered.now) }
{
    let mut numbers = Vec::with_capacity(alloc, entered.len())?;
    for part in entered {
        numbers.push(part.asset)?;
    }
    Ok(numbers)
}

fn sort(numbers: &mut Vec<u64>)
    ensures permutation { IsPermutation numbers.old.items numbers.new.items }
    ensures sorted { IsSorted nat_cmp numbers.new.items }
{
    numbers.sort_unstable();
}

/// The numbers of the assets of entered parts, in order.
fn entered_numbers(alloc: Global, entered: &[Part]) -> Result<Vec<u64>, AllocError>
    ensures permutation { IfOk result (λ numbers.
        IsPermutation (map (λ p. p.asset) entered.now) numbers.items) }
    ensures sorted { IfOk result (λ numbers. IsSorted nat_cmp numbers.items) }
{
    let mut numbers = numbers_of(alloc, entered)?;
    sort(&mut numbers);
    Ok(numbers)
}

fn has_number(numbers: &[u64], number: u64) -> bool
    requires { IsSorted nat_cmp numbers.now }
    ensures { result ≡ has_number numbers.now number }
{
    match numbers.binary_search(&number) {
        Ok(_) => true,
        Err(_) => false,
    }
}

fn are_named(numbers: &[u64], assets: &[Asset]) -> bool
    requires { IsSorted nat_cmp numbers.now }
    ensures { result ≡ list_all (is_named numbers.now) assets.now }
{
    assets.iter().all(|asset| has_number(numbers, asset.number))
}

/// Whether the asset of the part, where it is known, names the edit that entered the part.
fn agrees(assets: &[Asset], part: &Part) -> bool
    requires { each_two asset_before assets.now ≡ true }
    ensures { result ≡ agrees_with_all assets.now part.now }
{
    match asset_of(assets, part.asset) {
        Some(asset) => part.edit == asset.entered_by,
        None => true,
    }
}

fn all_agree(assets: &[Asset], entered: &[Part]) -> bool
    requires { each_two asset_before assets.now ≡ true }
    ensures { result ≡ list_all (agrees_with_all assets.now) entered.now }
{
    entered.iter().all(|part| agrees(assets, part))
}

/// Whether each asset was entered, and by the one edit that it names. It is fast where the parts are by asset.
fn are_origins_by_asset(
    alloc: Global,
    entered: &[Part],
    assets: &[Asset],
) -> Result<bool, AllocError>
    requires { each_two asset_before assets.now ≡ true }
    ensures { IfOk result (λ sound. sound ≡ are_origins entered.now assets.now) }
{
    let numbers = entered_numbers(alloc, entered)?;
    if !are_named(&numbers, assets) {
        return Ok(false);
    }
    Ok(all_agree(assets, entered))
}

/// Whether each asset was entered, and by the one edit that it names.
///
/// # Errors
/// When memory runs out.
pub fn are_origins(alloc: Global, entered: &[Part], assets: &[Asset]) -> Result<bool, AllocError>
    requires { each_two asset_before assets.now ≡ true }
    ensures { IfOk result (λ sound. sound ≡ are_origins entered.now assets.now) }
{
    let sorted = sorted_by_line(alloc, entered)?;
    are_origins_by_asset(alloc, &sorted, assets)
}
