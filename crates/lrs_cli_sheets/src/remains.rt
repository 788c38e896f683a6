//! What is left of an asset, and how the last of it was taken away.

ghost use Rattle.std.specs.Prelude.{◌≡◌, IfSome, Contains};
ghost use Rattle.lrs_cli_sheets.specs.Remains as spec;

use lrs_events::{Asset, Gone};
use lrs_inventory::Inventory;
use lrs_machine::{Key, RouteRow};
use std::fmt;

/// The last part of an asset that was taken away, and the edit that did so: `asset 7: the last of it was retired by edit 9
/// (key K9)`.
#[derive(Clone, Copy)]
pub(crate) struct LastPart {
    gone: Gone,
    key: Key,
}

impl fmt::Display for LastPart {
    fn fmt<W: fmt::Write>(&self, f: &mut fmt::Formatter<W>) -> fmt::Result {
        let (asset, edit) = (self.gone.part.asset, self.gone.part.edit);
        let key = &self.key;
        let verb = if self.gone.abandoned {
            "abandoned"
        } else {
            "retired"
        };
        write!(f, "asset {asset}: the last of it was {verb}")?;
        write!(f, " by edit {edit} (key {key})")
    }
}

// Whether an asset has no row on a route.
fn is_off(route_row: &RouteRow, asset: &Asset) -> bool
    ensures { result ≡ spec.is_off asset.now route_row.now }
{
    route_row
        .spans
        .asset_rows(asset.class, asset.number)
        .is_empty()
}

// Whether an asset holds nothing any more.
fn is_gone(inventory: &Inventory, asset: &Asset) -> bool
    ensures { result ≡ spec.is_gone asset.now inventory.now.routes }
{
    inventory
        .kept()
        .routes
        .iter()
        .all(|route_row| is_off(route_row, asset))
}

// The last entry of a ledger, which is in the order of edits, that is of an asset.
fn last_of(ledger: &[Gone], asset: u64) -> Option<Gone>
    ensures { IfSome result (λ gone. Contains ledger.now gone × (gone.part.asset ≡ asset)) }
{
    for at in (0..ledger.len()).rev() {
        if ledger[at].part.asset == asset {
            return Some(ledger[at]);
        }
    }
    None
}

// The key of an edit, by its number, which counts from 1.
fn key_of(inventory: &Inventory, edit: u64) -> Option<Key> {
    let place = edit.checked_sub(1)?;
    if place > u32::MAX as u64 {
        return None;
    }
    match inventory.kept().edits.get(place as usize) {
        Some(edit) => Some(edit.key),
        None => None,
    }
}

/// The last part of the asset of a number that was taken away, where it holds nothing any more.
pub(crate) fn last_part(inventory: &Inventory, number: u64) -> Option<LastPart> {
    let asset = inventory.asset(number)?;
    if !is_gone(inventory, &asset) {
        return None;
    }
    let gone = last_of(inventory.kept().gone.as_slice(), number)?;
    let key = key_of(inventory, gone.part.edit)?;
    Some(LastPart { gone, key })
}
