//! Which edit entered each asset, as a table of its own says it.

ghost use Rattle.std.specs.Prelude.{◌≡◌, ◌&&◌, length, nat_eq, true, IfOk};
ghost use Rattle.lrs_measure.specs.Lists.{each_two, is_nothing};
ghost use Rattle.lrs_machine.specs.Sound.{asset_before, are_origins};
ghost use Rattle.lrs_store_tables.specs.Contents.Content.{are_origins_of, has_origins};

use lrs_events::{Asset, Part};
use lrs_store_tables::decode::{Said, number_at};
use sqlite::Row;
use std::alloc::{AllocError, Global};
use std::marker::Model;

/// An asset and the edit that entered it.
#[derive(Clone, Copy)]
pub struct Origin {
    pub asset: u64,
    pub edit: u64,
}

impl Model for Origin {
    ghost use Rattle.lrs_store_tables.specs.Contents.Decoders.{Origin};

    ghost Value = { Origin };

    ghost view = { λ o. record { asset = o.asset; edit = o.edit } };

    ghost inverse = { λ o. record { asset = o.asset; edit = o.edit } };
}

impl Said for Origin {
    ghost use Rattle.lrs_store_tables.specs.Contents.Decoders.{origin_of};
    ghost use Rattle.lrs_store_tables.specs.StoredRows.{origin_in};

    ghost said = { λ r. origin_of (origin_in r) };

    fn said(row: &Row) -> Option<Origin> {
        let asset = number_at(row, 0)?;
        let edit = number_at(row, 1)?;
        Some(Origin { asset, edit })
    }
}

fn is_nothing(origins: &[Origin]) -> bool
    ensures { result ≡ is_nothing origins.now }
{
    origins.is_empty()
}

fn is_of(asset: &Asset, origin: &Origin) -> bool
    ensures { result ≡ (nat_eq origin.now.asset asset.now.number
        && nat_eq origin.now.edit asset.now.entered_by) }
{
    origin.asset == asset.number && origin.edit == asset.entered_by
}

fn are_as_many(assets: &[Asset], origins: &[Origin]) -> bool
    ensures { result ≡ nat_eq (length assets.now) (length origins.now) }
{
    assets.len() == origins.len()
}

/// Whether these are the origins of the assets, and nothing more.
fn are_origins_of(assets: &[Asset], origins: &[Origin]) -> bool
    ensures { result ≡ are_origins_of assets.now origins.now }
{
    if !are_as_many(assets, origins) {
        return false;
    }
    for (i, asset) in assets.iter().enumerate() {
        if !is_of(asset, &origins[i]) {
            return false;
        }
    }
    true
}

/// Whether a store of this version has these origins.
fn has_origins(version: u64, assets: &[Asset], origins: &[Origin]) -> bool
    ensures { result ≡ has_origins version assets.now origins.now }
{
    if version == 1 {
        is_nothing(origins)
    } else {
        are_origins_of(assets, origins)
    }
}

/// Whether the origins, in order, are those of a store of this version, and agree with what was entered.
///
/// # Errors
/// When memory runs out.
pub(crate) fn are_sound(
    alloc: Global,
    version: u64,
    assets: &[Asset],
    entered: &[Part],
    origins: &[Origin],
) -> Result<bool, AllocError>
    requires { each_two asset_before assets.now ≡ true }
    ensures { IfOk result (λ sound. sound ≡ (are_origins entered.now assets.now
        && has_origins version assets.now origins.now)) }
{
    let agree = lrs_image_sound::are_origins(alloc, entered, assets)?;
    Ok(agree && has_origins(version, assets, origins))
}
