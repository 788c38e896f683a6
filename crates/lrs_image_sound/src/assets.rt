//! The table of assets.

ghost use Rattle.std.specs.Prelude.{◌≡◌, true};
ghost use Rattle.std.specs.List.{list_all};
ghost use Rattle.lrs_machine.specs.Sound.{are_classes, is_asset, are_assets};

use crate::lookups::knows_class;
use crate::order::assets_rise;
use lrs_events::{Asset, Class};
use lrs_measure::limits::{GREATEST_ASSET, GREATEST_LATERAL, MOST_ASSETS};

/// Whether an asset is in its limits and of a known class.
fn is_asset(classes: &[Class], asset: &Asset) -> bool
    requires { are_classes classes.now ≡ true }
    ensures { result ≡ is_asset classes.now asset.now }
{
    1 <= asset.number
        && asset.number <= GREATEST_ASSET
        && asset.lateral <= GREATEST_LATERAL
        && knows_class(classes, asset.class)
}

fn are_each_known(classes: &[Class], assets: &[Asset]) -> bool
    requires { are_classes classes.now ≡ true }
    ensures { result ≡ list_all (is_asset classes.now) assets.now }
{
    assets.iter().all(|asset| is_asset(classes, asset))
}

/// Whether assets are in the order of their numbers, in their limits, of known classes, and not too many.
pub fn are_assets(classes: &[Class], assets: &[Asset]) -> bool
    requires { are_classes classes.now ≡ true }
    ensures { result ≡ are_assets classes.now assets.now }
{
    assets_rise(assets) && are_each_known(classes, assets) && assets.len() <= MOST_ASSETS
}
