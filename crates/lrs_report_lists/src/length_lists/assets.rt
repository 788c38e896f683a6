//! Assets, found by search.

ghost use Rattle.std.specs.Prelude.{◌≡◌, true};
ghost use Rattle.std.specs.Option.{option_map};
ghost use Rattle.lrs_measure.specs.Lists.{each_two};
ghost use Rattle.lrs_machine.specs.Sound.{asset_before};
ghost use Rattle.lrs_report_lists.specs.Lines.{asset_numbered};

use lrs_events::Asset;
use lrs_ordered::Chunked;

/// The asset of a number.
pub(crate) fn asset_numbered(assets: &Chunked<Asset>, number: u64) -> Option<&Asset>
    requires order { each_two asset_before assets.now.rows ≡ true }
    ensures { option_map (λ a. a.now) result ≡ asset_numbered assets.now.rows number }
{
    assets.find(&number)
}
