//! Rows are sorted by their keys.

ghost use Rattle.std.specs.Prelude.{IsPermutation};
ghost use Rattle.std.specs.List.Sorted.{IsSortedBy};
ghost use Rattle.lrs_events.specs.Parts.{part_before};
ghost use Rattle.lrs_machine.specs.Sound.{link_before, class_before, asset_before, gone_before};
ghost use Rattle.lrs_store_tables.specs.Contents.Decoders.{number_before};
ghost use Rattle.lrs_store_tables.specs.Contents.Content.{origin_before};

use crate::edits::NumberedEdit;
use crate::origins::Origin;
use lrs_element::Link;
use lrs_events::{Asset, Class, Gone, Part};
use lrs_image_sound::{gone_key, part_key};

/// The links by number.
pub(crate) fn sorted_links(mut links: Vec<Link>) -> Vec<Link>
    ensures permutation { IsPermutation links.items result.items }
    ensures sorted { IsSortedBy link_before result.items }
{
    links.sort_unstable_by(|a, b| a.number.cmp(&b.number));
    links
}

/// The classes by name.
pub(crate) fn sorted_classes(mut classes: Vec<Class>) -> Vec<Class>
    ensures permutation { IsPermutation classes.items result.items }
    ensures sorted { IsSortedBy class_before result.items }
{
    classes.sort_unstable_by(|a, b| a.name.bytes().cmp(b.name.bytes()));
    classes
}

/// The assets by number.
pub(crate) fn sorted_assets(mut assets: Vec<Asset>) -> Vec<Asset>
    ensures permutation { IsPermutation assets.items result.items }
    ensures sorted { IsSortedBy asset_before result.items }
{
    assets.sort_unstable_by(|a, b| a.number.cmp(&b.number));
    assets
}

/// Parts by edit, asset, link, start and side.
pub(crate) fn sorted_parts(mut parts: Vec<Part>) -> Vec<Part>
    ensures permutation { IsPermutation parts.items result.items }
    ensures sorted { IsSortedBy part_before result.items }
{
    parts.sort_unstable_by(|x, y| part_key(x).cmp(&part_key(y)));
    parts
}

/// Parts that are gone by edit, reason, asset, link, start and side.
pub(crate) fn sorted_gone(mut gone: Vec<Gone>) -> Vec<Gone>
    ensures permutation { IsPermutation gone.items result.items }
    ensures sorted { IsSortedBy gone_before result.items }
{
    gone.sort_unstable_by(|x, y| gone_key(x).cmp(&gone_key(y)));
    gone
}

/// Edits by number.
pub(crate) fn sorted_edits(mut edits: Vec<NumberedEdit>) -> Vec<NumberedEdit>
    ensures permutation { IsPermutation edits.items result.items }
    ensures sorted { IsSortedBy number_before result.items }
{
    edits.sort_unstable_by(|a, b| a.n.cmp(&b.n));
    edits
}

/// Origins by asset.
pub(crate) fn sorted_origins(mut origins: Vec<Origin>) -> Vec<Origin>
    ensures permutation { IsPermutation origins.items result.items }
    ensures sorted { IsSortedBy origin_before result.items }
{
    origins.sort_unstable_by(|a, b| a.asset.cmp(&b.asset));
    origins
}
