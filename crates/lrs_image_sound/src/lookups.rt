//! Links, assets and classes, found by their keys.

ghost use Rattle.std.specs.Prelude.{◌≡◌, ◌&&◌, Bool, true, false, nat_eq, nat_le};
ghost use Rattle.std.specs.List.{list_any};
ghost use Rattle.std.specs.Option.{option_map_or};
ghost use Rattle.lrs_measure.specs.Lists.{each_two};
ghost use Rattle.lrs_measure.specs.Texts.{same_name};
ghost use Rattle.lrs_element.specs.declared.link.Link.{Link};
ghost use Rattle.lrs_events.specs.declared.class.Asset.{Asset};
ghost use Rattle.lrs_machine.specs.Sound.{asset_before, are_classes, are_links};

use lrs_element::Link;
use lrs_events::{Asset, Class, ClassName};

/// The link of this number, by binary search.
fn link_of(links: &[Link], number: u32) -> Option<Link>
    requires order { are_links links.now ≡ true }
    ensures { (test : Link → Bool) → list_any (λ l. nat_eq l.number number && test l) links.now
        ≡ option_map_or test result false }
{
    match links.binary_search_by_key(&number, |link| link.number) {
        Ok(at) => Some(links[at]),
        Err(_) => None,
    }
}

/// The asset of this number, by binary search.
pub(crate) fn asset_of(assets: &[Asset], number: u64) -> Option<Asset>
    requires order { each_two asset_before assets.now ≡ true }
    ensures { (test : Asset → Bool) → list_any (λ a. nat_eq a.number number && test a) assets.now
        ≡ option_map_or test result false }
{
    match assets.binary_search_by_key(&number, |asset| asset.number) {
        Ok(at) => Some(assets[at]),
        Err(_) => None,
    }
}

/// Whether there is a link of this number that is so long.
pub(crate) fn link_reaches(links: &[Link], number: u32, to: u32) -> bool
    requires order { are_links links.now ≡ true }
    ensures { result ≡ list_any (λ l. nat_eq l.number number && nat_le to l.length) links.now }
{
    match link_of(links, number) {
        Some(link) => to <= link.length,
        None => false,
    }
}

/// Whether there is an asset of this number.
pub(crate) fn knows_asset(assets: &[Asset], number: u64) -> bool
    requires order { each_two asset_before assets.now ≡ true }
    ensures { result ≡ list_any (λ a. nat_eq a.number number) assets.now }
{
    match asset_of(assets, number) {
        Some(_) => true,
        None => false,
    }
}

/// Whether there is an asset of this number and class.
pub(crate) fn is_of_class(assets: &[Asset], number: u64, class: ClassName) -> bool
    requires order { each_two asset_before assets.now ≡ true }
    ensures { result ≡ list_any (λ a. nat_eq a.number number
        && same_name a.class class) assets.now }
{
    match asset_of(assets, number) {
        Some(asset) => asset.class == class,
        None => false,
    }
}

/// Whether there is a class of this name, by binary search.
pub(crate) fn knows_class(classes: &[Class], name: ClassName) -> bool
    requires order { are_classes classes.now ≡ true }
    ensures { result ≡ list_any (λ c. same_name c.name name) classes.now }
{
    match classes.binary_search_by(|class| class.name.bytes().cmp(name.bytes())) {
        Ok(_) => true,
        Err(_) => false,
    }
}
