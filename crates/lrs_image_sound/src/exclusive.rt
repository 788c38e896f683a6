//! Whether an exclusive class has a place twice.

ghost use Rattle.std.specs.Prelude.{◌≡◌, ℕ, ◌&&◌, true, length, nat_eq, List, IfOk};
ghost use Rattle.std.specs.List.{AllByRecursion, list_any, list_all};
ghost use Rattle.lrs_measure.specs.Lists.{each_two};
ghost use Rattle.lrs_measure.specs.Texts.{Name, same_name};
ghost use Rattle.lrs_element.specs.declared.link.Link.{Link};
ghost use Rattle.lrs_machine.specs.Segments.{is_exclusive};
ghost use Rattle.lrs_machine.specs.Sound.{RouteSpans, asset_before, class_before, keeps_exclusive};
ghost use Rattle.lrs_image_sound.specs.SweptParts.{IsFilled};
ghost use Rattle.lrs_image_sound.specs.Balance.{AreHeld};
ghost use Rattle.lrs_image_sound.specs.Exclusive.{is_of_exclusive, is_name, is_place, is_exclusive_at, AreKeyed};
ghost use Rattle.std.specs.Prelude.{slice_get};

use crate::lookups::asset_of;
use crate::sweep::{do_share_nothing, into_line_order};
use lrs_events::{Asset, Class, ClassName, Kind, Part};
use std::alloc::{AllocError, Global};

/// The class of the asset of this number.
fn class_of(assets: &[Asset], asset: u64) -> Option<ClassName>
    requires order { each_two asset_before assets.now ≡ true }
    ensures { (class : Name) → list_any (λ a. nat_eq a.number asset
        && same_name a.class class) assets.now ≡ is_name result class }
{
    match asset_of(assets, asset) {
        Some(asset) => Some(asset.class),
        None => None,
    }
}

fn is_exclusive(class: &Class) -> bool
    ensures { result ≡ is_exclusive class.now.kind }
{
    matches!(class.kind, Kind::Exclusive)
}

/// The place of the class of this name where it is exclusive, by binary search.
fn exclusive_place(classes: &[Class], name: &ClassName) -> Option<usize>
    requires order { each_two class_before classes.now ≡ true }
    ensures { (k : ℕ) → is_exclusive_at (slice_get classes.now k) name.now ≡ is_place result k }
{
    match classes.binary_search_by(|class| class.name.bytes().cmp(name.bytes())) {
        Ok(at) => {
            if is_exclusive(&classes[at]) {
                Some(at)
            } else {
                None
            }
        }
        Err(_) => None,
    }
}

/// The place of the asset's class where it is exclusive.
fn exclusive_class(assets: &[Asset], classes: &[Class], asset: u64) -> Option<usize>
    requires assets { each_two asset_before assets.now ≡ true }
    requires classes { each_two class_before classes.now ≡ true }
    ensures { (k : ℕ) → is_of_exclusive assets.now classes.now k asset ≡ is_place result k }
{
    match class_of(assets, asset) {
        Some(name) => exclusive_place(classes, &name),
        None => None,
    }
}

/// The parts of assets of exclusive classes, keyed by the places of their classes.
fn keyed_parts(
    alloc: Global,
    assets: &[Asset],
    classes: &[Class],
    held: &[Part],
) -> Result<Vec<Part>, AllocError>
    requires assets { each_two asset_before assets.now ≡ true }
    requires classes { each_two class_before classes.now ≡ true }
    requires filled { AllByRecursion IsFilled held.now }
    ensures { IfOk result (λ keyed. AreKeyed assets.now classes.now held.now keyed.items) }
{
    let mut keyed = Vec::new(alloc);
    for part in held {
        if let Some(class) = exclusive_class(assets, classes, part.asset) {
            keyed.push(Part {
                asset: class as u64,
                ..*part
            })?;
        }
    }
    Ok(keyed)
}

/// Whether at each place each exclusive class has at most one holder.
pub fn keep_exclusive(
    alloc: Global,
    assets: &[Asset],
    classes: &[Class],
    held: Vec<Part>,
) -> Result<bool, AllocError>
    requires assets { each_two asset_before assets.now ≡ true }
    requires classes { each_two class_before classes.now ≡ true }
    requires filled { AllByRecursion IsFilled held.items }
    ensures { IfOk result (λ kept. (links : List Link) (routes : List RouteSpans)
        → AreHeld links assets.now routes held.items
        → kept ≡ list_all (keeps_exclusive links assets.now routes) classes.now) }
{
    let sorted = into_line_order(held);
    let keyed = keyed_parts(alloc, assets, classes, &sorted)?;
    Ok(do_share_nothing(keyed))
}
