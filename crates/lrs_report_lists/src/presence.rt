//! Whether what a list is asked for is known.

ghost use Rattle.std.specs.Prelude.{◌≡◌, length, nat_eq};
ghost use Rattle.std.specs.List.{list_any};
ghost use Rattle.lrs_measure.specs.Lists.{is_from_to};
ghost use Rattle.lrs_measure.specs.Texts.{same_name};
ghost use Rattle.lrs_machine.specs.Sound.{IsSound};
ghost use Rattle.lrs_image.specs.Change.{is_named};
ghost use Rattle.lrs_image.specs.OpenLists.{image_of};

use lrs_events::ClassName;
use lrs_image::ImageLists;
use lrs_position::RouteName;

/// Whether there is a route of the name, by search.
pub(crate) fn knows_route(kept: &ImageLists, name: &RouteName) -> bool
    requires sound { IsSound (image_of kept.now) }
    ensures { result ≡ list_any (is_named name.now) (image_of kept.now).routes }
{
    kept.routes.find(name).is_some()
}

/// Whether there is a class of the name, by search.
pub(crate) fn knows_class(kept: &ImageLists, name: &ClassName) -> bool
    requires sound { IsSound (image_of kept.now) }
    ensures { result ≡ list_any (λ c. same_name c.name name.now) (image_of kept.now).classes }
{
    kept.classes.find(name).is_some()
}

/// Whether there is an asset of the number, by search.
pub(crate) fn knows_asset(kept: &ImageLists, asset: u64) -> bool
    requires sound { IsSound (image_of kept.now) }
    ensures { result ≡ list_any (λ a. nat_eq a.number asset) (image_of kept.now).assets }
{
    kept.assets.find(&asset).is_some()
}

/// Whether there is an edit of the number: edits are counted from 1.
pub(crate) fn knows_edit(kept: &ImageLists, edit: u64) -> bool
    ensures { result ≡ is_from_to 1 (length (image_of kept.now).edits) edit }
{
    1 <= edit && edit <= kept.edits.len() as u64
}
