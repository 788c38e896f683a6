//! Rows that say something of a known route.

ghost use Rattle.std.specs.Prelude.{◌≡◌, ◌≤◌, true, false, length};
ghost use Rattle.std.specs.List.Sorted.{IsSortedBy, IsPartitionPoint};
ghost use Rattle.lrs_measure.specs.Texts.{same_name, name_before};
ghost use Rattle.lrs_store_tables.specs.Contents.Decoders.{only_if};
ghost use Rattle.lrs_store_image.specs.DecodedRoutes.Marks.{is_name_of};

use crate::route_decoder::decoded_rows::OfRoute;
use lrs_position::RouteName;

/// How many of the names are before this text.
fn names_before(names: &[RouteName], text: &[u8]) -> usize
    requires { IsSortedBy name_before names.now }
    ensures within { result ≤ length names.now }
    ensures point { IsPartitionPoint (λ n. name_before n text.now ≡ true) (λ n.
        name_before n text.now ≡ false) names.now result }
{
    names.partition_point(|name| name.bytes().cmp(text).is_lt())
}

fn has_text(name: &RouteName, text: &[u8]) -> bool
    ensures { result ≡ same_name name.now text.now }
{
    name.bytes() == text
}

/// The name of this text among names in their order, by binary search.
fn known_name(names: &[RouteName], text: &[u8]) -> Option<RouteName>
    requires { IsSortedBy name_before names.now }
    ensures { result ≡ only_if (is_name_of names.now text.now) text.now }
{
    let at = names_before(names, text);
    if at == names.len() {
        return None;
    }
    let name = names[at];
    if !has_text(&name, text) {
        return None;
    }
    Some(name)
}

/// What is said of the route whose name this text is, if it is one of these names.
pub(crate) fn of_known<T: Copy>(names: &[RouteName], text: &[u8], said: T) -> Option<OfRoute<T>>
    requires { IsSortedBy name_before names.now }
    ensures { result ≡ only_if (is_name_of names.now text.now)
        (record { route = text.now; said = said }) }
{
    let route = known_name(names, text)?;
    Some(OfRoute { route, said })
}
