//! Which of several names is nearest to one that is not among them.

ghost use Rattle.std.specs.Prelude.{◌≤◌, length};

use lrs_events::ClassName;
use lrs_inventory::Inventory;
use lrs_position::{RefName, Referent, RouteName};

// Names that differ in more bytes, between what they have in common at their starts and at their ends, are not near.
const MOST_APART: usize = 2;

// How many bytes two names have in common at their starts.
fn common_start(one: &[u8], other: &[u8]) -> usize
    ensures in_one { result ≤ length one.now }
    ensures in_other { result ≤ length other.now }
{
    let shorter = one.len().min(other.len());
    for at in 0..shorter {
        if one[at] != other[at] {
            return at;
        }
    }
    shorter
}

// The same at their ends.
fn common_end(one: &[u8], other: &[u8]) -> usize
    ensures in_one { result ≤ length one.now }
    ensures in_other { result ≤ length other.now }
{
    let shorter = one.len().min(other.len());
    for back in 0..shorter {
        let (last, other_last) = (one.len() - 1 - back, other.len() - 1 - back);
        if one[last] != other[other_last] {
            return back;
        }
    }
    shorter
}

// How many bytes of the longer one are between these.
fn apart(one: &[u8], other: &[u8]) -> usize {
    let start = common_start(one, other);
    let (rest, other_rest) = (&one[start..], &other[start..]);
    let end = common_end(rest, other_rest);
    rest.len().max(other_rest.len()) - end
}

// The nearer one of two names, if it is near.
fn nearer<'a>(wanted: &[u8], best: Option<&'a [u8]>, name: &'a [u8]) -> Option<&'a [u8]> {
    let distance = apart(wanted, name);
    if distance > MOST_APART {
        return best;
    }
    match best {
        Some(known) if apart(wanted, known) <= distance => best,
        _ => Some(name),
    }
}

/// The route of the nearest name.
pub(crate) fn nearest_route<'a>(inventory: &'a Inventory, wanted: &RouteName) -> Option<&'a [u8]> {
    let mut best = None;
    for row in inventory.kept().routes.iter() {
        best = nearer(wanted.bytes(), best, row.route.name.bytes());
    }
    best
}

/// The class of the nearest name.
pub(crate) fn nearest_class<'a>(inventory: &'a Inventory, wanted: &ClassName) -> Option<&'a [u8]> {
    let mut best = None;
    for class in inventory.kept().classes.iter() {
        best = nearer(wanted.bytes(), best, class.name.bytes());
    }
    best
}

// The nearest name of these referents, or the one that is known.
fn nearest_of<'a>(
    referents: &'a [Referent],
    wanted: &RefName,
    known: Option<&'a [u8]>,
) -> Option<&'a [u8]> {
    let mut best = known;
    for referent in referents {
        best = nearer(wanted.bytes(), best, referent.name.bytes());
    }
    best
}

/// The referent of the nearest name on one route.
pub(crate) fn nearest_on<'a>(referents: &'a [Referent], wanted: &RefName) -> Option<&'a [u8]> {
    nearest_of(referents, wanted, None)
}

/// The referent of the nearest name on all routes.
pub(crate) fn nearest_referent<'a>(inventory: &'a Inventory, wanted: &RefName) -> Option<&'a [u8]> {
    let mut best = None;
    for row in inventory.kept().routes.iter() {
        best = nearest_of(row.route.refs.as_slice(), wanted, best);
    }
    best
}
