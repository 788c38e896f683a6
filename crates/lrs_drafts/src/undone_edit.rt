//! An edit that is undone: its line, and the inventory before it and after it.

ghost use Rattle.std.specs.Prelude.{◌≤◌, SomeIff, length};
ghost use Rattle.lrs_image.specs.OpenLists.{image_of};
ghost use Rattle.lrs_drafts.specs.Drafts as spec;

use crate::asset_drafts::route_in;
use crate::fault::DraftFault;
use lrs_image::ImageLists;
use lrs_machine::RouteRow;
use lrs_measure::limits::LONGEST_ROUTE;
use lrs_measure::read_digits;
use lrs_position::{RefName, RouteName};
use lrs_sheet_records::cut_at;

pub(crate) const UNREAD: DraftFault = DraftFault::Impossible(
    "this edit cannot be undone by a draft yet",
);

/// An edit that is undone: its line, and the inventories before and after it.
#[derive(Clone, Copy)]
pub(crate) struct UndoneEdit<'a> {
    pub line: &'a [u8],
    pub was: &'a ImageLists,
    pub now: &'a ImageLists,
}

/// The number of the first edit that is undone, if there is such an edit: the last one's where none is given.
pub(crate) fn first_undone(kept: &ImageLists, from: Option<u64>) -> Option<u64>
    ensures { SomeIff result ((1 ≤ spec.first_undone from (image_of kept.now))
        × (spec.first_undone from (image_of kept.now) ≤ length (image_of kept.now).edits))
        (spec.first_undone from (image_of kept.now)) }
{
    let count = kept.edits.len() as u64;
    let first = match from {
        Some(edit) => edit,
        None => count,
    };
    if 1 <= first && first <= count {
        Some(first)
    } else {
        None
    }
}

/// The field of a line with so many fields before it, the verb included; no text where there is none.
pub(crate) fn field(line: &[u8], passed: u32) -> &[u8] {
    let mut rest = line;
    for _ in 0..passed {
        match cut_at(rest, b',') {
            (_, Some(behind)) => rest = behind,
            (_, None) => return &line[..0],
        }
    }
    let (text, _) = cut_at(rest, b',');
    text
}

/// The route that a field names.
pub(crate) fn route_name(line: &[u8], passed: u32) -> Option<RouteName> {
    RouteName::new(field(line, passed))
}

/// The route that a field names, with what lies on it.
pub(crate) fn route_named<'a>(
    kept: &'a ImageLists,
    line: &[u8],
    passed: u32,
) -> Result<&'a RouteRow, DraftFault> {
    let Some(name) = route_name(line, passed) else {
        return Err(UNREAD);
    };
    match route_in(kept, &name) {
        Some(row) => Ok(row),
        None => Err(UNREAD),
    }
}

/// The referent that a field names.
pub(crate) fn referent_name(line: &[u8], passed: u32) -> Option<RefName> {
    RefName::new(field(line, passed))
}

/// The chainage that a field has, in millimetres.
pub(crate) fn chainage(line: &[u8], passed: u32) -> Result<u64, DraftFault> {
    match read_digits(field(line, passed), LONGEST_ROUTE) {
        Some(chainage) => Ok(chainage),
        None => Err(UNREAD),
    }
}
