//! What is said on a terminal of a question: how its places are understood, and what became of an asset of which nothing is
//! left.

use crate::likely_measures::{MeasuredPlaces, likely_measures};
use crate::places::{Places, places_in, understood};
use crate::progress::ProgressDisplay;
use crate::remains::last_part;
use lrs_inventory::Inventory;
use lrs_machine::Question;
use lrs_position::{Route, RouteName};
use std::alloc::Global;
use std::rt::Runtime;

/// The name of a route as text.
pub(crate) fn name_of(name: &RouteName) -> &str {
    str::from_utf8(name.bytes()).unwrap_or("")
}

// Says which measures were meant most likely where these places of a route were asked for.
fn hint_at_measures<R: Runtime<A = Global>>(rt: &R, route: &Route, places: &Places) {
    if let Some(likely) = likely_measures(route, places) {
        let instead = MeasuredPlaces { likely };
        let _ = eprintln!(rt; "hint: {likely}; {instead}");
    }
}

// Says how places of a route are understood.
fn say_places<R: Runtime<A = Global>>(rt: &R, route: &Route, places: &Places) {
    if let Some(understood) = understood(route, places) {
        let name = name_of(&route.name);
        let _ = eprintln!(rt; "{name} {understood}");
        hint_at_measures(rt, route, places);
    }
}

fn tell_places<R: Runtime<A = Global>>(rt: &R, inventory: &Inventory, question: &Question) {
    if let Some((name, places)) = places_in(question) {
        if let Some(row) = inventory.route(&name) {
            say_places(rt, &row.route, &places);
        }
    }
}

fn tell_last_part<R: Runtime<A = Global>>(rt: &R, inventory: &Inventory, question: &Question) {
    if let Question::Find { asset } = question {
        if let Some(last) = last_part(inventory, *asset) {
            let _ = eprintln!(rt; "{last}");
        }
    }
}

/// Says on a terminal how the places are understood that a question names on a route of the inventory, in one line: in
/// metres, with the measures there. Where chainages look like measures, a hint says how these are written. Nothing is said
/// where a position locates nothing. Where a question asks for an asset of which nothing is left, it says what became of the
/// last of it.
pub fn tell_of_question<R: Runtime<A = Global>>(
    rt: &R,
    shown: ProgressDisplay,
    inventory: &Inventory,
    question: &Question,
) {
    if shown != ProgressDisplay::Nowhere {
        tell_places(rt, inventory, question);
        tell_last_part(rt, inventory, question);
    }
}
