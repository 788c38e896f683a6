//! Where a record cuts a route, by `split` or `realign`: what a terminal is told of the chainages there.

use crate::likely_measures::{MeasuredChainages, likely_measures};
use crate::place_notes::name_of;
use crate::places::{Places, UnderstoodPlaces, places_of, understood};
use lrs_inventory::Inventory;
use lrs_machine::{Command, Key};
use lrs_measure::Metres;
use lrs_position::Route;
use std::alloc::Global;
use std::rt::Runtime;

// Says under a key where a route is cut.
fn say_cut<R: Runtime<A = Global>>(rt: &R, name: &str, key: &Key, cut: &UnderstoodPlaces) {
    let _ = match cut {
        UnderstoodPlaces::Between(from, to) => {
            let length = Metres::new(to.chainage.saturating_sub(from.chainage));
            eprintln!(rt; "key {key}: replaces {length} m of {name}: {cut}")
        }
        _ => eprintln!(rt; "key {key}: splits {name} {cut}"),
    };
}

// Says which measures were meant most likely where a route is cut.
fn hint_at_measures<R: Runtime<A = Global>>(rt: &R, route: &Route, places: &Places) {
    if let Some(likely) = likely_measures(route, places) {
        let instead = MeasuredChainages { likely };
        let _ = eprintln!(rt; "hint: {likely}; {instead}");
    }
}

// Says the same of a cut that a command names.
fn tell_places<R: Runtime<A = Global>>(rt: &R, route: &Route, key: &Key, places: &Places) {
    if let Some(cut) = understood(route, places) {
        say_cut(rt, name_of(&route.name), key, &cut);
        hint_at_measures(rt, route, places);
    }
}

/// Says where a command cuts a route of an inventory, and whether it is one that cuts a route.
pub(crate) fn tell_cut<R: Runtime<A = Global>>(
    rt: &R,
    inventory: &Inventory,
    key: &Key,
    command: &Command,
) -> bool {
    let Some((name, places)) = places_of(command) else {
        return false;
    };
    if let Some(row) = inventory.route(&name) {
        tell_places(rt, &row.route, key, &places);
    }
    true
}
