//! What an inventory has near to what a refused command names.

ghost use Rattle.std.specs.Prelude.{◌<◌, IfSome};

use crate::holdings::{Holding, holding_below, holding_of};
use crate::nearest::{nearest_class, nearest_on, nearest_referent, nearest_route};
use crate::remains::{LastPart, last_part};
use lrs_element::Mark;
use lrs_events::ClassName;
use lrs_inventory::Inventory;
use lrs_machine::{Cause, Command};
use lrs_measure::Metres;
use lrs_position::{EnteredPosition, EventLocation, Expr, RefName, Route, RouteName};
use std::alloc::Global;
use std::fmt;

/// What is near.
#[derive(Clone, Copy)]
pub(crate) enum Nearby<'a> {
    /// The nearest name of a kind.
    Name {
        kind: &'static str,
        name: &'a [u8],
    },
    /// A route: from which measure to which it has marks, and how long it is.
    Whole {
        route: &'a Route,
    },
    /// Two marks of a route with none between them, by their chainages in millimetres.
    Marks {
        route: &'a Route,
        before: u64,
        behind: u64,
    },
    /// Where an asset lies.
    Held(Holding),
    /// What took the last of an asset of which nothing is left.
    Gone(LastPart),
}

// A name as text.
fn text_of(name: &[u8]) -> &str {
    str::from_utf8(name).unwrap_or("")
}

// The least and the greatest measure of a route.
fn measures_of(marks: &[Mark]) -> (u64, u64) {
    match marks {
        [first, .., last] => (first.measure, last.measure),
        _ => (0, 0),
    }
}

impl<'a> fmt::Display for Nearby<'a> {
    fn fmt<W: fmt::Write>(&self, f: &mut fmt::Formatter<W>) -> fmt::Result {
        match *self {
            Nearby::Name { kind, name } => {
                let name = text_of(name);
                write!(f, "the nearest {kind} is {name}")
            }
            Nearby::Whole { route } => {
                let name = text_of(route.name.bytes());
                let (first, last) = measures_of(route.marks.list());
                let length = Metres::new(route.length());
                write!(f, "{name} has measures {first} to {last}")?;
                write!(f, ", and is {length} m long")
            }
            Nearby::Marks {
                route,
                before,
                behind,
            } => {
                let name = text_of(route.name.bytes());
                write!(f, "{name} has marks at {before} and {behind}")?;
                write!(f, ", and none between")
            }
            Nearby::Held(holding) => write!(f, "{holding}"),
            Nearby::Gone(last) => write!(f, "{last}"),
        }
    }
}

// The route on which a command lies, or that it changes, if it names one.
fn route_of(command: &Command) -> Option<&RouteName> {
    match command {
        Command::Ref { route, .. }
        | Command::Retire { route, .. }
        | Command::Split { route, .. }
        | Command::Renumber { route, .. }
        | Command::Recalibrate { route, .. }
        | Command::Realign { route, .. }
        | Command::Close { route }
        | Command::Turn { route } => Some(route),
        Command::Join { first, .. } => Some(first),
        Command::Enter(asset) | Command::Supersede(asset) => Some(&asset.route),
        _ => None,
    }
}

// The same with what the inventory has of it.
fn known_route<'a>(inventory: &'a Inventory, command: &Command) -> Option<&'a Route> {
    match inventory.route(route_of(command)?) {
        Some(row) => Some(&row.route),
        None => None,
    }
}

// The route that a command names and the inventory does not have.
fn missing_route<'a>(inventory: &Inventory, command: &'a Command) -> Option<&'a RouteName> {
    if known_route(inventory, command).is_none() {
        return route_of(command);
    }
    match command {
        Command::Join { second, .. } => Some(second),
        _ => None,
    }
}

fn class_of(command: &Command) -> Option<&ClassName> {
    match command {
        Command::Enter(asset) | Command::Supersede(asset) => Some(&asset.class),
        _ => None,
    }
}

// The referent from which a position counts, where it is not on a route.
fn missing_at(route: &Route, position: EnteredPosition) -> Option<RefName> {
    match position.expression() {
        Expr::Rel(name, _) => match route.referent(name) {
            Some(_) => None,
            None => Some(name),
        },
        _ => None,
    }
}

// The same of the first position of a location.
fn missing_in(route: &Route, location: EventLocation) -> Option<RefName> {
    match missing_at(route, location.from()) {
        Some(name) => Some(name),
        None => missing_at(route, location.to()?),
    }
}

// The same of a command.
fn missing_referent(route: &Route, command: &Command) -> Option<RefName> {
    match command {
        Command::Ref { at, .. } => missing_at(route, *at),
        Command::Retire { location, .. } => missing_in(route, *location),
        Command::Enter(asset) | Command::Supersede(asset) => missing_in(route, asset.location),
        _ => None,
    }
}

// The neighbouring marks between which a chainage lies.
fn marks_around(marks: &[Mark], at: u64) -> Option<(u64, u64)>
    ensures { IfSome result (λ around. (around.0 < at) × (at < around.1)) }
{
    for i in 1..marks.len() {
        let (before, behind) = (marks[i - 1].chainage, marks[i].chainage);
        if before < at && at < behind {
            return Some((before, behind));
        }
    }
    None
}

fn near_route<'a>(inventory: &'a Inventory, command: &Command) -> Option<Nearby<'a>> {
    let name = nearest_route(inventory, missing_route(inventory, command)?)?;
    let kind = "route";
    Some(Nearby::Name { kind, name })
}

fn near_class<'a>(inventory: &'a Inventory, command: &Command) -> Option<Nearby<'a>> {
    let name = nearest_class(inventory, class_of(command)?)?;
    let kind = "class";
    Some(Nearby::Name { kind, name })
}

// The nearest referent to the one that a command takes away, or from which it counts on its route.
fn nearest_to<'a>(inventory: &'a Inventory, command: &Command) -> Option<&'a [u8]> {
    if let Command::Unref { name } = command {
        return nearest_referent(inventory, name);
    }
    let route = known_route(inventory, command)?;
    let missing = missing_referent(route, command)?;
    nearest_on(route.refs.as_slice(), &missing)
}

fn near_referent<'a>(inventory: &'a Inventory, command: &Command) -> Option<Nearby<'a>> {
    let name = nearest_to(inventory, command)?;
    let kind = "referent";
    Some(Nearby::Name { kind, name })
}

fn whole_route<'a>(inventory: &'a Inventory, command: &Command) -> Option<Nearby<'a>> {
    let route = known_route(inventory, command)?;
    Some(Nearby::Whole { route })
}

fn near_marks<'a>(inventory: &'a Inventory, command: &Command) -> Option<Nearby<'a>> {
    let Command::Split { at, .. } = command else {
        return None;
    };
    let route = known_route(inventory, command)?;
    let (before, behind) = marks_around(route.marks.list(), at.get())?;
    Some(Nearby::Marks {
        route,
        before,
        behind,
    })
}

// Where an asset lies over which a new one would lie.
fn near_holder<'a>(inventory: &'a Inventory, command: &Command, number: u64) -> Option<Nearby<'a>> {
    match command {
        Command::Enter(asked) => {
            let holding = holding_below(inventory, asked, number)?;
            Some(Nearby::Held(holding))
        }
        _ => None,
    }
}

// Where an asset lies of which nothing is to be retired, or what took the last of it.
fn near_retired<'a>(
    alloc: Global,
    inventory: &'a Inventory,
    command: &Command,
) -> Option<Nearby<'a>> {
    let Command::Retire { asset, route, .. } = command else {
        return None;
    };
    if let Some(holding) = holding_of(alloc, inventory, route, asset.get()) {
        return Some(Nearby::Held(holding));
    }
    let last = last_part(inventory, asset.get())?;
    Some(Nearby::Gone(last))
}

/// What an inventory has near to what a command names that it refuses for this cause, if there is something to say.
pub(crate) fn near_to<'a>(
    alloc: Global,
    inventory: &'a Inventory,
    command: &Command,
    cause: Cause,
) -> Option<Nearby<'a>> {
    match cause {
        Cause::NoRoute => near_route(inventory, command),
        Cause::NoClass => near_class(inventory, command),
        Cause::NoRef => near_referent(inventory, command),
        Cause::OffRoute | Cause::BadMarks(_) => whole_route(inventory, command),
        Cause::NoMark => near_marks(inventory, command),
        Cause::Overlap(number) => near_holder(inventory, command, number),
        Cause::Empty => near_retired(alloc, inventory, command),
        _ => None,
    }
}
