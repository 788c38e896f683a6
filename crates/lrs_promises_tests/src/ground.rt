//! Where courses run over the same ground, and where on a route a place of a link and a measure are.

use crate::words::print;
use lrs_desk::{Desk, Keeper};
use lrs_element::{Link, Piece};
use lrs_machine::RouteRow;
use lrs_measure::Frac;
use lrs_position::{Expr, PlaceFault, Route, RouteName, link_to_route, locate};
use std::slice;

/// The route that a word names.
fn route_named<'a, K: Keeper>(desk: &'a Desk<K>, word: &str) -> Option<&'a RouteRow> {
    let name = RouteName::new(word.as_bytes())?;
    desk.inventory().route(&name)
}

/// Prints the least link over which a route and its part before a chainage both run, that of the part behind it, and that of
/// the two parts, 0 for none, as `A1:5000`.
pub fn show_meets<K: Keeper>(rt: &HostRuntime, desk: &Desk<K>, words: &str) -> Option<()> {
    let (name, at) = words.split_once(':')?;
    let row = route_named(desk, name)?;
    let at = at.parse::<u64>().ok()?;
    let course = &row.route.course;
    if at > course.len() {
        return None;
    }
    let Ok((front, rear)) = course.cut(at) else {
        return None;
    };
    let with_front = course.meets(&front).unwrap_or(0);
    let with_rear = course.meets(&rear).unwrap_or(0);
    let parts = front.meets(&rear).unwrap_or(0);
    println!(rt; "{with_front} {with_rear} {parts}").ok()
}

/// The piece that words name, as `1:4999:5001`.
fn piece_of(words: &str) -> Option<Piece> {
    let (link, rest) = words.split_once(':')?;
    let (from, to) = rest.split_once(':')?;
    Some(Piece {
        link: link.parse::<u32>().ok()?,
        from: from.parse::<u32>().ok()?,
        to: to.parse::<u32>().ok()?,
        forward: true,
    })
}

/// Prints whether a route runs over a millimetre of a piece, as `A1:1:4999:5001`.
pub fn show_covers<K: Keeper>(rt: &HostRuntime, desk: &Desk<K>, words: &str) -> Option<()> {
    let (name, piece) = words.split_once(':')?;
    let row = route_named(desk, name)?;
    let covers = row.route.course.covers(piece_of(piece)?);
    println!(rt; "{covers}").ok()
}

/// The link of this number.
fn link_of<K: Keeper>(desk: &Desk<K>, number: u32) -> Option<Link> {
    for link in desk.inventory().kept().links.iter() {
        if link.number == number {
            return Some(*link);
        }
    }
    None
}

/// Prints which chainage of a route a distance on a link is, or that it is none.
fn show_place(rt: &HostRuntime, route: &Route, link: Link, distance: Frac) -> Option<()> {
    match link_to_route(slice::from_ref(route), link, distance) {
        Ok((name, chainage)) => {
            print(rt, name.bytes())?;
            println!(rt; " {chainage}").ok()
        }
        Err(_) => println!(rt; "on no route").ok(),
    }
}

/// The same of words, as `A1:2:3000`: a route, a link, and a distance on it in millimetres.
pub fn show_link<K: Keeper>(rt: &HostRuntime, desk: &Desk<K>, words: &str) -> Option<()> {
    let (name, place) = words.split_once(':')?;
    let (link, distance) = place.split_once(':')?;
    let row = route_named(desk, name)?;
    let link = link_of(desk, link.parse::<u32>().ok()?)?;
    let distance = Frac::of_whole(distance.parse::<i64>().ok()?);
    show_place(rt, &row.route, link, distance)
}

/// Prints which chainage of a route a measure is, or why it is none.
fn show_chainage(rt: &HostRuntime, route: &Route, measure: Frac) -> Option<()> {
    match locate(route, Expr::Abs(measure)) {
        Ok(chainage) => println!(rt; "{chainage}").ok(),
        Err(PlaceFault::NoRef) => println!(rt; "NoRef").ok(),
        Err(PlaceFault::TooFine) => println!(rt; "TooFine").ok(),
        Err(PlaceFault::OffRoute) => println!(rt; "OffRoute").ok(),
    }
}

/// The same of words, as `A1:7:2`: a route, and the fraction that is the measure.
pub fn show_located<K: Keeper>(rt: &HostRuntime, desk: &Desk<K>, words: &str) -> Option<()> {
    let (name, measure) = words.split_once(':')?;
    let (over, under) = measure.split_once(':')?;
    let row = route_named(desk, name)?;
    let over = i128::from(over.parse::<i64>().ok()?);
    let under = u128::from(under.parse::<u64>().ok()?);
    show_chainage(rt, &row.route, Frac::new(over, under)?)
}
