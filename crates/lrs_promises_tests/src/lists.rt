//! What a desk makes one by one, made in a list: the segments of a route, and the strip of them; and totals. And a desk's
//! calls for one kind of question each.

ghost use Rattle.lrs_machine.specs.Sound.{IsSound};

use crate::words::print;
use lrs_desk::{Desk, Image, Inventory, Keeper, Plain};
use lrs_events::{ClassName, Side, read_side};
use lrs_machine::{Segment, Total};
use lrs_position::{Route, RouteName, read_expr, read_method};
use lrs_report::{segments, strip};
use lrs_report_answers::totals_of_image;

/// Prints the strip of these segments of a route.
fn print_strip(
    rt: &HostRuntime,
    route: &Route,
    side: Side,
    wanted: &[ClassName],
    list: &[Segment],
) -> Option<()> {
    let mut text = Vec::new(rt.alloc());
    match strip(route, side, wanted, list, &mut text) {
        Ok(()) => print(rt, text.as_slice()),
        Err(_) => None,
    }
}

/// Prints the strip of a route of an inventory.
fn show(
    rt: &HostRuntime,
    inventory: &Inventory,
    name: &RouteName,
    side: Side,
    wanted: &[ClassName],
) -> Option<()> {
    let kept = inventory.kept();
    let Some(row) = kept.routes.find(name) else {
        return None;
    };
    let (assets, classes) = (&kept.assets, &kept.classes);
    match segments(
        rt.alloc(),
        &row.route,
        &row.spans,
        assets,
        classes,
        wanted,
        side,
    ) {
        Ok(list) => print_strip(rt, &row.route, side, wanted, list.as_slice()),
        Err(_) => None,
    }
}

/// Prints the strip that a word names, as `A1:L:SPEED`; of no class, as `A1:L:`.
pub fn show_strip<K: Keeper>(rt: &HostRuntime, desk: &Desk<K>, words: &str) -> Option<()> {
    let (route, rest) = words.split_once(':')?;
    let (side, class) = rest.split_once(':')?;
    let name = RouteName::new(route.as_bytes())?;
    let side = read_side(side.as_bytes())?;
    if class.is_empty() {
        return show(rt, desk.inventory(), &name, side, &[]);
    }
    let wanted = [ClassName::new(class.as_bytes())?];
    show(rt, desk.inventory(), &name, side, &wanted)
}

/// How many assets hold the middle of a route.
fn holders<K: Keeper>(desk: &Desk<K>, route: &RouteName) -> Option<usize> {
    let middle = read_expr(read_method(b"int")?, b"1/2")?;
    match desk.at(route, middle) {
        Ok(found) => Some(found.hits.as_slice().len()),
        Err(_) => None,
    }
}

/// On how many stretches an asset lies.
fn stretches<K: Keeper>(desk: &Desk<K>, asset: u64) -> Option<usize> {
    match desk.find(asset) {
        Ok(found) => Some(found.as_slice().len()),
        Err(_) => None,
    }
}

/// How many classes there are, by their totals.
fn totalled<K: Keeper>(desk: &Desk<K>) -> Option<usize> {
    match desk.totals() {
        Ok(totals) => Some(totals.as_slice().len()),
        Err(_) => None,
    }
}

/// Whether a route has segments by a class on its left.
fn is_segmented<K: Keeper>(desk: &Desk<K>, route: &RouteName, wanted: &[ClassName]) -> bool {
    desk.segments(route, wanted, Side::L).is_ok()
}

/// Prints what the calls of a desk for one kind of question answer of a route, a class and an asset, as `A1:SPEED:10`.
pub fn show_asked<K: Keeper>(rt: &HostRuntime, desk: &Desk<K>, words: &str) -> Option<()> {
    let (route, rest) = words.split_once(':')?;
    let (class, asset) = rest.split_once(':')?;
    let name = RouteName::new(route.as_bytes())?;
    let wanted = [ClassName::new(class.as_bytes())?];
    let asset = asset.parse::<u64>().ok()?;
    let holders = holders(desk, &name)?;
    let stretches = stretches(desk, asset)?;
    let totals = totalled(desk)?;
    let is_segmented = is_segmented(desk, &name, &wanted);
    println!(rt; "{holders} {stretches} {totals} {is_segmented}").ok()
}

/// Whether the totals of an image, counted over its lists, are these.
fn are_counted(rt: &HostRuntime, image: &Image, totals: &[Total]) -> bool
    requires { IsSound image.now }
{
    match totals_of_image(rt.alloc(), image) {
        Ok(counted) => counted.as_slice() == totals,
        Err(_) => false,
    }
}

/// Prints whether the totals of a desk, which it counts edit by edit, are those that are counted over the lists of its image.
fn show_counted<K: Keeper>(rt: &HostRuntime, desk: &Desk<K>, image: &Image)
    requires { IsSound image.now }
{
    if let Ok(totals) = desk.totals() {
        let agree = are_counted(rt, image, totals.as_slice());
        let _ = println!(rt; "{agree}");
    }
}

/// A keeper of a copy of what a desk knows; whether its totals agree is printed.
pub fn copy_of<K: Keeper>(rt: &HostRuntime, desk: &Desk<K>) -> Option<Plain> {
    let Ok(image) = desk.inventory().image(rt.alloc()) else {
        return None;
    };
    show_counted(rt, desk, &image);
    let copy = image.copy(rt.alloc()).ok()?;
    Plain::new(copy, rt.alloc()).ok()
}
