//! What an edit sheet would change in assets and routes, in a line for people.

use lrs_difference::{HeldRow, only_held, referents_by_name};
use lrs_events::Side;
use lrs_inventory::Inventory;
use lrs_measure::Metres;
use lrs_ordered::Chunked;
use lrs_position::{RefName, Route};
use std::alloc::{AllocError, Global};
use std::io;
use std::io::Write;
use std::rt::Runtime;

// The most names of referents that are told.
const MOST_NAMED: usize = 10;

// The assets that hold less after the sheet than before it, and what they give up.
#[derive(Clone, Copy)]
struct Losses {
    // the assets that hold nothing more, and those that still hold something
    wholly: u64,
    in_part: u64,
    // of both, those of which a command of the sheet took something, and those that lost it with its ground
    retired: u64,
    abandoned: u64,
    // the millimetres of all sides together
    sides: u64,
}

// The assets from before that hold more after the sheet, and the millimetres of all sides that they gain.
#[derive(Clone, Copy)]
struct Gains {
    assets: u64,
    sides: u64,
}

// How many routes there are of each kind that differ. A longer or shorter one has other pieces and marks as well.
#[derive(Clone, Copy)]
struct RouteCounts {
    new: u64,
    longer: u64,
    shorter: u64,
    closed: u64,
    rerouted: u64,
    recalibrated: u64,
}

impl Losses {
    fn none() -> Losses {
        Losses {
            wholly: 0,
            in_part: 0,
            retired: 0,
            abandoned: 0,
            sides: 0,
        }
    }

    fn count(&mut self, still_holds: bool, is_retired: bool) {
        if still_holds {
            self.in_part = self.in_part.saturating_add(1);
        } else {
            self.wholly = self.wholly.saturating_add(1);
        }
        if is_retired {
            self.retired = self.retired.saturating_add(1);
        } else {
            self.abandoned = self.abandoned.saturating_add(1);
        }
    }
}

impl RouteCounts {
    fn none() -> RouteCounts {
        RouteCounts {
            new: 0,
            longer: 0,
            shorter: 0,
            closed: 0,
            rerouted: 0,
            recalibrated: 0,
        }
    }

    // Counts a route that there was before the sheet too.
    fn compare(&mut self, before: &Route, after: &Route) {
        let length = before.length();
        let new_length = after.length();
        if length < new_length {
            self.longer = self.longer.saturating_add(1);
        } else if new_length < length {
            self.shorter = self.shorter.saturating_add(1);
        } else if before.course.pieces() != after.course.pieces() {
            self.rerouted = self.rerouted.saturating_add(1);
        } else if before.marks.list() != after.marks.list() {
            self.recalibrated = self.recalibrated.saturating_add(1);
        }
    }
}

// The millimetres that a row has, both sides counted.
fn sides_of(row: &HeldRow) -> u64 {
    let length = u64::from(row.stretch.to.saturating_sub(row.stretch.from));
    match row.stretch.side {
        Side::B => length.saturating_mul(2),
        Side::L | Side::R => length,
    }
}

// The number of an asset for each row that it has in an inventory, in order.
fn holders(alloc: Global, inventory: &Inventory) -> Result<Vec<u64>, AllocError> {
    let mut numbers = Vec::new(alloc);
    for route_row in inventory.kept().routes.iter() {
        for row in route_row.spans.rows() {
            numbers.push(row.asset)?;
        }
    }
    numbers.sort_unstable();
    Ok(numbers)
}

// The numbers of the assets of which a command behind the first edits took something, in order.
fn retired_behind(
    alloc: Global,
    inventory: &Inventory,
    edits: u64,
) -> Result<Vec<u64>, AllocError> {
    let mut numbers = Vec::new(alloc);
    for gone in inventory.kept().gone.as_slice() {
        if gone.part.edit > edits && !gone.abandoned {
            numbers.push(gone.part.asset)?;
        }
    }
    numbers.sort_unstable();
    Ok(numbers)
}

fn has_number(numbers: &[u64], number: u64) -> bool {
    numbers.binary_search(&number).is_ok()
}

// What is taken by these rows, which are in the order of their assets.
fn losses_by(rows: &Chunked<HeldRow>, holders: &[u64], retired: &[u64]) -> Losses {
    let mut losses = Losses::none();
    // no asset has the number 0
    let mut last = 0;
    for row in rows.iter() {
        let number = row.asset.number;
        if number != last {
            losses.count(has_number(holders, number), has_number(retired, number));
        }
        losses.sides = losses.sides.saturating_add(sides_of(row));
        last = number;
    }
    losses
}

fn losses_of(alloc: Global, before: &Inventory, after: &Inventory) -> Result<Losses, AllocError> {
    let rows = only_held(alloc, before.kept(), after.kept())?;
    let holders = holders(alloc, after)?;
    let retired = retired_behind(alloc, after, before.edits())?;
    Ok(losses_by(&rows, holders.as_slice(), retired.as_slice()))
}

// What is given by these rows, which are in the order of their assets.
fn gains_by(rows: &Chunked<HeldRow>, before: &Inventory) -> Gains {
    let mut gains = Gains {
        assets: 0,
        sides: 0,
    };
    let mut last = 0;
    for row in rows.iter() {
        let number = row.asset.number;
        if before.asset(number).is_some() {
            if number != last {
                gains.assets = gains.assets.saturating_add(1);
            }
            gains.sides = gains.sides.saturating_add(sides_of(row));
        }
        last = number;
    }
    gains
}

fn gains_of(alloc: Global, before: &Inventory, after: &Inventory) -> Result<Gains, AllocError> {
    let rows = only_held(alloc, after.kept(), before.kept())?;
    Ok(gains_by(&rows, before))
}

// The names of the referents that the one inventory has and the other has not, or has at another place.
fn lacking_referents(
    alloc: Global,
    one: &Inventory,
    other: &Inventory,
) -> Result<Vec<RefName>, AllocError> {
    let referents = referents_by_name(alloc, one.kept())?;
    let mut names = Vec::new(alloc);
    for referent in referents.iter() {
        if other.referent(&referent.name) != Some((referent.link, referent.mm)) {
            names.push(referent.name)?;
        }
    }
    Ok(names)
}

// Counts the routes that there are after the sheet.
fn count_routes(counts: &mut RouteCounts, before: &Inventory, after: &Inventory) {
    for row in after.kept().routes.iter() {
        match before.route(&row.route.name) {
            Some(old_row) => counts.compare(&old_row.route, &row.route),
            None => counts.new = counts.new.saturating_add(1),
        }
    }
}

// Counts the routes that there are no longer.
fn count_closed(counts: &mut RouteCounts, before: &Inventory, after: &Inventory) {
    for row in before.kept().routes.iter() {
        if after.route(&row.route.name).is_none() {
            counts.closed = counts.closed.saturating_add(1);
        }
    }
}

fn route_counts(before: &Inventory, after: &Inventory) -> RouteCounts {
    let mut counts = RouteCounts::none();
    count_routes(&mut counts, before, after);
    count_closed(&mut counts, before, after);
    counts
}

// Begins a part of the line.
fn begin_part(said: &mut Vec<u8>) -> io::Result<()> {
    if said.is_empty() {
        said.write_all(b"changes: ")
    } else {
        said.write_all(b"; ")
    }
}

fn noun(count: u64, one: &'static str, more: &'static str) -> &'static str {
    if count == 1 { one } else { more }
}

// `5 assets wholly and 4 in part`
fn say_how_far(said: &mut Vec<u8>, losses: Losses) -> io::Result<()> {
    let Losses {
        wholly,
        in_part,
        ..
    } = losses;
    if wholly == 0 {
        let assets = noun(in_part, "asset", "assets");
        return write!(said, "{in_part} {assets} in part");
    }
    let assets = noun(wholly, "asset", "assets");
    write!(said, "{wholly} {assets} wholly")?;
    if in_part > 0 {
        write!(said, " and {in_part} in part")?;
    }
    Ok(())
}

// `takes 5 assets wholly and 4 in part (2 retired, 7 abandoned), 18204.113 m of sides`
fn say_losses(said: &mut Vec<u8>, losses: Losses) -> io::Result<()> {
    if losses.wholly == 0 && losses.in_part == 0 {
        return Ok(());
    }
    begin_part(said)?;
    said.write_all(b"takes ")?;
    say_how_far(said, losses)?;
    let Losses {
        retired,
        abandoned,
        ..
    } = losses;
    if retired > 0 && abandoned > 0 {
        write!(said, " ({retired} retired, {abandoned} abandoned)")?;
    }
    let length = Metres::new(losses.sides);
    write!(said, ", {length} m of sides")
}

// `gives 3 assets more, 120.000 m of sides`
fn say_gains(said: &mut Vec<u8>, gains: Gains) -> io::Result<()> {
    if gains.assets == 0 {
        return Ok(());
    }
    begin_part(said)?;
    let count = gains.assets;
    let assets = noun(count, "asset", "assets");
    let length = Metres::new(gains.sides);
    write!(said, "gives {count} {assets} more, {length} m of sides")
}

// `enters 12 assets`, `adds 2 links`: how many more of a kind there are after the sheet.
fn say_more(
    said: &mut Vec<u8>,
    verb: &'static str,
    before: u64,
    after: u64,
    one: &'static str,
    more: &'static str,
) -> io::Result<()> {
    let count = after.saturating_sub(before);
    if count == 0 {
        return Ok(());
    }
    begin_part(said)?;
    let things = noun(count, one, more);
    write!(said, "{verb} {count} {things}")
}

fn say_names(said: &mut Vec<u8>, names: &[RefName]) -> io::Result<()> {
    let told = names.len().min(MOST_NAMED);
    for place in 0..told {
        let comma = if place == 0 { "" } else { "," };
        let name = names[place];
        write!(said, "{comma} {name}")?;
    }
    let more = names.len() - told;
    if more > 0 {
        write!(said, " and {more} more")?;
    }
    Ok(())
}

// `removes referents A1K18, A1K19, A1K20`
fn say_referents(said: &mut Vec<u8>, verb: &'static str, names: &[RefName]) -> io::Result<()> {
    if names.is_empty() {
        return Ok(());
    }
    begin_part(said)?;
    let referents = noun(names.len() as u64, "referent", "referents");
    write!(said, "{verb} {referents}")?;
    say_names(said, names)
}

// A count of routes, where there are any. Says whether one was told, before it or here.
fn say_count(
    said: &mut Vec<u8>,
    is_first: bool,
    count: u64,
    kind: &'static str,
) -> io::Result<bool> {
    if count == 0 {
        return Ok(is_first);
    }
    if is_first {
        begin_part(said)?;
    }
    let front = if is_first { "routes:" } else { "," };
    write!(said, "{front} {count} {kind}")?;
    Ok(false)
}

// `routes: 1 new, 2 longer`
fn say_routes(said: &mut Vec<u8>, counts: RouteCounts) -> io::Result<()> {
    let mut is_first = true;
    is_first = say_count(said, is_first, counts.new, "new")?;
    is_first = say_count(said, is_first, counts.longer, "longer")?;
    is_first = say_count(said, is_first, counts.shorter, "shorter")?;
    is_first = say_count(said, is_first, counts.closed, "closed")?;
    is_first = say_count(said, is_first, counts.rerouted, "with other pieces")?;
    say_count(said, is_first, counts.recalibrated, "recalibrated")?;
    Ok(())
}

fn say_assets(
    alloc: Global,
    said: &mut Vec<u8>,
    before: &Inventory,
    after: &Inventory,
) -> io::Result<()> {
    say_losses(said, losses_of(alloc, before, after)?)?;
    say_gains(said, gains_of(alloc, before, after)?)?;
    say_more(
        said,
        "enters",
        before.assets(),
        after.assets(),
        "asset",
        "assets",
    )
}

fn say_all_referents(
    alloc: Global,
    said: &mut Vec<u8>,
    before: &Inventory,
    after: &Inventory,
) -> io::Result<()> {
    let removed = lacking_referents(alloc, before, after)?;
    say_referents(said, "removes", removed.as_slice())?;
    let added = lacking_referents(alloc, after, before)?;
    say_referents(said, "adds", added.as_slice())
}

fn say_ground(said: &mut Vec<u8>, before: &Inventory, after: &Inventory) -> io::Result<()> {
    say_routes(said, route_counts(before, after))?;
    say_more(said, "adds", before.links(), after.links(), "link", "links")?;
    let classes = before.kept().classes.len() as u64;
    let new_classes = after.kept().classes.len() as u64;
    say_more(said, "adds", classes, new_classes, "class", "classes")
}

// Ends the line. Where it has no part, it tells of more edits, if there are any.
fn end_line(said: &mut Vec<u8>, before: &Inventory, after: &Inventory) -> io::Result<()> {
    if !said.is_empty() {
        return said.write_all(b"\n");
    }
    if after.edits() > before.edits() {
        return said.write_all(b"changes nothing but the log\n");
    }
    Ok(())
}

fn say_changes(
    alloc: Global,
    said: &mut Vec<u8>,
    before: &Inventory,
    after: &Inventory,
) -> io::Result<()> {
    say_assets(alloc, said, before, after)?;
    say_all_referents(alloc, said, before, after)?;
    say_ground(said, before, after)?;
    end_line(said, before, after)
}

/// Says on standard error, in one line, what an edit sheet changes in assets, referents, routes, links and classes: the
/// first inventory is the one before it, and the second the one after it. Lengths are in metres, and both sides count.
/// Where nothing of these differs, that is told if there are more edits, and else nothing. Where standard error takes
/// nothing, or memory runs out, nothing is told.
pub(crate) fn tell_changes<R: Runtime<A = Global>>(rt: &R, before: &Inventory, after: &Inventory) {
    let mut said = Vec::new(rt.alloc());
    if say_changes(rt.alloc(), &mut said, before, after).is_ok() {
        if let Ok(text) = str::from_utf8(said.as_slice()) {
            let _ = eprint!(rt; "{text}");
        }
    }
}
