//! The parts of routes on which an asset lies, put together to one route for a while: a new asset is entered over one stretch,
//! and can so come to lie on several. The routes are put back as they were.

use crate::asset_drafts::{HOLDS_NOTHING, lies_on, route_in};
use crate::fault::DraftFault;
use crate::keys::SheetWriter;
use crate::placement::{Entry, Placement, command_at};
use crate::positions::whole_route;
use crate::undo::write_marks;
use lrs_element::Mark;
use lrs_events::{Kind, Side, Span};
use lrs_image::ImageLists;
use lrs_machine::{AssetNumber, Chainage, Command, MarkList, RouteRow};
use lrs_position::{Route, RouteName};
use std::alloc::{AllocError, Global};

/// The most names that are tried for parts of routes.
const MOST_NAMES: u32 = 1_000_000;

const NO_NAME: DraftFault = DraftFault::Impossible("no name is free for a part of a route");

const ON_SIDES: DraftFault = DraftFault::Impossible(
    "the asset lies on both sides here and on one there, and a new one lies on one side or both: retire it and enter one for each",
);

const TOO_LONG: DraftFault = DraftFault::Impossible(
    "the asset lies on more than one route can have: retire it and enter several",
);

/// A row of the asset on a route: the part of the route under it, and the rest behind it up to `end`, under names that are
/// free. Chainages are in millimetres, as the route has them before it is cut.
#[derive(Clone, Copy)]
struct Cut {
    route: RouteName,
    part: RouteName,
    rest: RouteName,
    from: u64,
    to: u64,
    end: u64,
    turns: bool,
}

/// The first name from a number on that no route has, and the number behind its own.
fn free_name(
    alloc: Global,
    kept: &ImageLists,
    first: u32,
) -> Result<Option<(RouteName, u32)>, AllocError> {
    for number in first..MOST_NAMES {
        let text = format!(in alloc; "DRAFT{number}")?;
        if let Some(name) = RouteName::new(text.as_str().as_bytes()) {
            if route_in(kept, &name).is_none() {
                return Ok(Some((name, number.saturating_add(1))));
            }
        }
    }
    Ok(None)
}

/// Whether one side is wanted and a row is on both, or the other way round.
fn are_at_odds(wanted: Side, side: Side) -> bool {
    (wanted == Side::B) != (side == Side::B)
}

/// The cut for a row, where the route ends at `end` or is cut there: its part is turned where the asset is to lie on the other
/// side of it.
fn cut_of(
    alloc: Global,
    kept: &ImageLists,
    route: &Route,
    row: &Span,
    end: u64,
    wanted: Side,
    first: u32,
) -> Result<Option<(Cut, u32)>, AllocError> {
    let Some((part, second)) = free_name(alloc, kept, first)? else {
        return Ok(None);
    };
    let Some((rest, next)) = free_name(alloc, kept, second)? else {
        return Ok(None);
    };
    let cut = Cut {
        route: route.name,
        part,
        rest,
        from: row.from,
        to: row.to,
        end,
        turns: wanted != row.side,
    };
    Ok(Some((cut, next)))
}

/// The start of the next row of the asset behind a chainage, or the end of the route.
fn next_start(row: &RouteRow, asset: u64, at: u64) -> u64 {
    for span in row.spans.rows() {
        if span.asset == asset && span.from >= at {
            return span.from;
        }
    }
    row.route.length()
}

/// Adds the cuts for the rows of the asset on a route, in the order of the route.
fn push_cuts(
    alloc: Global,
    cuts: &mut Vec<Cut>,
    kept: &ImageLists,
    row: &RouteRow,
    asset: u64,
    wanted: Side,
    first: u32,
) -> Result<u32, DraftFault> {
    let mut next = first;
    for span in row.spans.rows() {
        if span.asset == asset {
            if are_at_odds(wanted, span.side) {
                return Err(ON_SIDES);
            }
            let end = next_start(row, asset, span.to);
            let Some((cut, number)) = cut_of(alloc, kept, &row.route, span, end, wanted, next)?
            else {
                return Err(NO_NAME);
            };
            cuts.push(cut)?;
            next = number;
        }
    }
    Ok(next)
}

/// The cuts for all rows of the asset, route by route.
fn all_cuts(
    alloc: Global,
    kept: &ImageLists,
    asset: u64,
    wanted: Side,
) -> Result<Vec<Cut>, DraftFault> {
    let mut cuts = Vec::new(alloc);
    let mut next = 1;
    for row in kept.routes.iter() {
        next = push_cuts(alloc, &mut cuts, kept, row, asset, wanted, next)?;
    }
    Ok(cuts)
}

/// Adds the record that splits a route.
fn write_split(
    alloc: Global,
    sheet: &mut SheetWriter<'_>,
    route: &RouteName,
    at: u64,
    name: &RouteName,
) -> Result<(), DraftFault> {
    let Some(at) = Chainage::new(at) else {
        return Err(TOO_LONG);
    };
    let command = Command::Split {
        route: *route,
        at,
        name: *name,
    };
    sheet.add(alloc, &command)
}

/// Adds the record that joins two routes.
fn write_join(
    alloc: Global,
    sheet: &mut SheetWriter<'_>,
    first: &RouteName,
    second: &RouteName,
) -> Result<(), DraftFault> {
    let command = Command::Join {
        first: *first,
        second: *second,
    };
    sheet.add(alloc, &command)
}

/// Adds the record that gives a route another name.
fn write_renumbered(
    alloc: Global,
    sheet: &mut SheetWriter<'_>,
    route: &RouteName,
    name: &RouteName,
) -> Result<(), DraftFault> {
    let command = Command::Renumber {
        route: *route,
        name: *name,
    };
    sheet.add(alloc, &command)
}

/// Adds the record that turns a part that is to be turned.
fn write_turned(alloc: Global, sheet: &mut SheetWriter<'_>, cut: &Cut) -> Result<(), DraftFault> {
    if !cut.turns {
        return Ok(());
    }
    let command = Command::Turn { route: cut.part };
    sheet.add(alloc, &command)
}

/// Adds the records that cut a part out of its route.
fn write_cut(alloc: Global, sheet: &mut SheetWriter<'_>, cut: &Cut) -> Result<(), DraftFault> {
    if cut.to < cut.end {
        write_split(alloc, sheet, &cut.route, cut.to, &cut.rest)?;
    }
    if cut.from > 0 {
        write_split(alloc, sheet, &cut.route, cut.from, &cut.part)?;
    } else {
        write_renumbered(alloc, sheet, &cut.route, &cut.part)?;
    }
    write_turned(alloc, sheet, cut)
}

/// Adds the records that put a part back into its route.
fn write_put_back(alloc: Global, sheet: &mut SheetWriter<'_>, cut: &Cut) -> Result<(), DraftFault> {
    write_turned(alloc, sheet, cut)?;
    if cut.from > 0 {
        write_join(alloc, sheet, &cut.route, &cut.part)?;
    } else {
        write_renumbered(alloc, sheet, &cut.part, &cut.route)?;
    }
    if cut.to < cut.end {
        return write_join(alloc, sheet, &cut.route, &cut.rest);
    }
    Ok(())
}

/// Adds a mark at a chainage, with the chainage as its measure, unless the last one stands there.
fn push_mark(marks: &mut Vec<Mark>, at: u64) -> Result<(), AllocError> {
    let is_there = match marks.as_slice() {
        [.., last] => last.chainage >= at,
        [] => false,
    };
    if !is_there {
        marks.push(Mark {
            chainage: at,
            measure: at,
        })?;
    }
    Ok(())
}

/// Marks at which a route can be cut for the rows of the asset.
fn cut_marks(alloc: Global, row: &RouteRow, asset: u64) -> Result<Vec<Mark>, AllocError> {
    let mut marks = Vec::new(alloc);
    push_mark(&mut marks, 0)?;
    for span in row.spans.rows() {
        if span.asset == asset {
            push_mark(&mut marks, span.from)?;
            push_mark(&mut marks, span.to)?;
        }
    }
    push_mark(&mut marks, row.route.length())?;
    Ok(marks)
}

/// Adds the record that gives a route marks at which it can be cut.
fn write_cut_marks(
    alloc: Global,
    sheet: &mut SheetWriter<'_>,
    row: &RouteRow,
    asset: u64,
) -> Result<(), DraftFault> {
    let marks = cut_marks(alloc, row, asset)?;
    match MarkList::new(marks) {
        Some(marks) => {
            let command = Command::Recalibrate {
                route: row.route.name,
                marks,
            };
            sheet.add(alloc, &command)
        }
        None => Err(TOO_LONG),
    }
}

/// Adds the records that cut all parts out of their routes: of one route the last first, so that chainages before it stay.
fn write_cuts(
    alloc: Global,
    sheet: &mut SheetWriter<'_>,
    kept: &ImageLists,
    asset: u64,
    cuts: &[Cut],
) -> Result<(), DraftFault> {
    for row in kept.routes.iter() {
        if lies_on(row, asset) {
            write_cut_marks(alloc, sheet, row, asset)?;
        }
    }
    for cut in cuts.iter().rev() {
        write_cut(alloc, sheet, cut)?;
    }
    Ok(())
}

/// Adds the records that put all parts back into their routes, and give these their marks.
fn write_all_put_back(
    alloc: Global,
    sheet: &mut SheetWriter<'_>,
    kept: &ImageLists,
    asset: u64,
    cuts: &[Cut],
) -> Result<(), DraftFault> {
    for cut in cuts {
        write_put_back(alloc, sheet, cut)?;
    }
    for row in kept.routes.iter() {
        if lies_on(row, asset) {
            write_marks(alloc, sheet, &row.route.name, &row.route.marks)?;
        }
    }
    Ok(())
}

/// Adds the records that join other parts to a part.
fn write_joined(
    alloc: Global,
    sheet: &mut SheetWriter<'_>,
    whole: &RouteName,
    others: &[Cut],
) -> Result<(), DraftFault> {
    for cut in others {
        write_join(alloc, sheet, whole, &cut.part)?;
    }
    Ok(())
}

/// How long a part is, in millimetres.
fn length_of(cut: &Cut) -> u64 {
    cut.to.saturating_sub(cut.from)
}

/// How long parts are together, in millimetres.
fn length_together(cuts: &[Cut]) -> u64 {
    let mut length = 0u64;
    for cut in cuts {
        length = length.saturating_add(length_of(cut));
    }
    length
}

/// Adds the records that split other parts from a part again, the last first.
fn write_parted(
    alloc: Global,
    sheet: &mut SheetWriter<'_>,
    whole: &Cut,
    others: &[Cut],
) -> Result<(), DraftFault> {
    let mut at = length_of(whole).saturating_add(length_together(others));
    for cut in others.iter().rev() {
        at = at.saturating_sub(length_of(cut));
        write_split(alloc, sheet, &whole.part, at, &cut.part)?;
    }
    Ok(())
}

/// Adds the records by which an asset is entered over a whole route, in the place of another.
fn write_exchanged(
    alloc: Global,
    sheet: &mut SheetWriter<'_>,
    asset: &AssetNumber,
    entry: &Entry,
    kind: Kind,
    route: &RouteName,
) -> Result<(), DraftFault> {
    let Some(location) = whole_route() else {
        return Err(TOO_LONG);
    };
    if kind == Kind::Exclusive {
        let command = command_at(Placement::Supersede(entry), route, &location);
        return sheet.add(alloc, &command);
    }
    let retired = command_at(Placement::Retire(asset), route, &location);
    sheet.add(alloc, &retired)?;
    let entered = command_at(Placement::Enter(entry), route, &location);
    sheet.add(alloc, &entered)
}

/// Adds the records by which an asset is entered on the parts under another one, which are put together and parted again.
fn write_on_parts(
    alloc: Global,
    sheet: &mut SheetWriter<'_>,
    asset: &AssetNumber,
    entry: &Entry,
    kind: Kind,
    cuts: &[Cut],
) -> Result<(), DraftFault> {
    match cuts {
        [whole, others @ ..] => {
            write_joined(alloc, sheet, &whole.part, others)?;
            write_exchanged(alloc, sheet, asset, entry, kind, &whole.part)?;
            write_parted(alloc, sheet, whole, others)
        }
        [] => Err(HOLDS_NOTHING),
    }
}

/// Adds the records by which an asset of stretches is entered wherever another one lies, in its place. The side of the entry
/// is that of the first row.
///
/// # Errors
/// `Impossible` where the asset lies on both sides here and on one there, and those of the sheet.
pub(crate) fn write_entered_everywhere(
    alloc: Global,
    sheet: &mut SheetWriter<'_>,
    kept: &ImageLists,
    asset: &AssetNumber,
    entry: &Entry,
    kind: Kind,
) -> Result<(), DraftFault> {
    let number = asset.get();
    let cuts = all_cuts(alloc, kept, number, entry.side)?;
    write_cuts(alloc, sheet, kept, number, cuts.as_slice())?;
    write_on_parts(alloc, sheet, asset, entry, kind, cuts.as_slice())?;
    write_all_put_back(alloc, sheet, kept, number, cuts.as_slice())
}
