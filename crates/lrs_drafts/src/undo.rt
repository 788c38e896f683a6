//! What undoes edits, by their verbs.

use crate::asset_drafts::{lies_anywhere, write_retire};
use crate::fault::DraftFault;
use crate::former_desk::{do_edit, do_text, former_desk};
use crate::keys::SheetWriter;
use crate::lost_rows::write_lost_rows;
use crate::placement::{Placement, write_from};
use crate::positions::Extent;
use crate::returns::{undo_close, undo_realign};
use crate::undone_edit::{
    UNREAD, UndoneEdit, field, first_undone, referent_name, route_name, route_named,
};
use lrs_desk::{Desk, Plain};
use lrs_element::{Mark, Marks};
use lrs_image::ImageLists;
use lrs_machine::{AssetNumber, Chainage, Command, MarkList};
use lrs_position::{RefName, Referent, Route, RouteName};
use lrs_report_lists::edit_numbered;
use lrs_sheet::{copy_desk, discard_copy};
use lrs_sheet_records::{Verb, read_verb};
use std::alloc::{AllocError, Global};

const NO_EDIT: DraftFault = DraftFault::Impossible("there is no edit that could be undone");

const NOT_YET: DraftFault = DraftFault::Impossible(
    "there is no edit of this number or a later one",
);

const STAYS: DraftFault = DraftFault::Impossible(
    "a link or a class is never removed: leave it unused",
);

/// Marks as a command states them.
///
/// # Errors
/// When memory runs out.
pub(crate) fn mark_list(alloc: Global, marks: &Marks) -> Result<Option<MarkList>, AllocError> {
    let list = Vec::from_slice(alloc, marks.list())?;
    Ok(MarkList::new(list))
}

/// Adds the record that gives a route these marks.
pub(crate) fn write_marks(
    alloc: Global,
    sheet: &mut SheetWriter<'_>,
    route: &RouteName,
    marks: &Marks,
) -> Result<(), DraftFault> {
    match mark_list(alloc, marks)? {
        Some(marks) => {
            let command = Command::Recalibrate {
                route: *route,
                marks,
            };
            sheet.add(alloc, &command)
        }
        None => Err(UNREAD),
    }
}

/// A split is undone by a join: the measures of the second part go on where those of the first end.
fn join_of(line: &[u8]) -> Option<Command> {
    let first = route_name(line, 1)?;
    let second = route_name(line, 3)?;
    Some(Command::Join { first, second })
}

fn renumber_of(line: &[u8]) -> Option<Command> {
    let name = route_name(line, 1)?;
    let route = route_name(line, 2)?;
    Some(Command::Renumber { route, name })
}

fn turn_of(line: &[u8]) -> Option<Command> {
    let route = route_name(line, 1)?;
    Some(Command::Turn { route })
}

/// A new route is closed: nothing lies on it yet.
fn close_of(line: &[u8]) -> Option<Command> {
    let route = route_name(line, 1)?;
    Some(Command::Close { route })
}

fn unref_of(line: &[u8]) -> Option<Command> {
    let name = referent_name(line, 1)?;
    Some(Command::Unref { name })
}

/// Adds the record of a command, if there is one.
fn write_command(
    alloc: Global,
    sheet: &mut SheetWriter<'_>,
    command: Option<Command>,
) -> Result<(), DraftFault> {
    match &command {
        Some(command) => sheet.add(alloc, command),
        None => Err(UNREAD),
    }
}

fn first_measure(marks: &[Mark]) -> u64 {
    match marks {
        [first, ..] => first.measure,
        [] => 0,
    }
}

fn last_measure(marks: &[Mark]) -> u64 {
    match marks {
        [.., last] => last.measure,
        [] => 0,
    }
}

/// Whether the measures of a route go on where those of another end.
fn goes_on(first: &Route, second: &Route) -> bool {
    last_measure(first.marks.list()) == first_measure(second.marks.list())
}

/// A join is undone by a split where the second route began, which gets its measures back if they were moved.
fn undo_join(
    alloc: Global,
    sheet: &mut SheetWriter<'_>,
    edit: &UndoneEdit<'_>,
) -> Result<(), DraftFault> {
    let first = &route_named(edit.was, edit.line, 1)?.route;
    let second = &route_named(edit.was, edit.line, 2)?.route;
    let Some(at) = Chainage::new(first.length()) else {
        return Err(UNREAD);
    };
    let command = Command::Split {
        route: first.name,
        at,
        name: second.name,
    };
    sheet.add(alloc, &command)?;
    if goes_on(first, second) {
        return Ok(());
    }
    write_marks(alloc, sheet, &second.name, &second.marks)
}

fn undo_recalibrate(
    alloc: Global,
    sheet: &mut SheetWriter<'_>,
    edit: &UndoneEdit<'_>,
) -> Result<(), DraftFault> {
    let route = &route_named(edit.was, edit.line, 1)?.route;
    write_marks(alloc, sheet, &route.name, &route.marks)
}

/// A referent of a route that has another name.
fn other_referent<'a>(route: &'a Route, name: &RefName) -> Option<&'a Referent> {
    for referent in route.refs.as_slice() {
        if referent.name != *name {
            return Some(referent);
        }
    }
    None
}

/// Adds the record that sets a referent in its millimetre, if it stands on a route. Says whether it does.
fn write_referent_on(
    alloc: Global,
    sheet: &mut SheetWriter<'_>,
    was: &ImageLists,
    route: &Route,
    name: &RefName,
) -> Result<bool, DraftFault> {
    match route.referent(*name) {
        Some(from) => {
            let other = other_referent(route, name);
            let extent = Extent { from, to: None };
            let placement = Placement::Refer(name);
            write_from(alloc, sheet, was, other, placement, route, extent)?;
            Ok(true)
        }
        None => Ok(false),
    }
}

/// A referent that was removed is set where it stood.
fn undo_unref(
    alloc: Global,
    sheet: &mut SheetWriter<'_>,
    edit: &UndoneEdit<'_>,
) -> Result<(), DraftFault> {
    let Some(name) = referent_name(edit.line, 1) else {
        return Err(UNREAD);
    };
    for row in edit.was.routes.iter() {
        if write_referent_on(alloc, sheet, edit.was, &row.route, &name)? {
            return Ok(());
        }
    }
    Err(UNREAD)
}

/// Adds the records that undo what an edit did to routes and referents.
fn write_undone(
    alloc: Global,
    sheet: &mut SheetWriter<'_>,
    edit: &UndoneEdit<'_>,
) -> Result<(), DraftFault> {
    match read_verb(field(edit.line, 0)) {
        Some(Verb::Split) => write_command(alloc, sheet, join_of(edit.line)),
        Some(Verb::Join) => undo_join(alloc, sheet, edit),
        Some(Verb::Turn) => write_command(alloc, sheet, turn_of(edit.line)),
        Some(Verb::Renumber) => write_command(alloc, sheet, renumber_of(edit.line)),
        Some(Verb::Recalibrate) => undo_recalibrate(alloc, sheet, edit),
        Some(Verb::Route) => write_command(alloc, sheet, close_of(edit.line)),
        Some(Verb::Ref) => write_command(alloc, sheet, unref_of(edit.line)),
        Some(Verb::Unref) => undo_unref(alloc, sheet, edit),
        Some(Verb::Realign) => undo_realign(alloc, sheet, edit),
        Some(Verb::Close) => undo_close(alloc, sheet, edit),
        Some(Verb::Enter) | Some(Verb::Retire) | Some(Verb::Supersede) => Ok(()),
        Some(Verb::Link) | Some(Verb::Class) => Err(STAYS),
        None => Err(UNREAD),
    }
}

/// Adds the records by which the assets that an edit entered, or one behind it, give up all that they hold. They stay known.
fn write_new_retired(
    alloc: Global,
    sheet: &mut SheetWriter<'_>,
    kept: &ImageLists,
    first: u64,
) -> Result<(), DraftFault> {
    for asset in kept.assets.iter() {
        if asset.entered_by >= first && lies_anywhere(kept, asset.number) {
            let Some(number) = AssetNumber::new(asset.number) else {
                return Err(UNREAD);
            };
            write_retire(alloc, sheet, kept, number)?;
        }
    }
    Ok(())
}

/// The records that undo what an edit did to routes, with desks over what those before it made. The desks go on over what it
/// made too.
fn step_over<'a>(
    alloc: Global,
    sheet: &SheetWriter<'a>,
    kept: &ImageLists,
    edit: u64,
    was: &mut Desk<Plain>,
    now: &mut Desk<Plain>,
) -> Result<SheetWriter<'a>, DraftFault> {
    let Some(row) = edit_numbered(&kept.edits, edit) else {
        return Err(UNREAD);
    };
    do_edit(alloc, kept, edit, now)?;
    let mut records = sheet.blank(alloc);
    let undone = UndoneEdit {
        line: row.line.as_str().as_bytes(),
        was: was.inventory().kept(),
        now: now.inventory().kept(),
    };
    write_undone(alloc, &mut records, &undone)?;
    do_edit(alloc, kept, edit, was)?;
    Ok(records)
}

/// Adds the records that undo what the edits from the first one on did to routes, with desks over what those before it made:
/// those of the last edit come first. The desks go on over what all made.
fn write_steps(
    alloc: Global,
    sheet: &mut SheetWriter<'_>,
    kept: &ImageLists,
    first: u64,
    was: &mut Desk<Plain>,
    now: &mut Desk<Plain>,
) -> Result<(), DraftFault> {
    let end = (kept.edits.len() as u64).saturating_add(1);
    let mut undone = Vec::new(alloc);
    for edit in first..end {
        let records = step_over(alloc, sheet, kept, edit, was, now)?;
        undone.push(records)?;
    }
    for records in undone.iter().rev() {
        sheet.append(alloc, records)?;
    }
    Ok(())
}

/// The same, with one desk: another one is a copy of it for a while.
fn write_routes_undone(
    alloc: Global,
    sheet: &mut SheetWriter<'_>,
    kept: &ImageLists,
    first: u64,
    desk: &mut Desk<Plain>,
) -> Result<(), DraftFault> {
    match copy_desk(alloc, desk) {
        Ok(copy) => {
            let mut now = copy;
            let written = write_steps(alloc, sheet, kept, first, desk, &mut now);
            discard_copy(now);
            written
        }
        Err(AllocError) => Err(DraftFault::Memory),
    }
}

/// Adds the records that enter anew what assets lost by the edits from the first one on: what they hold no more when the
/// records so far are done at a desk over what all edits made.
fn write_assets_undone(
    alloc: Global,
    sheet: &mut SheetWriter<'_>,
    kept: &ImageLists,
    first: u64,
    number: Option<AssetNumber>,
    desk: &mut Desk<Plain>,
) -> Result<(), DraftFault> {
    let text = sheet.text(alloc)?;
    do_text(alloc, text.as_slice(), desk)?;
    let former = former_desk(alloc, kept, first)?;
    let was = former.inventory().kept();
    let written = write_lost_rows(alloc, sheet, was, desk.inventory().kept(), number);
    discard_copy(former);
    written
}

/// Adds the records that undo the edits from the first one on, but for those by which assets go, with a desk over what those
/// before it made.
fn write_all_undone(
    alloc: Global,
    sheet: &mut SheetWriter<'_>,
    kept: &ImageLists,
    first: u64,
    number: Option<AssetNumber>,
    desk: &mut Desk<Plain>,
) -> Result<(), DraftFault> {
    write_routes_undone(alloc, sheet, kept, first, desk)?;
    write_assets_undone(alloc, sheet, kept, first, number, desk)
}

/// Adds the records that undo an edit and all behind it, or the last edit alone. First go the assets that they entered, then
/// routes are put back, and at last assets that they took away are entered anew, with numbers from `number` on.
///
/// # Errors
/// `Impossible` where there is no such edit, or one cannot be undone, and `Memory`.
pub(crate) fn write_undo(
    alloc: Global,
    sheet: &mut SheetWriter<'_>,
    kept: &ImageLists,
    from: Option<u64>,
    number: Option<AssetNumber>,
) -> Result<(), DraftFault> {
    let Some(first) = first_undone(kept, from) else {
        return match from {
            Some(_) => Err(NOT_YET),
            None => Err(NO_EDIT),
        };
    };
    write_new_retired(alloc, sheet, kept, first)?;
    let mut desk = former_desk(alloc, kept, first)?;
    let written = write_all_undone(alloc, sheet, kept, first, number, &mut desk);
    discard_copy(desk);
    written
}
