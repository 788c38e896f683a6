//! What gives routes back the ground that an edit took away.

use crate::fault::DraftFault;
use crate::keys::SheetWriter;
use crate::placement::{Placement, write_from};
use crate::positions::Extent;
use crate::undo::mark_list;
use crate::undone_edit::{UNREAD, UndoneEdit, chainage, route_named};
use lrs_element::Course;
use lrs_image::ImageLists;
use lrs_machine::{Chainage, Command, PieceList};
use lrs_position::{Referent, Route};
use std::alloc::{AllocError, Global};

/// A referent of a route that stands on it still.
fn remaining_referent<'a>(was: &'a Route, now: &Route) -> Option<&'a Referent> {
    for referent in was.refs.as_slice() {
        if now.referent(referent.name).is_some() {
            return Some(referent);
        }
    }
    None
}

/// Adds the records of the referents of a route that stand between two chainages, from one that stands there still.
fn write_referents(
    alloc: Global,
    sheet: &mut SheetWriter<'_>,
    was: &ImageLists,
    route: &Route,
    remaining: Option<&Referent>,
    from: u64,
    to: u64,
) -> Result<(), DraftFault> {
    for referent in route.refs.as_slice() {
        if from <= referent.at && referent.at < to {
            let extent = Extent {
                from: referent.at,
                to: None,
            };
            let placement = Placement::Refer(&referent.name);
            write_from(alloc, sheet, was, remaining, placement, route, extent)?;
        }
    }
    Ok(())
}

/// The pieces of a course, as a command states them; none where it is empty.
fn piece_list(alloc: Global, course: &Course) -> Result<Option<PieceList>, AllocError> {
    let pieces = Vec::from_slice(alloc, course.pieces())?;
    Ok(PieceList::new(pieces))
}

/// The course before a chainage, or all of it.
fn course_before(course: &Course, at: u64) -> Result<Course, AllocError> {
    let (front, _) = course.cut(at.min(course.len()))?;
    Ok(front)
}

/// The course from a chainage on.
fn course_from(course: &Course, at: u64) -> Result<Course, AllocError> {
    let (_, rear) = course.cut(at.min(course.len()))?;
    Ok(rear)
}

/// The pieces of a course from one chainage up to another; none where there are no millimetres.
fn pieces_between(
    alloc: Global,
    course: &Course,
    from: u64,
    to: u64,
) -> Result<Option<PieceList>, AllocError> {
    let front = course_before(course, to)?;
    let part = course_from(&front, from)?;
    piece_list(alloc, &part)
}

/// Adds the record that puts the ground of a route back between two chainages: what came in its place ends as far from the
/// route's end as the old ground did.
fn write_realigned(
    alloc: Global,
    sheet: &mut SheetWriter<'_>,
    was: &Route,
    now: &Route,
    from: u64,
    to: u64,
) -> Result<(), DraftFault> {
    let behind = was.length().saturating_sub(to);
    let end = now.length().saturating_sub(behind);
    let Some(begin) = Chainage::new(from) else {
        return Err(UNREAD);
    };
    let Some(end) = Chainage::new(end) else {
        return Err(UNREAD);
    };
    let Some(marks) = mark_list(alloc, &was.marks)? else {
        return Err(UNREAD);
    };
    let pieces = pieces_between(alloc, &was.course, from, to)?;
    let command = Command::Realign {
        route: was.name,
        from: begin,
        to: end,
        pieces,
        marks,
    };
    sheet.add(alloc, &command)
}

/// The route gets its ground back, and the referents that left with it are set.
pub(crate) fn undo_realign(
    alloc: Global,
    sheet: &mut SheetWriter<'_>,
    edit: &UndoneEdit<'_>,
) -> Result<(), DraftFault> {
    let from = chainage(edit.line, 2)?;
    let to = chainage(edit.line, 3)?;
    let row = route_named(edit.was, edit.line, 1)?;
    let now = route_named(edit.now, edit.line, 1)?;
    write_realigned(alloc, sheet, &row.route, &now.route, from, to)?;
    let remaining = remaining_referent(&row.route, &now.route);
    write_referents(alloc, sheet, edit.was, &row.route, remaining, from, to)
}

/// Adds the record that makes a route as it was.
fn write_route(
    alloc: Global,
    sheet: &mut SheetWriter<'_>,
    route: &Route,
) -> Result<(), DraftFault> {
    let Some(pieces) = piece_list(alloc, &route.course)? else {
        return Err(UNREAD);
    };
    let Some(marks) = mark_list(alloc, &route.marks)? else {
        return Err(UNREAD);
    };
    let command = Command::Route {
        name: route.name,
        pieces,
        marks,
    };
    sheet.add(alloc, &command)
}

/// The route is made anew, with its referents.
pub(crate) fn undo_close(
    alloc: Global,
    sheet: &mut SheetWriter<'_>,
    edit: &UndoneEdit<'_>,
) -> Result<(), DraftFault> {
    let row = route_named(edit.was, edit.line, 1)?;
    let end = row.route.length();
    write_route(alloc, sheet, &row.route)?;
    write_referents(alloc, sheet, edit.was, &row.route, None, 0, end)
}
