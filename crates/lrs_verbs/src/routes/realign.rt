//! A stretch of a route gets other ground.

ghost use Rattle.std.specs.Prelude.{◌≡◌, ◌+◌, ◌≤◌, IsTrue, IfOk, Some, [], true, length, map, nat_lt, slice_range, unwrap_or};
ghost use Rattle.std.specs.List.{list_all, AllByRecursion};
ghost use Rattle.lrs_inventory.specs.Prelude.{each_two, course_of, longest_route, IsFilled, differs, end_by, state_of};
ghost use Rattle.lrs_machine.specs.declared.command.Command.TheVariants as verb;
ghost use Rattle.lrs_image_laws.specs.Realignments.{replaced};
ghost use Rattle.lrs_verbs.specs.RouteVerbs.Realignments.{check_stretch, free_course, short_course, new_line, refs_on, on_from, referents_moved, realigned_plan, IsOnNewLine};
ghost use Rattle.lrs_verbs.specs.RouteVerbs.Splits.{refs_behind};
ghost use Rattle.lrs_inventory.specs.Plans.{Answers, Plans};

use crate::routes::realigned_rows::{RealignedRows, plan_rows};
use crate::routes::split::names_behind;
use lrs_element::{Course, JoinFault, Mark, Marks, Piece};
use lrs_events::Gone;
use lrs_image::{ReferentChange, RouteChange};
use lrs_image_laws::taken_away;
use lrs_inventory::checks::{check_free, new_marks, route_named};
use lrs_inventory::route_changes::{changed, pieces_of, rerouted};
use lrs_inventory::{GroundChange, Inventory, Plan, Stop, refuse_if};
use lrs_machine::{Cause, PieceList, RouteRow};
use lrs_measure::Rows;
use lrs_position::{RefName, Referent, RouteName};
use std::alloc::{AllocError, Global};

/// What a realignment of a stretch of a route would change of an inventory.
///
/// # Errors
/// The first check of the verb that fails, or lack of memory.
pub fn plan_realign(
    alloc: Global,
    inventory: &Inventory,
    route: RouteName,
    from: u64,
    to: u64,
    pieces: &Option<PieceList>,
    marks: &[Mark],
) -> Result<Plan, Stop>
    ensures { Plans (verb.Realign route from to pieces.now marks.now) inventory.now result }
{
    inventory.prove_sound();
    let route_row = route_named(inventory, &route)?;
    let pieces = given(pieces);
    check_stretch(route_row.route.course.len(), from, to, pieces)?;
    let line = new_line(
        alloc,
        inventory,
        &route_row.route.course,
        from,
        to,
        pieces,
        marks,
    )?;
    let edit = inventory.edits() + 1;
    let realigned = realign_route(alloc, edit, route_row, from, to, line)?;
    Ok(realigned_plan(alloc, route, realigned))
}

/// The pieces of a list that may be missing.
fn given(pieces: &Option<PieceList>) -> &[Piece]
    ensures { result.now ≡ unwrap_or pieces.now [] }
{
    match pieces {
        Some(list) => list.as_slice(),
        None => &[],
    }
}

/// Refuses a stretch that does not lie on a course of this length, or for which nothing comes and nothing goes.
fn check_stretch(len: u64, from: u64, to: u64, pieces: &[Piece]) -> Result<(), Stop>
    ensures { Answers (check_stretch len from to pieces.now) result }
{
    refuse_if(len < from || len < to, Cause::OffRoute)?;
    refuse_if(to < from || (from == to && pieces.is_empty()), Cause::Empty)
}

/// The new ground, the course with it, and its marks.
#[derive(Drop)]
struct NewLine {
    come: Course,
    course: Course,
    marks: Marks,
}

/// The new course and its marks, where these pieces come for a stretch of a course.
fn new_line(
    alloc: Global,
    inventory: &Inventory,
    course: &Course,
    from: u64,
    to: u64,
    pieces: &[Piece],
    marks: &[Mark],
) -> Result<NewLine, Stop>
    requires order { from ≤ to }
    requires inside { to ≤ length course.now }
    ensures { Answers
        (new_line (state_of inventory.now) course.now from to pieces.now marks.now) result }
{
    let come = free_course(alloc, inventory, pieces)?;
    let course = replaced(course, from, to, &come)?;
    refuse_if(course.is_empty(), Cause::NothingLeft)?;
    let marks = new_marks(alloc, marks, course.len())?;
    Ok(NewLine {
        come,
        course,
        marks,
    })
}

/// The course of these pieces, over which no route runs. That no route does is asked before their length.
fn free_course(alloc: Global, inventory: &Inventory, pieces: &[Piece]) -> Result<Course, Stop>
    ensures { Answers (free_course (state_of inventory.now) pieces.now) result }
{
    match inventory.course(alloc, pieces) {
        Ok(course) => {
            check_free(inventory, pieces)?;
            Ok(course)
        }
        Err(Stop::Refused(Cause::TooLong)) => {
            check_free(inventory, pieces)?;
            Err(Stop::Refused(Cause::TooLong))
        }
        Err(stop) => Err(stop),
    }
}

/// The course with other ground for its millimetres from `from` up to `to`.
fn replaced(course: &Course, from: u64, to: u64, come: &Course) -> Result<Course, Stop>
    requires order { from ≤ to }
    requires inside { to ≤ length course.now }
    ensures { Answers (short_course (replaced from to come.now course.now)) result }
{
    let mut new = course.copy()?;
    match new.replace(from, to, come) {
        Ok(()) => Ok(new),
        Err(JoinFault::TooLong) => Err(Stop::Refused(Cause::TooLong)),
        Err(JoinFault::Memory) => Err(Stop::Memory),
    }
}

/// What becomes of a route of which a stretch gets other ground, and of what lay and stood on the stretch.
#[derive(Drop)]
struct Realigned {
    change: RouteChange,
    abandoned: Rows<Gone>,
    freed: Rows<Piece>,
    come: Rows<Piece>,
    names: Rows<RefName>,
}

/// What becomes of a route on a new line, by an edit.
fn realign_route(
    alloc: Global,
    edit: u64,
    route_row: &RouteRow,
    from: u64,
    to: u64,
    line: NewLine,
) -> Result<Realigned, AllocError>
    requires order { from ≤ to }
    requires inside { to ≤ length route_row.now.route.course }
    requires once { each_two differs route_row.now.route.course ≡ true }
    requires ends { IsTrue (end_by (length route_row.now.route.course) route_row.now.spans) }
    requires course { line.course ≡ replaced from to line.come route_row.now.route.course }
    ensures { IfOk result (λ realigned. IsOnNewLine edit route_row.now from to line realigned) }
{
    let mut realigned = realign_stretch(alloc, edit, route_row, from, to, &line)?;
    realigned.change.course = Some(line.course);
    realigned.change.marks = Some(line.marks);
    Ok(realigned)
}

/// All of that but for the course and the marks of the new line, which it lends: what may fail is then made while no
/// more is owned.
fn realign_stretch(
    alloc: Global,
    edit: u64,
    route_row: &RouteRow,
    from: u64,
    to: u64,
    line: &NewLine,
) -> Result<Realigned, AllocError>
    requires order { from ≤ to }
    requires inside { to ≤ length route_row.now.route.course }
    requires once { each_two differs route_row.now.route.course ≡ true }
    requires ends { IsTrue (end_by (length route_row.now.route.course) route_row.now.spans) }
    requires course { line.now.course ≡ replaced from to line.now.come route_row.now.route.course }
    ensures { IfOk result (λ realigned. IsOnNewLine edit route_row.now from to line.now
        (record realigned {
          change = record realigned.change {
            course = Some line.now.course;
            marks = Some line.now.marks;
          };
        })) }
{
    let route = &route_row.route;
    let len = line.come.len();
    // It is not too long.
    let _len = line.course.len();
    let freed = stretch_of(alloc, &route.course, from, to)?;
    let come = pieces_of(alloc, &line.come)?;
    let names = names_on(alloc, route.refs.as_slice(), from, to)?;
    let refs = moved_referents(alloc, route.refs.as_slice(), from, to, len)?;
    let RealignedRows { left, change: rows } = plan_rows(alloc, &route_row.spans, from, to, len)?;
    let abandoned = taken_away(alloc, edit, &left, &route.course, true)?;
    Ok(Realigned {
        change: changed(alloc, route.name, None, None, refs, rows),
        abandoned,
        freed,
        come,
        names,
    })
}

/// The pieces of a stretch of a course.
fn stretch_of(alloc: Global, course: &Course, from: u64, to: u64) -> Result<Rows<Piece>, AllocError>
    requires order { from ≤ to }
    requires inside { to ≤ length course.now }
    ensures course { IfOk result (λ pieces. course_of pieces ≡ slice_range course.now from to) }
    ensures filled { IfOk result (λ pieces. AllByRecursion IsFilled pieces) }
{
    let (_, rest) = course.cut(from)?;
    let (stretch, _) = rest.cut(to - from)?;
    pieces_of(alloc, &stretch)
}

/// The names of the referents that stand on a stretch.
fn names_on(
    alloc: Global,
    refs: &[Referent],
    from: u64,
    to: u64,
) -> Result<Rows<RefName>, AllocError>
    ensures { IfOk result (λ out. out ≡ map (λ q. q.name) (refs_on from to refs.now)) }
{
    let mut out = Vec::new(alloc);
    for referent in refs {
        if from <= referent.at && referent.at < to {
            out.push(referent.name)?;
        }
    }
    Ok(Rows::from_vec(out))
}

/// The referents from a stretch on go, and those behind it come again, behind the ground that replaces it.
fn moved_referents(
    alloc: Global,
    refs: &[Referent],
    from: u64,
    to: u64,
    len: u64,
) -> Result<ReferentChange, AllocError>
    requires limit { from + len ≤ longest_route }
    requires bounds { list_all (λ q. nat_lt q.at longest_route) refs.now ≡ true }
    ensures { IfOk result (λ change. change ≡ referents_moved from to len refs.now) }
{
    Ok(ReferentChange {
        gone: names_behind(alloc, refs, from)?,
        come: refs_from(alloc, refs, to, from + len)?,
    })
}

/// The referents behind one chainage, as far behind another one.
fn refs_from(
    alloc: Global,
    refs: &[Referent],
    to: u64,
    at: u64,
) -> Result<Rows<Referent>, AllocError>
    requires limit { at ≤ longest_route }
    requires bounds { list_all (λ q. nat_lt q.at longest_route) refs.now ≡ true }
    ensures { IfOk result (λ out. out ≡ map (on_from to at) (refs_behind to refs.now)) }
{
    let mut out = Vec::new(alloc);
    for referent in refs {
        if to <= referent.at {
            out.push(Referent {
                name: referent.name,
                at: at + (referent.at - to),
            })?;
        }
    }
    Ok(Rows::from_vec(out))
}

/// The plan by which a route is realigned: the ground of the stretch is free, and its referents stand nowhere any more.
fn realigned_plan(alloc: Global, route: RouteName, realigned: Realigned) -> Plan
    ensures { result ≡ realigned_plan route realigned }
{
    let Realigned {
        change,
        abandoned,
        freed,
        come,
        names,
    } = realigned;
    let mut plan = rerouted(alloc, change, None);
    plan.difference.gone = abandoned;
    plan.ground = Some(GroundChange {
        route,
        gone: freed,
        passed: Rows::new(alloc),
        come,
    });
    plan.referents.gone = names;
    plan
}
