//! Two routes become one.

ghost use Rattle.std.specs.Prelude.{◌++◌, ◌≡◌, ◌+◌, ◌≤◌, IfOk, map, length, nat_lt, true};
ghost use Rattle.std.specs.List.{list_all};
ghost use Rattle.lrs_inventory.specs.Prelude.{longest_route};
ghost use Rattle.lrs_element.specs.Marks.{joined_marks};
ghost use Rattle.lrs_machine.specs.declared.command.Command.TheVariants as verb;
ghost use Rattle.lrs_image_laws.specs.Joins.{on_by};
ghost use Rattle.lrs_verbs.specs.RouteVerbs.Checks.{join_plan};
ghost use Rattle.lrs_verbs.specs.RouteVerbs.Joins.{joined_course, joined_line, CanGoOn, GoesOn};
ghost use Rattle.lrs_inventory.specs.Plans.{Answers, Plans};

use lrs_element::{Course, JoinFault, Marks, Piece};
use lrs_image::{ReferentChange, RouteChange, RouteKeys};
use lrs_inventory::checks::route_named;
use lrs_inventory::route_changes::{changed, keys_on, pieces_of, rerouted};
use lrs_inventory::{GroundChange, Inventory, Plan, Stop, refuse_if};
use lrs_machine::{Cause, RouteRow};
use lrs_measure::Rows;
use lrs_measure::limits::MOST_MARKS;
use lrs_position::{Referent, Route, RouteName};
use std::alloc::{AllocError, Global};

/// What a join of two routes would change of an inventory.
///
/// # Errors
/// The first check of the verb that fails, or lack of memory.
pub fn plan_join(
    alloc: Global,
    inventory: &Inventory,
    first: RouteName,
    second: RouteName,
) -> Result<Plan, Stop>
    ensures { Plans (verb.Join first second) inventory.now result }
{
    inventory.prove_sound();
    let front = route_named(inventory, &first)?;
    let rear = route_named(inventory, &second)?;
    let is_same = first == second;
    refuse_if(is_same, Cause::SameRoute)?;
    let course = joined_course(&front.route.course, &rear.route.course)?;
    let marks = joined_marks(&front.route, &rear.route)?;
    let passed = pieces_of(alloc, &rear.route.course)?;
    let keys = keys_on(alloc, rear)?;
    let change = lengthened(alloc, front, rear, course, marks)?;
    Ok(join_plan(alloc, second, keys, change, passed))
}

/// The course of two routes as one.
fn joined_course(first: &Course, second: &Course) -> Result<Course, Stop>
    ensures { Answers (joined_course first.now second.now) result }
{
    let mut course = first.copy()?;
    match course.concat(second) {
        Ok(()) => Ok(course),
        Err(JoinFault::TooLong) => Err(Stop::Refused(Cause::TooLong)),
        Err(JoinFault::Memory) => Err(Stop::Memory),
    }
}

/// The marks of two routes as those of one.
fn joined_marks(first: &Route, second: &Route) -> Result<Marks, Stop>
    ensures { Answers (joined_line first.now.marks second.now.marks) result }
{
    // The first mark of the second route is the last one of the first.
    let count = first.marks.list().len() + second.marks.list().len() - 1;
    refuse_if(count > MOST_MARKS, Cause::TooLong)?;
    let is_out_of_range = first.marks.joins_out_of_range(&second.marks);
    refuse_if(is_out_of_range, Cause::MeasureRange)?;
    // Marks end where their route does, so that no chainage overflows.
    let _first_len = first.length();
    let _second_len = second.length();
    let mut marks = first.marks.copy()?;
    marks.join(&second.marks)?;
    Ok(marks)
}

/// What becomes of a route that continues as another, over this course and with these marks.
fn lengthened(
    alloc: Global,
    front: &RouteRow,
    rear: &RouteRow,
    course: Course,
    marks: Marks,
) -> Result<RouteChange, AllocError>
    requires rows { CanGoOn front.now rear.now }
    requires room { length front.now.route.course + length rear.now.route.course ≤ longest_route }
    requires course { course ≡ front.now.route.course ++ rear.now.route.course }
    requires marks { marks ≡ joined_marks front.now.route.marks rear.now.route.marks }
    ensures { IfOk result (λ change. GoesOn front.now rear.now change) }
{
    let len = front.route.course.len();
    let refs = refs_on(alloc, rear.route.refs.as_slice(), len)?;
    let spans = front.spans.plan_concat(alloc, &rear.spans, len)?;
    let moved = ReferentChange {
        gone: Rows::new(alloc),
        come: refs,
    };
    Ok(changed(
        alloc,
        front.route.name,
        Some(course),
        Some(marks),
        moved,
        spans,
    ))
}

/// The referents of a course behind one of this length.
fn refs_on(alloc: Global, refs: &[Referent], len: u64) -> Result<Rows<Referent>, AllocError>
    requires room { list_all (λ q. nat_lt (len + q.at) longest_route) refs.now ≡ true }
    ensures { IfOk result (λ out. out ≡ map (on_by len) refs.now) }
{
    let mut out = Vec::new(alloc);
    for referent in refs {
        out.push(Referent {
            name: referent.name,
            at: len + referent.at,
        })?;
    }
    Ok(Rows::from_vec(out))
}

/// The plan by which a route changes and the second goes, whose ground passes to it.
fn join_plan(
    alloc: Global,
    second: RouteName,
    keys: RouteKeys,
    change: RouteChange,
    passed: Rows<Piece>,
) -> Plan
    ensures { result ≡ join_plan second keys change passed }
{
    let route = change.name;
    let mut plan = rerouted(alloc, change, None);
    plan.ground = Some(GroundChange {
        route,
        gone: Rows::new(alloc),
        passed,
        come: Rows::new(alloc),
    });
    plan.difference.dropped = Some(second);
    plan.difference.keys = keys;
    plan
}
