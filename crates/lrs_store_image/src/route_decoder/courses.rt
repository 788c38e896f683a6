//! The courses of routes, from their pieces.

ghost use Rattle.std.specs.Prelude.{◌≡◌, ◌++◌, true, false, not, nat_eq, nat_le, length, Ok, Err, IfOk};
ghost use Rattle.std.specs.List.{AllByRecursion, list_all, flat_map};
ghost use Rattle.std.specs.List.Sorted.{IsSortedBy};
ghost use Rattle.std.specs.Option.{option_map};
ghost use Rattle.lrs_element.specs.Course.{course_of, piece_count, meets};
ghost use Rattle.lrs_element.specs.Pieces.{IsFilled};
ghost use Rattle.lrs_measure.specs.Lists.{is_nothing, each_two};
ghost use Rattle.lrs_events.specs.Places.{differs};
ghost use Rattle.lrs_machine.specs.declared.table.Table.{Table as DeclaredTable};
ghost use Rattle.lrs_machine.specs.declared.table.Table.TheVariants as table;
ghost use Rattle.lrs_machine.specs.Sound.{are_links, are_courses};
ghost use Rattle.lrs_store_tables.specs.Contents.Decoders.{each_of, only_if};
ghost use Rattle.lrs_store_tables.specs.Contents.Content.{read, routes_named, course_of_route, courses_of};
ghost use Rattle.lrs_store_image.specs.DecodedRoutes.Courses.{is_filled, is_good_course, good_course, good_route, good_route_over, fit_together, passing};
ghost use Rattle.lrs_store_image.specs.DecodedRoutes.Marks.{are_route_courses};
ghost use Rattle.lrs_measure.specs.Limits.{most_routes};
ghost use Rattle.lrs_store_image.specs.declared.route_decoder.fault.RowsFault.TheVariants as RowsFault;
ghost use Rattle.lrs_store_image.specs.DecodedRoutes.Groups.{route_before};

use crate::route_decoder::cells::PieceCells;
use crate::route_decoder::decode::pieces_said;
use crate::route_decoder::decoded_rows::{Numbered, OfRoute};
use crate::route_decoder::fault::RowsFault;
use crate::route_decoder::groups::{counted_of, names_of, sort_by_route};
use lrs_element::{Course, CourseFault, Link, Piece, have_repeat};
use lrs_machine::Table;
use lrs_measure::limits::MOST_ROUTES;
use lrs_position::RouteName;
use std::alloc::{AllocError, Global};
use std::marker::Model;

/// The course that runs over pieces, one or more, if a route can have it.
fn course_over(
    alloc: Global,
    links: &[Link],
    pieces: &[Piece],
) -> Result<Option<Course>, AllocError>
    requires links { are_links links.now ≡ true }
    requires filled { AllByRecursion IsFilled pieces.now }
    requires some { is_nothing (course_of pieces.now) ≡ false }
    ensures { IfOk result (λ course. course ≡ only_if
        (is_good_course links.now (course_of pieces.now)) (course_of pieces.now)) }
{
    match Course::new(alloc, pieces, &links) {
        Ok(course) => Ok(Some(course)),
        Err(CourseFault::Memory) => Err(AllocError),
        Err(CourseFault::NoLink(_)) => Ok(None),
        Err(CourseFault::BadPiece(_)) => Ok(None),
        Err(CourseFault::Twice(_)) => Ok(None),
        Err(CourseFault::TooLong) => Ok(None),
    }
}

/// Whether a course needs this many pieces.
fn needs(course: &Course, count: usize) -> bool
    ensures { result ≡ nat_eq count (piece_count course.now) }
{
    count == course.pieces().len()
}

/// Whether each piece has a millimetre.
fn are_filled(pieces: &[Piece]) -> bool
    ensures { result ≡ list_all is_filled pieces.now }
{
    pieces.iter().all(|piece| piece.from < piece.to)
}

/// The course that runs over pieces, if they are as few as it needs, and a route can have it.
///
/// # Errors
/// When memory runs out.
fn course_in_fewest(
    alloc: Global,
    links: &[Link],
    pieces: &[Piece],
) -> Result<Option<Course>, AllocError>
    requires links { are_links links.now ≡ true }
    ensures { IfOk result (λ course. course ≡ good_course links.now pieces.now) }
{
    if pieces.is_empty() {
        return Ok(None);
    }
    if !are_filled(pieces) {
        return Ok(None);
    }
    let Some(course) = course_over(alloc, links, pieces)? else {
        return Ok(None);
    };
    if !needs(&course, pieces.len()) {
        return Ok(None);
    }
    Ok(Some(course))
}

/// A route and the ground that it runs over.
#[derive(Drop)]
pub struct RouteCourse {
    pub route: RouteName,
    pub course: Course,
}

impl Model for RouteCourse {
    ghost use Rattle.lrs_machine.specs.Sound.{RouteCourse};

    ghost Value = { RouteCourse };

    ghost view = { λ c. record { route = c.route; entries = c.course } };
}

/// A route with the course of its pieces, if these are as few as it needs, and a route can have it.
fn course_with(
    alloc: Global,
    links: &[Link],
    pieces: &[Piece],
    route: &RouteName,
) -> Result<Option<RouteCourse>, AllocError>
    requires { are_links links.now ≡ true }
    ensures { IfOk result (λ found. found ≡ good_route_over links.now route.now pieces.now) }
{
    let Some(course) = course_in_fewest(alloc, links, pieces)? else {
        return Ok(None);
    };
    Ok(Some(RouteCourse {
        route: *route,
        course,
    }))
}

/// The course of a route, if its pieces are numbered from 0 on, as few as they can be, and a route can have it.
fn course_of_route(
    alloc: Global,
    links: &[Link],
    rows: &[OfRoute<Numbered<Piece>>],
    route: &RouteName,
) -> Result<Option<RouteCourse>, AllocError>
    requires links { are_links links.now ≡ true }
    requires sorted { IsSortedBy route_before rows.now }
    ensures { IfOk result (λ found. found ≡ good_route links.now rows.now route.now) }
{
    let Some(pieces) = counted_of(alloc, rows, route)? else {
        return Ok(None);
    };
    course_with(alloc, links, &pieces, route)
}

/// The courses of routes of these names, if each has one that a route can have.
fn courses_named(
    alloc: Global,
    links: &[Link],
    rows: &[OfRoute<Numbered<Piece>>],
    names: &[RouteName],
) -> Result<Option<Vec<RouteCourse>>, AllocError>
    requires links { are_links links.now ≡ true }
    requires sorted { IsSortedBy route_before rows.now }
    ensures { IfOk result (λ found. option_map (λ v. v.items) found
        ≡ each_of (good_route links.now rows.now) names.now) }
{
    let mut courses = Vec::new(alloc);
    for name in names {
        let Some(course) = course_of_route(alloc, links, rows, name)? else {
            return Ok(None);
        };
        courses.push(course)?;
    }
    Ok(Some(courses))
}

/// The courses of routes in the order of their names, if each has one that a route can have.
///
/// # Errors
/// When memory runs out.
pub(crate) fn courses_of_routes(
    alloc: Global,
    links: &[Link],
    rows: &[OfRoute<Numbered<Piece>>],
) -> Result<Option<Vec<RouteCourse>>, AllocError>
    requires links { are_links links.now ≡ true }
    requires sorted { IsSortedBy route_before rows.now }
    ensures { IfOk result (λ found. option_map (λ v. v.items) found
        ≡ each_of (good_route links.now rows.now) (routes_named rows.now)) }
{
    let names = names_of(alloc, rows)?;
    courses_named(alloc, links, rows, &names)
}

fn push_pieces(pieces: &mut Vec<Piece>, course: &Course) -> Result<(), AllocError>
    requires filled { AllByRecursion IsFilled pieces.old.items }
    ensures course { IfOk result (λ _. course_of pieces.new.items ≡ course_of pieces.old.items
        ++ course.now) }
    ensures filled { IfOk result (λ _. AllByRecursion IsFilled pieces.new.items) }
{
    pieces.extend_from_slice(course.pieces())?;
    Ok(())
}

/// The pieces of all courses in one list.
fn all_pieces(alloc: Global, courses: &[RouteCourse]) -> Result<Vec<Piece>, AllocError>
    ensures course { IfOk result (λ pieces. course_of pieces.items ≡ flat_map (λ c.
        c.entries) courses.now) }
    ensures filled { IfOk result (λ pieces. AllByRecursion IsFilled pieces.items) }
{
    let mut pieces = Vec::new(alloc);
    for route in courses {
        push_pieces(&mut pieces, &route.course)?;
    }
    Ok(pieces)
}

/// Whether no two courses share a millimetre, where none has one twice.
fn are_apart(alloc: Global, courses: &[RouteCourse]) -> Result<bool, AllocError>
    requires { list_all (λ c. each_two differs c.entries) courses.now ≡ true }
    ensures { IfOk result (λ apart. apart ≡ each_two (λ c d.
        not (meets c.entries d.entries)) courses.now) }
{
    let pieces = all_pieces(alloc, courses)?;
    let repeat = have_repeat(alloc, &pieces)?;
    Ok(!repeat)
}

/// Whether the routes are not too many.
fn are_few(courses: &[RouteCourse]) -> bool
    ensures { result ≡ nat_le (length courses.now) most_routes }
{
    courses.len() <= MOST_ROUTES
}

/// Whether courses, of which none has a millimetre twice, are not too many and share none.
fn fit_together(alloc: Global, courses: &[RouteCourse]) -> Result<bool, AllocError>
    requires { list_all (λ c. each_two differs c.entries) courses.now ≡ true }
    ensures { IfOk result (λ fit. fit ≡ fit_together courses.now) }
{
    if !are_few(courses) {
        return Ok(false);
    }
    are_apart(alloc, courses)
}

/// The courses that rows say which are sorted by route, if together they are sound.
fn sound_courses(
    alloc: Global,
    links: &[Link],
    rows: &[OfRoute<Numbered<Piece>>],
) -> Result<Option<Vec<RouteCourse>>, AllocError>
    requires links { are_links links.now ≡ true }
    requires sorted { IsSortedBy route_before rows.now }
    ensures { IfOk result (λ found. option_map (λ v. v.items) found
        ≡ passing (each_of (course_of_route rows.now) (routes_named rows.now))
        (are_courses links.now)) }
{
    let Some(courses) = courses_of_routes(alloc, links, rows)? else {
        return Ok(None);
    };
    let fit = fit_together(alloc, &courses)?;
    if !fit {
        return Ok(None);
    }
    Ok(Some(courses))
}

/// The courses that rows of pieces say, if the table of pieces is sound beside these links.
fn courses_said(
    alloc: Global,
    links: &[Link],
    rows: &[PieceCells<'_>],
) -> Result<Option<Vec<RouteCourse>>, AllocError>
    requires { are_links links.now ≡ true }
    ensures { IfOk result (λ found. option_map (λ v. v.items) found
        ≡ passing (courses_of rows.now) (are_courses links.now)) }
{
    let Some(mut said) = pieces_said(alloc, rows)? else {
        return Ok(None);
    };
    sort_by_route(&mut said);
    sound_courses(alloc, links, &said)
}

/// The courses of routes in the order of their names, from the rows of the table of pieces in any order, beside
/// links that are sound. It takes time in O(n log n) for n rows.
///
/// # Errors
/// `Unsound` where the table of pieces is unsound, and `Memory`.
pub fn read_courses(
    alloc: Global,
    links: &[Link],
    rows: &[PieceCells<'_>],
) -> Result<Vec<RouteCourse>, RowsFault>
    requires { are_links links.now ≡ true }
    ensures fit { IfOk result (λ courses. are_route_courses courses.items ≡ true) }
    ensures courses { IfOk result (λ courses. read table.Piece (courses_of rows.now)
        (are_courses links.now) ≡ Ok courses.items) }
    ensures unsound { (t : DeclaredTable) → result ≡ Err (RowsFault.Unsound t)
        → read table.Piece (courses_of rows.now) (are_courses links.now) ≡ Err t }
{
    let found = courses_said(alloc, links, rows)?;
    match found {
        Some(courses) => Ok(courses),
        None => Err(RowsFault::Unsound(Table::Piece)),
    }
}
