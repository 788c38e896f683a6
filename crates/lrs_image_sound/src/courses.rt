//! The table of pieces: the courses of routes.

ghost use Rattle.std.specs.Prelude.{◌≡◌, ◌++◌, true, IfOk};
ghost use Rattle.std.specs.List.{AllByRecursion, list_all, flat_map};
ghost use Rattle.lrs_element.specs.Course.{course_of};
ghost use Rattle.lrs_element.specs.Pieces.{IsFilled};
ghost use Rattle.lrs_machine.specs.Sound.{are_links, are_courses, is_on_a_link};
ghost use Rattle.lrs_image_sound.specs.CourseRepeats.{ends_on_a_link, is_on_links};
ghost use Rattle.lrs_image_sound.specs.Tables.{route_courses};

use crate::lookups::link_reaches;
use crate::order::routes_rise;
use lrs_element::{Course, Link, Piece, have_repeat};
use lrs_machine::RouteRow;
use lrs_measure::limits::MOST_ROUTES;
use std::alloc::{AllocError, Global};

fn end_on_links(links: &[Link], pieces: &[Piece]) -> bool
    requires { are_links links.now ≡ true }
    ensures { result ≡ list_all (ends_on_a_link links.now) pieces.now }
{
    pieces
        .iter()
        .all(|piece| link_reaches(links, piece.link, piece.to))
}

/// Whether a course runs over known links alone.
fn lies_on_links(links: &[Link], course: &Course) -> bool
    requires { are_links links.now ≡ true }
    ensures { result ≡ list_all (is_on_a_link links.now) course.now }
{
    end_on_links(links, course.pieces())
}

fn lie_on_links(links: &[Link], routes: &[RouteRow]) -> bool
    requires { are_links links.now ≡ true }
    ensures { result ≡ list_all (is_on_links links.now) routes.now }
{
    routes
        .iter()
        .all(|route_row| lies_on_links(links, &route_row.route.course))
}

fn push_course(pieces: &mut Vec<Piece>, course: &Course) -> Result<(), AllocError>
    requires filled { AllByRecursion IsFilled pieces.old.items }
    ensures course { IfOk result (λ _. course_of pieces.new.items ≡ course_of pieces.old.items
        ++ course.now) }
    ensures filled { IfOk result (λ _. AllByRecursion IsFilled pieces.new.items) }
{
    pieces.extend_from_slice(course.pieces())
}

/// The pieces of all routes in one list.
fn all_pieces(alloc: Global, routes: &[RouteRow]) -> Result<Vec<Piece>, AllocError>
    ensures course { IfOk result (λ pieces. course_of pieces.items ≡ flat_map (λ e.
        e.route.course) routes.now) }
    ensures filled { IfOk result (λ pieces. AllByRecursion IsFilled pieces.items) }
{
    let mut pieces = Vec::new(alloc);
    for route_row in routes {
        push_course(&mut pieces, &route_row.route.course)?;
    }
    Ok(pieces)
}

/// Whether routes are in the order of their names, run over known links, over no millimetre twice, and are
/// not too many. That each is within the limits of a route its type says.
///
/// # Errors
/// When memory runs out.
pub fn are_courses(alloc: Global, links: &[Link], routes: &[RouteRow]) -> Result<bool, AllocError>
    requires { are_links links.now ≡ true }
    ensures { IfOk result (λ sound. sound ≡ are_courses links.now (route_courses routes.now)) }
{
    if !routes_rise(routes) {
        return Ok(false);
    }
    if !lie_on_links(links, routes) {
        return Ok(false);
    }
    if routes.len() > MOST_ROUTES {
        return Ok(false);
    }
    let pieces = all_pieces(alloc, routes)?;
    let repeat = have_repeat(alloc, &pieces)?;
    Ok(!repeat)
}
