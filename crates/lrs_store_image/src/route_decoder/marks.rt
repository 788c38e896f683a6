//! The marks of routes.

ghost use Rattle.std.specs.Prelude.{◌≡◌, true, map, Ok, Err, IfOk};
ghost use Rattle.std.specs.List.Sorted.{IsSortedBy};
ghost use Rattle.std.specs.Option.{option_map};
ghost use Rattle.lrs_measure.specs.Texts.{name_before};
ghost use Rattle.lrs_machine.specs.declared.table.Table.{Table as DeclaredTable};
ghost use Rattle.lrs_machine.specs.declared.table.Table.TheVariants as table;
ghost use Rattle.lrs_store_tables.specs.Contents.Decoders.{each_of, mark_of};
ghost use Rattle.lrs_store_tables.specs.Contents.Content.{read, measured_of};
ghost use Rattle.lrs_store_image.specs.DecodedRoutes.Courses.{passing};
ghost use Rattle.lrs_store_image.specs.DecodedRoutes.Groups.{route_before};
ghost use Rattle.lrs_store_image.specs.DecodedRoutes.Marks.{is_name_of, known, are_route_courses, courses_of_measured, good_measured, are_all_measured};
ghost use Rattle.lrs_store_image.specs.declared.route_decoder.fault.RowsFault.TheVariants as RowsFault;

use crate::route_decoder::cells::MarkCells;
use crate::route_decoder::courses::RouteCourse;
use crate::route_decoder::decoded_rows::{Numbered, OfRoute};
use crate::route_decoder::fault::RowsFault;
use crate::route_decoder::groups::{counted_of, sort_by_route};
use crate::route_decoder::known_routes::of_known;
use lrs_element::{Mark, Marks};
use lrs_machine::Table;
use lrs_position::RouteName;
use lrs_store_tables::whole;
use std::alloc::{AllocError, Global};
use std::marker::Model;

/// A route with its ground and its marks.
#[derive(Drop)]
pub struct Measured {
    pub course: RouteCourse,
    pub marks: Marks,
}

impl Model for Measured {
    ghost use Rattle.lrs_store_tables.specs.Contents.Content.{Measured};

    ghost Value = { Measured };

    ghost view = { λ m. record { course = m.course; marks = m.marks } };
}

impl Measured {
    /// The name of the route.
    pub(crate) fn route(&self) -> RouteName
        ensures { result ≡ self.now.course.route }
    {
        self.course.route
    }
}

/// What a row of a mark says, if that is of a route of these names.
fn known_mark(names: &[RouteName], row: &MarkCells<'_>) -> Option<OfRoute<Numbered<Mark>>>
    requires { IsSortedBy name_before names.now }
    ensures { result ≡ known mark_of (is_name_of names.now) row.now }
{
    let n = whole(row.n)?;
    let chainage = whole(row.chainage)?;
    let measure = whole(row.measure)?;
    of_known(
        names,
        row.route,
        Numbered {
            n,
            said: Mark { chainage, measure },
        },
    )
}

/// What the rows of marks say, if each says something of a route of these names.
fn marks_said(
    alloc: Global,
    names: &[RouteName],
    rows: &[MarkCells<'_>],
) -> Result<Option<Vec<OfRoute<Numbered<Mark>>>>, AllocError>
    requires { IsSortedBy name_before names.now }
    ensures { IfOk result (λ found. option_map (λ v. v.items) found
        ≡ each_of (known mark_of (is_name_of names.now)) rows.now) }
{
    let mut found = Vec::new(alloc);
    for row in rows {
        let Some(said) = known_mark(names, row) else {
            return Ok(None);
        };
        found.push(said)?;
    }
    Ok(Some(found))
}

/// The names of the routes that have these courses.
fn names_of_courses(alloc: Global, courses: &[RouteCourse]) -> Result<Vec<RouteName>, AllocError>
    ensures { IfOk result (λ names. names.items ≡ map (λ c. c.route) courses.now) }
{
    let mut names = Vec::new(alloc);
    for course in courses {
        names.push(course.route)?;
    }
    Ok(names)
}

/// A route with the marks that rows say of it, if these fit its course.
fn measure(
    alloc: Global,
    rows: &[OfRoute<Numbered<Mark>>],
    course: RouteCourse,
) -> Result<Option<Measured>, AllocError>
    requires { IsSortedBy route_before rows.now }
    ensures { IfOk result (λ found. found ≡ good_measured rows.now course) }
{
    let Some(list) = counted_of(alloc, rows, &course.route)? else {
        return Ok(None);
    };
    match Marks::new(list, course.course.len()) {
        Ok(marks) => Ok(Some(Measured { course, marks })),
        Err(_) => Ok(None),
    }
}

/// Each route with the marks that rows say of it, if these fit its course.
fn measure_all(
    alloc: Global,
    rows: &[OfRoute<Numbered<Mark>>],
    courses: Vec<RouteCourse>,
) -> Result<Option<Vec<Measured>>, AllocError>
    requires { IsSortedBy route_before rows.now }
    ensures { IfOk result (λ found. option_map (λ v. v.items) found
        ≡ each_of (good_measured rows.now) courses.items) }
{
    let mut found = Vec::new(alloc);
    for course in courses {
        let Some(measured) = measure(alloc, rows, course)? else {
            return Ok(None);
        };
        found.push(measured)?;
    }
    Ok(Some(found))
}

/// The routes with their marks, if the table of marks is sound beside these courses.
fn measured_said(
    alloc: Global,
    rows: &[MarkCells<'_>],
    courses: Vec<RouteCourse>,
) -> Result<Option<Vec<Measured>>, AllocError>
    requires { are_route_courses courses.items ≡ true }
    ensures { IfOk result (λ found. option_map (λ v. v.items) found
        ≡ passing (measured_of rows.now courses.items) are_all_measured) }
{
    let names = names_of_courses(alloc, &courses)?;
    let Some(mut said) = marks_said(alloc, &names, rows)? else {
        return Ok(None);
    };
    sort_by_route(&mut said);
    measure_all(alloc, &said, courses)
}

/// The routes with their marks, from the rows of the table of marks in any order, beside the courses of the routes
/// in the order of their names. It takes time in O(n log n) for n rows and courses.
///
/// # Errors
/// `Unsound` where the table of marks is unsound, and `Memory`.
pub fn read_marks(
    alloc: Global,
    rows: &[MarkCells<'_>],
    courses: Vec<RouteCourse>,
) -> Result<Vec<Measured>, RowsFault>
    requires { are_route_courses courses.items ≡ true }
    ensures measured { IfOk result (λ measured. read table.Mark
        (measured_of rows.now courses.items) are_all_measured ≡ Ok measured.items) }
    ensures courses { IfOk result (λ measured. courses_of_measured measured.items ≡ courses.items) }
    ensures marks { IfOk result (λ measured. are_all_measured measured.items ≡ true) }
    ensures unsound { (t : DeclaredTable) → result ≡ Err (RowsFault.Unsound t)
        → read table.Mark (measured_of rows.now courses.items) are_all_measured ≡ Err t }
{
    let found = measured_said(alloc, rows, courses)?;
    match found {
        Some(measured) => Ok(measured),
        None => Err(RowsFault::Unsound(Table::Mark)),
    }
}
