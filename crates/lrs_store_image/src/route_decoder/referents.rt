//! The referents of routes.

ghost use Rattle.std.specs.Prelude.{◌≡◌, true, nat_lt, map, Ok, Err, IfOk, IsPermutation};
ghost use Rattle.std.specs.List.{list_all, flat_map};
ghost use Rattle.std.specs.List.Sorted.{IsSortedBy};
ghost use Rattle.std.specs.Option.{option_map};
ghost use Rattle.lrs_measure.specs.Lists.{each_two};
ghost use Rattle.lrs_measure.specs.Texts.{name_before};
ghost use Rattle.lrs_position.specs.Names.{is_referent_name};
ghost use Rattle.lrs_position.specs.Routes.{are_referents};
ghost use Rattle.lrs_machine.specs.declared.table.Table.{Table as DeclaredTable};
ghost use Rattle.lrs_machine.specs.declared.table.Table.TheVariants as table;
ghost use Rattle.lrs_store_tables.specs.Contents.Decoders.{each_of, only_if, referent_of, said_of};
ghost use Rattle.lrs_store_tables.specs.Contents.Content.{read, referent_before, route_with, routes_of};
ghost use Rattle.lrs_store_image.specs.DecodedRoutes.Courses.{passing};
ghost use Rattle.lrs_store_image.specs.DecodedRoutes.Groups.{route_before};
ghost use Rattle.lrs_store_image.specs.DecodedRoutes.Marks.{is_name_of, known, are_route_courses, courses_of_measured, are_all_measured};
ghost use Rattle.lrs_store_image.specs.DecodedRoutes.Referents.{is_measured, route_if, have_own_names, are_all_referred, courses_of_routes};
ghost use Rattle.lrs_store_image.specs.declared.route_decoder.fault.RowsFault.TheVariants as RowsFault;

use crate::route_decoder::cells::RefCells;
use crate::route_decoder::courses::RouteCourse;
use crate::route_decoder::decoded_rows::OfRoute;
use crate::route_decoder::fault::RowsFault;
use crate::route_decoder::groups::{said_of, sort_by_route};
use crate::route_decoder::known_routes::of_known;
use crate::route_decoder::marks::Measured;
use lrs_image_sound::{differ, push_names};
use lrs_machine::Table;
use lrs_measure::Rows;
use lrs_position::{RefName, Referent, Route, RouteName};
use lrs_store_tables::whole;
use std::alloc::{AllocError, Global};

fn referent_name(text: &[u8]) -> Option<RefName>
    ensures { result ≡ only_if (is_referent_name text.now) text.now }
{
    RefName::new(text)
}

/// What a row of a referent says, if that is of a route of these names.
fn known_referent(names: &[RouteName], row: &RefCells<'_>) -> Option<OfRoute<Referent>>
    requires { IsSortedBy name_before names.now }
    ensures { result ≡ known referent_of (is_name_of names.now) row.now }
{
    let at = whole(row.place)?;
    let name = referent_name(row.name)?;
    of_known(names, row.route, Referent { name, at })
}

/// What the rows of referents say, if each says something of a route of these names.
fn referents_said(
    alloc: Global,
    names: &[RouteName],
    rows: &[RefCells<'_>],
) -> Result<Option<Vec<OfRoute<Referent>>>, AllocError>
    requires { IsSortedBy name_before names.now }
    ensures { IfOk result (λ found. option_map (λ v. v.items) found
        ≡ each_of (known referent_of (is_name_of names.now)) rows.now) }
{
    let mut found = Vec::new(alloc);
    for row in rows {
        let Some(said) = known_referent(names, row) else {
            return Ok(None);
        };
        found.push(said)?;
    }
    Ok(Some(found))
}

/// The names of the routes that have these marks.
fn names_of_measured(alloc: Global, measured: &[Measured]) -> Result<Vec<RouteName>, AllocError>
    ensures { IfOk result (λ names. names.items ≡ map (λ m. m.course.route) measured.now) }
{
    let mut names = Vec::new(alloc);
    for route in measured {
        names.push(route.course.route)?;
    }
    Ok(names)
}

fn sort_by_name(refs: &mut Vec<Referent>)
    ensures same { IsPermutation refs.old.items refs.new.items }
    ensures sorted { IsSortedBy referent_before refs.new.items }
{
    refs.sort_unstable_by(|a, b| a.name.bytes().cmp(b.name.bytes()));
}

/// Whether referents are in the order of their names.
fn are_in_order(refs: &[Referent]) -> bool
    ensures { result ≡ each_two referent_before refs.now }
{
    refs.is_sorted_by(|a, b| a.name.bytes().cmp(b.name.bytes()).is_lt())
}

/// Whether referents stand in millimetres of a course of this length.
fn are_within(refs: &[Referent], length: u64) -> bool
    ensures { result ≡ list_all (λ r. nat_lt r.at length) refs.now }
{
    refs.iter().all(|referent| referent.at < length)
}

/// Whether referents stand on a course of this length in the order of their names.
fn do_stand(refs: &[Referent], length: u64) -> bool
    ensures { result ≡ are_referents length refs.now }
{
    are_in_order(refs) && are_within(refs, length)
}

/// The referents that rows say of a route, in the order of their names.
fn sorted_referents(
    alloc: Global,
    rows: &[OfRoute<Referent>],
    route: &RouteName,
) -> Result<Vec<Referent>, AllocError>
    requires { IsSortedBy route_before rows.now }
    ensures same { IfOk result (λ refs. IsPermutation (said_of route.now rows.now) refs.items) }
    ensures sorted { IfOk result (λ refs. IsSortedBy referent_before refs.items) }
{
    let mut refs = said_of(alloc, rows, route)?;
    sort_by_name(&mut refs);
    Ok(refs)
}

/// A route with its marks and these referents, if they stand on it in their order.
fn route_of(measured: Measured, refs: Vec<Referent>) -> Option<Route>
    requires { is_measured measured ≡ true }
    ensures { result ≡ route_if measured refs.items }
{
    let Measured { course, marks } = measured;
    let RouteCourse { route, course } = course;
    if !do_stand(&refs, course.len()) {
        return None;
    }
    Some(Route {
        name: route,
        course,
        marks,
        refs: Rows::from_vec(refs),
    })
}

/// A route with the referents that rows say of it, if they stand on it and each has a name of its own.
fn refer(
    alloc: Global,
    rows: &[OfRoute<Referent>],
    measured: Measured,
) -> Result<Option<Route>, AllocError>
    requires rows { IsSortedBy route_before rows.now }
    requires measured { is_measured measured ≡ true }
    ensures { IfOk result (λ found. found ≡ route_with rows.now measured) }
{
    let name = measured.route();
    let refs = sorted_referents(alloc, rows, &name)?;
    Ok(route_of(measured, refs))
}

/// Each route with the referents that rows say of it, if they stand on it and each has a name of its own there.
fn refer_all(
    alloc: Global,
    rows: &[OfRoute<Referent>],
    measured: Vec<Measured>,
) -> Result<Option<Vec<Route>>, AllocError>
    requires rows { IsSortedBy route_before rows.now }
    requires measured { list_all is_measured measured.items ≡ true }
    ensures { IfOk result (λ found. option_map (λ v. v.items) found
        ≡ each_of (route_with rows.now) measured.items) }
{
    let mut found = Vec::new(alloc);
    for route in measured {
        let Some(referred) = refer(alloc, rows, route)? else {
            return Ok(None);
        };
        found.push(referred)?;
    }
    Ok(Some(found))
}

/// The routes with their referents, if each row says one of theirs, which stands on its route and has a name of its
/// own there.
fn routes_said(
    alloc: Global,
    rows: &[RefCells<'_>],
    measured: Vec<Measured>,
) -> Result<Option<Vec<Route>>, AllocError>
    requires courses { are_route_courses (courses_of_measured measured.items) ≡ true }
    requires marks { are_all_measured measured.items ≡ true }
    ensures { IfOk result (λ found. option_map (λ v. v.items) found
        ≡ routes_of rows.now measured.items) }
{
    let names = names_of_measured(alloc, &measured)?;
    let Some(mut said) = referents_said(alloc, &names, rows)? else {
        return Ok(None);
    };
    sort_by_route(&mut said);
    refer_all(alloc, &said, measured)
}

/// The names of the referents of all routes.
fn names_of_referents(alloc: Global, routes: &[Route]) -> Result<Vec<RefName>, AllocError>
    ensures { IfOk result (λ names. names.items ≡ map (λ r.
        r.name) (flat_map (λ r. r.refs) routes.now)) }
{
    let mut names = Vec::new(alloc);
    for route in routes {
        push_names(&mut names, route.refs.as_slice())?;
    }
    Ok(names)
}

/// Whether no name is that of two referents.
fn have_own_names(alloc: Global, routes: &[Route]) -> Result<bool, AllocError>
    ensures { IfOk result (λ own. own ≡ are_all_referred routes.now) }
{
    let names = names_of_referents(alloc, routes)?;
    Ok(differ(names))
}

/// The routes with their referents, if the table of referents is sound beside these routes.
fn sound_routes(
    alloc: Global,
    rows: &[RefCells<'_>],
    measured: Vec<Measured>,
) -> Result<Option<Vec<Route>>, AllocError>
    requires courses { are_route_courses (courses_of_measured measured.items) ≡ true }
    requires marks { are_all_measured measured.items ≡ true }
    ensures { IfOk result (λ found. option_map (λ v. v.items) found
        ≡ passing (routes_of rows.now measured.items) are_all_referred) }
{
    let Some(routes) = routes_said(alloc, rows, measured)? else {
        return Ok(None);
    };
    let own = have_own_names(alloc, &routes)?;
    if !own {
        return Ok(None);
    }
    Ok(Some(routes))
}

/// The routes with their referents, from the rows of the table of referents in any order, beside the routes in the
/// order of their names with marks that fit them. It takes time in O(n log n) for n rows and routes.
///
/// # Errors
/// `Unsound` where the table of referents is unsound, and `Memory`.
pub fn read_referents(
    alloc: Global,
    rows: &[RefCells<'_>],
    measured: Vec<Measured>,
) -> Result<Vec<Route>, RowsFault>
    requires courses { are_route_courses (courses_of_measured measured.items) ≡ true }
    requires marks { are_all_measured measured.items ≡ true }
    ensures routes { IfOk result (λ routes. read table.Ref
        (routes_of rows.now measured.items) are_all_referred ≡ Ok routes.items) }
    ensures courses { IfOk result (λ routes. courses_of_routes routes.items
        ≡ courses_of_measured measured.items) }
    ensures unsound { (t : DeclaredTable) → result ≡ Err (RowsFault.Unsound t)
        → read table.Ref (routes_of rows.now measured.items) are_all_referred ≡ Err t }
{
    let found = sound_routes(alloc, rows, measured)?;
    match found {
        Some(routes) => Ok(routes),
        None => Err(RowsFault::Unsound(Table::Ref)),
    }
}
