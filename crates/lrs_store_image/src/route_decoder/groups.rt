//! What rows say of one route, found among what they say of all.

ghost use Rattle.std.specs.Prelude.{◌≡◌, ◌≤◌, true, false, not, filter, length, IsPermutation, IfOk};
ghost use Rattle.std.specs.List.{list_all};
ghost use Rattle.std.specs.List.Sorted.{IsSortedBy, IsPartitionPoint};
ghost use Rattle.std.specs.Option.{option_map};
ghost use Rattle.lrs_measure.specs.Lists.{each_two};
ghost use Rattle.lrs_measure.specs.Texts.{same_name, name_before};
ghost use Rattle.lrs_store_tables.specs.Contents.Decoders.{said_of, number_before, sorted, counted};
ghost use Rattle.lrs_store_tables.specs.Contents.Content.{with_name, routes_named};
ghost use Rattle.lrs_store_image.specs.DecodedRoutes.Groups.{route_before, ends_with};

use crate::route_decoder::decoded_rows::{Numbered, OfRoute};
use lrs_position::RouteName;
use std::alloc::{AllocError, Global};

/// Sorts what rows say by the names of their routes. It takes no memory.
pub fn sort_by_route<T>(rows: &mut Vec<OfRoute<T>>)
    ensures same { IsPermutation rows.old.items rows.new.items }
    ensures sorted { IsSortedBy route_before rows.new.items }
{
    rows.sort_unstable_by(|a, b| a.route.bytes().cmp(b.route.bytes()));
}

/// How many of the rows are of routes before this one.
fn rows_before<T>(rows: &[OfRoute<T>], route: &RouteName) -> usize
    requires { IsSortedBy route_before rows.now }
    ensures within { result ≤ length rows.now }
    ensures point { IsPartitionPoint (λ r. name_before r.route route.now ≡ true) (λ r.
        name_before r.route route.now ≡ false) rows.now result }
{
    rows.partition_point(|row| row.route.bytes().cmp(route.bytes()).is_lt())
}

/// How many of the rows are of this route or of routes before it.
fn rows_up_to<T>(rows: &[OfRoute<T>], route: &RouteName) -> usize
    requires { IsSortedBy route_before rows.now }
    ensures within { result ≤ length rows.now }
    ensures point { IsPartitionPoint (λ r. not (name_before route.now r.route) ≡ true) (λ r.
        not (name_before route.now r.route) ≡ false) rows.now result }
{
    rows.partition_point(|row| !route.bytes().cmp(row.route.bytes()).is_lt())
}

/// The rows of a route, by binary search.
fn rows_of<'a, T>(rows: &'a [OfRoute<T>], route: &RouteName) -> &'a [OfRoute<T>]
    requires { IsSortedBy route_before rows.now }
    ensures { result.now ≡ filter (λ r. same_name r.route route.now) rows.now }
{
    let from = rows_before(rows, route);
    let to = rows_up_to(rows, route);
    if from < to {
        &rows[from..to]
    } else {
        &rows[..0]
    }
}

/// What the rows say of a route.
///
/// # Errors
/// When memory runs out.
pub fn said_of<T: Copy>(
    alloc: Global,
    rows: &[OfRoute<T>],
    route: &RouteName,
) -> Result<Vec<T>, AllocError>
    requires { IsSortedBy route_before rows.now }
    ensures { IfOk result (λ said. said.items ≡ said_of route.now rows.now) }
{
    let mut said = Vec::new(alloc);
    for row in rows_of(rows, route) {
        said.push(row.said)?;
    }
    Ok(said)
}

fn sort_by_number<T>(rows: &mut Vec<Numbered<T>>)
    ensures same { IsPermutation rows.old.items rows.new.items }
    ensures sorted { IsSortedBy number_before rows.new.items }
{
    rows.sort_unstable_by(|a, b| a.n.cmp(&b.n));
}

/// What numbered rows say in their order, if they are numbered from 0 on.
///
/// # Errors
/// When memory runs out.
fn counted<T: Copy>(alloc: Global, rows: &[Numbered<T>]) -> Result<Option<Vec<T>>, AllocError>
    ensures { IfOk result (λ found. option_map (λ v. v.items) found ≡ counted 0 rows.now) }
{
    let mut found = Vec::new(alloc);
    let mut n = 0;
    for row in rows {
        if row.n != n {
            return Ok(None);
        }
        found.push(row.said)?;
        n += 1;
    }
    Ok(Some(found))
}

/// What the rows say of a route in the order of their numbers, if these are from 0 on.
///
/// # Errors
/// When memory runs out.
pub(crate) fn counted_of<T: Copy>(
    alloc: Global,
    rows: &[OfRoute<Numbered<T>>],
    route: &RouteName,
) -> Result<Option<Vec<T>>, AllocError>
    requires { IsSortedBy route_before rows.now }
    ensures { IfOk result (λ found. option_map (λ v. v.items) found
        ≡ counted 0 (sorted number_before (said_of route.now rows.now))) }
{
    let mut said = said_of(alloc, rows, route)?;
    sort_by_number(&mut said);
    counted(alloc, &said)
}

fn is_same(a: &RouteName, b: &RouteName) -> bool
    ensures { result ≡ same_name a.now b.now }
{
    a == b
}

/// Whether a name is the last of these.
fn is_at_end(names: &[RouteName], name: &RouteName) -> bool
    ensures { result ≡ ends_with name.now names.now }
{
    let count = names.len();
    if count == 0 {
        return false;
    }
    let last = &names[count - 1];
    is_same(last, name)
}

/// Puts a name behind others, none of which comes after it, unless it is one of them.
fn push_name(names: &mut Vec<RouteName>, name: RouteName) -> Result<(), AllocError>
    requires order { each_two name_before names.old.items ≡ true }
    requires last { list_all (λ n. not (name_before name n)) names.old.items ≡ true }
    ensures { IfOk result (λ _. names.new.items ≡ with_name name names.old.items) }
{
    if is_at_end(names, &name) {
        return Ok(());
    }
    names.push(name)?;
    Ok(())
}

/// The routes of which the rows say something, in the order of their names.
///
/// # Errors
/// When memory runs out.
pub(crate) fn names_of<T>(alloc: Global, rows: &[OfRoute<T>]) -> Result<Vec<RouteName>, AllocError>
    requires { IsSortedBy route_before rows.now }
    ensures { IfOk result (λ names. names.items ≡ routes_named rows.now) }
{
    let mut names = Vec::new(alloc);
    for row in rows {
        push_name(&mut names, row.route)?;
    }
    Ok(names)
}
