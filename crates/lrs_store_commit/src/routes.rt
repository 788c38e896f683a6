//! Routes that change, go and come.

ghost use Rattle.std.specs.Prelude.{Some};
ghost use Rattle.lrs_store_tables.specs.StoredRows.{Makes, Changes};
ghost use Rattle.lrs_store_tables.specs.RowChanges.{without_route, renamed_route};
ghost use Rattle.lrs_store_tables.specs.Writes.{MakesOf, with_some, new_pieces, new_marks, changed_refs, changed_spans, changed_line, changed_route, new_route};

use crate::delete::{RemovedFrom, drop_marks, drop_pieces};
use crate::insert_lists::InsertedInto;
use crate::lists::write_all;
use crate::update::{Renaming, rename_marks, rename_pieces};
use lrs_element::{Course, Marks};
use lrs_image::{ReferentChange, RouteChange, RouteKeys};
use lrs_machine::RouteRow;
use lrs_position::RouteName;
use sqlite::{Alter, Error, Transaction};

/// Puts other pieces of a route.
fn put_new_pieces<S: Alter>(
    tx: &mut Transaction<'_, S>,
    route: &RouteName,
    course: &Course,
) -> Result<(), Error>
    ensures { Changes S.Store (MakesOf (Some course.now) (with_some (new_pieces route.now)))
        tx.old tx.new result }
{
    drop_pieces(tx, route)?;
    let coming = InsertedInto { route: *route };
    write_all(tx, &coming, course.pieces())
}

/// Puts other pieces of a route, where its course changes.
fn replace_pieces<S: Alter>(
    tx: &mut Transaction<'_, S>,
    route: &RouteName,
    course: &Option<Course>,
) -> Result<(), Error>
    ensures { Changes S.Store (MakesOf course.now (with_some (new_pieces route.now))) tx.old tx.new result }
{
    match course {
        Some(course) => put_new_pieces(tx, route, course),
        None => Ok(()),
    }
}

/// Puts other marks of a route.
fn put_new_marks<S: Alter>(
    tx: &mut Transaction<'_, S>,
    route: &RouteName,
    marks: &Marks,
) -> Result<(), Error>
    ensures { Changes S.Store (Makes (new_marks route.now marks.now)) tx.old tx.new result }
{
    drop_marks(tx, route)?;
    let coming = InsertedInto { route: *route };
    write_all(tx, &coming, marks.list())
}

/// Puts other marks of a route, where they change.
fn replace_marks<S: Alter>(
    tx: &mut Transaction<'_, S>,
    route: &RouteName,
    marks: &Option<Marks>,
) -> Result<(), Error>
    ensures { Changes S.Store (Makes (with_some (new_marks route.now) marks.now)) tx.old tx.new result }
{
    match marks {
        Some(marks) => put_new_marks(tx, route, marks),
        None => Ok(()),
    }
}

/// Deletes the removed referents and puts the inserted ones.
fn change_refs<S: Alter>(
    tx: &mut Transaction<'_, S>,
    route: &RouteName,
    refs: &ReferentChange,
) -> Result<(), Error>
    ensures { Changes S.Store (Makes (changed_refs route.now refs.now)) tx.old tx.new result }
{
    let going = RemovedFrom { route: *route };
    write_all(tx, &going, refs.gone.as_slice())?;
    let coming = InsertedInto { route: *route };
    write_all(tx, &coming, refs.come.as_slice())
}

/// Deletes the removed spans and puts the inserted ones.
fn change_spans<S: Alter>(tx: &mut Transaction<'_, S>, change: &RouteChange) -> Result<(), Error>
    ensures { Changes S.Store (Makes (changed_spans change.now)) tx.old tx.new result }
{
    let going = RemovedFrom {
        route: change.route,
    };
    write_all(tx, &going, change.spans_gone.as_slice())?;
    let coming = InsertedInto {
        route: change.route,
    };
    write_all(tx, &coming, change.spans_come.as_slice())
}

/// A route gets its new name, with what lies on it.
fn rename_route<S: Alter>(
    tx: &mut Transaction<'_, S>,
    route: &RouteName,
    name: &RouteName,
    keys: &RouteKeys,
) -> Result<(), Error>
    ensures { Changes S.Store (Makes (renamed_route route.now name.now keys.now)) tx.old tx.new result }
{
    rename_pieces(tx, route, name)?;
    rename_marks(tx, route, name)?;
    let renaming = Renaming {
        route: *route,
        name: *name,
    };
    write_all(tx, &renaming, keys.refs.as_slice())?;
    write_all(tx, &renaming, keys.spans.as_slice())
}

/// A route gets its new name, if it has one.
fn rename_if_new<S: Alter>(
    tx: &mut Transaction<'_, S>,
    route: &RouteName,
    name: &RouteName,
    keys: &RouteKeys,
) -> Result<(), Error>
    ensures { Changes S.Store (Makes (renamed_route route.now name.now keys.now)) tx.old tx.new result }
{
    if route == name {
        return Ok(());
    }
    rename_route(tx, route, name, keys)
}

/// Puts other pieces and marks of a route, where they change.
fn change_line<S: Alter>(tx: &mut Transaction<'_, S>, change: &RouteChange) -> Result<(), Error>
    ensures { Changes S.Store (MakesOf change.now.course (changed_line change.now)) tx.old tx.new result }
{
    replace_pieces(tx, &change.route, &change.course)?;
    replace_marks(tx, &change.route, &change.marks)
}

/// A route that stays changes, with what lies on it.
pub fn change_route<S: Alter>(
    tx: &mut Transaction<'_, S>,
    change: &RouteChange,
) -> Result<(), Error>
    ensures { Changes S.Store (MakesOf change.now.course (changed_route change.now)) tx.old tx.new result }
{
    change_line(tx, change)?;
    change_refs(tx, &change.route, &change.refs)?;
    change_spans(tx, change)?;
    rename_if_new(tx, &change.route, &change.name, &change.keys)
}

/// A route goes, with what lies on it.
pub fn drop_route<S: Alter>(
    tx: &mut Transaction<'_, S>,
    route: &RouteName,
    keys: &RouteKeys,
) -> Result<(), Error>
    ensures { Changes S.Store (Makes (without_route route.now keys.now)) tx.old tx.new result }
{
    drop_pieces(tx, route)?;
    drop_marks(tx, route)?;
    let going = RemovedFrom { route: *route };
    write_all(tx, &going, keys.refs.as_slice())?;
    write_all(tx, &going, keys.spans.as_slice())
}

/// A route comes, with what lies on it.
pub fn put_route<S: Alter>(tx: &mut Transaction<'_, S>, route_row: &RouteRow) -> Result<(), Error>
    ensures { Changes S.Store (MakesOf (Some route_row.now.route.course) (new_route route_row.now))
        tx.old tx.new result }
{
    let route = &route_row.route;
    let coming = InsertedInto { route: route.name };
    write_all(tx, &coming, route.course.pieces())?;
    write_all(tx, &coming, route.marks.list())?;
    write_all(tx, &coming, route.refs.as_slice())?;
    write_all(tx, &coming, route_row.spans.rows())
}
