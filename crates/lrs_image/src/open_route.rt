//! A route that is open for a change.

ghost use Rattle.std.specs.Prelude.{◌≡◌, IfOk, OnOk, OnErr, unwrap_or, true, filter, not};
ghost use Rattle.std.specs.List.{list_any};
ghost use Rattle.lrs_measure.specs.Lists.{each_two};
ghost use Rattle.lrs_measure.specs.Texts.{same_name};
ghost use Rattle.lrs_position.specs.Routes.{referent_before};
ghost use Rattle.lrs_image.specs.Change.{changed_refs, entry_after, CanBecome};
ghost use Rattle.lrs_image.specs.OpenLists.{row_of_open, IsReadyFor};

use crate::change::{ReferentChange, RouteChange};
use crate::lists::{chunks_of, rows_of};
use lrs_events::{OpenSpans, Spans};
use lrs_machine::RouteRow;
use lrs_measure::Rows;
use lrs_ordered::Chunked;
use lrs_position::{RefName, Referent, Route};
use std::alloc::{AllocError, Global};

/// A route out of its place, with room for what changes on it.
#[derive(Drop)]
pub struct OpenRoute {
    pub route: Route,
    // Its referents from after the change, where they change.
    pub refs_after: Option<Rows<Referent>>,
    pub spans: OpenSpans,
}

impl OpenRoute {
    /// Opens a route. It takes no memory.
    pub fn open(route_row: RouteRow) -> OpenRoute
        ensures { row_of_open result ≡ route_row }
    {
        OpenRoute {
            route: route_row.route,
            refs_after: None,
            spans: route_row.spans.open(),
        }
    }

    /// The route as it is. It takes no memory.
    pub fn close(self) -> RouteRow
        ensures { result ≡ row_of_open self }
    {
        RouteRow {
            route: self.route,
            spans: Spans::close(self.spans),
        }
    }

    /// Makes room for a change. The route stays as it is, whatever comes of it.
    ///
    /// # Errors
    /// When memory runs out.
    pub fn make_room(&mut self, alloc: Global, change: &RouteChange) -> Result<(), AllocError>
        requires { CanBecome change.now (row_of_open self.old) }
        ensures route_row { row_of_open self.new ≡ row_of_open self.old }
        ensures ready { OnOk result (IsReadyFor change.now self.new) }
    {
        self.spans.make_room(change.spans_come.as_slice())?;
        self.refs_after = refs_after(alloc, &self.route, &change.refs)?;
        Ok(())
    }

    /// The route after a change for which it is ready. It takes no memory.
    pub fn finish(self, change: RouteChange) -> RouteRow
        requires ready { IsReadyFor change self }
        requires can { CanBecome change (row_of_open self) }
        ensures { result ≡ entry_after change (row_of_open self) }
    {
        let OpenRoute {
            route,
            refs_after,
            mut spans,
        } = self;
        spans.change(change.spans_gone.as_slice(), change.spans_come.as_slice());
        let route = Route {
            name: change.name,
            course: change.course.unwrap_or(route.course),
            marks: change.marks.unwrap_or(route.marks),
            refs: refs_after.unwrap_or(route.refs),
        };
        RouteRow {
            route,
            spans: Spans::close(spans),
        }
    }
}

/// The referents of a route after a change, or nothing where they stay.
fn refs_after(
    alloc: Global,
    route: &Route,
    change: &ReferentChange,
) -> Result<Option<Rows<Referent>>, AllocError>
    requires order { each_two referent_before (changed_refs change.now route.now.refs) ≡ true }
    ensures { IfOk result (λ after. unwrap_or after route.now.refs
        ≡ changed_refs change.now route.now.refs) }
{
    if change.gone.is_empty() && change.come.is_empty() {
        return Ok(None);
    }
    let copied = route.refs.copy(alloc)?;
    let come = change.come.copy(alloc)?;
    let mut refs = chunks_of(alloc, copied.into_vec())?;
    refs.reserve(come.len())?;
    remove_named(&mut refs, change.gone.as_slice());
    refs.insert_all_ordered(come.into_vec());
    let after = rows_of(alloc, &refs)?;
    Ok(Some(after))
}

/// Takes the referents of these names out.
fn remove_named(refs: &mut Chunked<Referent>, names: &[RefName])
    requires order { each_two referent_before refs.old.rows ≡ true }
    ensures refs { refs.new.rows ≡ filter (λ r. not
        (list_any (same_name r.name) names.now)) refs.old.rows }
    ensures room { refs.new.room ≡ refs.old.room }
{
    for name in names {
        refs.remove(name);
    }
}
