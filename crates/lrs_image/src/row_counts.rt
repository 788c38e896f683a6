//! How many rows a change lists.

ghost use Rattle.std.specs.Prelude.{◌≡◌, ◌+◌, ◌-◌, ◌^◌, length, min};
ghost use Rattle.lrs_element.specs.Course.{piece_count};
ghost use Rattle.lrs_image.specs.Change.{changed_rows, key_rows, made_rows, mark_rows, piece_rows, rows_of};

use crate::change::{Difference, RouteChange, RouteKeys};
use lrs_element::{Course, Marks};
use lrs_machine::RouteRow;

impl Difference {
    /// How many rows the difference lists, by the lengths of its lists: pieces, marks, referents and spans of routes, and
    /// parts of both ledgers.
    pub fn rows(&self) -> u64
        ensures { result ≡ min (rows_of self.now) (2 ^ 64 - 1) }
    {
        let routes = rows_changed(&self.changed).saturating_add(rows_made(&self.made));
        let ledgers = self.entered.len().saturating_add(self.gone.len());
        let others = rows_under(&self.keys).saturating_add(ledgers);
        routes.saturating_add(others) as u64
    }
}

fn pieces_of(course: &Course) -> usize
    ensures { result ≡ piece_count course.now }
{
    course.pieces().len()
}

fn pieces_of_some(course: &Option<Course>) -> usize
    ensures { result ≡ piece_rows course.now }
{
    match course {
        Some(course) => pieces_of(course),
        None => 0,
    }
}

fn marks_of_some(marks: &Option<Marks>) -> usize
    ensures { result ≡ mark_rows marks.now }
{
    match marks {
        Some(marks) => marks.list().len(),
        None => 0,
    }
}

/// How many rows lie under these keys.
fn rows_under(keys: &RouteKeys) -> usize
    ensures { result ≡ min (key_rows keys.now) (2 ^ 64 - 1) }
{
    keys.refs.len().saturating_add(keys.spans.len())
}

/// How many referents and spans of a route go and come.
fn listed(route: &RouteChange) -> usize
    ensures { result ≡ min (length route.now.refs.gone + length route.now.refs.come
        + length route.now.spans_gone + length route.now.spans_come) (2 ^ 64 - 1) }
{
    let refs = route.refs.gone.len().saturating_add(route.refs.come.len());
    let spans = route
        .spans_gone
        .len()
        .saturating_add(route.spans_come.len());
    refs.saturating_add(spans)
}

/// How many rows a route that stays has listed.
fn rows_changed(changed: &Option<RouteChange>) -> usize
    ensures { result ≡ min (changed_rows changed.now) (2 ^ 64 - 1) }
{
    match changed {
        Some(route) => {
            let line = pieces_of_some(&route.course).saturating_add(marks_of_some(&route.marks));
            let lists = rows_under(&route.keys).saturating_add(listed(route));
            line.saturating_add(lists)
        }
        None => 0,
    }
}

/// How many rows a route that comes has.
fn rows_made(made: &Option<RouteRow>) -> usize
    ensures { result ≡ min (made_rows made.now) (2 ^ 64 - 1) }
{
    match made {
        Some(row) => {
            let line = pieces_of(&row.route.course).saturating_add(row.route.marks.list().len());
            let lists = row.route.refs.len().saturating_add(row.spans.rows().len());
            line.saturating_add(lists)
        }
        None => 0,
    }
}
