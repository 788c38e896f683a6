//! The spans of a route while they are open for a change.

ghost use Rattle.std.specs.Prelude.{◌≡◌, IsTrue, IfOk, OnOk, true, []};
ghost use Rattle.lrs_measure.specs.Lists.{each_two};
ghost use Rattle.lrs_events.specs.Changes.{changed};
ghost use Rattle.lrs_events.specs.Spans.{are_rows, span_before};
ghost use Rattle.lrs_events.specs.RouteSpans.OpenRows.{HasRoom};
ghost use Rattle.lrs_events.specs.RouteSpans.LanesOfRows.{AreTied};

use crate::spans::lanes::{ClassLanes, add_classes, change_lanes, make_lanes_room};
use crate::{RowOrder, Span, change_in_room};
use std::alloc::{AllocError, Global};
use std::marker::Model;

/// The rows of a route and their lanes, in which room can be made before anything changes.
#[derive(Drop)]
pub struct OpenSpans {
    rows: Vec<Span>,
    lanes: Vec<ClassLanes>,
    // The rows that are inserted into one lane, while the lanes change.
    picked: Vec<Span>,
}

impl Model for OpenSpans {
    ghost use Rattle.std.specs.Prelude.{◌+◌, length, min, vec_capacity};
    ghost use Rattle.lrs_events.specs.RouteSpans.OpenRows.{Opened};

    ghost Value = { Opened };

    ghost use Rattle.lrs_events.specs.RouteSpans.LanesOfRows.{AreKept};

    ghost view = { λ spans. record { rows = spans.rows.items; room = min (vec_capacity spans.rows) (length spans.rows.items + vec_capacity spans.picked); lanes = spans.lanes.items } };

    ghost invariant = { λ spans. AreKept spans.rows.items spans.lanes.items };
}

impl OpenSpans {
    /// The spans of a route on which nothing lies. It takes no memory.
    pub fn empty(alloc: Global) -> OpenSpans
        ensures { result.rows ≡ [] }
    {
        OpenSpans {
            rows: Vec::new(alloc),
            lanes: Vec::new(alloc),
            picked: Vec::new(alloc),
        }
    }

    /// The spans of a route with these canonical rows.
    ///
    /// # Errors
    /// When memory runs out.
    pub fn of_rows(alloc: Global, rows: Vec<Span>) -> Result<OpenSpans, AllocError>
        requires { IsTrue (are_rows rows.items) }
        ensures { IfOk result (λ spans. spans.rows ≡ rows.items) }
    {
        let mut spans = OpenSpans::empty(alloc);
        spans.make_room(&rows)?;
        spans.change(&[], &rows);
        Ok(spans)
    }

    /// Spans with equal rows.
    ///
    /// # Errors
    /// When memory runs out.
    pub fn copy(&self, alloc: Global) -> Result<OpenSpans, AllocError>
        ensures { IfOk result (λ spans. spans.rows ≡ self.now.rows) }
    {
        OpenSpans::of_rows(alloc, Vec::from_slice(alloc, self.rows())?)
    }

    /// The rows in their order.
    pub fn rows(&self) -> &[Span]
        ensures rows { result.now ≡ self.now.rows }
        ensures canonical { IsTrue (are_rows self.now.rows) }
    {
        self.rows.as_slice()
    }

    /// The lanes.
    pub(crate) fn lanes(&self) -> &[ClassLanes]
        ensures lanes { result.now ≡ self.now.lanes }
        ensures canonical { IsTrue (are_rows self.now.rows) }
        ensures tied { AreTied self.now.rows self.now.lanes }
    {
        // For the prover alone: what its contract says is known from here on.
        let _rows = &self.rows;
        self.lanes.as_slice()
    }

    /// Makes room for a change by which these rows come. The rows stay as they are, whatever comes of it.
    ///
    /// # Errors
    /// When memory runs out.
    pub fn make_room(&mut self, come: &[Span]) -> Result<(), AllocError>
        ensures rows { self.new.rows ≡ self.old.rows }
        ensures ok { OnOk result (HasRoom come.now self.new) }
    {
        let more = come.len();
        self.rows.reserve(more)?;
        self.picked.reserve(more)?;
        add_classes(&mut self.lanes, come)?;
        make_lanes_room(&mut self.lanes, come)
    }

    /// Takes out the removed rows, which are sorted by class, asset and start, and puts the inserted ones in their
    /// places. There is room for them, so that it takes no memory and cannot fail.
    pub fn change(&mut self, gone: &[Span], come: &[Span])
        requires room { HasRoom come.now self.old }
        requires gone { each_two span_before gone.now ≡ true }
        requires canonical { IsTrue
            (are_rows (changed span_before gone.now come.now self.old.rows)) }
        ensures { self.new.rows ≡ changed span_before gone.now come.now self.old.rows }
    {
        change_lanes(&mut self.lanes, gone, come, &mut self.picked);
        // Its memory is not needed from here on.
        self.picked = Vec::new(*self.rows.allocator());
        change_in_room(RowOrder::ByAsset, &mut self.rows, gone, come);
    }
}
