//! What is found of spans by place and by asset.

ghost use Rattle.std.specs.Prelude.{◌≡◌, ◌<◌, ◌&&◌, nat_le, nat_lt, true, IsTrue, IfOk, filter};
ghost use Rattle.lrs_measure.specs.Lists.{each_two};
ghost use Rattle.lrs_events.specs.declared.span.Span.{Span as DeclaredSpan};
ghost use Rattle.lrs_events.specs.Changes.{has_row};
ghost use Rattle.lrs_events.specs.Spans.{are_rows};
ghost use Rattle.lrs_events.specs.Row.Removals.{is_met};
ghost use Rattle.lrs_events.specs.Row.Members.{is_of, is_free};
ghost use Rattle.lrs_events.specs.LaneLists.Order.{place_before};
ghost use Rattle.lrs_events.specs.RouteSpans.Search.{AreNear, IsOver};
ghost use Rattle.lrs_events.specs.RouteSpans.LanesOfRows.{is_on};

use crate::spans::spans::Spans;
use crate::spans::{overlaps, search};
use crate::{ClassName, LinkSide, Side, Span};
use lrs_measure::limits::LONGEST_ROUTE;
use std::alloc::{AllocError, Global};

impl Spans {
    /// The least asset of the class with a millimetre of the stretch, from chainage `from` up to `to`, on a side
    /// that it shares with `side`; None where nobody has one, as on an empty stretch.
    pub fn over(&self, from: u64, to: u64, class: ClassName, side: Side) -> Option<u64>
        ensures { IsOver self.now class from to side result }
    {
        if from < to {
            search::over(self.kept.rows(), self.kept.lanes(), from, to, class, side)
        } else {
            None
        }
    }

    /// The rows of the class with this side of the route or both, each once, by start and then by asset.
    pub fn lane(&self, class: ClassName, side: LinkSide) -> &[Span]
        ensures rows { (r : DeclaredSpan) → has_row result.now r
            ≡ (has_row self.now r && is_on class side r) }
        ensures order { each_two place_before result.now ≡ true }
    {
        search::lane_of(self.kept.rows(), self.kept.lanes(), class, side)
    }

    /// Rows of the class with this side of the route or both, in the order of `lane`: all that have a millimetre from
    /// chainage `from` up to `to`, and few others.
    pub fn near(&self, class: ClassName, side: LinkSide, from: u64, to: u64) -> &[Span]
        ensures { AreNear self.now class side from to result.now }
    {
        search::near(self.kept.rows(), self.kept.lanes(), class, side, from, to)
    }

    /// Whether a span can be added: its asset has no other class, and nothing yet of its millimetres.
    pub fn is_free(&self, span: &Span) -> bool
        ensures { result ≡ is_free self.now span.now }
    {
        search::is_free(self.kept.rows(), self.kept.lanes(), span)
    }

    /// The rows of an asset of the class, by start.
    pub fn asset_rows(&self, class: ClassName, asset: u64) -> &[Span]
        ensures canonical { IsTrue (are_rows self.now) }
        ensures rows { result.now ≡ filter (is_of class asset) self.now }
    {
        search::asset_rows(self.kept.rows(), class, asset)
    }

    /// The rows with a millimetre from chainage low up to high, in their order.
    ///
    /// # Errors
    /// When memory runs out.
    pub fn met(&self, alloc: Global, low: u64, high: u64) -> Result<Vec<Span>, AllocError>
        ensures canonical { IsTrue (are_rows self.now) }
        ensures found { IfOk result (λ found. found.items ≡ filter (is_met low high) self.now) }
    {
        overlaps::met(alloc, self.kept.rows(), self.kept.lanes(), low, high)
    }

    /// The rows over the millimetre that begins at a chainage, by asset number.
    ///
    /// # Errors
    /// When memory runs out.
    pub fn at(&self, alloc: Global, j: u64) -> Result<Vec<Span>, AllocError>
        ensures rows { IfOk result (λ found. (r : DeclaredSpan)
            → has_row found.items r ≡ (has_row self.now r && (nat_le r.from j && nat_lt j r.to))) }
        ensures order { IfOk result (λ found. each_two (λ r s. nat_lt r.asset s.asset) found.items
            ≡ true) }
    {
        overlaps::at(alloc, self.kept.rows(), self.kept.lanes(), j)
    }

    /// The rows that end behind a chainage, in their order.
    ///
    /// # Errors
    /// When memory runs out.
    pub(crate) fn behind(&self, alloc: Global, at: u64) -> Result<Vec<Span>, AllocError>
        ensures canonical { IsTrue (are_rows self.now) }
        ensures found { IfOk result (λ found. found.items ≡ filter (λ r. nat_lt at r.to) self.now) }
    {
        let found = self.met(alloc, at, LONGEST_ROUTE)?;
        Ok(found)
    }
}
