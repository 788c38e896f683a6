//! Plans: what a call would change. Each reads the rows and changes nothing.

ghost use Rattle.std.specs.Prelude.{◌≡◌, ◌≤◌, ◌&&◌, nat_eq, nat_lt, IsTrue, IfOk, filter};
ghost use Rattle.lrs_measure.specs.Texts.{same_name};
ghost use Rattle.lrs_measure.specs.Limits.{longest_route};
ghost use Rattle.lrs_events.specs.Changes.{changed_rows};
ghost use Rattle.lrs_events.specs.Spans.{are_rows, is_row};
ghost use Rattle.lrs_events.specs.Row.Cuts.{IsCut};
ghost use Rattle.lrs_events.specs.Row.Joins.{end_by, have_room, are_of_one_class, IsJoin};
ghost use Rattle.lrs_events.specs.Row.Members.{is_free, IsMore};
ghost use Rattle.lrs_events.specs.Row.Removals.{is_within, IsRemoval};
ghost use Rattle.lrs_events.specs.Row.Turns.{IsTurned};
ghost use Rattle.lrs_events.specs.RouteSpans.Plans.{IsPlan};

use crate::rows::addition::added;
use crate::rows::cuts::{Cut, cut_at};
use crate::rows::joins::joined;
use crate::rows::removals::{Removal, cleared};
use crate::rows::turns::turned;
use crate::spans::spans::Spans;
use crate::{ClassName, Span, SpanChange};
use std::alloc::{AllocError, Global};

impl Spans {
    /// What adding a span changes. The span's asset may have no other class, and nothing yet of its
    /// millimetres.
    ///
    /// # Errors
    /// When memory runs out.
    pub fn plan_add(&self, alloc: Global, span: Span) -> Result<SpanChange, AllocError>
        requires row { IsTrue (is_row span) }
        requires free { IsTrue (is_free self.now span) }
        ensures plan { IfOk result (λ change. IsPlan self.now change) }
        ensures more { IfOk result (λ change. IsMore self.now span (changed_rows change self.now)) }
    {
        added(alloc, self.rows(), span)
    }

    /// What changes where everything from chainage low up to high is taken away.
    ///
    /// # Errors
    /// When memory runs out.
    pub fn plan_remove_within(
        &self,
        alloc: Global,
        low: u64,
        high: u64,
    ) -> Result<Removal, AllocError>
        ensures plan { IfOk result (λ removal. IsPlan self.now removal.change) }
        ensures removal { IfOk result (λ removal. IsRemoval (λ class asset j s.
            is_within low high j) self.now removal) }
    {
        let found = self.met(alloc, low, high)?;
        let removal = cleared(alloc, &found, low, high)?;
        Ok(removal)
    }

    /// What changes where everything of an asset from chainage low up to high is taken away.
    ///
    /// # Errors
    /// When memory runs out.
    pub fn plan_remove_asset_within(
        &self,
        alloc: Global,
        class: ClassName,
        asset: u64,
        low: u64,
        high: u64,
    ) -> Result<Removal, AllocError>
        ensures plan { IfOk result (λ removal. IsPlan self.now removal.change) }
        ensures removal { IfOk result (λ removal. IsRemoval (λ c a j s.
            same_name c class && nat_eq a asset && is_within low high j) self.now removal) }
    {
        let found = self.asset_rows(class, asset);
        let removal = cleared(alloc, found, low, high)?;
        Ok(removal)
    }

    /// What changes where the route ends at a chainage, and the rows behind it, which begin at 0 again.
    ///
    /// # Errors
    /// When memory runs out.
    pub fn plan_cut(&self, alloc: Global, at: u64) -> Result<Cut, AllocError>
        ensures plan { IfOk result (λ cut. IsPlan self.now cut.change) }
        ensures rear { IfOk result (λ cut. IsTrue (are_rows cut.rear.items)) }
        ensures cut { IfOk result (λ cut. IsCut at self.now
            (changed_rows cut.change self.now) cut.rear.items) }
    {
        let found = self.behind(alloc, at)?;
        let cut = cut_at(alloc, &found, at)?;
        Ok(cut)
    }

    /// What changes where the route goes on as another does, whose rows come `shift` millimetres further on.
    ///
    /// # Errors
    /// When memory runs out.
    pub fn plan_concat(
        &self,
        alloc: Global,
        other: &Spans,
        shift: u64,
    ) -> Result<SpanChange, AllocError>
        requires ends { IsTrue (end_by shift self.now) }
        requires room { IsTrue (have_room shift other.now) }
        requires one_class { IsTrue (are_of_one_class self.now other.now) }
        ensures plan { IfOk result (λ change. IsPlan self.now change) }
        ensures joined { IfOk result (λ change. IsJoin shift self.now other.now
            (changed_rows change self.now)) }
    {
        joined(alloc, self.rows(), other.rows(), shift)
    }

    /// The spans seen from the other end of a route of this length, in millimetres: chainages are counted from
    /// there, left is right and right is left.
    ///
    /// # Errors
    /// When memory runs out.
    pub fn turned(&self, alloc: Global, len: u64) -> Result<Spans, AllocError>
        requires ends { IsTrue (end_by len self.now) }
        requires len { len ≤ longest_route }
        ensures { IfOk result (λ turned. IsTurned len self.now turned) }
    {
        Spans::of_rows(alloc, turned(alloc, self.rows(), len)?)
    }
}
