//! Places of a class are taken away, on a side or on both.

ghost use Rattle.std.specs.Prelude.{◌≡◌, ◌&&◌, IsTrue, IfOk, OnOk, OnErr, filter};
ghost use Rattle.lrs_measure.specs.Texts.{same_name};
ghost use Rattle.lrs_events.specs.Members.{has_side};
ghost use Rattle.lrs_events.specs.Spans.{are_rows};
ghost use Rattle.lrs_events.specs.Row.Changes.{IsChange};
ghost use Rattle.lrs_events.specs.Row.Removals.{is_within, IsLess, IsThat, IsRemoval};
ghost use Rattle.lrs_events.specs.RouteSpans.Overlaps.{is_met_asset};
ghost use Rattle.lrs_events.specs.RouteSpans.Plans.{IsPlan};

use crate::rows::removals::Removal;
use crate::rows::sides::cleared_side;
use crate::spans::overlaps;
use crate::spans::spans::Spans;
use crate::{ClassName, Side, Span};
use std::alloc::{AllocError, Global};

impl Spans {
    /// All rows of the assets of a class that have a millimetre from chainage low up to high, in their order.
    fn of_assets_met(
        &self,
        alloc: Global,
        class: ClassName,
        low: u64,
        high: u64,
    ) -> Result<Vec<Span>, AllocError>
        ensures canonical { IsTrue (are_rows self.now) }
        ensures found { IfOk result (λ found. found.items ≡ filter (λ r.
            is_met_asset self.now class low high r.class r.asset) self.now) }
    {
        overlaps::of_assets_met(alloc, self.kept.rows(), self.kept.lanes(), class, low, high)
    }

    /// What changes where what assets of a class hold from chainage low up to high, on a side or on both, is taken
    /// away. What such an asset holds there on the other side stays.
    ///
    /// # Errors
    /// When memory runs out.
    pub fn plan_remove_class_places(
        &self,
        alloc: Global,
        class: ClassName,
        low: u64,
        high: u64,
        side: Side,
    ) -> Result<Removal, AllocError>
        ensures plan { IfOk result (λ removal. IsPlan self.now removal.change) }
        ensures removal { IfOk result (λ removal. IsRemoval (λ c a j s.
            same_name c class && (is_within low high j && has_side side s)) self.now removal) }
    {
        let found = self.of_assets_met(alloc, class, low, high)?;
        let removal = cleared_side(alloc, &found, low, high, side)?;
        Ok(removal)
    }

    /// Takes away what assets of a class hold from chainage low up to high, on a side or on both, and hands it back.
    ///
    /// # Errors
    /// When memory runs out; nothing has changed then.
    pub fn remove_class_places(
        &mut self,
        alloc: Global,
        class: ClassName,
        low: u64,
        high: u64,
        side: Side,
    ) -> Result<Removal, AllocError>
        ensures rest { OnOk result (IsLess (λ c a j s.
            same_name c class && (is_within low high j && has_side side s)) self.old self.new) }
        ensures left { IfOk result (λ removal. IsThat (λ c a j s.
            same_name c class && (is_within low high j
            && has_side side s)) self.old removal.left.items) }
        ensures left_rows { IfOk result (λ removal. IsTrue (are_rows removal.left.items)) }
        ensures change { IfOk result (λ removal.
            IsChange self.old removal.change.gone.items removal.change.come.items self.new) }
        ensures err { OnErr result (self.new ≡ self.old) }
    {
        let removal = self.plan_remove_class_places(alloc, class, low, high, side)?;
        self.apply(&removal.change)?;
        Ok(removal)
    }
}
