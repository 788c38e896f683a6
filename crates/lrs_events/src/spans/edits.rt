//! Changes of what lies on a route: each is planned, room is made for it, and then it is made.

ghost use Rattle.std.specs.Prelude.{◌≡◌, ◌&&◌, nat_eq, IsTrue, IfOk, OnOk, OnErr};
ghost use Rattle.lrs_measure.specs.Texts.{same_name};
ghost use Rattle.lrs_events.specs.Spans.{are_rows, is_row};
ghost use Rattle.lrs_events.specs.Row.Changes.{IsChange};
ghost use Rattle.lrs_events.specs.Row.Cuts.{IsCut};
ghost use Rattle.lrs_events.specs.Row.Joins.{end_by, have_room, are_of_one_class, IsJoin};
ghost use Rattle.lrs_events.specs.Row.Members.{is_free, IsMore};
ghost use Rattle.lrs_events.specs.Row.Removals.{is_within, IsLess, IsThat};

use crate::rows::cuts::Cut;
use crate::rows::removals::Removal;
use crate::spans::spans::Spans;
use crate::{ClassName, Span, SpanChange};
use std::alloc::{AllocError, Global};

impl Spans {
    /// Adds a span. Its asset may have no other class, and nothing yet of its millimetres. It answers which
    /// rows went and which came.
    ///
    /// # Errors
    /// When memory runs out; nothing has changed then.
    pub fn add(&mut self, alloc: Global, span: Span) -> Result<SpanChange, AllocError>
        requires row { IsTrue (is_row span) }
        requires free { IsTrue (is_free self.old span) }
        ensures more { OnOk result (IsMore self.old span self.new) }
        ensures change { IfOk result (λ change.
            IsChange self.old change.gone.items change.come.items self.new) }
        ensures err { OnErr result (self.new ≡ self.old) }
    {
        let change = self.plan_add(alloc, span)?;
        self.apply(&change)?;
        Ok(change)
    }

    /// Takes away everything from chainage low up to high, and hands it back: nothing of an empty stretch.
    ///
    /// # Errors
    /// When memory runs out; nothing has changed then.
    pub fn remove_within(
        &mut self,
        alloc: Global,
        low: u64,
        high: u64,
    ) -> Result<Removal, AllocError>
        ensures rest { OnOk result (IsLess (λ class asset j s.
            is_within low high j) self.old self.new) }
        ensures left { IfOk result (λ removal. IsThat (λ class asset j s.
            is_within low high j) self.old removal.left.items) }
        ensures left_rows { IfOk result (λ removal. IsTrue (are_rows removal.left.items)) }
        ensures change { IfOk result (λ removal.
            IsChange self.old removal.change.gone.items removal.change.come.items self.new) }
        ensures err { OnErr result (self.new ≡ self.old) }
    {
        let removal = self.plan_remove_within(alloc, low, high)?;
        self.apply(&removal.change)?;
        Ok(removal)
    }

    /// Takes away everything of an asset of a class from chainage low up to high, and hands it back: nothing of an
    /// empty stretch.
    ///
    /// # Errors
    /// When memory runs out; nothing has changed then.
    pub fn remove_asset_within(
        &mut self,
        alloc: Global,
        class: ClassName,
        asset: u64,
        low: u64,
        high: u64,
    ) -> Result<Removal, AllocError>
        ensures rest { OnOk result (IsLess (λ c a j s.
            same_name c class && nat_eq a asset && is_within low high j) self.old self.new) }
        ensures left { IfOk result (λ removal. IsThat (λ c a j s.
            same_name c class && nat_eq a asset
            && is_within low high j) self.old removal.left.items) }
        ensures left_rows { IfOk result (λ removal. IsTrue (are_rows removal.left.items)) }
        ensures change { IfOk result (λ removal.
            IsChange self.old removal.change.gone.items removal.change.come.items self.new) }
        ensures err { OnErr result (self.new ≡ self.old) }
    {
        let removal = self.plan_remove_asset_within(alloc, class, asset, low, high)?;
        self.apply(&removal.change)?;
        Ok(removal)
    }

    /// Ends the route at a chainage, and hands back the rows behind it, which begin at 0 again.
    ///
    /// # Errors
    /// When memory runs out; nothing has changed then.
    pub fn cut(&mut self, alloc: Global, at: u64) -> Result<(Spans, SpanChange), AllocError>
        ensures parts { IfOk result (λ rear. IsCut at self.old self.new rear.0) }
        ensures change { IfOk result (λ rear.
            IsChange self.old rear.1.gone.items rear.1.come.items self.new) }
        ensures err { OnErr result (self.new ≡ self.old) }
    {
        let Cut { rear, change } = self.plan_cut(alloc, at)?;
        let rear = Spans::of_rows(alloc, rear)?;
        self.apply(&change)?;
        Ok((rear, change))
    }

    /// Lets the route go on as another does, whose rows come `shift` millimetres further on. A row that ends
    /// at the seam and one that goes on with it are one row.
    ///
    /// # Errors
    /// When memory runs out; nothing has changed then.
    pub fn concat(
        &mut self,
        alloc: Global,
        other: &Spans,
        shift: u64,
    ) -> Result<SpanChange, AllocError>
        requires ends { IsTrue (end_by shift self.old) }
        requires room { IsTrue (have_room shift other.now) }
        requires one_class { IsTrue (are_of_one_class self.old other.now) }
        ensures joined { OnOk result (IsJoin shift self.old other.now self.new) }
        ensures change { IfOk result (λ change.
            IsChange self.old change.gone.items change.come.items self.new) }
        ensures err { OnErr result (self.new ≡ self.old) }
    {
        let change = self.plan_concat(alloc, other, shift)?;
        self.apply(&change)?;
        Ok(change)
    }
}
