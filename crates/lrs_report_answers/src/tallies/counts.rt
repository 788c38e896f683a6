//! Running totals of each class.

ghost use Rattle.std.specs.Prelude.{◌≡◌, ◌≤◌, true, drop, length, IfOk, OnOk, Option};
ghost use Rattle.lrs_measure.specs.Lists.{each_two};
ghost use Rattle.lrs_measure.specs.Texts.{name_before};
ghost use Rattle.lrs_report_answers.specs.Answers.{UnlessMemory};
ghost use Rattle.lrs_report_answers.specs.Totals.{totals_of};
ghost use Rattle.lrs_machine.specs.declared.image.Image.{Image as ImageRows};
ghost use Rattle.lrs_machine.specs.Image.{state_of};
ghost use Rattle.lrs_machine.specs.Sound.{IsSound, asset_before};
ghost use Rattle.lrs_image.specs.OpenLists.{image_of};
ghost use Rattle.lrs_report_answers.specs.Tally.RunningCounts.{HasRoom, IsBehind, IsCounted};
ghost use Rattle.lrs_report_answers.specs.Tally.Counts.{names_of, with_entered, with_gone};

use crate::AskFault;
use crate::tallies::tally::{Count, add_entered, add_gone, no_counts, put_some_class, totals_of};
use lrs_events::Class;
use lrs_image::ImageLists;
use lrs_machine::Total;
use lrs_measure::Rows;
use std::alloc::{AllocError, Global};

/// What has been entered, retired and abandoned of each class so far, and how many rows of each ledger that counts.
/// They grow by the rows of each edit, so that no question goes over the ledgers.
#[derive(Drop)]
pub struct Counts {
    /// By class name.
    classes: Vec<Count>,
    entered: usize,
    gone: usize,
}

impl Counts {
    /// The counts of an image, by one pass over both ledgers.
    ///
    /// # Errors
    /// When memory runs out.
    pub fn of_image(alloc: Global, kept: &ImageLists) -> Result<Counts, AllocError>
        requires sound { IsSound (image_of kept.now) }
        ensures { IfOk result (IsCounted (image_of kept.now)) }
    {
        let mut counts = Counts {
            classes: no_counts(alloc, &kept.classes)?,
            entered: 0,
            gone: 0,
        };
        counts.count_rows(kept);
        Ok(counts)
    }

    /// Drops them. As a call of this crate it is one step to prove for a caller.
    pub fn discard(self) {
        drop(self);
    }

    /// Makes room for the count of one more class. What is counted stays.
    ///
    /// # Errors
    /// When memory runs out.
    pub fn reserve(&mut self) -> Result<(), AllocError>
        ensures same { (i : ImageRows) → IsCounted i self.old → IsCounted i self.new }
        ensures room { OnOk result (HasRoom self.new) }
    {
        self.classes.reserve(1)
    }

    /// Counts what the last change of the image brought: its new class, and the rows behind those that are
    /// counted. It takes no memory and cannot fail.
    pub fn catch_up(&mut self, kept: &ImageLists, class: Option<Class>)
        requires room { HasRoom self.old }
        requires behind { IsBehind (image_of kept.now) class self.old }
        ensures { IsCounted (image_of kept.now) self.new }
    {
        put_some_class(&mut self.classes, &class);
        self.count_rows(kept);
    }

    // Counts the rows of both ledgers behind those that are counted.
    fn count_rows(&mut self, kept: &ImageLists)
        requires order { each_two name_before (names_of self.old.classes.items) ≡ true }
        requires assets { each_two asset_before (image_of kept.now).assets ≡ true }
        requires entered { self.old.entered ≤ length (image_of kept.now).entered }
        requires gone { self.old.gone ≤ length (image_of kept.now).gone }
        ensures classes { self.new.classes.items ≡ with_gone (image_of kept.now).assets
            (drop self.old.gone (image_of kept.now).gone)
            (with_entered (image_of kept.now).assets
            (drop self.old.entered (image_of kept.now).entered) self.old.classes.items) }
        ensures entered { self.new.entered ≡ length (image_of kept.now).entered }
        ensures gone { self.new.gone ≡ length (image_of kept.now).gone }
    {
        let entered = &kept.entered.as_slice()[self.entered..];
        let gone = &kept.gone.as_slice()[self.gone..];
        add_entered(&mut self.classes, &kept.assets, entered);
        add_gone(&mut self.classes, &kept.assets, gone);
        self.entered = kept.entered.len();
        self.gone = kept.gone.len();
    }

    /// What was entered, retired and abandoned of each class, and what of it is present, in side millimetres: every class
    /// has one total, in the order of their names, also where there is nothing of it.
    ///
    /// # Errors
    /// `Memory` alone.
    pub fn totals(&self, alloc: Global) -> Result<Rows<Total>, AskFault>
        ensures { (i : ImageRows) → IsSound i → IsCounted i self.now
            → UnlessMemory (λ totals. totals ≡ totals_of (state_of i)) result }
    {
        match totals_of(alloc, &self.classes) {
            Ok(totals) => Ok(Rows::from_vec(totals)),
            Err(AllocError) => Err(AskFault::Memory),
        }
    }
}
