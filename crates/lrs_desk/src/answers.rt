//! What is asked of a desk. Each question is answered from the image, and changes nothing. Once a commit of
//! several commands has failed none is: the image may then be ahead of all that is ever kept. `at` alone ends with any
//! failed commit.

ghost use Rattle.std.specs.Prelude.{◌≡◌, ◌↔◌, IsTrue, Err, false};
ghost use Rattle.lrs_report_answers.specs.Answers.{IsAt};
ghost use Rattle.lrs_report_answers.specs.AssetStretches.{IsFound};
ghost use Rattle.lrs_report_answers.specs.RouteSegments.{IsSegmented};
ghost use Rattle.lrs_report_answers.specs.ToldAnswers.{AreTotals, IsTold, IsTranslated};
ghost use Rattle.lrs_machine.specs.Image.{state_of};

use crate::desk::Desk;
use lrs_events::{ClassName, Side};
use lrs_image::Keeper;
use lrs_machine::{Question, Total};
use lrs_measure::Rows;
use lrs_position::{Expr, RouteName, Target};
use lrs_report_answers::{AskFault, AtAnswer, FoundRow, RouteSegments, Told, tell};

impl<K: Keeper> Desk<K> {
    /// The millimetre of a route in which a position stands, and who holds it, by asset number (ISO 19148: located event).
    ///
    /// # Errors
    ///
    /// `MustReopen` once any commit has failed; then `Missing(Route)`, and then what the position expression is refused for.
    pub fn at(&self, route: &RouteName, expression: Expr) -> Result<AtAnswer, AskFault>
        ensures reopen { (result ≡ Err AskFault.MustReopen) ↔ IsTrue self.now.must_reopen }
        ensures answer { self.now.must_reopen ≡ false
            → IsAt (state_of self.now.image) route.now expression result }
    {
        if self.must_reopen() {
            return Err(AskFault::MustReopen);
        }
        lrs_report_answers::at(self.alloc(), self.inventory().kept(), route, expression)
    }

    /// Where an asset lies: its rows by route name and start.
    ///
    /// # Errors
    ///
    /// `MustReopen` once a commit of several commands has failed; then `Missing(Asset)` where no asset has this number.
    pub fn find(&self, asset: u64) -> Result<Rows<FoundRow>, AskFault>
        ensures reopen { (result ≡ Err AskFault.MustReopen) ↔ IsTrue self.now.is_ahead }
        ensures answer { self.now.is_ahead ≡ false
            → IsFound (state_of self.now.image) asset result }
    {
        if self.is_ahead() {
            return Err(AskFault::MustReopen);
        }
        lrs_report_answers::find(self.alloc(), self.inventory(), asset)
    }

    /// The segments of a route by these exclusive classes, on one side of it (ISO 19148: linear segment), each of which is made
    /// where it is taken.
    ///
    /// # Errors
    ///
    /// `MustReopen` once a commit of several commands has failed; then `Missing(Route)`, and then those of the classes and of the side.
    pub fn segments(
        &self,
        route: &RouteName,
        wanted: &[ClassName],
        side: Side,
    ) -> Result<RouteSegments<'_>, AskFault>
        ensures reopen { (result ≡ Err AskFault.MustReopen) ↔ IsTrue self.now.is_ahead }
        ensures answer { self.now.is_ahead ≡ false
            → IsSegmented (state_of self.now.image) route.now wanted.now side result }
    {
        if self.is_ahead() {
            return Err(AskFault::MustReopen);
        }
        lrs_report_answers::segments(self.alloc(), self.inventory().kept(), route, wanted, side)
    }

    /// What was entered, retired and abandoned of each class, and what of it is present, by class name, in side
    /// millimetres.
    ///
    /// # Errors
    ///
    /// `MustReopen` once a commit of several commands has failed; else when memory runs out.
    pub fn totals(&self) -> Result<Rows<Total>, AskFault>
        ensures reopen { (result ≡ Err AskFault.MustReopen) ↔ IsTrue self.now.is_ahead }
        ensures answer { self.now.is_ahead ≡ false
            → AreTotals (state_of self.now.image) result }
    {
        if self.is_ahead() {
            return Err(AskFault::MustReopen);
        }
        self.inventory().prove_sound();
        self.counts().totals(self.alloc())
    }

    /// A position on a route by another method (ISO 19148: translation of a position expression).
    ///
    /// # Errors
    ///
    /// `MustReopen` once a commit of several commands has failed; then `Missing(Route)`, and then what the position expression or its translation is
    /// refused for.
    pub fn translate(
        &self,
        route: &RouteName,
        expression: Expr,
        target: Target,
    ) -> Result<Expr, AskFault>
        ensures reopen { (result ≡ Err AskFault.MustReopen) ↔ IsTrue self.now.is_ahead }
        ensures answer { self.now.is_ahead ≡ false
            → IsTranslated (state_of self.now.image) route.now expression target result }
    {
        if self.is_ahead() {
            return Err(AskFault::MustReopen);
        }
        lrs_report_answers::translate(self.inventory().kept(), route, expression, target)
    }

    /// Answers a question of any kind, and changes nothing.
    ///
    /// # Errors
    ///
    /// `MustReopen` once a commit of several commands has failed; else those of `lrs_report_answers::tell`.
    pub fn ask(&self, question: Question) -> Result<Told<'_>, AskFault>
        ensures reopen { (result ≡ Err AskFault.MustReopen) ↔ IsTrue self.now.is_ahead }
        ensures answer { self.now.is_ahead ≡ false → IsTold self.now.image question result }
    {
        if self.is_ahead() {
            return Err(AskFault::MustReopen);
        }
        tell(self.alloc(), self.inventory(), self.counts(), question)
    }
}
