//! Where positions are on a route of an inventory, and what lies there.

ghost use Rattle.std.specs.Prelude.{◌≡◌, ◌<◌, ◌≤◌, length, IfOk};
ghost use Rattle.lrs_inventory.specs.Prelude.{alignment_of, places_on, state_of, located_stretch, part_of};
ghost use Rattle.lrs_measure.specs.Fraction.{IsLowest};
ghost use Rattle.lrs_position.specs.Translations.{IsOnRoute};
ghost use Rattle.lrs_machine.specs.Machine.{first_holder, is_empty_stretch};
ghost use Rattle.lrs_inventory.specs.RouteStretches.{cause_of, IsRouteIn, LocatesAs, located_cell, located_end, EndsBy};
ghost use Rattle.lrs_inventory.specs.Plans.{Answers};

use crate::inventory::Inventory;
use crate::plan::Stop;
use lrs_events::{ClassName, Side};
use lrs_machine::{Cause, RouteRow};
use lrs_measure::Frac;
use lrs_position::{EnteredPosition, EventLocation, PlaceFault, cell, locate, snap};
use std::marker::Model;

/// The millimetres of a route from one chainage up to another.
#[derive(Clone, Copy, PartialEq, Eq)]
pub struct RouteStretch {
    from: u64,
    to: u64,
}

impl Model for RouteStretch {
    ghost use Rattle.lrs_machine.specs.Machine.{EventStretch};

    ghost Value = { EventStretch };

    ghost view = { λ stretch. record { from = stretch.from; to = stretch.to } };

    ghost inverse = { λ stretch. record { from = stretch.from; to = stretch.to } };
}

impl RouteStretch {
    /// The chainage at which it begins, in millimetres.
    pub fn from(self) -> u64
        ensures { result ≡ self.from }
    {
        self.from
    }

    /// The chainage at which it ends, in millimetres.
    pub fn to(self) -> u64
        ensures { result ≡ self.to }
    {
        self.to
    }

    /// Whether it has no millimetre.
    pub fn is_empty(self) -> bool
        ensures { result ≡ is_empty_stretch self }
    {
        self.to <= self.from
    }
}

/// The cause that a fault of a position is. A position that is entered is never too fine.
fn cause_of(fault: PlaceFault) -> Cause
    ensures { result ≡ cause_of fault }
{
    match fault {
        PlaceFault::NoRef => Cause::NoRef,
        PlaceFault::TooFine | PlaceFault::OffRoute => Cause::OffRoute,
    }
}

impl Inventory {
    /// The chainage in millimetres that a position locates on a route.
    ///
    /// # Errors
    /// `NoRef` where it counts from a referent that is not on the route, and then `OffRoute`.
    fn located(&self, route_row: &RouteRow, position: EnteredPosition) -> Result<Frac, Stop>
        requires known { IsRouteIn self.now route_row.now }
        ensures answer { LocatesAs (state_of self.now)
            (alignment_of route_row.now.route) position result }
        ensures lowest { IfOk result (λ chainage. IsLowest chainage) }
        ensures on_route { IfOk result (λ chainage.
            IsOnRoute (length route_row.now.route.course) chainage) }
    {
        self.prove_sound();
        match locate(&route_row.route, position.expression()) {
            Ok(chainage) => Ok(chainage),
            Err(fault) => Err(Stop::Refused(cause_of(fault))),
        }
    }

    /// The millimetre of a route that a position stands in.
    ///
    /// # Errors
    /// Those of `located`.
    pub fn cell(&self, route_row: &RouteRow, position: EnteredPosition) -> Result<u64, Stop>
        requires known { IsRouteIn self.now route_row.now }
        ensures answer { Answers (located_cell (state_of self.now)
            (alignment_of route_row.now.route)
            (length route_row.now.route.course) position) result }
        ensures within { IfOk result (λ at. at < length route_row.now.route.course) }
    {
        let chainage = self.located(route_row, position)?;
        Ok(cell(chainage, route_row.route.length()))
    }

    /// The whole millimetre of a route's chainage that a position goes to where a stretch begins or ends.
    ///
    /// # Errors
    /// Those of `located`.
    pub fn end(&self, route_row: &RouteRow, position: EnteredPosition) -> Result<u64, Stop>
        requires known { IsRouteIn self.now route_row.now }
        ensures answer { Answers (located_end (state_of self.now)
            (alignment_of route_row.now.route) position) result }
        ensures within { IfOk result (λ at. at ≤ length route_row.now.route.course) }
    {
        let chainage = self.located(route_row, position)?;
        Ok(snap(chainage))
    }

    /// Over which millimetres of a route an event at a location lies: a point over the one that it stands in,
    /// a stretch between its snapped ends. It may have none.
    ///
    /// # Errors
    /// Those of `located`, of its first position and then of its end.
    pub fn stretch(
        &self,
        route_row: &RouteRow,
        location: EventLocation,
    ) -> Result<RouteStretch, Stop>
        requires known { IsRouteIn self.now route_row.now }
        ensures answer { Answers (located_stretch (state_of self.now)
            (alignment_of route_row.now.route) location) result }
        ensures within { IfOk result (λ stretch. EndsBy (length route_row.now.route.course) stretch) }
    {
        match location.to() {
            None => {
                let at = self.cell(route_row, location.from())?;
                Ok(RouteStretch {
                    from: at,
                    to: at + 1,
                })
            }
            Some(end) => {
                let from = self.end(route_row, location.from())?;
                let to = self.end(route_row, end)?;
                Ok(RouteStretch { from, to })
            }
        }
    }

    /// The least asset of a class that holds a place of a stretch of a route, on a side that it shares with
    /// this one.
    pub fn first_holder(
        &self,
        route_row: &RouteRow,
        class: ClassName,
        stretch: RouteStretch,
        side: Side,
    ) -> Option<u64>
        requires known { IsRouteIn self.now route_row.now }
        requires filled { stretch.from < stretch.to }
        requires within { EndsBy (length route_row.now.route.course) stretch }
        ensures { result ≡ first_holder (state_of self.now) class
            (places_on side (part_of route_row.now.route.course stretch)) }
    {
        self.prove_sound();
        route_row.spans.over(stretch.from, stretch.to, class, side)
    }
}
