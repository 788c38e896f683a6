//! What is looked up in an inventory, in the words of the ground machine.

ghost use Rattle.std.specs.Prelude.{IfSome, ◌⊎◌, ◌≡◌, ◌+◌, ℕ, OnOk};
ghost use Rattle.std.specs.List.{find, position};
ghost use Rattle.std.specs.Option.{option_map};
ghost use Rattle.lrs_inventory.specs.Prelude.{state_of, asset_entry, route_entry, is_named, Name, expand};
ghost use Rattle.lrs_machine.specs.Machine.{place_of_key, line_at, is_taken};
ghost use Rattle.lrs_machine.specs.Register.{get};
ghost use Rattle.lrs_position.specs.Index.MetRoutes.{IsAmong, RunsBetween};
ghost use Rattle.lrs_inventory.specs.Changes.{route_on};
ghost use Rattle.lrs_inventory.specs.NewCourses.{new_course};
ghost use Rattle.lrs_inventory.specs.Plans.{Answers};

use crate::inventory::Inventory;
use crate::link_rows::LinkRows;
use crate::plan::Stop;
use lrs_element::{Course, CourseFault, Piece};
use lrs_events::{Asset, ClassName, Kind};
use lrs_machine::{Cause, Edit, Key, RouteRow};
use lrs_position::{RefName, RouteName};
use std::alloc::{AllocError, Global};
use std::collections::BTreeSet;

impl Inventory {
    /// The length in millimetres of the link of a number.
    pub fn link_length(&self, number: u32) -> Option<u32>
        ensures { result ≡ get (state_of self.now).links number }
    {
        match self.kept.links.find(&number) {
            Some(link) => Some(link.length),
            None => None,
        }
    }

    /// The kind of the class of a name.
    pub fn class(&self, name: &ClassName) -> Option<Kind>
        ensures { result ≡ get (state_of self.now).classes name.now }
    {
        match self.kept.classes.find(name) {
            Some(class) => Some(class.kind),
            None => None,
        }
    }

    /// The asset of a number.
    pub fn asset(&self, number: u64) -> Option<Asset>
        ensures { option_map asset_entry result ≡ option_map (λ asset.
            (number, asset)) (get (state_of self.now).assets number) }
    {
        match self.kept.assets.find(&number) {
            Some(asset) => Some(*asset),
            None => None,
        }
    }

    /// The route of a name, with what lies on it.
    pub fn route(&self, name: &RouteName) -> Option<&RouteRow>
        ensures row { option_map (λ row. row.now) result
            ≡ find (is_named name.now) self.now.routes }
        ensures route { option_map (λ row. route_entry row.now) result ≡ option_map (λ route.
            (name.now, route)) (get (state_of self.now).routes name.now) }
    {
        self.kept.routes.find(name)
    }

    /// On which link and in which of its millimetres the referent of a name stands.
    pub fn referent(&self, name: &RefName) -> Option<(u32, u32)>
        ensures { result ≡ (state_of self.now).referents name.now }
    {
        self.indexes.referents.find(name)
    }

    /// The edit of a key, with its number, which counts from 1.
    pub fn edit_of_key(&self, key: &Key) -> Option<(u64, &Edit)>
        ensures number { option_map (λ found. found.0) result ≡ option_map (λ place.
            place + 1) (place_of_key key.now (state_of self.now).done) }
        ensures line { IfSome result (λ found. (place : ℕ) → found.0 ≡ place + 1
            → found.1.now.line ≡ line_at place (state_of self.now).done) }
    {
        match self.indexes.keys.find(key, self.kept.edits.as_slice()) {
            Some(place) => Some((place + 1, &self.kept.edits[place as usize])),
            None => None,
        }
    }

    /// The route that runs over a millimetre of a link.
    pub fn route_over(&self, link: u32, mm: u32) -> Option<RouteName>
        ensures { result ≡ route_on self.now.routes (link, mm) }
    {
        self.indexes.ground.route_over(link, mm)
    }

    /// Adds the routes that run over a millimetre of a link, from one edge of it up to another, to those found before.
    ///
    /// # Errors
    /// When memory runs out; some of the routes may have been added then.
    pub fn routes_over(
        &self,
        link: u32,
        from: u32,
        to: u32,
        found: &mut BTreeSet<RouteName>,
    ) -> Result<(), AllocError>
        ensures met { OnOk result ((route : Name) → RunsBetween
            (route_on self.now.routes) link from to route → IsAmong route found.new) }
        ensures kept { (route : Name) → IsAmong route found.old → IsAmong route found.new }
        ensures only { (route : Name) → IsAmong route found.new → IsAmong route found.old
            ⊎ RunsBetween (route_on self.now.routes) link from to route }
    {
        self.indexes.ground.routes_over(link, from, to, found)
    }

    /// The first piece of which a route runs over a millimetre.
    pub fn first_taken(&self, pieces: &[Piece]) -> Option<usize>
        ensures { result ≡ position (λ p. is_taken (state_of self.now) (expand p)) pieces.now }
    {
        self.indexes.ground.first_taken(pieces)
    }

    /// The course of pieces, over the links that are known.
    ///
    /// # Errors
    /// Those of `Course::new`.
    pub fn course(&self, alloc: Global, pieces: &[Piece]) -> Result<Course, Stop>
        ensures { Answers (new_course (state_of self.now) pieces.now) result }
    {
        let links = LinkRows {
            rows: &self.kept.links,
        };
        match Course::new(alloc, pieces, &links) {
            Ok(course) => Ok(course),
            Err(CourseFault::NoLink(_)) => Err(Stop::Refused(Cause::NoLink)),
            Err(CourseFault::BadPiece(i)) => Err(Stop::Refused(Cause::BadPiece(i as u64))),
            Err(CourseFault::Twice(i)) => Err(Stop::Refused(Cause::Taken(i as u64))),
            Err(CourseFault::TooLong) => Err(Stop::Refused(Cause::TooLong)),
            Err(CourseFault::Memory) => Err(Stop::Memory),
        }
    }
}
