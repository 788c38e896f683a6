//! The ground millimetres of referents, found by their names.

ghost use Rattle.std.specs.FinMap as map;
ghost use Rattle.std.specs.Prelude.{◌≡◌, OnOk, OnErr, IfOk, [], ◌∷◌, None, if◌then◌else◌};
ghost use Rattle.std.specs.List.{filter_map, list_any};
ghost use Rattle.lrs_inventory.specs.Prelude.{Name, same_name, referent_entry};
ghost use Rattle.lrs_inventory.specs.Changes.{with_referent, without_referent};
ghost use Rattle.lrs_inventory.specs.Places.{referent_among, IsPlaced, HaveCome};

use crate::plan::ReferentPlace;
use lrs_element::Course;
use lrs_machine::RouteRow;
use lrs_position::{RefName, Referent};
use std::alloc::{AllocError, Global};
use std::collections::BTreeMap;
use std::marker::Model;

/// For each of some referents the number of the link on which it stands, and the millimetre there. A referent
/// stays on its ground whatever becomes of its route's name, extent and direction.
#[derive(Drop)]
pub struct ReferentIndex {
    places: BTreeMap<RefName, (u32, u32)>,
}

impl Model for ReferentIndex {
    ghost use Rattle.std.specs.FinMap as map;
    ghost use Rattle.std.specs.Coded.{coded_list, coded_ℕ, coded×};
    ghost use Rattle.lrs_inventory.specs.Places.{Places};

    ghost Value = { Places };

    ghost coded = { map.code (coded_list coded_ℕ) (coded× coded_ℕ coded_ℕ) };

    ghost view = { λ a. map.from_entries a.places.entries };
}

impl ReferentIndex {
    /// Without referents. It takes no memory.
    pub fn new(alloc: Global) -> ReferentIndex
        ensures { result ≡ map.empty }
    {
        ReferentIndex {
            places: BTreeMap::new(alloc),
        }
    }

    /// The referents of routes. Of two of one name, which no sound image has, it is the first.
    ///
    /// # Errors
    /// When memory runs out.
    pub fn of_routes(alloc: Global, routes: &[RouteRow]) -> Result<ReferentIndex, AllocError>
        ensures { IfOk result (λ places. IsPlaced places (referent_among routes.now)) }
    {
        let mut places = ReferentIndex::new(alloc);
        for route_row in routes {
            places.add_all(&route_row.route.course, route_row.route.refs.as_slice())?;
        }
        Ok(places)
    }

    /// Puts the referents of a course in.
    fn add_all(&mut self, course: &Course, referents: &[Referent]) -> Result<(), AllocError>
        ensures { OnOk result (HaveCome self.old self.new
            (filter_map (referent_entry course.now) referents.now)) }
    {
        for referent in referents {
            self.add(course, *referent)?;
        }
        Ok(())
    }

    /// Puts a referent of a course in, if its name is new.
    fn add(&mut self, course: &Course, referent: Referent) -> Result<(), AllocError>
        ensures { OnOk result (HaveCome self.old self.new
            (filter_map (referent_entry course.now) (referent ∷ []))) }
    {
        if course.len() <= referent.at {
            return Ok(());
        }
        if self.find(&referent.name).is_some() {
            return Ok(());
        }
        let ground = course.ground(referent.at);
        self.insert(referent.name, (ground.link, ground.mm))?;
        Ok(())
    }

    /// On which link and in which of its millimetres the referent of a name stands.
    pub fn find(&self, name: &RefName) -> Option<(u32, u32)>
        ensures { result ≡ map.get self.now name.now }
    {
        self.places.get(name).copied()
    }

    /// Puts a referent on a millimetre of a link.
    ///
    /// # Errors
    /// When memory runs out; the referents are then as they were.
    pub fn insert(&mut self, name: RefName, place: (u32, u32)) -> Result<(), AllocError>
        ensures ok { OnOk result (self.new ≡ map.insert self.old name place) }
        ensures err { OnErr result (self.new ≡ self.old) }
    {
        self.places.insert(name, place)?;
        Ok(())
    }

    /// Takes a referent out. It takes no memory.
    pub fn remove(&mut self, name: &RefName)
        ensures { self.new ≡ map.remove self.old name.now }
    {
        self.places.remove(name);
    }

    /// Puts a referent in, if there is one.
    ///
    /// # Errors
    /// When memory runs out; the referents are then as they were.
    pub fn put_in(&mut self, come: &Option<ReferentPlace>) -> Result<(), AllocError>
        ensures ok { OnOk result ((name : Name) → map.get self.new name
            ≡ with_referent come.now (map.get self.old) name) }
        ensures err { OnErr result (self.new ≡ self.old) }
    {
        if let Some(referent) = come {
            self.insert(referent.name, (referent.link, referent.mm))?;
        }
        Ok(())
    }

    /// Takes a referent out, if there is one. It takes no memory.
    pub fn take_out(&mut self, come: &Option<ReferentPlace>)
        ensures { (name : Name) → map.get self.new name
            ≡ without_referent come.now (map.get self.old) name }
    {
        if let Some(referent) = come {
            self.remove(&referent.name);
        }
    }

    /// Takes the referents of these names out. It takes no memory.
    pub fn remove_all(&mut self, names: &[RefName])
        ensures { (name : Name) → map.get self.new name
            ≡ (if list_any (same_name name) names.now then None else map.get self.old name) }
    {
        for name in names {
            self.remove(name);
        }
    }
}
