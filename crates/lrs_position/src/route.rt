//! Routes: linear elements made of links, with their marks and referents.

ghost use Rattle.std.specs.Prelude.{◌≡◌, ◌<◌, ◌≤◌, length, IsTrue, IfOk};
ghost use Rattle.lrs_measure.specs.Limits.{longest_route};
ghost use Rattle.lrs_element.specs.Marks.{last_mark};
ghost use Rattle.lrs_position.specs.Routes.{is_route};

use crate::name::{RefName, RouteName};
use lrs_element::{Course, Marks};
use lrs_measure::{Keyed, Ordered, Rows, name_rank};
use std::alloc::{AllocError, Global};
use std::cmp;

/// A known place on a route (ISO 19148, referent): it stands in the millimetre `at` of chainage.
#[derive(Clone, Copy, PartialEq, Eq)]
pub struct Referent {
    pub name: RefName,
    pub at: u64,
}

/// A route: the ground that it runs over, its measure line and its referents.
///
/// It is not empty, its marks end at its length, and its referents stand on it, sorted by name.
#[derive(Drop)]
pub struct Route {
    pub name: RouteName,
    pub course: Course,
    pub marks: Marks,
    pub refs: Rows<Referent>,
    pub ghost fits: { IsTrue (is_route course marks refs) },
}

impl Route {
    ghost use Rattle.lrs_position.specs.Translations.{referent_at};

    /// Its length in millimetres, which is where its marks end.
    pub fn length(&self) -> u64
        ensures length { result ≡ length self.now.course }
        ensures end { (last_mark self.now.marks).chainage ≡ length self.now.course }
        ensures positive { 0 < result }
        ensures longest { result ≤ longest_route }
    {
        match self.marks.list() {
            [.., last] => last.chainage,
            [] => 0,
        }
    }

    /// In which millimetre the referent of a name stands, where it is on this route.
    pub fn referent(&self, name: RefName) -> Option<u64>
        ensures { result ≡ referent_at self.now.refs name }
    {
        self.refs
            .as_slice()
            .iter()
            .find(|referent| referent.name == name)
            .map(|referent| referent.at)
    }

    /// An equal route.
    ///
    /// # Errors
    /// When memory runs out.
    pub fn copy(&self, alloc: Global) -> Result<Route, AllocError>
        ensures { IfOk result (λ route. route ≡ self.now) }
    {
        Ok(Route {
            name: self.name,
            course: self.course.copy()?,
            marks: self.marks.copy()?,
            refs: self.refs.copy(alloc)?,
        })
    }
}

impl Ordered for Referent {
    ghost use Rattle.lrs_position.specs.Routes.{referent_before};

    ghost before = { referent_before };

    fn is_before(&self, other: &Referent) -> bool {
        self.name.bytes().cmp(other.name.bytes()).is_lt()
    }

    fn rank(&self) -> u64 {
        name_rank(self.name.bytes())
    }
}

impl Keyed<RefName> for Referent {
    ghost use Rattle.lrs_measure.specs.Texts.{name_cmp};
    ghost use Rattle.lrs_measure.specs.KeyOrder.{name_after};

    ghost key_order = { λ referent name. name_cmp referent.name name };

    fn cmp_key(&self, name: &RefName) -> cmp::Ordering {
        self.name.bytes().cmp(name.bytes())
    }

    fn key_rank(name: &RefName) -> u64 {
        name_rank(name.bytes())
    }

    ghost rises = { λ a b n before from. name_after a.name b.name n before from };
}
