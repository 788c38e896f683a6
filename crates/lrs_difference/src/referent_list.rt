//! The referents of an inventory, by name.

ghost use Rattle.std.specs.Prelude.{◌≡◌, ◌++◌, [], map, IfOk, OnOk};
ghost use Rattle.std.specs.Ordering.{is_lt};
ghost use Rattle.std.specs.List.{flat_map};
ghost use Rattle.lrs_measure.specs.OrderedLists.{insert_all};
ghost use Rattle.lrs_machine.specs.Image.{referents_on};
ghost use Rattle.lrs_machine.specs.Sound.{IsSound};
ghost use Rattle.lrs_image.specs.OpenLists.{image_of};
ghost use Rattle.lrs_difference.specs.Difference.{referents_in};
ghost use Rattle.lrs_difference.specs.Placed.{HaveNames, entry_of, entry_on, named_before};

use crate::line::Sign;
use crate::merge::Entry;
use crate::text::{write_referent, write_sign};
use lrs_element::Course;
use lrs_image::ImageLists;
use lrs_machine::RouteRow;
use lrs_measure::{Ordered, name_rank};
use lrs_ordered::Chunked;
use lrs_position::{RefName, Referent};
use std::alloc::{AllocError, Global};
use std::cmp::Ordering;
use std::io;
use std::io::Write;

/// A referent, and its millimetre of a link.
#[derive(Clone, Copy)]
pub struct PlacedReferent {
    pub name: RefName,
    pub link: u32,
    pub mm: u32,
}

impl Ordered for PlacedReferent {
    ghost use Rattle.lrs_difference.specs.Placed.{named_before};

    ghost before = { named_before };

    fn is_before(&self, other: &PlacedReferent) -> bool {
        self.name.bytes().cmp(other.name.bytes()).is_lt()
    }

    fn rank(&self) -> u64 {
        name_rank(self.name.bytes())
    }
}

impl Entry for PlacedReferent {
    ghost use Rattle.lrs_difference.specs.Difference.{referent_item};
    ghost use Rattle.lrs_difference.specs.Items.{same_referent};
    ghost use Rattle.lrs_difference.specs.Placed.{entry_of};

    ghost same = { λ a b. same_referent (entry_of a) (entry_of b) };

    ghost item = { λ r. referent_item (entry_of r) };

    fn is_same(&self, other: &PlacedReferent) -> bool {
        self.name == other.name && (self.link == other.link && self.mm == other.mm)
    }

    fn write<W: Write>(&self, writer: &mut W, sign: Sign) -> io::Result<()> {
        write_sign(writer, sign)?;
        write_referent(writer, &self.name, self.link, self.mm)
    }
}

/// Adds a referent of a course.
fn push_referent(
    entries: &mut Vec<PlacedReferent>,
    course: &Course,
    referent: &Referent,
) -> Result<(), AllocError>
    ensures { OnOk result (map entry_of entries.new.items ≡ map entry_of entries.old.items
        ++ entry_on course.now referent.now) }
{
    if course.len() <= referent.at {
        return Ok(());
    }
    let ground = course.ground(referent.at);
    entries.push(PlacedReferent {
        name: referent.name,
        link: ground.link,
        mm: ground.mm,
    })?;
    Ok(())
}

/// Adds the referents of a course.
fn push_referents(
    entries: &mut Vec<PlacedReferent>,
    course: &Course,
    referents: &[Referent],
) -> Result<(), AllocError>
    ensures { OnOk result (map entry_of entries.new.items ≡ map entry_of entries.old.items
        ++ flat_map (entry_on course.now) referents.now) }
{
    for referent in referents {
        push_referent(entries, course, referent)?;
    }
    Ok(())
}

/// Adds the referents of a route.
fn push_route(entries: &mut Vec<PlacedReferent>, row: &RouteRow) -> Result<(), AllocError>
    ensures { OnOk result (map entry_of entries.new.items ≡ map entry_of entries.old.items
        ++ referents_on row.now) }
{
    push_referents(entries, &row.route.course, row.route.refs.as_slice())
}

/// The referents of routes, one route behind the other.
fn gathered(alloc: Global, routes: &Chunked<RouteRow>) -> Result<Vec<PlacedReferent>, AllocError>
    ensures { IfOk result (λ entries. map entry_of entries.items
        ≡ flat_map referents_on routes.now.rows) }
{
    let mut entries = Vec::new(alloc);
    for row in routes.iter() {
        push_route(&mut entries, row)?;
    }
    Ok(entries)
}

/// How two names lie in the order, as a sort asks it.
fn compare(entry: &PlacedReferent, other: &PlacedReferent) -> Ordering
    ensures { is_lt result ≡ named_before entry.now other.now }
{
    entry.name.bytes().cmp(other.name.bytes())
}

/// Sorts referents by name. It takes no memory.
fn sort(entries: &mut Vec<PlacedReferent>)
    requires { HaveNames entries.old.items }
    ensures { entries.new.items ≡ insert_all named_before entries.old.items [] }
{
    entries.sort_unstable_by(|entry, other| compare(entry, other));
}

fn in_chunks(
    alloc: Global,
    entries: Vec<PlacedReferent>,
) -> Result<Chunked<PlacedReferent>, AllocError>
    ensures { IfOk result (λ chunks. chunks.rows ≡ entries.items) }
{
    let mut chunks = Chunked::new(alloc);
    for entry in entries {
        chunks.push(entry)?;
    }
    Ok(chunks)
}

/// The referents of an inventory, by name.
///
/// # Errors
/// When memory runs out.
pub fn referents_by_name(
    alloc: Global,
    kept: &ImageLists,
) -> Result<Chunked<PlacedReferent>, AllocError>
    requires sound { IsSound (image_of kept.now) }
    ensures { IfOk result (λ chunks. map entry_of chunks.rows ≡ referents_in (image_of kept.now)) }
{
    let mut entries = gathered(alloc, &kept.routes)?;
    sort(&mut entries);
    in_chunks(alloc, entries)
}
