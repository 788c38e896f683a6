//! What splits, bypasses or merges routes.

ghost use Rattle.lrs_machine.specs.Sound.{IsSound};
ghost use Rattle.lrs_image.specs.OpenLists.{image_of};

use crate::fault::DraftFault;
use crate::ground::free_length;
use crate::keys::SheetWriter;
use crate::marks::{counted_from, push_marks, with_mark};
use crate::routes::{free_name, is_free, mark_at, route_named};
use lrs_element::{Mark, Piece};
use lrs_image::ImageLists;
use lrs_machine::{Chainage, Command, MarkList, PieceList, Place};
use lrs_position::{Route, RouteName};
use std::alloc::Global;

const NO_NAME: DraftFault = DraftFault::Impossible("no name is free for a part of the route");

/// Adds the record that gives a route these marks.
fn add_marks(
    alloc: Global,
    sheet: &mut SheetWriter<'_>,
    route: RouteName,
    marks: Vec<Mark>,
) -> Result<(), DraftFault> {
    let Some(marks) = MarkList::new(marks) else {
        return Err(DraftFault::Impossible(
            "a route has at most 1,000 marks, with measures up to 100,000,000,000",
        ));
    };
    let command = Command::Recalibrate { route, marks };
    sheet.add(alloc, &command)
}

/// Adds the record that sets marks on the line of a route, where they are not there: no measure changes by that.
fn add_cuts(
    alloc: Global,
    sheet: &mut SheetWriter<'_>,
    route: &Route,
    first: Mark,
    second: Mark,
) -> Result<(), DraftFault> {
    let marks = route.marks.list();
    let one = with_mark(alloc, marks, first)?;
    let both = with_mark(alloc, one.as_slice(), second)?;
    if both.len() == marks.len() {
        return Ok(());
    }
    add_marks(alloc, sheet, route.name, both)
}

/// Adds the record that ends a route at a mark, and names what lies behind.
fn add_split(
    alloc: Global,
    sheet: &mut SheetWriter<'_>,
    route: RouteName,
    at: u64,
    name: RouteName,
) -> Result<(), DraftFault> {
    let Some(at) = Chainage::new(at) else {
        return Err(DraftFault::Impossible("a place is behind the end of the route"));
    };
    sheet.add(alloc, &Command::Split { route, at, name })
}

fn add_join(
    alloc: Global,
    sheet: &mut SheetWriter<'_>,
    first: RouteName,
    second: RouteName,
) -> Result<(), DraftFault> {
    sheet.add(alloc, &Command::Join { first, second })
}

/// Adds the record that makes a route over pieces, from one mark's measure to that of another.
fn add_route(
    alloc: Global,
    sheet: &mut SheetWriter<'_>,
    name: RouteName,
    pieces: &[Piece],
    length: u64,
    from: u64,
    to: u64,
) -> Result<(), DraftFault> {
    let ends = [
        Mark {
            chainage: 0,
            measure: from,
        },
        Mark {
            chainage: length,
            measure: to,
        },
    ];
    let marks = MarkList::new(Vec::from_slice(alloc, &ends)?);
    let pieces = PieceList::new(Vec::from_slice(alloc, pieces)?);
    match (pieces, marks) {
        (Some(pieces), Some(marks)) => sheet.add(
            alloc,
            &Command::Route {
                name,
                pieces,
                marks,
            },
        ),
        _ => Err(DraftFault::Impossible("the new road is too long for a route")),
    }
}

/// Adds the records that end a route at a place, and make a route of what lies behind.
///
/// # Errors
/// `Impossible` where there is no such route, the new name is taken, or no mark can be set at the place; and `Memory`.
pub(crate) fn write_split(
    alloc: Global,
    sheet: &mut SheetWriter<'_>,
    kept: &ImageLists,
    name: &RouteName,
    place: Place,
    new: &RouteName,
) -> Result<(), DraftFault>
    requires sound { IsSound (image_of kept.now) }
{
    let route = route_named(kept, name)?;
    if !is_free(kept, new) {
        return Err(DraftFault::Impossible("NEW is a route already"));
    }
    let cut = mark_at(route, place)?;
    if cut.chainage == 0 || cut.chainage == route.length() {
        return Err(DraftFault::Impossible(
            "PLACE is an end of the route: there is nothing to split off",
        ));
    }
    add_cuts(alloc, sheet, route, cut, cut)?;
    add_split(alloc, sheet, *name, cut.chainage, *new)
}

/// A bypass: where the old road begins and ends on the route, over which pieces the new one runs, how long it is, and how the
/// old one is called.
#[derive(Clone, Copy)]
struct Bypass<'a> {
    route: &'a Route,
    from: Mark,
    to: Mark,
    pieces: &'a [Piece],
    length: u64,
    old: RouteName,
}

impl<'a> Bypass<'a> {
    /// Whether the old road is at the start of the route.
    fn is_at_start(&self) -> bool {
        self.from.chainage == 0
    }

    /// Whether the old road is at the end of the route.
    fn is_at_end(&self) -> bool {
        self.to.chainage == self.route.length()
    }

    /// Adds the records that make a route of its own of the old road, and of what lies behind it.
    fn add_parts(
        &self,
        alloc: Global,
        sheet: &mut SheetWriter<'_>,
        rest: RouteName,
    ) -> Result<(), DraftFault> {
        let route = self.route.name;
        let name = self.old;
        if self.is_at_start() {
            if !self.is_at_end() {
                add_split(alloc, sheet, route, self.to.chainage, rest)?;
            }
            return sheet.add(alloc, &Command::Renumber { route, name });
        }
        add_split(alloc, sheet, route, self.from.chainage, name)?;
        if self.is_at_end() {
            return Ok(());
        }
        let length = self.to.chainage.saturating_sub(self.from.chainage);
        add_split(alloc, sheet, name, length, rest)
    }

    /// Adds the records that lead the route over the new road, and then over what lies behind it. The new road has the
    /// measures of the old one, so that those behind it stay.
    fn add_new_road(
        &self,
        alloc: Global,
        sheet: &mut SheetWriter<'_>,
        part: RouteName,
        rest: RouteName,
    ) -> Result<(), DraftFault> {
        let route = self.route.name;
        let (from, to) = (self.from.measure, self.to.measure);
        let name = if self.is_at_start() { route } else { part };
        add_route(alloc, sheet, name, self.pieces, self.length, from, to)?;
        if !self.is_at_start() {
            add_join(alloc, sheet, route, part)?;
        }
        if self.is_at_end() {
            return Ok(());
        }
        add_join(alloc, sheet, route, rest)
    }

    /// Adds the record by which the measures of the old road count from 0, where they do not.
    fn add_old_marks(&self, alloc: Global, sheet: &mut SheetWriter<'_>) -> Result<(), DraftFault> {
        if self.from.measure == 0 {
            return Ok(());
        }
        let one = with_mark(alloc, self.route.marks.list(), self.from)?;
        let both = with_mark(alloc, one.as_slice(), self.to)?;
        let marks = counted_from(alloc, both.as_slice(), self.from, self.to.chainage)?;
        add_marks(alloc, sheet, self.old, marks)
    }
}

/// Adds the records that lead a route over new pieces from one place to another, and make a route of the old road.
///
/// # Errors
/// `Impossible` where there is no such route, the name of the old road is taken, no mark can be set at the places, or the
/// new road has no free ground; and `Memory`.
pub(crate) fn write_bypass(
    alloc: Global,
    sheet: &mut SheetWriter<'_>,
    kept: &ImageLists,
    name: &RouteName,
    from: Place,
    to: Place,
    pieces: &PieceList,
    old: &RouteName,
) -> Result<(), DraftFault>
    requires sound { IsSound (image_of kept.now) }
{
    let route = route_named(kept, name)?;
    if !is_free(kept, old) {
        return Err(DraftFault::Impossible("OLD is a route already"));
    }
    let from = mark_at(route, from)?;
    let to = mark_at(route, to)?;
    if from.chainage >= to.chainage {
        return Err(DraftFault::Impossible("FROM is not before TO on the route"));
    }
    let pieces = pieces.as_slice();
    let length = free_length(kept, pieces)?;
    let Some(part) = free_name(alloc, kept, &[*old])? else {
        return Err(NO_NAME);
    };
    let Some(rest) = free_name(alloc, kept, &[*old, part])? else {
        return Err(NO_NAME);
    };
    let bypass = Bypass {
        route,
        from,
        to,
        pieces,
        length,
        old: *old,
    };
    add_cuts(alloc, sheet, route, from, to)?;
    bypass.add_parts(alloc, sheet, rest)?;
    bypass.add_new_road(alloc, sheet, part, rest)?;
    bypass.add_old_marks(alloc, sheet)
}

/// Whether a name stands more than once.
fn is_repeated(routes: &[RouteName], name: &RouteName) -> bool {
    routes.iter().filter(|other| **other == *name).count() > 1
}

/// Adds the records that join routes in their order. Their measures go on; those of a route that begin above the end of the
/// ones before it stay.
///
/// # Errors
/// `Impossible` where a route is not there or is named twice, and `Memory`.
pub(crate) fn write_merge(
    alloc: Global,
    sheet: &mut SheetWriter<'_>,
    kept: &ImageLists,
    routes: &[RouteName],
) -> Result<(), DraftFault>
    requires sound { IsSound (image_of kept.now) }
{
    let [first, others @ ..] = routes else {
        return Err(DraftFault::Impossible("there are no routes to join"));
    };
    let start = route_named(kept, first)?;
    let mut marks = Vec::from_slice(alloc, start.marks.list())?;
    let mut stay = false;
    for name in others {
        if is_repeated(routes, name) {
            return Err(DraftFault::Impossible("a route is named twice"));
        }
        let second = route_named(kept, name)?;
        if push_marks(&mut marks, second.marks.list())? {
            stay = true;
        }
        add_join(alloc, sheet, *first, *name)?;
    }
    if stay {
        add_marks(alloc, sheet, *first, marks)?;
    }
    Ok(())
}
