//! Diagrams of routes that a question names.

ghost use Rattle.std.specs.Prelude.{◌≡◌, ◌<◌, ◌^◌, Some, map, true, length, IfOk, IfErr, IfSome, IfNone};
ghost use Rattle.lrs_machine.specs.Sound.{IsSound, asset_before, class_before};
ghost use Rattle.lrs_measure.specs.Lists.{each_two};
ghost use Rattle.lrs_image.specs.OpenLists.{image_of};
ghost use Rattle.lrs_report_answers.specs.DrawnRows.{AreAlong, AreChosen, ArePlaced, IsDrawing, IsDrawn, IsDrawnOn, IsStretch, LacksClass, along, class_named, stands_before};
ghost use Rattle.std.specs.List.Sorted.{IsPermutation, IsSortedBy};

use crate::bands::all_bands;
use crate::fault::AskFault;
use crate::route::row_of;
use lrs_element::Course;
use lrs_events::{Class, ClassName};
use lrs_image::ImageLists;
use lrs_machine::{Missing, RouteRow, SegFault};
use lrs_measure::Rows;
use lrs_ordered::Chunked;
use lrs_position::{PlaceFault, Referent, RouteName};
use lrs_report::{Diagram, DrawnPiece, Scale};
use std::alloc::{AllocError, Global};
use std::cmp::Ordering;

/// More classes than any memory has.
const TOO_MANY_CLASSES: usize = 4_294_967_296;

/// The pieces of a course, each where it lies.
fn placed_pieces(alloc: Global, course: &Course) -> Result<Rows<DrawnPiece>, AllocError>
    ensures { IfOk result (ArePlaced course.now) }
{
    let mut placed = Vec::new(alloc);
    let mut from = 0;
    for piece in course.pieces() {
        let to = from + piece.len();
        placed.push(DrawnPiece {
            from,
            to,
            piece: *piece,
        })?;
        from = to;
    }
    Ok(Rows::from_vec(placed))
}

/// How two referents stand along a route: by chainage, and those in one millimetre by name.
fn along(one: &Referent, other: &Referent) -> Ordering
    ensures { result ≡ along one.now other.now }
{
    match one.at.cmp(&other.at) {
        Ordering::Less => Ordering::Less,
        Ordering::Equal => one.name.bytes().cmp(other.name.bytes()),
        Ordering::Greater => Ordering::Greater,
    }
}

/// Sorts referents along their route. It takes no memory.
fn sort_along(referents: &mut Vec<Referent>)
    ensures same { IsPermutation referents.old.items referents.new.items }
    ensures sorted { IsSortedBy stands_before referents.new.items }
{
    referents.sort_unstable_by(|one, other| along(one, other));
}

/// Referents in their order along the route.
fn placed_referents(alloc: Global, referents: &[Referent]) -> Result<Rows<Referent>, AllocError>
    ensures { IfOk result (AreAlong referents.now) }
{
    let mut sorted = Vec::from_slice(alloc, referents)?;
    sort_along(&mut sorted);
    Ok(Rows::from_vec(sorted))
}

fn all_classes(alloc: Global, classes: &Chunked<Class>) -> Result<Vec<Class>, AllocError>
    ensures { IfOk result (λ all. all.items ≡ classes.now.rows) }
{
    let mut all = Vec::new(alloc);
    for class in classes.iter() {
        all.push(*class)?;
    }
    Ok(all)
}

fn class_named(classes: &Chunked<Class>, name: &ClassName) -> Option<Class>
    requires order { each_two class_before classes.now.rows ≡ true }
    ensures { result ≡ class_named classes.now.rows name.now }
{
    match classes.find(name) {
        Some(class) => Some(*class),
        None => None,
    }
}

/// The classes of these names, in their order.
fn named_classes(
    alloc: Global,
    classes: &Chunked<Class>,
    names: &[ClassName],
) -> Result<Vec<Class>, AskFault>
    requires order { each_two class_before classes.now.rows ≡ true }
    ensures known { IfOk result (λ found. map (class_named classes.now.rows) names.now
        ≡ map Some found.items) }
    ensures unknown { IfErr result (LacksClass classes.now.rows names.now) }
{
    let mut found = Vec::new(alloc);
    for at in 0..names.len() {
        let Some(class) = class_named(classes, &names[at]) else {
            return Err(AskFault::Seg(SegFault::NoClass(at as u64)));
        };
        if found.push(class).is_err() {
            return Err(AskFault::Memory);
        }
    }
    Ok(found)
}

/// All classes where none is named, and else those of the names.
fn chosen_classes(
    alloc: Global,
    classes: &Chunked<Class>,
    names: &[ClassName],
) -> Result<Vec<Class>, AskFault>
    requires order { each_two class_before classes.now.rows ≡ true }
    ensures chosen { IfOk result (λ chosen. AreChosen classes.now.rows names.now chosen.items) }
    ensures unknown { IfErr result (LacksClass classes.now.rows names.now) }
{
    if names.is_empty() {
        return Ok(all_classes(alloc, classes)?);
    }
    named_classes(alloc, classes, names)
}

/// The stretch from a chainage to another, if the route has it and it is not empty.
fn scale_of(row: &RouteRow, from: u64, to: u64) -> Option<Scale>
    ensures found { IfSome result (λ s. (s.from ≡ from) × (s.to ≡ to) × IsStretch row.now from to) }
    ensures none { IfNone result (IsStretch row.now from to → ⊥) }
{
    let length = row.route.length();
    if from < to && to <= length {
        return Some(Scale { from, to });
    }
    None
}

/// A stretch of a route, with these classes.
fn draw(
    alloc: Global,
    kept: &ImageLists,
    row: &RouteRow,
    classes: &[Class],
    scale: Scale,
) -> Result<Diagram, AllocError>
    requires order { each_two asset_before kept.now.assets.rows ≡ true }
    requires few { length classes.now < 2 ^ 32 }
    ensures { IfOk result (IsDrawing (image_of kept.now) row.now classes.now scale.from scale.to) }
{
    let marks = Vec::from_slice(alloc, row.route.marks.list())?;
    Ok(Diagram {
        route: row.route.name,
        scale,
        marks: Rows::from_vec(marks),
        referents: placed_referents(alloc, row.route.refs.as_slice())?,
        pieces: placed_pieces(alloc, &row.route.course)?,
        classes: all_bands(alloc, &kept.assets, &row.spans, scale, classes)?,
    })
}

/// A route from a chainage to another, with the classes of these names.
fn draw_on(
    alloc: Global,
    kept: &ImageLists,
    row: &RouteRow,
    names: &[ClassName],
    from: u64,
    to: u64,
) -> Result<Diagram, AskFault>
    requires sound { IsSound (image_of kept.now) }
    ensures { IsDrawnOn (image_of kept.now) row.now names.now from to result }
{
    let classes = chosen_classes(alloc, &kept.classes, names)?;
    let Some(scale) = scale_of(row, from, to) else {
        return Err(AskFault::Place(PlaceFault::OffRoute));
    };
    if classes.len() >= TOO_MANY_CLASSES {
        return Err(AskFault::Memory);
    }
    match draw(alloc, kept, row, classes.as_slice(), scale) {
        Ok(diagram) => Ok(diagram),
        Err(AllocError) => Err(AskFault::Memory),
    }
}

/// A straight-line diagram of the route of a name, from a chainage to another in millimetres, by default from its start to
/// its end: the rows of the classes of these names, or of all where there is no name.
///
/// # Errors
/// `Missing(Route)`, then `Seg` of the first class that is not there (`NoClass`), by its place in `names`, then `OffRoute` where
/// the stretch is empty or ends behind the route, and `Memory`.
pub fn diagram(
    alloc: Global,
    kept: &ImageLists,
    route: &RouteName,
    names: &[ClassName],
    from: Option<u64>,
    to: Option<u64>,
) -> Result<Diagram, AskFault>
    requires sound { IsSound (image_of kept.now) }
    ensures { IsDrawn (image_of kept.now) route.now names.now from to result }
{
    match row_of(kept, route) {
        Some(row) => {
            let to = to.unwrap_or(row.route.length());
            draw_on(alloc, kept, row, names, from.unwrap_or(0), to)
        }
        None => Err(AskFault::Missing(Missing::Route)),
    }
}
