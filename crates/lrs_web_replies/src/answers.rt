//! Answers as the bytes of JSON texts.

ghost use Rattle.std.specs.Prelude.{◌≡◌, ◌++◌, false, map, IfOk, OnOk};
ghost use Rattle.serde_json.specs.Data.{Data, object};
ghost use Rattle.serde_json.specs.View.{members_view, view};
ghost use Rattle.serde_json.specs.Written.{compact_text, has_float};
ghost use Rattle.lrs_web_replies.specs.Listings.{named_list};
ghost use Rattle.lrs_report_answers.specs.Answers.{direction_text};
ghost use Rattle.lrs_web_replies.specs.Answers.{at_data, ShowsRoute, segments_data, translated_data, on_link_data, health_data, lengths_data, totals_data, whereabouts_data, found_data, error_data};
ghost use Rattle.lrs_web_replies.specs.Parts.{segments_end, segments_front};
ghost use Rattle.lrs_machine.specs.Lines.{method_text};

use crate::list::Shown;
use crate::list_text::{add_name, add_segment_list, add_text, add_value, begin};
use crate::members::{Member, Scalar, members_of, object_of, scalar_value, with_list};
use lrs_element::Ground;
use lrs_events::Side;
use lrs_machine::{Hit, Total};
use lrs_measure::Frac;
use lrs_position::{Expr, Route, RouteName};
use lrs_report_answers::{FoundRow, RouteSegments, Whereabouts};
use lrs_report_lists::ValueLength;
use serde_json::{Map, Value, json};
use std::alloc::{AllocError, Global};

/// The text of a value without space. It takes the value, so that no caller has one to drop.
pub(crate) fn bytes_of(alloc: Global, value: Value) -> Result<Vec<u8>, AllocError>
    requires { has_float (view value) ≡ false }
    ensures { IfOk result (λ bytes. bytes.items ≡ compact_text (view value)) }
{
    let text = value.to_string(alloc)?;
    Ok(text.into_bytes())
}

/// The name of a route as text.
pub(crate) fn name_of(route: &RouteName) -> &str
    ensures { result.now ≡ route.now }
{
    match str::from_utf8(route.bytes()) {
        Ok(text) => text,
        Err(_) => unreachable!(),
    }
}

/// Whether a route runs along a link or against it.
fn direction_of(forward: bool) -> &'static str
    ensures { result.now ≡ direction_text forward }
{
    if forward { "+" } else { "-" }
}

/// The members of an answer at a position.
fn at_members(
    alloc: Global,
    route: &RouteName,
    at: u64,
    here: Ground,
    hits: &[Hit],
) -> Result<Map<String, Value>, AllocError>
    ensures { IfOk result (λ map. object (members_view map.entries)
        ≡ at_data route.now at here hits.now) }
{
    let members = members_of(
        alloc,
        &[
            Member("at", Scalar::Whole(at)),
            Member("dir", Scalar::Word(direction_of(here.forward))),
            Member("link", Scalar::Whole(u64::from(here.link))),
            Member("mm", Scalar::Whole(u64::from(here.mm))),
            Member("route", Scalar::Route(*route)),
        ],
    )?;
    with_list(alloc, members, "hits", hits)
}

fn at_value(
    alloc: Global,
    route: &RouteName,
    at: u64,
    here: Ground,
    hits: &[Hit],
) -> Result<Value, AllocError>
    ensures { IfOk result (λ value. view value ≡ at_data route.now at here hits.now) }
{
    let members = at_members(alloc, route, at, here, hits)?;
    Ok(Value::Object(members))
}

/// The millimetre of a route in which a position stands, the millimetre of a link that it is, and who holds it.
///
/// # Errors
/// When memory runs out.
#[tactic(auto, using(crate::proofs::Whole::at_whole))]
pub fn at_json(
    alloc: Global,
    route: &RouteName,
    at: u64,
    here: Ground,
    hits: &[Hit],
) -> Result<Vec<u8>, AllocError>
    ensures { IfOk result (λ bytes. bytes.items ≡ compact_text
        (at_data route.now at here hits.now)) }
{
    let value = at_value(alloc, route, at, here, hits)?;
    bytes_of(alloc, value)
}

fn route_value(alloc: Global, route: &Route) -> Result<Value, AllocError>
    ensures { IfOk result (λ value. ShowsRoute route.now (view value)) }
{
    let members = members_of(
        alloc,
        &[
            Member("length", Scalar::Whole(route.length())),
            Member("name", Scalar::Route(route.name)),
        ],
    )?;
    let members = with_list(alloc, members, "marks", route.marks.list())?;
    let members = with_list(alloc, members, "pieces", route.course.pieces())?;
    let members = with_list(alloc, members, "refs", route.refs.as_slice())?;
    Ok(Value::Object(members))
}

/// A route: its length, its marks, the fewest pieces that it runs over, and its referents by name.
///
/// # Errors
/// When memory runs out.
#[tactic(auto, using(crate::proofs::Whole::route_whole))]
pub fn route_json(alloc: Global, route: &Route) -> Result<Vec<u8>, AllocError>
    ensures { IfOk result (λ bytes. (json : Data) × ShowsRoute route.now json
        × (bytes.items ≡ compact_text json)) }
{
    let value = route_value(alloc, route)?;
    bytes_of(alloc, value)
}

/// The object of the segments of a route up to their list.
fn begin_segments(alloc: Global, route: &RouteName) -> Result<Vec<u8>, AllocError>
    ensures { IfOk result (λ bytes. bytes.items ≡ segments_front route.now) }
{
    let mut bytes = begin(alloc, "route")?;
    add_text(alloc, &mut bytes, name_of(route))?;
    add_name(alloc, &mut bytes, "segments")?;
    Ok(bytes)
}

/// Adds what stands behind the list of segments: their side, and the end of the object.
fn end_segments(alloc: Global, bytes: &mut Vec<u8>, side: Side) -> Result<(), AllocError>
    ensures { OnOk result (bytes.new.items ≡ bytes.old.items ++ segments_end side) }
{
    add_name(alloc, bytes, "side")?;
    let value = scalar_value(alloc, &Scalar::Side(side))?;
    add_value(alloc, bytes, value)?;
    bytes.push(b'}')?;
    Ok(())
}

/// The segments of a side of a route; a value that is missing is `-`. They are written one by one.
///
/// # Errors
/// When memory runs out.
#[tactic(auto, using(crate::proofs::Whole::segment_whole, crate::proofs::Listing::segments_text))]
pub fn segments_json(
    alloc: Global,
    most: usize,
    route: &RouteName,
    side: Side,
    segments: RouteSegments<'_>,
) -> Result<Vec<u8>, AllocError>
    ensures { IfOk result (λ bytes. bytes.items ≡ compact_text
        (segments_data route.now side segments.entry)) }
{
    let mut bytes = begin_segments(alloc, route)?;
    add_segment_list(alloc, most, &mut bytes, segments)?;
    end_segments(alloc, &mut bytes, side)?;
    Ok(bytes)
}

pub(crate) fn method_of(expression: Expr) -> &'static str
    ensures { result.now ≡ method_text expression }
{
    match expression {
        Expr::Abs(_) => "abs",
        Expr::Rel(..) => "rel",
        Expr::Int(_) => "int",
    }
}

fn translated_value(
    alloc: Global,
    route: &RouteName,
    expression: &Expr,
) -> Result<Value, AllocError>
    ensures { IfOk result (λ value. view value ≡ translated_data route.now expression.now) }
{
    object_of(
        alloc,
        &[
            Member("method", Scalar::Word(method_of(*expression))),
            Member("pos", Scalar::Position(*expression)),
            Member("route", Scalar::Route(*route)),
        ],
    )
}

/// A position on a route, with its method.
///
/// # Errors
/// When memory runs out.
pub fn translated_json(
    alloc: Global,
    route: &RouteName,
    expression: Expr,
) -> Result<Vec<u8>, AllocError>
    ensures { IfOk result (λ bytes. bytes.items ≡ compact_text
        (translated_data route.now expression)) }
{
    let value = translated_value(alloc, route, &expression)?;
    bytes_of(alloc, value)
}

fn link_value(
    alloc: Global,
    route: &RouteName,
    link: u32,
    distance: Frac,
) -> Result<Value, AllocError>
    ensures { IfOk result (λ value. view value ≡ on_link_data route.now (link, distance)) }
{
    object_of(
        alloc,
        &[
            Member("method", Scalar::Word("link")),
            Member("pos", Scalar::OnLink(link, distance)),
            Member("route", Scalar::Route(*route)),
        ],
    )
}

/// A position on the link under a route: the link, and the distance in millimetres from its start.
///
/// # Errors
/// When memory runs out.
pub fn link_json(
    alloc: Global,
    route: &RouteName,
    link: u32,
    distance: Frac,
) -> Result<Vec<u8>, AllocError>
    ensures { IfOk result (λ bytes. bytes.items ≡ compact_text
        (on_link_data route.now (link, distance))) }
{
    let value = link_value(alloc, route, link, distance)?;
    bytes_of(alloc, value)
}

fn list_value_under<T: Shown>(alloc: Global, name: &str, list: &[T]) -> Result<Value, AllocError>
    ensures { IfOk result (λ value. view value ≡ named_list name.now (map T.shown list.now)) }
{
    let members = with_list(alloc, Map::new(alloc), name, list)?;
    Ok(Value::Object(members))
}

/// An object whose one member is a list.
fn list_json<T: Shown>(alloc: Global, name: &str, list: &[T]) -> Result<Vec<u8>, AllocError>
    requires whole { (one : T) → has_float (T.shown one) ≡ false }
    ensures { IfOk result (λ bytes. bytes.items
        ≡ compact_text (named_list name.now (map T.shown list.now))) }
{
    let value = list_value_under(alloc, name, list)?;
    bytes_of(alloc, value)
}

/// The totals of classes, in side millimetres.
///
/// # Errors
/// When memory runs out.
pub fn totals_json(alloc: Global, totals: &[Total]) -> Result<Vec<u8>, AllocError>
    ensures { IfOk result (λ bytes. bytes.items ≡ compact_text (totals_data totals.now)) }
{
    list_json(alloc, "totals", totals)
}

/// The stretches that an asset holds.
///
/// # Errors
/// When memory runs out.
pub fn found_json(alloc: Global, rows: &[FoundRow]) -> Result<Vec<u8>, AllocError>
    ensures { IfOk result (λ bytes. bytes.items ≡ compact_text (found_data rows.now)) }
{
    list_json(alloc, "rows", rows)
}

/// How long each value of each class is, in millimetres, and how many assets hold it.
///
/// # Errors
/// When memory runs out.
pub fn lengths_json(alloc: Global, lengths: &[ValueLength]) -> Result<Vec<u8>, AllocError>
    ensures { IfOk result (λ bytes. bytes.items ≡ compact_text (lengths_data lengths.now)) }
{
    list_json(alloc, "lengths", lengths)
}

#[tactic(auto, using(crate::proofs::Whole::with_positions))]
fn whereabouts_value(alloc: Global, found: &Whereabouts) -> Result<Value, AllocError>
    ensures { IfOk result (λ value. view value ≡ whereabouts_data found.now) }
{
    let here = &found.found;
    let members = at_members(
        alloc,
        &found.route,
        here.at,
        here.ground,
        here.hits.as_slice(),
    )?;
    let members = with_list(alloc, members, "positions", found.positions.as_slice())?;
    Ok(Value::Object(members))
}

/// What is at a place: the millimetre there, who holds it, and the place by each method.
///
/// # Errors
/// When memory runs out.
#[tactic(auto, using(crate::proofs::Whole::whereabouts_whole))]
pub fn whereabouts_json(alloc: Global, found: &Whereabouts) -> Result<Vec<u8>, AllocError>
    ensures { IfOk result (λ bytes. bytes.items ≡ compact_text (whereabouts_data found.now)) }
{
    let value = whereabouts_value(alloc, found)?;
    bytes_of(alloc, value)
}

fn health_value(alloc: Global, edits: u64) -> Result<Value, AllocError>
    ensures { IfOk result (λ value. view value ≡ health_data edits) }
{
    object_of(alloc, &[Member("edits", Scalar::Whole(edits))])
}

/// How many edits were accepted.
///
/// # Errors
/// When memory runs out.
pub fn health_json(alloc: Global, edits: u64) -> Result<Vec<u8>, AllocError>
    ensures { IfOk result (λ bytes. bytes.items ≡ compact_text (health_data edits)) }
{
    let value = health_value(alloc, edits)?;
    bytes_of(alloc, value)
}

fn error_value(alloc: Global, cause: &str) -> Result<Value, AllocError>
    ensures { IfOk result (λ value. view value ≡ error_data cause.now) }
{
    json!(in alloc; {"error": cause})
}

/// Why there is no answer.
///
/// # Errors
/// When memory runs out.
pub fn error_json(alloc: Global, cause: &str) -> Result<Vec<u8>, AllocError>
    ensures { IfOk result (λ bytes. bytes.items ≡ compact_text (error_data cause.now)) }
{
    let value = error_value(alloc, cause)?;
    bytes_of(alloc, value)
}
