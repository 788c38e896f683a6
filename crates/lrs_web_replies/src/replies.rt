//! Replies to questions.

ghost use Rattle.std.specs.Prelude.{◌≡◌, IfOk};
ghost use Rattle.lrs_report.specs.Drawings.Pictures.{diagram_text};
ghost use Rattle.lrs_report_lists.specs.Length.Lines.{lengths_text};
ghost use Rattle.lrs_web_requests.specs.Text.{answer_of};
ghost use Rattle.lrs_web_replies.specs.QuestionAnswers.{IsReplyTo, ShowsTold};
ghost use Rattle.lrs_web_replies.specs.Answers.{at_data, lengths_data, on_link_data, segments_data, translated_data};
ghost use Rattle.lrs_web_replies.specs.Listings.{in_format};
ghost use Rattle.lrs_web_replies.specs.Replies.{json_answer};

use crate::answers::{
    at_json, found_json, health_json, lengths_json, link_json, route_json, segments_json,
    totals_json, translated_json, whereabouts_json,
};
use crate::bounded::BoundedBytes;
use crate::combinations::combinations_reply;
use crate::lines::lengths_lines;
use crate::listings::listing_reply;
use crate::overlay::overlay_reply;
use crate::pages::Page;
use crate::reply::{csv_reply, found_reply, refusal, svg_reply};
use crate::row_lists::rows_reply;
use lrs_events::Side;
use lrs_measure::Frac;
use lrs_position::{Expr, RouteName};
use lrs_report::{Diagram, write_diagram};
use lrs_report_answers::{AskFault, AtAnswer, RouteSegments, Told};
use lrs_report_lists::ValueLength;
use lrs_web_requests::{Format, Response};
use std::alloc::{AllocError, Global};

// It takes every byte that it is given, unless it has no room for it or memory runs out.
fn diagram_bytes(alloc: Global, most: usize, diagram: &Diagram) -> Result<Vec<u8>, AllocError>
    ensures { IfOk result (λ bytes. bytes.items ≡ diagram_text diagram.now) }
{
    let mut text = BoundedBytes::new(alloc, most);
    match write_diagram(&mut text, diagram) {
        Ok(()) => Ok(text.bytes),
        Err(_) => Err(AllocError),
    }
}

fn at_reply(alloc: Global, route: &RouteName, found: &AtAnswer) -> Result<Response, AllocError>
    ensures { IfOk result (λ reply. answer_of reply
        ≡ json_answer 200 (at_data route.now found.now.at found.now.ground found.now.hits)) }
{
    let hits = found.hits.as_slice();
    let bytes = at_json(alloc, route, found.at, found.ground, hits)?;
    Ok(found_reply(bytes))
}

fn segments_reply(
    alloc: Global,
    most: usize,
    route: &RouteName,
    side: Side,
    segments: RouteSegments<'_>,
) -> Result<Response, AllocError>
    ensures { IfOk result (λ reply. answer_of reply
        ≡ json_answer 200 (segments_data route.now side segments.entry)) }
{
    let bytes = segments_json(alloc, most, route, side, segments)?;
    Ok(found_reply(bytes))
}

fn translated_reply(
    alloc: Global,
    route: &RouteName,
    position: Expr,
) -> Result<Response, AllocError>
    ensures { IfOk result (λ reply. answer_of reply
        ≡ json_answer 200 (translated_data route.now position)) }
{
    let bytes = translated_json(alloc, route, position)?;
    Ok(found_reply(bytes))
}

fn on_link_reply(
    alloc: Global,
    route: &RouteName,
    link: u32,
    distance: Frac,
) -> Result<Response, AllocError>
    ensures { IfOk result (λ reply. answer_of reply
        ≡ json_answer 200 (on_link_data route.now (link, distance))) }
{
    let bytes = link_json(alloc, route, link, distance)?;
    Ok(found_reply(bytes))
}

fn lengths_reply(
    alloc: Global,
    most: usize,
    format: Format,
    lengths: &[ValueLength],
) -> Result<Response, AllocError>
    ensures { IfOk result (λ reply. answer_of reply
        ≡ in_format format (lengths_data lengths.now) (lengths_text lengths.now)) }
{
    match format {
        Format::Json => Ok(found_reply(lengths_json(alloc, lengths)?)),
        Format::Csv => Ok(csv_reply(lengths_lines(alloc, most, lengths)?)),
    }
}

/// The reply to what is told to a question: a list, rows, an overlay and lengths in a format, the log as CSV, a diagram as
/// SVG, and any other answer as JSON.
fn told_reply(
    alloc: Global,
    most: usize,
    format: Format,
    page: Page,
    told: Told<'_>,
) -> Result<Response, AllocError>
    ensures { IfOk result (λ reply. ShowsTold format page told.entry (answer_of reply)) }
{
    match told {
        Told::At { route, found } => at_reply(alloc, &route, &found),
        Told::Route(route) => Ok(found_reply(route_json(alloc, &route)?)),
        Told::Segments {
            route,
            side,
            segments,
            ..
        } => segments_reply(alloc, most, &route, side, segments),
        Told::Translated { route, position } => translated_reply(alloc, &route, position),
        Told::OnLink {
            route,
            link,
            distance,
        } => on_link_reply(alloc, &route, link, distance),
        Told::Diagram(diagram) => Ok(svg_reply(diagram_bytes(alloc, most, &diagram)?)),
        Told::Totals(totals) => Ok(found_reply(totals_json(alloc, totals.as_slice())?)),
        Told::Found(rows) => Ok(found_reply(found_json(alloc, rows.as_slice())?)),
        Told::Where(found) => Ok(found_reply(whereabouts_json(alloc, &found)?)),
        Told::Combinations {
            classes,
            combinations,
        } => {
            let (classes, rows) = (classes.as_slice(), combinations.as_slice());
            combinations_reply(alloc, most, format, classes, rows)
        }
        Told::Lengths(rows) => lengths_reply(alloc, most, format, rows.as_slice()),
        Told::Rows { wanted, inventory } => rows_reply(
            alloc, most, format, page, inventory, &wanted,
        ),
        Told::Overlay { wanted, inventory } => {
            overlay_reply(alloc, most, format, page, inventory, &wanted)
        }
        Told::Listing { listing, inventory } => {
            listing_reply(alloc, most, format, page, inventory, &listing)
        }
        Told::Health(edits) => Ok(found_reply(health_json(alloc, edits)?)),
    }
}

/// The reply to what is told to a question: its answer, or why it is refused. The format is that of lists, rows, overlays
/// and lengths; of the former three, as JSON, the page is told. It is no longer made once it has so many bytes.
///
/// # Errors
/// When memory or so many bytes do not suffice; the reply may be the empty 503 then, too.
pub fn reply_to(
    alloc: Global,
    most: usize,
    format: Format,
    page: Page,
    told: Result<Told<'_>, AskFault>,
) -> Result<Response, AllocError>
    ensures { IfOk result (λ reply. IsReplyTo format page told.entry (answer_of reply)) }
{
    match told {
        Ok(told) => told_reply(alloc, most, format, page, told),
        Err(fault) => refusal(alloc, fault),
    }
}
