//! Parameters that a path does not know.

ghost use Rattle.std.specs.Prelude.{◌≡◌, [], IfOk, is_some, option_map, true};
ghost use Rattle.std.specs.Cow.{cow_str_bytes};
ghost use Rattle.lrs_web_requests.specs.Text.{answer_of};
ghost use Rattle.lrs_web_requests.specs.declared.paths.Format.TheVariants.{Json};
ghost use Rattle.lrs_web_replies.specs.Pages.{both_names, key_of, unknown_among, unknown_in};
ghost use Rattle.lrs_web_replies.specs.Replies.{unknown_answer};

use crate::pages::is_paged;
use crate::reply::error_reply;
use http::StatusCode;
use lrs_web_requests::{Format, Resource, Response, unknown_name};
use std::alloc::{AllocError, Global};
use std::borrow::CowStr;

/// The first parameter of a query that a resource does not know, where nothing is told in pages. Places, routes, segments,
/// translations, totals and the health pass over any.
fn unknown_apart<'q>(
    alloc: Global,
    resource: Resource,
    argument: &'q [u8],
) -> Result<Option<CowStr<'q>>, AllocError>
    ensures { IfOk result (λ name. option_map cow_str_bytes name
        ≡ unknown_among [] resource argument.now) }
{
    match resource {
        Resource::Diagram => unknown_name(alloc, argument, &["route", "class", "from", "to"]),
        Resource::Find | Resource::History => unknown_name(alloc, argument, &["asset"]),
        Resource::Where => unknown_name(alloc, argument, &["route", "chainage", "link", "mm"]),
        Resource::Rows => {
            let known = ["route", "from", "to", "class", "asset", "exact", "on_links"];
            unknown_name(alloc, argument, &known)
        }
        Resource::Overlay => {
            let known = ["route", "side", "from", "to", "gaps", "class"];
            unknown_name(alloc, argument, &known)
        }
        Resource::Refs => unknown_name(alloc, argument, &["route", "exact"]),
        Resource::Marks | Resource::Pieces => unknown_name(alloc, argument, &["route"]),
        Resource::Lengths => unknown_name(alloc, argument, &["route", "by"]),
        Resource::Gone => unknown_name(alloc, argument, &["edit", "since", "until", "class"]),
        Resource::Log => unknown_name(alloc, argument, &["from", "until"]),
        Resource::Routes | Resource::Links | Resource::Classes => {
            unknown_name(alloc, argument, &[])
        }
        Resource::At
        | Resource::Route
        | Resource::Segments
        | Resource::Translate
        | Resource::Totals
        | Resource::Health
        | Resource::Edits
        | Resource::Surveys
        | Resource::EditsCheck
        | Resource::SurveysCheck
        | Resource::Questions
        | Resource::Draft(_) => Ok(None),
    }
}

/// The same where a list is told in pages, and so knows the parameters of a page.
fn unknown_in_page<'q>(
    alloc: Global,
    resource: Resource,
    argument: &'q [u8],
) -> Result<Option<CowStr<'q>>, AllocError>
    requires paged { is_some (key_of Json resource argument.now) ≡ true }
    ensures { IfOk result (λ name. option_map cow_str_bytes name
        ≡ unknown_among both_names resource argument.now) }
{
    match resource {
        Resource::Rows => {
            let known = [
                "route", "from", "to", "class", "asset", "exact", "on_links", "limit", "after",
            ];
            unknown_name(alloc, argument, &known)
        }
        Resource::Overlay => {
            let known = [
                "route", "side", "from", "to", "gaps", "class", "limit", "after",
            ];
            unknown_name(alloc, argument, &known)
        }
        Resource::Refs => { unknown_name(alloc, argument, &["route", "exact", "limit", "after"]) }
        Resource::Marks | Resource::Pieces => {
            unknown_name(alloc, argument, &["route", "limit", "after"])
        }
        Resource::Routes | Resource::Links | Resource::Classes => {
            unknown_name(alloc, argument, &["limit", "after"])
        }
        Resource::At
        | Resource::Route
        | Resource::Segments
        | Resource::Translate
        | Resource::Totals
        | Resource::Diagram
        | Resource::Find
        | Resource::Where
        | Resource::Lengths
        | Resource::Gone
        | Resource::History
        | Resource::Log
        | Resource::Health
        | Resource::Edits
        | Resource::Surveys
        | Resource::EditsCheck
        | Resource::SurveysCheck
        | Resource::Questions
        | Resource::Draft(_) => unreachable!(),
    }
}

/// The first parameter of a query that a resource does not know. Places, routes, segments, translations, totals and the
/// health pass over any.
///
/// # Errors
/// When memory runs out.
#[tactic(auto, using(crate::proofs::PageKeys::apart_names, crate::proofs::PageKeys::paged_names, crate::proofs::PageKeys::json_paged))]
pub fn unknown_in<'q>(
    alloc: Global,
    format: Format,
    resource: Resource,
    argument: &'q [u8],
) -> Result<Option<CowStr<'q>>, AllocError>
    ensures { IfOk result (λ name. option_map cow_str_bytes name
        ≡ unknown_in format resource argument.now) }
{
    if is_paged(alloc, format, resource, argument)? {
        return unknown_in_page(alloc, resource, argument);
    }
    unknown_apart(alloc, resource, argument)
}

/// The reply where a parameter of this name is not known.
///
/// # Errors
/// When memory runs out.
pub fn unknown_reply(alloc: Global, name: &str) -> Result<Response, AllocError>
    ensures { IfOk result (λ reply. answer_of reply ≡ unknown_answer name.now) }
{
    let cause = format!(in alloc; "Unknown:{name}")?;
    error_reply(alloc, StatusCode::BAD_REQUEST, cause.as_str())
}
