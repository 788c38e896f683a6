//! How lists, lengths and places are asked for by the parameters of a query.

ghost use Rattle.std.specs.Prelude.{◌≡◌, IfOk, IfErr, true, false};
ghost use Rattle.lrs_web_requests.specs.declared.paths.Resource.TheVariants as path;
ghost use Rattle.lrs_web_replies.specs.Questions.{AsksOf, CannotAsk, GivesGone, GivesOverlay, GivesRows, GivesSpot, is_on_link, lengths_question};

use crate::parameters::{
    asset_in, asset_or_all_in, by_in, class_or_all_in, classes_in, edit_or_all_in, exact_in,
    first_edit_in, form_in, from_in, gaps_in, is_on_link, link_in, millimetre_in,
    place_on_route_in, route_in, route_or_all_in, side_or_both_in, since_in, to_in, until_in,
};
use crate::question::QueryFault;
use lrs_events::ClassName;
use lrs_machine::{AskedPlace, GoneWanted, Listing, OverlayAsked, Question, RowsAsked};
use lrs_measure::Rows;
use lrs_position::RouteName;
use std::alloc::Global;

#[tactic(auto, using(crate::proofs::FirstFaults::rows_route, crate::proofs::FirstFaults::rows_from, crate::proofs::FirstFaults::rows_to, crate::proofs::FirstFaults::rows_class, crate::proofs::FirstFaults::rows_asset, crate::proofs::FirstFaults::rows_form))]
fn rows_in(alloc: Global, query: &[u8]) -> Result<RowsAsked, QueryFault>
    ensures asked { IfOk result (GivesRows query.now) }
    ensures unasked { IfErr result (CannotAsk path.Rows query.now) }
{
    let route = route_or_all_in(alloc, query)?;
    let from = from_in(alloc, query)?;
    let to = to_in(alloc, query)?;
    let class = class_or_all_in(alloc, query)?;
    let asset = asset_or_all_in(alloc, query)?;
    let form = form_in(alloc, query)?;
    Ok(RowsAsked {
        route,
        from,
        to,
        class,
        asset,
        form,
    })
}

#[tactic(auto, using(crate::proofs::FirstFaults::refs_route, crate::proofs::FirstFaults::refs_exact))]
pub(crate) fn refs_question(alloc: Global, query: &[u8]) -> Result<Question, QueryFault>
    ensures asked { IfOk result (AsksOf path.Refs query.now) }
    ensures unasked { IfErr result (CannotAsk path.Refs query.now) }
{
    let route = route_or_all_in(alloc, query)?;
    let exact = exact_in(alloc, query)?;
    Ok(Question::List(Listing::Refs { route, exact }))
}

#[tactic(auto, using(crate::proofs::FirstFaults::marks_route))]
pub(crate) fn marks_question(alloc: Global, query: &[u8]) -> Result<Question, QueryFault>
    ensures asked { IfOk result (AsksOf path.Marks query.now) }
    ensures unasked { IfErr result (CannotAsk path.Marks query.now) }
{
    let route = route_or_all_in(alloc, query)?;
    Ok(Question::List(Listing::Marks(route)))
}

#[tactic(auto, using(crate::proofs::FirstFaults::pieces_route))]
pub(crate) fn pieces_question(alloc: Global, query: &[u8]) -> Result<Question, QueryFault>
    ensures asked { IfOk result (AsksOf path.Pieces query.now) }
    ensures unasked { IfErr result (CannotAsk path.Pieces query.now) }
{
    let route = route_or_all_in(alloc, query)?;
    Ok(Question::List(Listing::Pieces(route)))
}

#[tactic(auto, using(crate::proofs::FirstFaults::gone_edit, crate::proofs::FirstFaults::gone_since, crate::proofs::FirstFaults::gone_until, crate::proofs::FirstFaults::gone_class))]
fn gone_in(alloc: Global, query: &[u8]) -> Result<GoneWanted, QueryFault>
    ensures asked { IfOk result (GivesGone query.now) }
    ensures unasked { IfErr result (CannotAsk path.Gone query.now) }
{
    let edit = edit_or_all_in(alloc, query)?;
    let since = since_in(alloc, query)?;
    let until = until_in(alloc, query)?;
    let class = class_or_all_in(alloc, query)?;
    Ok(GoneWanted {
        edit,
        since,
        until,
        class,
    })
}

pub(crate) fn gone_question(alloc: Global, query: &[u8]) -> Result<Question, QueryFault>
    ensures asked { IfOk result (AsksOf path.Gone query.now) }
    ensures unasked { IfErr result (CannotAsk path.Gone query.now) }
{
    let wanted = gone_in(alloc, query)?;
    Ok(Question::List(Listing::Gone(wanted)))
}

#[tactic(auto, using(crate::proofs::FirstFaults::history_asset))]
pub(crate) fn history_question(alloc: Global, query: &[u8]) -> Result<Question, QueryFault>
    ensures asked { IfOk result (AsksOf path.History query.now) }
    ensures unasked { IfErr result (CannotAsk path.History query.now) }
{
    let asset = asset_in(alloc, query)?;
    Ok(Question::List(Listing::History(asset)))
}

pub(crate) fn rows_question(alloc: Global, query: &[u8]) -> Result<Question, QueryFault>
    ensures asked { IfOk result (AsksOf path.Rows query.now) }
    ensures unasked { IfErr result (CannotAsk path.Rows query.now) }
{
    let asked = rows_in(alloc, query)?;
    Ok(Question::Rows(asked))
}

#[tactic(auto, using(crate::proofs::FirstFaults::overlay_route, crate::proofs::FirstFaults::overlay_side, crate::proofs::FirstFaults::overlay_from, crate::proofs::FirstFaults::overlay_to, crate::proofs::FirstFaults::overlay_gaps, crate::proofs::FirstFaults::overlay_class))]
fn overlay_in(alloc: Global, query: &[u8]) -> Result<OverlayAsked, QueryFault>
    ensures asked { IfOk result (GivesOverlay query.now) }
    ensures unasked { IfErr result (CannotAsk path.Overlay query.now) }
{
    let route = route_or_all_in(alloc, query)?;
    let side = side_or_both_in(alloc, query)?;
    let from = from_in(alloc, query)?;
    let to = to_in(alloc, query)?;
    let gaps = gaps_in(alloc, query)?;
    let classes = classes_in(alloc, query)?;
    Ok(OverlayAsked {
        classes,
        route,
        side,
        from,
        to,
        gaps,
    })
}

pub(crate) fn overlay_question(alloc: Global, query: &[u8]) -> Result<Question, QueryFault>
    ensures asked { IfOk result (AsksOf path.Overlay query.now) }
    ensures unasked { IfErr result (CannotAsk path.Overlay query.now) }
{
    let asked = overlay_in(alloc, query)?;
    Ok(Question::Overlay(asked))
}

/// How long each value of each class is, or each combination of the values of classes where some are given.
fn asked_lengths(route: Option<RouteName>, classes: Rows<ClassName>) -> Question
    ensures { result ≡ lengths_question route classes }
{
    if classes.is_empty() {
        return Question::Lengths(route);
    }
    Question::Combinations { route, classes }
}

#[tactic(auto, using(crate::proofs::FirstFaults::lengths_route, crate::proofs::FirstFaults::lengths_by))]
pub(crate) fn lengths_question(alloc: Global, query: &[u8]) -> Result<Question, QueryFault>
    ensures asked { IfOk result (AsksOf path.Lengths query.now) }
    ensures unasked { IfErr result (CannotAsk path.Lengths query.now) }
{
    let route = route_or_all_in(alloc, query)?;
    let classes = by_in(alloc, query)?;
    Ok(asked_lengths(route, classes))
}

#[tactic(auto, using(crate::proofs::FirstFaults::where_link, crate::proofs::FirstFaults::where_mm))]
fn spot_on_link(alloc: Global, query: &[u8]) -> Result<AskedPlace, QueryFault>
    requires on_link { is_on_link query.now ≡ true }
    ensures asked { IfOk result (GivesSpot query.now) }
    ensures unasked { IfErr result (CannotAsk path.Where query.now) }
{
    let link = link_in(alloc, query)?;
    let mm = millimetre_in(alloc, query)?;
    Ok(AskedPlace::OnLink { link, mm })
}

#[tactic(auto, using(crate::proofs::FirstFaults::where_route, crate::proofs::FirstFaults::where_chainage))]
fn spot_on_route(alloc: Global, query: &[u8]) -> Result<AskedPlace, QueryFault>
    requires on_route { is_on_link query.now ≡ false }
    ensures asked { IfOk result (GivesSpot query.now) }
    ensures unasked { IfErr result (CannotAsk path.Where query.now) }
{
    let route = route_in(alloc, query)?;
    let place = place_on_route_in(alloc, query)?;
    Ok(AskedPlace::OnRoute { route, place })
}

/// The place that is asked for: on a link where one is named, and else on a route.
fn spot_in(alloc: Global, query: &[u8]) -> Result<AskedPlace, QueryFault>
    ensures asked { IfOk result (GivesSpot query.now) }
    ensures unasked { IfErr result (CannotAsk path.Where query.now) }
{
    if is_on_link(alloc, query)? {
        return spot_on_link(alloc, query);
    }
    spot_on_route(alloc, query)
}

pub(crate) fn where_question(alloc: Global, query: &[u8]) -> Result<Question, QueryFault>
    ensures asked { IfOk result (AsksOf path.Where query.now) }
    ensures unasked { IfErr result (CannotAsk path.Where query.now) }
{
    let spot = spot_in(alloc, query)?;
    Ok(Question::Where(spot))
}

#[tactic(auto, using(crate::proofs::FirstFaults::log_edit, crate::proofs::FirstFaults::log_until))]
pub(crate) fn log_question(alloc: Global, query: &[u8]) -> Result<Question, QueryFault>
    ensures asked { IfOk result (AsksOf path.Log query.now) }
    ensures unasked { IfErr result (CannotAsk path.Log query.now) }
{
    let from = first_edit_in(alloc, query)?;
    let until = until_in(alloc, query)?;
    Ok(Question::List(Listing::Log { from, until }))
}
