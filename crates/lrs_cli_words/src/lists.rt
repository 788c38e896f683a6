//! Places, and listings, as words say them.

ghost use Rattle.std.specs.Prelude.{◌≡◌, ◌⊎◌, IfOk, IfErr, None, false, map, option_map};
ghost use Rattle.lrs_cli_words.specs.Questions.{AreAsked, AreGoneAsked, AsksLengths, AsksLog, Cannot, CannotClasses, CannotForm, CannotGone, CannotIfGiven, CannotLengths, CannotLink, CannotList, CannotLog, CannotOverlay, CannotPlace, CannotRows, CannotSum, CannotWhere, IsForm, IsMisplacedExact, IsMisplacedRoute, IsOnLink, IsOnRoute, IsOverlayAsked, IsPlace, SaysAsset, SaysClass, SaysClasses, SaysEdit, SaysFirst, SaysIfGiven, SaysKey, SaysLink, SaysLinkSide, SaysList, SaysRoute, SaysSummed};

use crate::question::{
    BadWord, QuestionFault, asset_of, class_in, class_of, classes_of, end_of, number_of, place_in,
    route_of,
};
use lrs_events::{ClassName, LinkSide};
use lrs_machine::{
    AskedPlace, GoneWanted, Key, Listing, OverlayAsked, Question, RowForm, RowsAsked,
};
use lrs_measure::Rows;
use lrs_measure::limits::{GREATEST_LINK, LONGEST_LINK, MOST_EDITS};
use lrs_position::RouteName;
use lrs_sheet_records::cut_at;
use std::alloc::Global;

/// No measures are listed here that could be exact.
fn refuse_exact(exact: bool) -> Result<(), QuestionFault>
    ensures read { IfOk result (λ _. exact ≡ false) }
    ensures unread { IfErr result (IsMisplacedExact exact) }
{
    if exact {
        return Err(QuestionFault::Unreadable(BadWord::ExactOfList));
    }
    Ok(())
}

/// A list that is not of one route, and has no measures.
fn whole_list(listing: Listing, route: Option<&str>, exact: bool) -> Result<Listing, QuestionFault>
    ensures read { IfOk result (λ l. (l ≡ listing) × (route.entry ≡ None) × (exact ≡ false)) }
    ensures unread { IfErr result (λ e. IsMisplacedRoute (option_map (λ t. t.now) route.entry) e
        ⊎ IsMisplacedExact exact e) }
{
    if route.is_some() {
        return Err(QuestionFault::Unreadable(BadWord::RouteOfList));
    }
    refuse_exact(exact)?;
    Ok(listing)
}

pub(crate) fn list_of(
    what: &str,
    route: Option<&str>,
    exact: bool,
) -> Result<Listing, QuestionFault>
    ensures read { IfOk result (SaysList what.now (option_map (λ t. t.now) route.entry) exact) }
    ensures unread { IfErr result (CannotList what.now (option_map (λ t. t.now) route.entry)
        exact) }
{
    match what {
        "routes" => whole_list(Listing::Routes, route, exact),
        "links" => whole_list(Listing::Links, route, exact),
        "classes" => whole_list(Listing::Classes, route, exact),
        "refs" => {
            let route = route_if_given(route)?;
            Ok(Listing::Refs { route, exact })
        }
        "marks" => {
            refuse_exact(exact)?;
            Ok(Listing::Marks(route_if_given(route)?))
        }
        "pieces" => {
            refuse_exact(exact)?;
            Ok(Listing::Pieces(route_if_given(route)?))
        }
        _ => Err(QuestionFault::Unreadable(BadWord::What)),
    }
}

fn link_of(text: &str) -> Result<u32, QuestionFault>
    ensures read { IfOk result (SaysLink text.now) }
    ensures unread { IfErr result (Cannot BadWord.Link (SaysLink text.now)) }
{
    let link = number_of(text, 1, u64::from(GREATEST_LINK), BadWord::Link)?;
    Ok(link as u32)
}

fn place_on_link(link: &str, mm: &str) -> Result<AskedPlace, QuestionFault>
    ensures read { IfOk result (IsOnLink link.now mm.now) }
    ensures unread { IfErr result (CannotLink link.now mm.now) }
{
    let link = link_of(link)?;
    let mm = number_of(mm, 0, u64::from(LONGEST_LINK), BadWord::Millimetre)?;
    Ok(AskedPlace::OnLink { link, mm })
}

fn place_on_route(route: &str, place: &str) -> Result<AskedPlace, QuestionFault>
    ensures read { IfOk result (IsOnRoute route.now place.now) }
    ensures unread { IfErr result (CannotPlace route.now place.now) }
{
    let route = route_of(route)?;
    let place = place_in(place, BadWord::Place)?;
    Ok(AskedPlace::OnRoute { route, place })
}

// A route's name is in capitals, so `link` is none.
pub(crate) fn place_of(
    route: &str,
    place: &str,
    mm: Option<&str>,
) -> Result<AskedPlace, QuestionFault>
    ensures read { IfOk result (IsPlace route.now place.now
        (option_map (λ t. t.now) mm.entry)) }
    ensures unread { IfErr result (CannotWhere route.now place.now
        (option_map (λ t. t.now) mm.entry)) }
{
    match mm {
        Some(mm) if route == "link" => place_on_link(place, mm),
        Some(_) => Err(QuestionFault::Unreadable(BadWord::NotLink)),
        None => place_on_route(route, place),
    }
}

pub(crate) fn edit_of(text: &str, fault: BadWord) -> Result<u64, QuestionFault>
    ensures read { IfOk result (SaysEdit text.now) }
    ensures unread { IfErr result (Cannot fault (SaysEdit text.now)) }
{
    number_of(text, 1, MOST_EDITS as u64, fault)
}

fn key_of(text: &str) -> Result<Key, QuestionFault>
    ensures read { IfOk result (SaysKey text.now) }
    ensures unread { IfErr result (Cannot BadWord.Key (SaysKey text.now)) }
{
    match Key::new(text.as_bytes()) {
        Some(key) => Ok(key),
        None => Err(QuestionFault::Unreadable(BadWord::Key)),
    }
}

pub(crate) fn route_if_given(text: Option<&str>) -> Result<Option<RouteName>, QuestionFault>
    ensures read { IfOk result (SaysIfGiven SaysRoute (option_map (λ t. t.now) text.entry)) }
    ensures unread { IfErr result (CannotIfGiven BadWord.Route SaysRoute
        (option_map (λ t. t.now) text.entry)) }
{
    match text {
        Some(text) => Ok(Some(route_of(text)?)),
        None => Ok(None),
    }
}

fn class_if_given(text: Option<&str>) -> Result<Option<ClassName>, QuestionFault>
    ensures read { IfOk result (SaysIfGiven SaysClass (option_map (λ t. t.now) text.entry)) }
    ensures unread { IfErr result (CannotIfGiven BadWord.Class SaysClass
        (option_map (λ t. t.now) text.entry)) }
{
    match text {
        Some(text) => Ok(Some(class_of(text)?)),
        None => Ok(None),
    }
}

fn asset_if_given(text: Option<&str>) -> Result<Option<u64>, QuestionFault>
    ensures read { IfOk result (SaysIfGiven SaysAsset (option_map (λ t. t.now) text.entry)) }
    ensures unread { IfErr result (CannotIfGiven BadWord.Asset SaysAsset
        (option_map (λ t. t.now) text.entry)) }
{
    match text {
        Some(text) => Ok(Some(asset_of(text)?)),
        None => Ok(None),
    }
}

fn edit_if_given(text: Option<&str>, fault: BadWord) -> Result<Option<u64>, QuestionFault>
    ensures read { IfOk result (SaysIfGiven SaysEdit (option_map (λ t. t.now) text.entry)) }
    ensures unread { IfErr result (CannotIfGiven fault SaysEdit
        (option_map (λ t. t.now) text.entry)) }
{
    match text {
        Some(text) => Ok(Some(edit_of(text, fault)?)),
        None => Ok(None),
    }
}

/// The form in which rows are told, as the options say.
pub(crate) fn form_of(exact: bool, on_links: bool) -> Result<RowForm, QuestionFault>
    ensures read { IfOk result (IsForm exact on_links) }
    ensures unread { IfErr result (CannotForm exact on_links) }
{
    match (exact, on_links) {
        (false, false) => Ok(RowForm::Decimal),
        (true, false) => Ok(RowForm::Exact),
        (false, true) => Ok(RowForm::OnLinks),
        (true, true) => Err(QuestionFault::Unreadable(BadWord::TwoForms)),
    }
}

pub(crate) fn rows_of(
    route: Option<&str>,
    from: Option<&str>,
    to: Option<&str>,
    class: Option<&str>,
    asset: Option<&str>,
    form: RowForm,
) -> Result<RowsAsked, QuestionFault>
    ensures read { IfOk result (AreAsked (option_map (λ t. t.now) route.entry)
        (option_map (λ t. t.now) from.entry) (option_map (λ t. t.now) to.entry)
        (option_map (λ t. t.now) class.entry) (option_map (λ t. t.now) asset.entry)) }
    ensures form { IfOk result (λ asked. asked.form ≡ form) }
    ensures unread { IfErr result (CannotRows (option_map (λ t. t.now) route.entry)
        (option_map (λ t. t.now) from.entry) (option_map (λ t. t.now) to.entry)
        (option_map (λ t. t.now) class.entry) (option_map (λ t. t.now) asset.entry)) }
{
    let route = route_if_given(route)?;
    let from = end_of(from, BadWord::From)?;
    let to = end_of(to, BadWord::To)?;
    let class = class_if_given(class)?;
    let asset = asset_if_given(asset)?;
    Ok(RowsAsked {
        route,
        from,
        to,
        class,
        asset,
        form,
    })
}

fn link_side_of(text: &str) -> Result<LinkSide, QuestionFault>
    ensures read { IfOk result (SaysLinkSide text.now) }
    ensures unread { IfErr result (Cannot BadWord.Side (SaysLinkSide text.now)) }
{
    match text {
        "L" => Ok(LinkSide::Left),
        "R" => Ok(LinkSide::Right),
        _ => Err(QuestionFault::Unreadable(BadWord::Side)),
    }
}

fn side_if_given(text: Option<&str>) -> Result<Option<LinkSide>, QuestionFault>
    ensures read { IfOk result (SaysIfGiven SaysLinkSide (option_map (λ t. t.now) text.entry)) }
    ensures unread { IfErr result (CannotIfGiven BadWord.Side SaysLinkSide
        (option_map (λ t. t.now) text.entry)) }
{
    match text {
        Some(text) => Ok(Some(link_side_of(text)?)),
        None => Ok(None),
    }
}

pub(crate) fn overlay_of(
    alloc: Global,
    classes: &[&str],
    route: Option<&str>,
    side: Option<&str>,
    from: Option<&str>,
    to: Option<&str>,
    gaps: bool,
) -> Result<OverlayAsked, QuestionFault>
    ensures read { IfOk result (IsOverlayAsked (map (λ t. t.now) classes.now)
        (option_map (λ t. t.now) route.entry) (option_map (λ t. t.now) side.entry)
        (option_map (λ t. t.now) from.entry) (option_map (λ t. t.now) to.entry) gaps) }
    ensures unread { IfErr result (CannotOverlay (map (λ t. t.now) classes.now)
        (option_map (λ t. t.now) route.entry) (option_map (λ t. t.now) side.entry)
        (option_map (λ t. t.now) from.entry) (option_map (λ t. t.now) to.entry)) }
{
    let route = route_if_given(route)?;
    let side = side_if_given(side)?;
    let from = end_of(from, BadWord::From)?;
    let to = end_of(to, BadWord::To)?;
    let classes = classes_of(alloc, classes)?;
    Ok(OverlayAsked {
        classes,
        route,
        side,
        from,
        to,
        gaps,
    })
}

/// The classes that a text names, with a comma between two.
fn named_classes(alloc: Global, text: &[u8]) -> Result<Rows<ClassName>, QuestionFault>
    ensures read { IfOk result (SaysClasses text.now) }
    ensures unread { IfErr result (CannotClasses text.now) }
{
    let mut classes = Vec::new(alloc);
    let mut rest = text;
    'names: loop {
        let (name, behind) = cut_at(rest, b',');
        match class_in(name) {
            Ok(class) => match classes.push(class) {
                Ok(()) => {}
                Err(_) => return Err(QuestionFault::Memory),
            },
            Err(fault) => return Err(fault),
        }
        match behind {
            Some(more) => rest = more,
            None => return Ok(Rows::from_vec(classes)),
        }
    }
}

/// The question for the lengths of values; or for those of the combinations of values, where a text names the classes.
pub(crate) fn lengths_of(
    alloc: Global,
    route: Option<&str>,
    by: Option<&str>,
) -> Result<Question, QuestionFault>
    ensures read { IfOk result (AsksLengths (option_map (λ t. t.now) route.entry)
        (option_map (λ t. t.now) by.entry)) }
    ensures unread { IfErr result (CannotLengths (option_map (λ t. t.now) route.entry)
        (option_map (λ t. t.now) by.entry)) }
{
    let route = route_if_given(route)?;
    match by {
        Some(by) => {
            let classes = named_classes(alloc, by.as_bytes())?;
            Ok(Question::Combinations { route, classes })
        }
        None => Ok(Question::Lengths(route)),
    }
}

pub(crate) fn gone_of(
    edit: Option<&str>,
    class: Option<&str>,
    since: Option<&str>,
    until: Option<&str>,
) -> Result<GoneWanted, QuestionFault>
    ensures read { IfOk result (AreGoneAsked (option_map (λ t. t.now) edit.entry)
        (option_map (λ t. t.now) class.entry) (option_map (λ t. t.now) since.entry)
        (option_map (λ t. t.now) until.entry)) }
    ensures unread { IfErr result (CannotGone (option_map (λ t. t.now) edit.entry)
        (option_map (λ t. t.now) class.entry) (option_map (λ t. t.now) since.entry)
        (option_map (λ t. t.now) until.entry)) }
{
    let edit = edit_if_given(edit, BadWord::Edit)?;
    let class = class_if_given(class)?;
    let since = edit_if_given(since, BadWord::Since)?;
    let until = edit_if_given(until, BadWord::Until)?;
    Ok(GoneWanted {
        edit,
        since,
        until,
        class,
    })
}

/// The number of the first edit of a log: 1 where none is given.
fn first_of(from: Option<&str>) -> Result<u64, QuestionFault>
    ensures read { IfOk result (SaysFirst (option_map (λ t. t.now) from.entry)) }
    ensures unread { IfErr result (CannotIfGiven BadWord.Number SaysEdit
        (option_map (λ t. t.now) from.entry)) }
{
    match from {
        Some(from) => edit_of(from, BadWord::Number),
        None => Ok(1),
    }
}

fn stretch_of_log(from: Option<&str>, until: Option<&str>) -> Result<Listing, QuestionFault>
    ensures read { IfOk result (AsksLog (option_map (λ t. t.now) from.entry)
        (option_map (λ t. t.now) until.entry) None) }
    ensures unread { IfErr result (CannotLog (option_map (λ t. t.now) from.entry)
        (option_map (λ t. t.now) until.entry) None) }
{
    let from = first_of(from)?;
    let until = edit_if_given(until, BadWord::Until)?;
    Ok(Listing::Log { from, until })
}

pub(crate) fn log_of(
    from: Option<&str>,
    until: Option<&str>,
    key: Option<&str>,
) -> Result<Listing, QuestionFault>
    ensures read { IfOk result (AsksLog (option_map (λ t. t.now) from.entry)
        (option_map (λ t. t.now) until.entry) (option_map (λ t. t.now) key.entry)) }
    ensures unread { IfErr result (CannotLog (option_map (λ t. t.now) from.entry)
        (option_map (λ t. t.now) until.entry) (option_map (λ t. t.now) key.entry)) }
{
    match (key, from, until) {
        (Some(_), Some(_), _) => Err(QuestionFault::Unreadable(BadWord::FromBesideKey)),
        (Some(_), None, Some(_)) => Err(QuestionFault::Unreadable(BadWord::UntilBesideKey)),
        (Some(key), None, None) => Ok(Listing::LogOfKey(key_of(key)?)),
        (None, _, _) => stretch_of_log(from, until),
    }
}

/// The number of the edit up to which a log is summed, where these words say one; else all of it is.
///
/// # Errors
/// A number that cannot be read, or a key or a number of a last edit that is given.
pub fn summed_of(
    from: Option<&str>,
    until: Option<&str>,
    key: Option<&str>,
) -> Result<Option<u64>, QuestionFault>
    ensures read { IfOk result (SaysSummed (option_map (λ t. t.now) from.entry)
        (option_map (λ t. t.now) until.entry) (option_map (λ t. t.now) key.entry)) }
    ensures unread { IfErr result (CannotSum (option_map (λ t. t.now) from.entry)
        (option_map (λ t. t.now) until.entry) (option_map (λ t. t.now) key.entry)) }
{
    match (key, until) {
        (Some(_), _) => Err(QuestionFault::Unreadable(BadWord::SumBesideKey)),
        (None, Some(_)) => Err(QuestionFault::Unreadable(BadWord::UntilBesideSum)),
        (None, None) => edit_if_given(from, BadWord::Number),
    }
}
