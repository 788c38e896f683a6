//! The parameters of a query, each read by the reader of its text.

ghost use Rattle.std.specs.Prelude.{◌≡◌, ◌≤◌, ◌⊎◌, ℕ, Bool, Option, Some, IfOk, IfErr, IfSome, IfNone, IsTrue, map};
ghost use Rattle.std.specs.List.{list_all};
ghost use Rattle.std.specs.Cow.{cow_str_bytes};
ghost use Rattle.lrs_events.specs.Names.{is_class_name};
ghost use Rattle.lrs_position.specs.declared.expression.Expr.{Expr as Expression};
ghost use Rattle.lrs_machine.specs.PlaceTexts.{SaysPlace};
ghost use Rattle.lrs_machine.specs.declared.question.Place.{Place as PlaceValue};
ghost use Rattle.lrs_web_replies.specs.Questions.{Said, SaidIfGiven, SaysDestination, SaysLinkSide, SaysNumber, GivesAsset, GivesAssetOrAll, GivesBy, GivesClassOrAll, GivesClasses, GivesClassesOrAll, GivesDestination, GivesEditOrAll, GivesExact, GivesFirstEdit, GivesForm, GivesFrom, GivesGaps, GivesLink, GivesMethod, GivesMillimetre, GivesPlaceOnRoute, GivesPosition, GivesPositionBy, GivesRoute, GivesRouteOrAll, GivesSide, GivesSideOrBoth, GivesSince, GivesUntil, GivesUpTo, form_by, is_on_link};
ghost use Rattle.lrs_web_requests.specs.Query.{parameter, switched};
ghost use Rattle.lrs_web_replies.specs.Faults.{Lacks, LacksForm, LacksPosition};

use crate::question::{Parameter, QueryFault};
use lrs_events::{ClassName, LinkSide, Side, read_side};
use lrs_machine::{Destination, Place, RowForm, read_place};
use lrs_measure::limits::{GREATEST_ASSET, GREATEST_LINK, LONGEST_LINK, MOST_EDITS};
use lrs_measure::{Rows, read_digits};
use lrs_position::{Expr, Method, RouteName, read_expr, read_method, read_target};
use lrs_web_requests::{switched, value_of, values_of};
use std::alloc::{AllocError, Global};
use std::borrow::CowStr;

const NO_ROUTE: QueryFault = QueryFault::Malformed(Parameter::Route);

const NO_METHOD: QueryFault = QueryFault::Malformed(Parameter::Method);

const NO_POSITION: QueryFault = QueryFault::Malformed(Parameter::Position);

const NO_DESTINATION: QueryFault = QueryFault::Malformed(Parameter::To);

const NO_SIDE: QueryFault = QueryFault::Malformed(Parameter::Side);

const NO_SIDE_OR_BOTH: QueryFault = QueryFault::Malformed(Parameter::SideOrBoth);

const NO_CLASS: QueryFault = QueryFault::Malformed(Parameter::Class);

const NO_CLASSES: QueryFault = QueryFault::Malformed(Parameter::ClassesOrAll);

const NO_BY: QueryFault = QueryFault::Malformed(Parameter::By);

const NO_FROM: QueryFault = QueryFault::Malformed(Parameter::From);

const NO_UP_TO: QueryFault = QueryFault::Malformed(Parameter::UpTo);

const NO_ASSET: QueryFault = QueryFault::Malformed(Parameter::Asset);

const NO_FIRST_EDIT: QueryFault = QueryFault::Malformed(Parameter::FirstEdit);

const NO_ROUTE_OR_ALL: QueryFault = QueryFault::Malformed(Parameter::RouteOrAll);

const NO_CLASS_OR_ALL: QueryFault = QueryFault::Malformed(Parameter::ClassOrAll);

const NO_ASSET_OR_ALL: QueryFault = QueryFault::Malformed(Parameter::AssetOrAll);

const NO_EDIT_OR_ALL: QueryFault = QueryFault::Malformed(Parameter::EditOrAll);

const NO_SINCE: QueryFault = QueryFault::Malformed(Parameter::Since);

const NO_UNTIL: QueryFault = QueryFault::Malformed(Parameter::Until);

const NO_EXACT: QueryFault = QueryFault::Malformed(Parameter::Exact);

const NO_FORM: QueryFault = QueryFault::Malformed(Parameter::RowsOnLinks);

const NO_GAPS: QueryFault = QueryFault::Malformed(Parameter::Gaps);

const NO_CHAINAGE: QueryFault = QueryFault::Malformed(Parameter::Chainage);

const NO_LINK: QueryFault = QueryFault::Malformed(Parameter::OnLink);

const NO_MILLIMETRE: QueryFault = QueryFault::Malformed(Parameter::Millimetre);

pub(crate) fn route_in(alloc: Global, query: &[u8]) -> Result<RouteName, QueryFault>
    ensures read { IfOk result (GivesRoute query.now) }
    ensures unread { IfErr result (Lacks Parameter.Route query.now) }
{
    match value_of(alloc, query, "route")? {
        Some(text) => match RouteName::new(text.as_str().as_bytes()) {
            Some(route) => Ok(route),
            None => Err(NO_ROUTE),
        },
        None => Err(NO_ROUTE),
    }
}

fn method_in(alloc: Global, query: &[u8]) -> Result<Method, QueryFault>
    ensures read { IfOk result (GivesMethod query.now) }
    ensures unread { IfErr result (Lacks Parameter.Method query.now) }
{
    match value_of(alloc, query, "method")? {
        Some(text) => match read_method(text.as_str().as_bytes()) {
            Some(method) => Ok(method),
            None => Err(NO_METHOD),
        },
        None => Err(NO_METHOD),
    }
}

fn position_by(alloc: Global, query: &[u8], method: Method) -> Result<Expr, QueryFault>
    ensures read { IfOk result (GivesPositionBy query.now method) }
    ensures unread { IfErr result (λ e. (e ≡ QueryFault.Memory)
        ⊎ ((e ≡ QueryFault.Malformed Parameter.Position)
        × ((position : Expression) → GivesPositionBy query.now method position → ⊥))) }
{
    match value_of(alloc, query, "pos")? {
        Some(text) => match read_expr(method, text.as_str().as_bytes()) {
            Some(position) => Ok(position),
            None => Err(NO_POSITION),
        },
        None => Err(NO_POSITION),
    }
}

pub(crate) fn position_in(alloc: Global, query: &[u8]) -> Result<Expr, QueryFault>
    ensures read { IfOk result (GivesPosition query.now) }
    ensures unread { IfErr result (LacksPosition query.now) }
{
    let method = method_in(alloc, query)?;
    position_by(alloc, query, method)
}

/// The destination of a text.
fn read_destination(text: &str) -> Option<Destination>
    ensures read { IfSome result (SaysDestination text.now) }
    ensures unread { IfNone result ((to : _) → SaysDestination text.now to → ⊥) }
{
    if text == "link" {
        return Some(Destination::Link);
    }
    match read_target(text.as_bytes()) {
        Some(target) => Some(Destination::Method(target)),
        None => None,
    }
}

pub(crate) fn destination_in(alloc: Global, query: &[u8]) -> Result<Destination, QueryFault>
    ensures read { IfOk result (GivesDestination query.now) }
    ensures unread { IfErr result (Lacks Parameter.To query.now) }
{
    match value_of(alloc, query, "to")? {
        Some(text) => match read_destination(text.as_str()) {
            Some(to) => Ok(to),
            None => Err(NO_DESTINATION),
        },
        None => Err(NO_DESTINATION),
    }
}

pub(crate) fn side_in(alloc: Global, query: &[u8]) -> Result<Side, QueryFault>
    ensures read { IfOk result (GivesSide query.now) }
    ensures unread { IfErr result (Lacks Parameter.Side query.now) }
{
    match value_of(alloc, query, "side")? {
        Some(text) => match read_side(text.as_str().as_bytes()) {
            Some(side) => Ok(side),
            None => Err(NO_SIDE),
        },
        None => Err(NO_SIDE),
    }
}

/// The side of a text that is not both.
fn read_link_side(text: &str) -> Option<LinkSide>
    ensures read { IfSome result (SaysLinkSide text.now) }
    ensures unread { IfNone result ((side : _) → SaysLinkSide text.now side → ⊥) }
{
    match text {
        "L" => Some(LinkSide::Left),
        "R" => Some(LinkSide::Right),
        _ => None,
    }
}

/// The side of which an overlay is asked for, if one is named.
pub(crate) fn side_or_both_in(alloc: Global, query: &[u8]) -> Result<Option<LinkSide>, QueryFault>
    ensures read { IfOk result (GivesSideOrBoth query.now) }
    ensures unread { IfErr result (Lacks Parameter.SideOrBoth query.now) }
{
    match value_of(alloc, query, "side")? {
        Some(text) => match read_link_side(text.as_str()) {
            Some(side) => Ok(Some(side)),
            None => Err(NO_SIDE_OR_BOTH),
        },
        None => Ok(None),
    }
}

/// The classes that these texts name, or the fault where one of them names none.
fn class_names(
    alloc: Global,
    texts: &[CowStr<'_>],
    fault: QueryFault,
) -> Result<Rows<ClassName>, QueryFault>
    ensures read { IfOk result (λ names. (names ≡ map cow_str_bytes texts.now)
        × IsTrue (list_all is_class_name (map cow_str_bytes texts.now))) }
    ensures unread { IfErr result (λ e. (e ≡ QueryFault.Memory)
        ⊎ ((e ≡ fault)
        × (IsTrue (list_all is_class_name (map cow_str_bytes texts.now)) → ⊥))) }
{
    let mut names = Vec::new(alloc);
    for text in texts {
        match ClassName::new(text.as_str().as_bytes()) {
            Some(name) => names.push(name)?,
            None => return Err(fault),
        }
    }
    Ok(Rows::from_vec(names))
}

pub(crate) fn classes_in(alloc: Global, query: &[u8]) -> Result<Rows<ClassName>, QueryFault>
    ensures read { IfOk result (GivesClasses query.now) }
    ensures unread { IfErr result (Lacks Parameter.Class query.now) }
{
    let texts = values_of(alloc, query, "class")?;
    if texts.is_empty() {
        return Err(NO_CLASS);
    }
    class_names(alloc, texts.as_slice(), NO_CLASS)
}

pub(crate) fn classes_or_all_in(alloc: Global, query: &[u8]) -> Result<Rows<ClassName>, QueryFault>
    ensures read { IfOk result (GivesClassesOrAll query.now) }
    ensures unread { IfErr result (Lacks Parameter.ClassesOrAll query.now) }
{
    let texts = values_of(alloc, query, "class")?;
    class_names(alloc, texts.as_slice(), NO_CLASSES)
}

/// The classes by whose values lengths are asked for, or none.
pub(crate) fn by_in(alloc: Global, query: &[u8]) -> Result<Rows<ClassName>, QueryFault>
    ensures read { IfOk result (GivesBy query.now) }
    ensures unread { IfErr result (Lacks Parameter.By query.now) }
{
    let texts = values_of(alloc, query, "by")?;
    class_names(alloc, texts.as_slice(), NO_BY)
}

/// The number of at least `least` and at most `greatest` that a text says.
pub(crate) fn read_number(text: &str, least: u64, greatest: u64) -> Option<u64>
    ensures read { IfSome result (SaysNumber least greatest text.now) }
    ensures unread { IfNone result ((number : ℕ) → SaysNumber least greatest text.now number → ⊥) }
{
    match read_digits(text.as_bytes(), greatest) {
        Some(number) if number >= least => Some(number),
        _ => None,
    }
}

/// The number between bounds that a parameter says; the fault where it says none.
fn number_in(
    alloc: Global,
    query: &[u8],
    name: &str,
    least: u64,
    greatest: u64,
    fault: QueryFault,
) -> Result<u64, QueryFault>
    ensures read { IfOk result (Said (SaysNumber least greatest) (parameter name.now query.now)) }
    ensures below { IfOk result (λ number. number ≤ greatest) }
    ensures unread { IfErr result (λ e. (e ≡ QueryFault.Memory)
        ⊎ ((e ≡ fault)
        × ((number : ℕ) → Said (SaysNumber least greatest) (parameter name.now query.now) number
        → ⊥))) }
{
    match number_if_given(alloc, query, name, least, greatest, fault)? {
        Some(number) => Ok(number),
        None => Err(fault),
    }
}

/// The number between bounds that a parameter says, if it is given; the fault where it says none.
fn number_if_given(
    alloc: Global,
    query: &[u8],
    name: &str,
    least: u64,
    greatest: u64,
    fault: QueryFault,
) -> Result<Option<u64>, QueryFault>
    ensures read { IfOk result (SaidIfGiven (SaysNumber least greatest)
        (parameter name.now query.now)) }
    ensures unread { IfErr result (λ e. (e ≡ QueryFault.Memory)
        ⊎ ((e ≡ fault)
        × ((number : Option ℕ) → SaidIfGiven (SaysNumber least greatest)
        (parameter name.now query.now) number → ⊥))) }
{
    match value_of(alloc, query, name)? {
        Some(text) => match read_number(text.as_str(), least, greatest) {
            Some(number) => Ok(Some(number)),
            None => Err(fault),
        },
        None => Ok(None),
    }
}

pub(crate) fn asset_in(alloc: Global, query: &[u8]) -> Result<u64, QueryFault>
    ensures read { IfOk result (GivesAsset query.now) }
    ensures unread { IfErr result (Lacks Parameter.Asset query.now) }
{
    number_in(alloc, query, "asset", 1, GREATEST_ASSET, NO_ASSET)
}

/// The first edit of the log that is asked for.
pub(crate) fn first_edit_in(alloc: Global, query: &[u8]) -> Result<u64, QueryFault>
    ensures read { IfOk result (GivesFirstEdit query.now) }
    ensures unread { IfErr result (Lacks Parameter.FirstEdit query.now) }
{
    match number_if_given(alloc, query, "from", 1, MOST_EDITS as u64, NO_FIRST_EDIT)? {
        Some(number) => Ok(number),
        None => Ok(1),
    }
}

/// The place of a route that a text says.
fn place_of(text: &str) -> Option<Place>
    ensures read { IfSome result (SaysPlace text.now) }
    ensures unread { IfNone result ((place : PlaceValue) → SaysPlace text.now place → ⊥) }
{
    read_place(text.as_bytes())
}

/// The place of a route that a parameter says, if it is given; the fault where it says none.
fn place_if_given(
    alloc: Global,
    query: &[u8],
    name: &str,
    fault: QueryFault,
) -> Result<Option<Place>, QueryFault>
    ensures read { IfOk result (SaidIfGiven SaysPlace (parameter name.now query.now)) }
    ensures unread { IfErr result (λ e. (e ≡ QueryFault.Memory)
        ⊎ ((e ≡ fault)
        × ((place : Option PlaceValue) → SaidIfGiven SaysPlace (parameter name.now query.now) place
        → ⊥))) }
{
    match value_of(alloc, query, name)? {
        Some(text) => match place_of(text.as_str()) {
            Some(place) => Ok(Some(place)),
            None => Err(fault),
        },
        None => Ok(None),
    }
}

pub(crate) fn from_in(alloc: Global, query: &[u8]) -> Result<Option<Place>, QueryFault>
    ensures read { IfOk result (GivesFrom query.now) }
    ensures unread { IfErr result (Lacks Parameter.From query.now) }
{
    place_if_given(alloc, query, "from", NO_FROM)
}

pub(crate) fn to_in(alloc: Global, query: &[u8]) -> Result<Option<Place>, QueryFault>
    ensures read { IfOk result (GivesUpTo query.now) }
    ensures unread { IfErr result (Lacks Parameter.UpTo query.now) }
{
    place_if_given(alloc, query, "to", NO_UP_TO)
}

/// The route of which a list is asked for, if one is named.
pub(crate) fn route_or_all_in(alloc: Global, query: &[u8]) -> Result<Option<RouteName>, QueryFault>
    ensures read { IfOk result (GivesRouteOrAll query.now) }
    ensures unread { IfErr result (Lacks Parameter.RouteOrAll query.now) }
{
    match value_of(alloc, query, "route")? {
        Some(text) => match RouteName::new(text.as_str().as_bytes()) {
            Some(route) => Ok(Some(route)),
            None => Err(NO_ROUTE_OR_ALL),
        },
        None => Ok(None),
    }
}

/// The class of which a list is asked for, if one is named.
pub(crate) fn class_or_all_in(alloc: Global, query: &[u8]) -> Result<Option<ClassName>, QueryFault>
    ensures read { IfOk result (GivesClassOrAll query.now) }
    ensures unread { IfErr result (Lacks Parameter.ClassOrAll query.now) }
{
    match value_of(alloc, query, "class")? {
        Some(text) => match ClassName::new(text.as_str().as_bytes()) {
            Some(class) => Ok(Some(class)),
            None => Err(NO_CLASS_OR_ALL),
        },
        None => Ok(None),
    }
}

/// The asset whose rows are asked for, if one is named.
pub(crate) fn asset_or_all_in(alloc: Global, query: &[u8]) -> Result<Option<u64>, QueryFault>
    ensures read { IfOk result (GivesAssetOrAll query.now) }
    ensures unread { IfErr result (Lacks Parameter.AssetOrAll query.now) }
{
    number_if_given(alloc, query, "asset", 1, GREATEST_ASSET, NO_ASSET_OR_ALL)
}

/// The edit whose parts that are gone are asked for, if one is named.
pub(crate) fn edit_or_all_in(alloc: Global, query: &[u8]) -> Result<Option<u64>, QueryFault>
    ensures read { IfOk result (GivesEditOrAll query.now) }
    ensures unread { IfErr result (Lacks Parameter.EditOrAll query.now) }
{
    number_if_given(alloc, query, "edit", 1, MOST_EDITS as u64, NO_EDIT_OR_ALL)
}

/// The first edit that may have taken parts away, if one is named.
pub(crate) fn since_in(alloc: Global, query: &[u8]) -> Result<Option<u64>, QueryFault>
    ensures read { IfOk result (GivesSince query.now) }
    ensures unread { IfErr result (Lacks Parameter.Since query.now) }
{
    number_if_given(alloc, query, "since", 1, MOST_EDITS as u64, NO_SINCE)
}

/// The last edit that is meant, if one is named.
pub(crate) fn until_in(alloc: Global, query: &[u8]) -> Result<Option<u64>, QueryFault>
    ensures read { IfOk result (GivesUntil query.now) }
    ensures unread { IfErr result (Lacks Parameter.Until query.now) }
{
    number_if_given(alloc, query, "until", 1, MOST_EDITS as u64, NO_UNTIL)
}

/// Whether measures are told as they are.
pub(crate) fn exact_in(alloc: Global, query: &[u8]) -> Result<bool, QueryFault>
    ensures read { IfOk result (GivesExact query.now) }
    ensures unread { IfErr result (Lacks Parameter.Exact query.now) }
{
    match switched(alloc, query, "exact")? {
        Some(exact) => Ok(exact),
        None => Err(NO_EXACT),
    }
}

/// How rows are told that are asked for with exact measures, and on links.
fn form_by(exact: bool, on_links: bool) -> Option<RowForm>
    ensures { result ≡ form_by exact on_links }
{
    match (exact, on_links) {
        (false, false) => Some(RowForm::Decimal),
        (true, false) => Some(RowForm::Exact),
        (false, true) => Some(RowForm::OnLinks),
        (true, true) => None,
    }
}

/// How rows are told. On links they have no measures.
pub(crate) fn form_in(alloc: Global, query: &[u8]) -> Result<RowForm, QueryFault>
    ensures read { IfOk result (GivesForm query.now) }
    ensures unread { IfErr result (LacksForm query.now) }
{
    let exact = exact_in(alloc, query)?;
    let Some(on_links) = switched(alloc, query, "on_links")? else {
        return Err(NO_FORM);
    };
    match form_by(exact, on_links) {
        Some(form) => Ok(form),
        None => Err(NO_FORM),
    }
}

/// Whether an overlay is told only where a class has no value.
pub(crate) fn gaps_in(alloc: Global, query: &[u8]) -> Result<bool, QueryFault>
    ensures read { IfOk result (GivesGaps query.now) }
    ensures unread { IfErr result (Lacks Parameter.Gaps query.now) }
{
    match switched(alloc, query, "gaps")? {
        Some(gaps) => Ok(gaps),
        None => Err(NO_GAPS),
    }
}

/// Whether a place is asked for on a link.
pub(crate) fn is_on_link(alloc: Global, query: &[u8]) -> Result<bool, AllocError>
    ensures { IfOk result (λ on_link. on_link ≡ is_on_link query.now) }
{
    match value_of(alloc, query, "link")? {
        Some(_) => Ok(true),
        None => Ok(false),
    }
}

/// Where on a route a place is asked for.
pub(crate) fn place_on_route_in(alloc: Global, query: &[u8]) -> Result<Place, QueryFault>
    ensures read { IfOk result (GivesPlaceOnRoute query.now) }
    ensures unread { IfErr result (Lacks Parameter.Chainage query.now) }
{
    match value_of(alloc, query, "chainage")? {
        Some(text) => match place_of(text.as_str()) {
            Some(place) => Ok(place),
            None => Err(NO_CHAINAGE),
        },
        None => Err(NO_CHAINAGE),
    }
}

/// The link on which a place is asked for.
pub(crate) fn link_in(alloc: Global, query: &[u8]) -> Result<u32, QueryFault>
    ensures read { IfOk result (GivesLink query.now) }
    ensures unread { IfErr result (Lacks Parameter.OnLink query.now) }
{
    let link = number_in(alloc, query, "link", 1, u64::from(GREATEST_LINK), NO_LINK)?;
    Ok(link as u32)
}

/// Where on a link a place is asked for.
pub(crate) fn millimetre_in(alloc: Global, query: &[u8]) -> Result<u64, QueryFault>
    ensures read { IfOk result (GivesMillimetre query.now) }
    ensures unread { IfErr result (Lacks Parameter.Millimetre query.now) }
{
    number_in(
        alloc,
        query,
        "mm",
        0,
        u64::from(LONGEST_LINK),
        NO_MILLIMETRE,
    )
}
