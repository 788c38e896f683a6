//! How questions are asked by the parameters of a query.

ghost use Rattle.std.specs.Prelude.{◌≡◌, IfOk, IfErr};
ghost use Rattle.lrs_web_requests.specs.declared.response.RequestMethod.TheVariants as verb;
ghost use Rattle.lrs_web_requests.specs.Request.{verb_of};
ghost use Rattle.lrs_web_replies.specs.Questions.{AsksOf, CannotAsk, parameter_text};

use crate::list_parameters::{
    gone_question, history_question, lengths_question, log_question, marks_question,
    overlay_question, pieces_question, refs_question, rows_question, where_question,
};
use crate::parameters::{
    asset_in, classes_in, classes_or_all_in, destination_in, from_in, position_in, route_in,
    side_in, to_in,
};
use lrs_machine::{Listing, Question};
use lrs_position::RouteName;
use lrs_web_requests::Resource;
use std::alloc::{AllocError, AllocFailed, Global};

/// A parameter of a query.
#[derive(Clone, Copy, PartialEq, Eq)]
pub enum Parameter {
    Route,
    /// The route of a list, which may be left out for all.
    RouteOrAll,
    Method,
    Position,
    /// The destination of a translation.
    To,
    Side,
    /// The side of an overlay, which may be left out for both.
    SideOrBoth,
    Class,
    /// The class of a list, which may be left out for all.
    ClassOrAll,
    /// The classes of a diagram, which may be left out for all. Its name is `class`, too.
    ClassesOrAll,
    /// Where a diagram, or a stretch whose rows are listed, begins.
    From,
    /// Where it ends. Its name is `to`, as that of `To`.
    UpTo,
    Asset,
    /// The asset of rows, which may be left out for all.
    AssetOrAll,
    /// The first edit of the log, which may be left out for the very first. Its name is `from`, as that of `From`.
    FirstEdit,
    /// The edit that took parts away, which may be left out for all.
    EditOrAll,
    /// The first edit that may have taken parts away.
    Since,
    /// The last edit that may have taken parts away, or the last of the log.
    Until,
    /// That measures are told as they are, and not as decimals.
    Exact,
    /// That rows are told on the links under them.
    RowsOnLinks,
    /// That an overlay is told only where a class has no value.
    Gaps,
    /// Where on a route a place is, by its chainage or by a position.
    Chainage,
    /// The link on which a place is.
    OnLink,
    /// Where on that link it is.
    Millimetre,
    /// The classes of lengths by the combinations of their values, which may be left out.
    By,
}

impl Parameter {
    /// Its name in a query.
    pub fn name(self) -> &'static str
        ensures { result.now ≡ parameter_text self }
    {
        match self {
            Parameter::Route | Parameter::RouteOrAll => "route",
            Parameter::Method => "method",
            Parameter::Position => "pos",
            Parameter::To | Parameter::UpTo => "to",
            Parameter::Side | Parameter::SideOrBoth => "side",
            Parameter::Class | Parameter::ClassOrAll | Parameter::ClassesOrAll => "class",
            Parameter::From | Parameter::FirstEdit => "from",
            Parameter::Asset | Parameter::AssetOrAll => "asset",
            Parameter::EditOrAll => "edit",
            Parameter::Since => "since",
            Parameter::Until => "until",
            Parameter::Exact => "exact",
            Parameter::RowsOnLinks => "on_links",
            Parameter::Gaps => "gaps",
            Parameter::Chainage => "chainage",
            Parameter::OnLink => "link",
            Parameter::Millimetre => "mm",
            Parameter::By => "by",
        }
    }
}

/// Why nothing is asked.
#[derive(Clone, Copy, PartialEq, Eq)]
pub enum QueryFault {
    /// The first parameter that is missing or cannot be read.
    Malformed(Parameter),
    /// The name in the path is none that a route can have.
    NoRoute,
    /// Memory ran out.
    Memory,
}

impl From<AllocError> for QueryFault {
    ghost use Rattle.lrs_web_replies.specs.declared.question.QueryFault.TheVariants.{Memory};

    ghost from_gives = { λ _ e. e ≡ Memory };

    fn from(_: AllocError) -> Self {
        QueryFault::Memory
    }
}

impl<T: Drop> From<AllocFailed<T>> for QueryFault {
    ghost use Rattle.lrs_web_replies.specs.declared.question.QueryFault.TheVariants.{Memory};

    ghost from_gives = { λ _ e. e ≡ Memory };

    fn from(_: AllocFailed<T>) -> Self {
        QueryFault::Memory
    }
}

#[tactic(auto, using(crate::proofs::FirstFaults::at_route, crate::proofs::FirstFaults::at_position))]
fn at_question(alloc: Global, query: &[u8]) -> Result<Question, QueryFault>
    ensures asked { IfOk result (AsksOf Resource.At query.now) }
    ensures unasked { IfErr result (CannotAsk Resource.At query.now) }
{
    let route = route_in(alloc, query)?;
    let position = position_in(alloc, query)?;
    Ok(Question::At { route, position })
}

fn route_question(name: &[u8]) -> Result<Question, QueryFault>
    ensures asked { IfOk result (AsksOf Resource.Route name.now) }
    ensures unasked { IfErr result (CannotAsk Resource.Route name.now) }
{
    match RouteName::new(name) {
        Some(route) => Ok(Question::Route { route }),
        None => Err(QueryFault::NoRoute),
    }
}

#[tactic(auto, using(crate::proofs::FirstFaults::segments_route, crate::proofs::FirstFaults::segments_side, crate::proofs::FirstFaults::segments_class))]
fn segments_question(alloc: Global, query: &[u8]) -> Result<Question, QueryFault>
    ensures asked { IfOk result (AsksOf Resource.Segments query.now) }
    ensures unasked { IfErr result (CannotAsk Resource.Segments query.now) }
{
    let route = route_in(alloc, query)?;
    let side = side_in(alloc, query)?;
    let classes = classes_in(alloc, query)?;
    Ok(Question::Segments {
        route,
        side,
        classes,
    })
}

#[tactic(auto, using(crate::proofs::FirstFaults::translate_route, crate::proofs::FirstFaults::translate_position, crate::proofs::FirstFaults::translate_to))]
fn translate_question(alloc: Global, query: &[u8]) -> Result<Question, QueryFault>
    ensures asked { IfOk result (AsksOf Resource.Translate query.now) }
    ensures unasked { IfErr result (CannotAsk Resource.Translate query.now) }
{
    let route = route_in(alloc, query)?;
    let position = position_in(alloc, query)?;
    let to = destination_in(alloc, query)?;
    Ok(Question::Translate {
        route,
        position,
        to,
    })
}

#[tactic(auto, using(crate::proofs::FirstFaults::diagram_route, crate::proofs::FirstFaults::diagram_classes, crate::proofs::FirstFaults::diagram_from, crate::proofs::FirstFaults::diagram_to))]
fn diagram_question(alloc: Global, query: &[u8]) -> Result<Question, QueryFault>
    ensures asked { IfOk result (AsksOf Resource.Diagram query.now) }
    ensures unasked { IfErr result (CannotAsk Resource.Diagram query.now) }
{
    let route = route_in(alloc, query)?;
    let classes = classes_or_all_in(alloc, query)?;
    let from = from_in(alloc, query)?;
    let to = to_in(alloc, query)?;
    Ok(Question::Diagram {
        route,
        classes,
        from,
        to,
    })
}

#[tactic(auto, using(crate::proofs::FirstFaults::find_asset))]
fn find_question(alloc: Global, query: &[u8]) -> Result<Question, QueryFault>
    ensures asked { IfOk result (AsksOf Resource.Find query.now) }
    ensures unasked { IfErr result (CannotAsk Resource.Find query.now) }
{
    let asset = asset_in(alloc, query)?;
    Ok(Question::Find { asset })
}

/// What a resource is asked: a route by its name, any other by the parameters of a query. Unknown parameters are passed
/// over here (`unknown_in` finds them); of several of one name the first counts, but of classes all do.
///
/// # Errors
/// `Malformed` with the first parameter that is missing or cannot be read, `NoRoute` at a text that is no route's name,
/// and `Memory`.
pub fn question_of(
    alloc: Global,
    resource: Resource,
    argument: &[u8],
) -> Result<Question, QueryFault>
    requires { verb_of resource ≡ verb.Get }
    ensures asked { IfOk result (AsksOf resource argument.now) }
    ensures unasked { IfErr result (CannotAsk resource argument.now) }
{
    match resource {
        Resource::At => at_question(alloc, argument),
        Resource::Route => route_question(argument),
        Resource::Segments => segments_question(alloc, argument),
        Resource::Translate => translate_question(alloc, argument),
        Resource::Totals => Ok(Question::Totals),
        Resource::Diagram => diagram_question(alloc, argument),
        Resource::Find => find_question(alloc, argument),
        Resource::Where => where_question(alloc, argument),
        Resource::Lengths => lengths_question(alloc, argument),
        Resource::Routes => Ok(Question::List(Listing::Routes)),
        Resource::Links => Ok(Question::List(Listing::Links)),
        Resource::Classes => Ok(Question::List(Listing::Classes)),
        Resource::Refs => refs_question(alloc, argument),
        Resource::Marks => marks_question(alloc, argument),
        Resource::Pieces => pieces_question(alloc, argument),
        Resource::Rows => rows_question(alloc, argument),
        Resource::Overlay => overlay_question(alloc, argument),
        Resource::Gone => gone_question(alloc, argument),
        Resource::History => history_question(alloc, argument),
        Resource::Log => log_question(alloc, argument),
        Resource::Health => Ok(Question::Health),
        Resource::Edits
        | Resource::Surveys
        | Resource::EditsCheck
        | Resource::SurveysCheck
        | Resource::Questions
        | Resource::Draft(_) => unreachable!(),
    }
}
