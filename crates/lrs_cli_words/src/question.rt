//! Which question a job asks: each word, read by the reader of its text.

ghost use Rattle.std.specs.Prelude.{◌≡◌, ◌⊎◌, IfOk, IfErr, IfNone, IfSome, map, option_map};
ghost use Rattle.lrs_position.specs.Readings.{States};
ghost use Rattle.lrs_machine.specs.PlaceTexts.{SaysPlace};
ghost use Rattle.lrs_cli_words.specs.Questions.{Asks, AsksAt, AsksDiagram, AsksNothing, AsksStrip, AsksTranslate, Cannot, CannotAt, CannotClass, CannotDiagram, CannotEnd, CannotPosition, CannotIfGiven, CannotServe, CannotStrip, CannotTranslate, IsFaultOf, SaysAsset, SaysClass, SaysDestination, SaysEnd, SaysMethod, SaysMost, SaysMostReply, SaysNumber, SaysReplyLength, SaysPort, SaysPosition, SaysRoute, SaysService, SaysSide};

use crate::job::Job;
use crate::lists::{form_of, gone_of, lengths_of, list_of, log_of, overlay_of, place_of, rows_of};
use lrs_events::{ClassName, Side, read_side};
use lrs_machine::{Destination, Listing, Place, Question, read_place};
use lrs_measure::limits::GREATEST_ASSET;
use lrs_measure::{Rows, read_digits};
use lrs_position::{Expr, Method, RouteName, Target, read_expr, read_method, read_target};
use std::alloc::{AllocError, Global};
use std::fmt;

/// The greatest port.
const GREATEST_PORT: u64 = 65_535;

/// The most connections that are served before the program ends.
const MOST_CONNECTIONS: u64 = 1_000_000;

/// How long a reply may be at the most, and how long where nothing is said.
const LONGEST_REPLY: u64 = 1_000_000_000_000;

const USUAL_REPLY: u64 = 67_108_864;

/// Where an inventory is served: a port of this machine, for a number of connections; and how.
#[derive(Clone, Copy, PartialEq, Eq)]
pub struct Service {
    pub port: u16,
    pub max: u32,
    /// Each request is told on standard error.
    pub logs: bool,
    /// A failed commit ends the service.
    pub ends_on_fault: bool,
    /// So many bytes a reply has at most.
    pub most_reply: u64,
    /// The web page is shown at `/`.
    pub shows_page: bool,
}

/// A word that cannot be read.
#[derive(Clone, Copy, PartialEq, Eq)]
pub enum BadWord {
    Route,
    Method,
    Position,
    Destination,
    Side,
    Class,
    From,
    To,
    Asset,
    What,
    RouteOfList,
    ExactOfList,
    TwoForms,
    Columns,
    RepeatedColumn,
    Edit,
    Since,
    Until,
    Number,
    Key,
    FromBesideKey,
    UntilBesideKey,
    SumBesideKey,
    UntilBesideSum,
    Place,
    NotLink,
    Link,
    Millimetre,
    Port,
    Max,
    MostReply,
    Compared,
    Draft,
    AskOfStdin,
}

/// What the word is not.
impl fmt::Display for BadWord {
    ghost use Rattle.std.specs.Prelude.{Some};
    ghost use Rattle.lrs_cli_words.specs.Questions.{bad_word_text};

    ghost output = { λ word. Some (bad_word_text word) };

    fn fmt<W: fmt::Write>(&self, f: &mut fmt::Formatter<W>) -> fmt::Result {
        match self {
            BadWord::Route => f.write_str("ROUTE is no route name"),
            BadWord::Method => f.write_str("METHOD is none of abs, rel and int"),
            BadWord::Position => f.write_str("POS is no position by this method"),
            BadWord::Destination => f.write_str("TO is none of abs, int, rel:NAME and link"),
            BadWord::Side => f.write_str("SIDE is neither L nor R"),
            BadWord::Class => f.write_str("CLASS is no class name"),
            BadWord::From => f.write_str(
                "FROM is no place: millimetres, or abs:, rel: or int: before a position",
            ),
            BadWord::To => f.write_str(
                "TO is no place: millimetres, or abs:, rel: or int: before a position",
            ),
            BadWord::Asset => f.write_str("ASSET is no asset number"),
            BadWord::What => f.write_str(
                "WHAT is none of routes, links, classes, refs, marks and pieces",
            ),
            BadWord::RouteOfList => f.write_str(
                "--route stands only beside refs, marks and pieces",
            ),
            BadWord::ExactOfList => f.write_str("--exact stands only beside refs"),
            BadWord::TwoForms => f.write_str("--exact and --on-links are two forms"),
            BadWord::Columns => f.write_str("COLUMNS names no column of this list"),
            BadWord::RepeatedColumn => f.write_str("COLUMNS names a column twice"),
            BadWord::Edit => f.write_str("EDIT is no number of an edit"),
            BadWord::Since => f.write_str("SINCE is no number of an edit"),
            BadWord::Until => f.write_str("UNTIL is no number of an edit"),
            BadWord::Number => f.write_str("FROM is no number of an edit"),
            BadWord::Key => f.write_str("KEY is no key"),
            BadWord::FromBesideKey => f.write_str("FROM and --key KEY are two questions"),
            BadWord::UntilBesideKey => f.write_str("--until and --key KEY are two questions"),
            BadWord::SumBesideKey => f.write_str("--sum and --key KEY are two questions"),
            BadWord::UntilBesideSum => f.write_str("--until and --sum are two questions"),
            BadWord::Place => f.write_str(
                "PLACE is no place: millimetres, or abs:, rel: or int: before a position",
            ),
            BadWord::NotLink => f.write_str("MM stands only behind the word link and LINK"),
            BadWord::Link => f.write_str("LINK is no link number"),
            BadWord::Millimetre => f.write_str("MM is no millimetre of a link"),
            BadWord::Port => f.write_str("PORT is no port number"),
            BadWord::Max => f.write_str("MAX is no number of connections"),
            BadWord::MostReply => f.write_str("BYTES is no length of a reply"),
            BadWord::Compared => f.write_str("diff takes two inventories, or one and --since N"),
            BadWord::Draft => f.write_str("the words say no draft"),
            BadWord::AskOfStdin => f.write_str(
                "--ask reads the standard input, so that SHEET is a file",
            ),
        }
    }
}

/// Why a job's words are no question.
#[derive(Clone, Copy, PartialEq, Eq)]
pub enum QuestionFault {
    Unreadable(BadWord),
    Memory,
}

impl From<AllocError> for QuestionFault {
    ghost use Rattle.lrs_cli_words.specs.declared.question.QuestionFault.TheVariants.{Memory};

    ghost from_gives = { λ _ e. e ≡ Memory };

    fn from(_: AllocError) -> Self {
        QuestionFault::Memory
    }
}

pub(crate) fn route_of(text: &str) -> Result<RouteName, QuestionFault>
    ensures read { IfOk result (SaysRoute text.now) }
    ensures unread { IfErr result (Cannot BadWord.Route (SaysRoute text.now)) }
{
    match RouteName::new(text.as_bytes()) {
        Some(route) => Ok(route),
        None => Err(QuestionFault::Unreadable(BadWord::Route)),
    }
}

fn method_of(text: &str) -> Result<Method, QuestionFault>
    ensures read { IfOk result (SaysMethod text.now) }
    ensures unread { IfErr result (Cannot BadWord.Method (SaysMethod text.now)) }
{
    match read_method(text.as_bytes()) {
        Some(method) => Ok(method),
        None => Err(QuestionFault::Unreadable(BadWord::Method)),
    }
}

fn position_by(method: Method, text: &str) -> Result<Expr, QuestionFault>
    ensures read { IfOk result (States method text.now) }
    ensures unread { IfErr result (Cannot BadWord.Position (States method text.now)) }
{
    match read_expr(method, text.as_bytes()) {
        Some(position) => Ok(position),
        None => Err(QuestionFault::Unreadable(BadWord::Position)),
    }
}

fn position_of(method: &str, text: &str) -> Result<Expr, QuestionFault>
    ensures read { IfOk result (SaysPosition method.now text.now) }
    ensures unread { IfErr result (CannotPosition method.now text.now) }
{
    let by = method_of(method)?;
    position_by(by, text)
}

fn destination_of(text: &str) -> Result<Destination, QuestionFault>
    ensures read { IfOk result (SaysDestination text.now) }
    ensures unread { IfErr result (Cannot BadWord.Destination (SaysDestination text.now)) }
{
    if text == "link" {
        return Ok(Destination::Link);
    }
    match read_target(text.as_bytes()) {
        Some(target) => Ok(Destination::Method(target)),
        None => Err(QuestionFault::Unreadable(BadWord::Destination)),
    }
}

fn side_of(text: &str) -> Result<Side, QuestionFault>
    ensures read { IfOk result (SaysSide text.now) }
    ensures unread { IfErr result (Cannot BadWord.Side (SaysSide text.now)) }
{
    match read_side(text.as_bytes()) {
        Some(side) => Ok(side),
        None => Err(QuestionFault::Unreadable(BadWord::Side)),
    }
}

pub(crate) fn class_in(text: &[u8]) -> Result<ClassName, QuestionFault>
    ensures read { IfOk result (SaysClass text.now) }
    ensures unread { IfErr result (Cannot BadWord.Class (SaysClass text.now)) }
{
    match ClassName::new(text) {
        Some(class) => Ok(class),
        None => Err(QuestionFault::Unreadable(BadWord::Class)),
    }
}

pub(crate) fn class_of(text: &str) -> Result<ClassName, QuestionFault>
    ensures read { IfOk result (SaysClass text.now) }
    ensures unread { IfErr result (Cannot BadWord.Class (SaysClass text.now)) }
{
    class_in(text.as_bytes())
}

pub(crate) fn classes_of(alloc: Global, texts: &[&str]) -> Result<Rows<ClassName>, QuestionFault>
    ensures read { IfOk result (λ names. names ≡ map (λ t. t.now) texts.now) }
    ensures unread { IfErr result (λ e. (e ≡ QuestionFault.Memory)
        ⊎ CannotClass (map (λ t. t.now) texts.now) e) }
{
    let mut names = Vec::new(alloc);
    for text in texts {
        match class_of(text) {
            Ok(name) => {
                if names.push(name).is_err() {
                    return Err(QuestionFault::Memory);
                }
            }
            Err(fault) => return Err(fault),
        }
    }
    Ok(Rows::from_vec(names))
}

/// The number between these bounds that a word says.
pub(crate) fn number_of(
    text: &str,
    least: u64,
    greatest: u64,
    fault: BadWord,
) -> Result<u64, QuestionFault>
    ensures read { IfOk result (SaysNumber least greatest text.now) }
    ensures unread { IfErr result (Cannot fault (SaysNumber least greatest text.now)) }
{
    match read_digits(text.as_bytes(), greatest) {
        Some(number) if number >= least => Ok(number),
        _ => Err(QuestionFault::Unreadable(fault)),
    }
}

pub(crate) fn asset_of(text: &str) -> Result<u64, QuestionFault>
    ensures read { IfOk result (SaysAsset text.now) }
    ensures unread { IfErr result (Cannot BadWord.Asset (SaysAsset text.now)) }
{
    number_of(text, 1, GREATEST_ASSET, BadWord::Asset)
}

/// The place of a route that a word says.
pub(crate) fn place_in(text: &str, fault: BadWord) -> Result<Place, QuestionFault>
    ensures read { IfOk result (SaysPlace text.now) }
    ensures unread { IfErr result (Cannot fault (SaysPlace text.now)) }
{
    match read_place(text.as_bytes()) {
        Some(place) => Ok(place),
        None => Err(QuestionFault::Unreadable(fault)),
    }
}

/// The place at an end of a stretch, where one was given.
pub(crate) fn end_of(text: Option<&str>, fault: BadWord) -> Result<Option<Place>, QuestionFault>
    ensures read { IfOk result (SaysEnd (option_map (λ t. t.now) text.entry)) }
    ensures unread { IfErr result (CannotEnd fault (option_map (λ t. t.now) text.entry)) }
{
    match text {
        Some(text) => Ok(Some(place_in(text, fault)?)),
        None => Ok(None),
    }
}

fn at_of(route: &str, method: &str, position: &str) -> Result<Question, QuestionFault>
    ensures read { IfOk result (AsksAt route.now method.now position.now) }
    ensures unread { IfErr result (CannotAt route.now method.now position.now) }
{
    let route = route_of(route)?;
    let position = position_of(method, position)?;
    Ok(Question::At { route, position })
}

fn translate_of(
    route: &str,
    method: &str,
    position: &str,
    to: &str,
) -> Result<Question, QuestionFault>
    ensures read { IfOk result (AsksTranslate route.now method.now position.now to.now) }
    ensures unread { IfErr result (CannotTranslate route.now method.now position.now to.now) }
{
    let route = route_of(route)?;
    let position = position_of(method, position)?;
    let to = destination_of(to)?;
    Ok(Question::Translate {
        route,
        position,
        to,
    })
}

fn strip_of(
    alloc: Global,
    route: &str,
    side: &str,
    classes: &[&str],
) -> Result<Question, QuestionFault>
    ensures read { IfOk result (AsksStrip route.now side.now (map (λ t. t.now) classes.now)) }
    ensures unread { IfErr result (CannotStrip route.now side.now
        (map (λ t. t.now) classes.now)) }
{
    let route = route_of(route)?;
    let side = side_of(side)?;
    let classes = classes_of(alloc, classes)?;
    Ok(Question::Segments {
        route,
        side,
        classes,
    })
}

fn diagram_of(
    alloc: Global,
    route: &str,
    classes: &[&str],
    from: Option<&str>,
    to: Option<&str>,
) -> Result<Question, QuestionFault>
    ensures read { IfOk result (AsksDiagram route.now (map (λ t. t.now) classes.now)
        (option_map (λ t. t.now) from.entry) (option_map (λ t. t.now) to.entry)) }
    ensures unread { IfErr result (CannotDiagram route.now (map (λ t. t.now) classes.now)
        (option_map (λ t. t.now) from.entry) (option_map (λ t. t.now) to.entry)) }
{
    let route = route_of(route)?;
    let classes = classes_of(alloc, classes)?;
    let from = end_of(from, BadWord::From)?;
    let to = end_of(to, BadWord::To)?;
    Ok(Question::Diagram {
        route,
        classes,
        from,
        to,
    })
}

fn port_of(text: &str) -> Result<u16, QuestionFault>
    ensures read { IfOk result (SaysPort text.now) }
    ensures unread { IfErr result (Cannot BadWord.Port (SaysPort text.now)) }
{
    let port = number_of(text, 1, GREATEST_PORT, BadWord::Port)?;
    Ok(port as u16)
}

fn most_of(text: &str) -> Result<u32, QuestionFault>
    ensures read { IfOk result (SaysMost text.now) }
    ensures unread { IfErr result (Cannot BadWord.Max (SaysMost text.now)) }
{
    let max = number_of(text, 0, MOST_CONNECTIONS, BadWord::Max)?;
    Ok(max as u32)
}

fn most_reply_of(text: Option<&str>) -> Result<u64, QuestionFault>
    ensures read { IfOk result (SaysMostReply (option_map (λ t. t.now) text.entry)) }
    ensures unread { IfErr result (CannotIfGiven BadWord.MostReply SaysReplyLength
        (option_map (λ t. t.now) text.entry)) }
{
    match text {
        Some(text) => number_of(text, 1, LONGEST_REPLY, BadWord::MostReply),
        None => Ok(USUAL_REPLY),
    }
}

/// Where and how an inventory is served, as these words and options say.
///
/// # Errors
/// The first word that cannot be read.
pub fn service_of(
    port: &str,
    max: &str,
    logs: bool,
    ends_on_fault: bool,
    most_reply: Option<&str>,
    shows_page: bool,
) -> Result<Service, QuestionFault>
    ensures read { IfOk result (SaysService port.now max.now logs ends_on_fault
        (option_map (λ t. t.now) most_reply.entry) shows_page) }
    ensures unread { IfErr result (CannotServe port.now max.now
        (option_map (λ t. t.now) most_reply.entry)) }
{
    let port = port_of(port)?;
    let max = most_of(max)?;
    let most_reply = most_reply_of(most_reply)?;
    Ok(Service {
        port,
        max,
        logs,
        ends_on_fault,
        most_reply,
        shows_page,
    })
}

/// What a job asks of its inventory; none where it does, checks or tidies a sheet, answers a sheet of questions, sums its
/// log, audits, serves, or writes the page.
///
/// # Errors
/// The first word that cannot be read, and `Memory`.
pub fn question_of(alloc: Global, job: &Job<'_>) -> Result<Option<Question>, QuestionFault>
    ensures none { IfOk result (λ asked. IfNone asked (AsksNothing job.now)) }
    ensures read { IfOk result (λ asked. IfSome asked (Asks job.now)) }
    ensures unread { IfErr result (IsFaultOf job.now) }
{
    let question = match job {
        Job::Edit { .. }
        | Job::Survey { .. }
        | Job::Check { .. }
        | Job::Tidy { .. }
        | Job::Ask { .. }
        | Job::Log { sum: true, .. }
        | Job::Diff { .. }
        | Job::Draft { .. }
        | Job::Audit { .. }
        | Job::Serve { .. }
        | Job::Page { .. } => return Ok(None),
        Job::At {
            route,
            method,
            position,
            ..
        } => at_of(route, method, position)?,
        Job::Where {
            route,
            place,
            mm,
            ..
        } => Question::Where(place_of(route, place, *mm)?),
        Job::Translate {
            route,
            method,
            position,
            to,
            ..
        } => translate_of(route, method, position, to)?,
        Job::Strip {
            route,
            side,
            classes,
            ..
        } => strip_of(alloc, route, side, classes.as_slice())?,
        Job::Diagram {
            route,
            classes,
            from,
            to,
            ..
        } => diagram_of(alloc, route, classes.as_slice(), *from, *to)?,
        Job::Totals { .. } => Question::Totals,
        Job::Lengths { route, by, .. } => lengths_of(alloc, *route, *by)?,
        Job::Find { asset, .. } => Question::Find {
            asset: asset_of(asset)?,
        },
        Job::Route { route, .. } => Question::Route {
            route: route_of(route)?,
        },
        Job::List {
            what,
            route,
            exact,
            ..
        } => Question::List(list_of(what, *route, *exact)?),
        Job::Rows {
            route,
            from,
            to,
            class,
            asset,
            exact,
            on_links,
            ..
        } => {
            let form = form_of(*exact, *on_links)?;
            Question::Rows(rows_of(*route, *from, *to, *class, *asset, form)?)
        }
        Job::Overlay {
            classes,
            route,
            side,
            from,
            to,
            gaps,
            ..
        } => Question::Overlay(overlay_of(
            alloc,
            classes.as_slice(),
            *route,
            *side,
            *from,
            *to,
            *gaps,
        )?),
        Job::Gone {
            edit,
            class,
            since,
            until,
            ..
        } => Question::List(Listing::Gone(gone_of(*edit, *class, *since, *until)?)),
        Job::History { asset, .. } => Question::List(Listing::History(asset_of(asset)?)),
        Job::Log {
            from,
            until,
            key,
            sum: false,
            ..
        } => Question::List(log_of(*from, *until, *key)?),
    };
    Ok(Some(question))
}
