//! Canonical lines of commands, as they are kept.

ghost use Rattle.std.specs.Prelude.{◌≡◌, IfOk, string_bytes, [], ◌∷◌, ◌++◌};
ghost use Rattle.lrs_events.specs.Names.{side_text};
ghost use Rattle.lrs_machine.specs.Lines.{line_of, fields, location_fields, new_asset_fields};
ghost use Rattle.std.specs.Fmt.{decimal};
ghost use Rattle.lrs_machine.specs.declared.command.Command.TheVariants as verb;

use crate::command::{Command, NewAsset};
use crate::operands::{AssetNumber, Chainage, MarkList, PieceList};
use crate::texts::{
    class_text, expression_text, kind_text, location_text, marks_text, method_text, pieces_text,
    referent_text, route_text, side_text, some_pieces_text, value_text,
};
use lrs_element::Link;
use lrs_events::Class;
use lrs_position::{EnteredPosition, EventLocation, RefName, RouteName};
use std::alloc::{AllocError, Global};
use std::marker::Model;

/// The canonical text of a command: its verb and fields joined by commas, without superfluous zeros.
#[derive(Drop)]
pub struct Line {
    text: String,
}

impl Model for Line {
    ghost use Rattle.std.specs.Prelude.{List, ℕ, string_bytes};

    ghost Value = { List ℕ };

    ghost view = { λ line. string_bytes line.text };
}

impl Line {
    /// The line of this text, as it was kept.
    pub fn from_text(text: String) -> Line
        ensures { result ≡ string_bytes text }
    {
        Line { text }
    }

    /// Its text.
    pub fn as_str(&self) -> &str
        ensures { result.now ≡ self.now }
    {
        self.text.as_str()
    }

    /// An equal line.
    ///
    /// # Errors
    ///
    /// When memory runs out.
    pub fn copy(&self, alloc: Global) -> Result<Line, AllocError>
        ensures { IfOk result (λ line. line ≡ self.now) }
    {
        Ok(Line {
            text: String::from_str(alloc, self.text.as_str())?,
        })
    }
}

impl Command {
    /// The canonical line.
    ///
    /// # Errors
    ///
    /// When memory runs out.
    pub fn line(&self, alloc: Global) -> Result<Line, AllocError>
        ensures { IfOk result (λ line. line ≡ line_of self.now) }
    {
        let text = match self {
            Command::Link(link) => link_line(alloc, link),
            Command::Class(class) => class_line(alloc, class),
            Command::Route {
                name,
                pieces,
                marks,
            } => route_line(alloc, name, pieces, marks),
            Command::Ref { name, route, at } => ref_line(alloc, name, route, *at),
            Command::Unref { name } => unref_line(alloc, name),
            Command::Enter(asked) => enter_line(alloc, asked),
            Command::Retire {
                asset,
                route,
                location,
            } => retire_line(alloc, *asset, route, *location),
            Command::Split { route, at, name } => split_line(alloc, route, *at, name),
            Command::Join { first, second } => join_line(alloc, first, second),
            Command::Renumber { route, name } => renumber_line(alloc, route, name),
            Command::Recalibrate { route, marks } => recalibrate_line(alloc, route, marks),
            Command::Realign {
                route,
                from,
                to,
                pieces,
                marks,
            } => realign_line(alloc, route, *from, *to, pieces, marks),
            Command::Close { route } => close_line(alloc, route),
            Command::Supersede(asked) => supersede_line(alloc, asked),
            Command::Turn { route } => turn_line(alloc, route),
        }?;
        Ok(Line { text })
    }
}

fn link_line(alloc: Global, link: &Link) -> Result<String, AllocError>
    ensures { IfOk result (λ text. string_bytes text ≡ line_of (verb.Link link.now)) }
{
    let Link { number, length } = *link;
    format!(in alloc; "link,{number},{length}")
}

fn class_line(alloc: Global, class: &Class) -> Result<String, AllocError>
    ensures { IfOk result (λ text. string_bytes text ≡ line_of (verb.Class class.now)) }
{
    let name = class_text(&class.name);
    let kind = kind_text(class.kind);
    format!(in alloc; "class,{name},{kind}")
}

fn route_line(
    alloc: Global,
    name: &RouteName,
    pieces: &PieceList,
    marks: &MarkList,
) -> Result<String, AllocError>
    ensures { IfOk result (λ text. string_bytes text
        ≡ line_of (verb.Route name.now pieces.now marks.now)) }
{
    let name = route_text(name);
    let pieces = pieces_text(alloc, pieces.as_slice())?;
    let marks = marks_text(alloc, marks.as_slice())?;
    format!(in alloc; "route,{name},{pieces},{marks}")
}

fn ref_line(
    alloc: Global,
    name: &RefName,
    route: &RouteName,
    at: EnteredPosition,
) -> Result<String, AllocError>
    ensures { IfOk result (λ text. string_bytes text ≡ line_of (verb.Ref name.now route.now at)) }
{
    let name = referent_text(name);
    let route = route_text(route);
    let at = at.expression();
    let method = method_text(&at);
    let at = expression_text(alloc, &at)?;
    format!(in alloc; "ref,{name},{route},{method},{at}")
}

fn unref_line(alloc: Global, name: &RefName) -> Result<String, AllocError>
    ensures { IfOk result (λ text. string_bytes text ≡ line_of (verb.Unref name.now)) }
{
    let name = referent_text(name);
    format!(in alloc; "unref,{name}")
}

// The asset, class, route and side of a new asset.
fn entered_text(alloc: Global, asked: &NewAsset) -> Result<String, AllocError>
    ensures { IfOk result (λ text. string_bytes text
        ≡ fields (decimal asked.now.asset ∷ asked.now.class ∷ asked.now.route
        ∷ side_text asked.now.side ∷ [])) }
{
    let asset = asked.asset.get();
    let class = class_text(&asked.class);
    let route = route_text(&asked.route);
    let side = side_text(asked.side);
    format!(in alloc; "{asset},{class},{route},{side}")
}

// The value and the lateral offset of a new asset.
fn told_text(alloc: Global, asked: &NewAsset) -> Result<String, AllocError>
    ensures { IfOk result (λ text. string_bytes text
        ≡ fields (asked.now.value ∷ decimal asked.now.offset ∷ [])) }
{
    let value = value_text(&asked.value);
    let offset = asked.offset.get();
    format!(in alloc; "{value},{offset}")
}

fn joined_text(alloc: Global, first: &str, second: &str, third: &str) -> Result<String, AllocError>
    ensures { IfOk result (λ text. string_bytes text
        ≡ fields (first.now ∷ second.now ∷ third.now ∷ [])) }
{
    format!(in alloc; "{first},{second},{third}")
}

// The fields of a new asset.
fn new_asset_text(alloc: Global, asked: &NewAsset) -> Result<String, AllocError>
    ensures { IfOk result (λ text. string_bytes text ≡ fields (new_asset_fields asked.now)) }
{
    let entered = entered_text(alloc, asked)?;
    let location = location_text(alloc, asked.location)?;
    let told = told_text(alloc, asked)?;
    joined_text(alloc, entered.as_str(), location.as_str(), told.as_str())
}

fn enter_line(alloc: Global, asked: &NewAsset) -> Result<String, AllocError>
    ensures { IfOk result (λ text. string_bytes text ≡ line_of (verb.Enter asked.now)) }
{
    let fields = new_asset_text(alloc, asked)?;
    format!(in alloc; "enter,{fields}")
}

fn supersede_line(alloc: Global, asked: &NewAsset) -> Result<String, AllocError>
    ensures { IfOk result (λ text. string_bytes text ≡ line_of (verb.Supersede asked.now)) }
{
    let fields = new_asset_text(alloc, asked)?;
    format!(in alloc; "supersede,{fields}")
}

fn retire_line(
    alloc: Global,
    asset: AssetNumber,
    route: &RouteName,
    location: EventLocation,
) -> Result<String, AllocError>
    ensures { IfOk result (λ text. string_bytes text
        ≡ line_of (verb.Retire asset route.now location)) }
{
    let asset = asset.get();
    let route = route_text(route);
    let location = location_text(alloc, location)?;
    format!(in alloc; "retire,{asset},{route},{location}")
}

fn split_line(
    alloc: Global,
    route: &RouteName,
    at: Chainage,
    name: &RouteName,
) -> Result<String, AllocError>
    ensures { IfOk result (λ text. string_bytes text ≡ line_of (verb.Split route.now at name.now)) }
{
    let route = route_text(route);
    let at = at.get();
    let name = route_text(name);
    format!(in alloc; "split,{route},{at},{name}")
}

fn join_line(alloc: Global, first: &RouteName, second: &RouteName) -> Result<String, AllocError>
    ensures { IfOk result (λ text. string_bytes text ≡ line_of (verb.Join first.now second.now)) }
{
    let first = route_text(first);
    let second = route_text(second);
    format!(in alloc; "join,{first},{second}")
}

fn renumber_line(alloc: Global, route: &RouteName, name: &RouteName) -> Result<String, AllocError>
    ensures { IfOk result (λ text. string_bytes text ≡ line_of (verb.Renumber route.now name.now)) }
{
    let route = route_text(route);
    let name = route_text(name);
    format!(in alloc; "renumber,{route},{name}")
}

fn recalibrate_line(
    alloc: Global,
    route: &RouteName,
    marks: &MarkList,
) -> Result<String, AllocError>
    ensures { IfOk result (λ text. string_bytes text
        ≡ line_of (verb.Recalibrate route.now marks.now)) }
{
    let route = route_text(route);
    let marks = marks_text(alloc, marks.as_slice())?;
    format!(in alloc; "recalibrate,{route},{marks}")
}

// A route's name and the chainages between which it is realigned.
fn realigned_text(
    alloc: Global,
    route: &RouteName,
    from: Chainage,
    to: Chainage,
) -> Result<String, AllocError>
    ensures { IfOk result (λ text. string_bytes text
        ≡ fields (route.now ∷ decimal from ∷ decimal to ∷ [])) }
{
    let route = route_text(route);
    let from = from.get();
    let to = to.get();
    format!(in alloc; "{route},{from},{to}")
}

fn realign_line(
    alloc: Global,
    route: &RouteName,
    from: Chainage,
    to: Chainage,
    pieces: &Option<PieceList>,
    marks: &MarkList,
) -> Result<String, AllocError>
    ensures { IfOk result (λ text. string_bytes text
        ≡ line_of (verb.Realign route.now from to pieces.now marks.now)) }
{
    let realigned = realigned_text(alloc, route, from, to)?;
    let pieces = some_pieces_text(alloc, pieces)?;
    let marks = marks_text(alloc, marks.as_slice())?;
    format!(in alloc; "realign,{realigned},{pieces},{marks}")
}

fn close_line(alloc: Global, route: &RouteName) -> Result<String, AllocError>
    ensures { IfOk result (λ text. string_bytes text ≡ line_of (verb.Close route.now)) }
{
    let route = route_text(route);
    format!(in alloc; "close,{route}")
}

fn turn_line(alloc: Global, route: &RouteName) -> Result<String, AllocError>
    ensures { IfOk result (λ text. string_bytes text ≡ line_of (verb.Turn route.now)) }
{
    let route = route_text(route);
    format!(in alloc; "turn,{route}")
}
