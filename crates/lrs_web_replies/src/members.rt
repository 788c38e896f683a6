//! The members of objects, as tables of names and what they hold.

ghost use Rattle.std.specs.Prelude.{◌≡◌, IfOk, IfSome, OnOk, fold};
ghost use Rattle.serde_json.specs.Data.{no_members, object, put as put_data, string};
ghost use Rattle.serde_json.specs.View.{members_view, view};
ghost use Rattle.lrs_web_replies.specs.Members.{scalar_data, with_member};
ghost use Rattle.lrs_web_replies.specs.declared.members.Scalar.TheVariants as scalar;
ghost use Rattle.lrs_web_replies.specs.JsonParts.{each};

use crate::answers::name_of;
use crate::list::{Shown, list_value};
use lrs_events::{ClassName, Kind, Side, Value as AssetValue};
use lrs_machine::Key;
use lrs_measure::{Frac, Metres};
use lrs_position::{Expr, RefName, RouteName};
use serde_json::{Map, Value, put};
use std::alloc::{AllocError, Global};
use std::fmt;

/// A number, a text, or nothing.
#[derive(Clone, Copy)]
pub(crate) enum Scalar {
    Null,
    Whole(u64),
    Word(&'static str),
    Route(RouteName),
    Referent(RefName),
    Class(ClassName),
    Kind(Kind),
    Held(AssetValue),
    Side(Side),
    Position(Expr),
    /// A link, and the distance from its start.
    OnLink(u32, Frac),
    /// No text where there is no measure.
    Measure(Option<Frac>),
    /// Thousandths, as a decimal with three places; no text where there is none.
    Thousandths(Option<u64>),
    Key(Key),
}

/// The name of a member, and what it holds.
#[derive(Clone, Copy)]
pub(crate) struct Member(pub &'static str, pub Scalar);

/// The text that something is printed as.
fn text_value<T: fmt::Display>(alloc: Global, shown: &T) -> Result<Value, AllocError>
    ensures { IfOk result (λ value. IfSome (T.output shown.now)
        (λ text. view value ≡ string text)) }
{
    let text = format!(in alloc; "{shown}")?;
    Ok(Value::from(text))
}

fn place_value(alloc: Global, link: u32, distance: Frac) -> Result<Value, AllocError>
    ensures { IfOk result (λ value. view value ≡ scalar_data (scalar.OnLink link distance)) }
{
    let text = format!(in alloc; "{link}:{distance}")?;
    Ok(Value::from(text))
}

/// A number, a text or nothing, as JSON.
pub(crate) fn scalar_value(alloc: Global, scalar: &Scalar) -> Result<Value, AllocError>
    ensures { IfOk result (λ value. view value ≡ scalar_data scalar.now) }
{
    match scalar {
        Scalar::Null => Ok(Value::Null),
        Scalar::Whole(number) => Ok(Value::from(*number)),
        Scalar::Word(word) => Value::try_from_str(alloc, word),
        Scalar::Route(name) => Value::try_from_str(alloc, name_of(name)),
        Scalar::Measure(None) => Value::try_from_str(alloc, ""),
        Scalar::Measure(Some(measure)) => text_value(alloc, measure),
        Scalar::Thousandths(None) => Value::try_from_str(alloc, ""),
        Scalar::Thousandths(Some(count)) => text_value(alloc, &Metres::new(*count)),
        Scalar::Key(key) => text_value(alloc, key),
        Scalar::Referent(name) => text_value(alloc, name),
        Scalar::Class(name) => text_value(alloc, name),
        Scalar::Kind(kind) => text_value(alloc, kind),
        Scalar::Held(value) => text_value(alloc, value),
        Scalar::Side(side) => text_value(alloc, side),
        Scalar::Position(position) => text_value(alloc, position),
        Scalar::OnLink(link, distance) => place_value(alloc, *link, *distance),
    }
}

fn put_member(
    alloc: Global,
    map: &mut Map<String, Value>,
    member: &Member,
) -> Result<(), AllocError>
    ensures { OnOk result (members_view map.new.entries
        ≡ with_member (members_view map.old.entries) member.now) }
{
    let value = scalar_value(alloc, &member.1)?;
    put(map, alloc, member.0, value)
}

/// These members, in the order of their names.
pub(crate) fn members_of(
    alloc: Global,
    members: &[Member],
) -> Result<Map<String, Value>, AllocError>
    ensures { IfOk result (λ map. members_view map.entries
        ≡ fold with_member no_members members.now) }
{
    let mut map = Map::new(alloc);
    for member in members {
        put_member(alloc, &mut map, member)?;
    }
    Ok(map)
}

/// These members with one more: a list of what is shown. It takes them, so that a caller has none to drop where memory
/// runs out.
pub(crate) fn with_list<T: Shown>(
    alloc: Global,
    mut map: Map<String, Value>,
    name: &str,
    list: &[T],
) -> Result<Map<String, Value>, AllocError>
    ensures { IfOk result (λ all. members_view all.entries
        ≡ put_data name.now (each T.shown list.now) (members_view map.entries)) }
{
    let value = list_value(alloc, list)?;
    put(&mut map, alloc, name, value)?;
    Ok(map)
}

/// These members with one more. It takes them, as `with_list` does.
pub(crate) fn with_value(
    alloc: Global,
    mut map: Map<String, Value>,
    name: &str,
    value: Value,
) -> Result<Map<String, Value>, AllocError>
    ensures { IfOk result (λ all. members_view all.entries
        ≡ put_data name.now (view value) (members_view map.entries)) }
{
    put(&mut map, alloc, name, value)?;
    Ok(map)
}

/// An object of these members, in the order of their names.
pub(crate) fn object_of(alloc: Global, members: &[Member]) -> Result<Value, AllocError>
    ensures { IfOk result (λ value. view value ≡ object (fold with_member no_members members.now)) }
{
    Ok(Value::Object(members_of(alloc, members)?))
}
