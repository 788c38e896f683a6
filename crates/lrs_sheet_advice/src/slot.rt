//! What each field of a record is for: the table of verbs, as advice needs it.

ghost use Rattle.std.specs.Prelude.{◌≡◌, map, Some};
ghost use Rattle.lrs_sheet_advice.specs.Slots.{IsSlotOf, method_in, shape_of, shapes_behind};

use lrs_machine::Field;
use lrs_sheet_records::{Verb, place_of};

/// What a field is for. A position has the field of its method.
#[derive(Clone, Copy)]
pub(crate) enum Slot {
    Key,
    VerbName,
    LinkNumber,
    LinkLength,
    ClassName,
    ClassKind,
    Route,
    NewName,
    SecondRoute,
    Pieces,
    SomePieces,
    Marks,
    Referent,
    Asset,
    RouteSide,
    MethodName,
    At(Field),
    From(Field),
    To(Field),
    Value,
    Offset,
    Chainage,
    ChainageStart,
    ChainageEnd,
    Unused,
}

/// What the fields a, b, .. behind a verb are for; none where the verb is not known.
fn slots_behind(verb: Option<Verb>) -> &'static [Slot]
    ensures { map shape_of result.now ≡ map Some (shapes_behind verb) }
{
    match verb {
        Some(Verb::Link) => &[Slot::LinkNumber, Slot::LinkLength],
        Some(Verb::Class) => &[Slot::ClassName, Slot::ClassKind],
        Some(Verb::Route) => &[Slot::Route, Slot::Pieces, Slot::Marks],
        Some(Verb::Ref) => &[
            Slot::Referent,
            Slot::Route,
            Slot::MethodName,
            Slot::At(Field::C),
        ],
        Some(Verb::Unref) => &[Slot::Referent],
        Some(Verb::Enter | Verb::Supersede) => &[
            Slot::Asset,
            Slot::ClassName,
            Slot::Route,
            Slot::RouteSide,
            Slot::MethodName,
            Slot::From(Field::E),
            Slot::To(Field::E),
            Slot::Value,
            Slot::Offset,
        ],
        Some(Verb::Retire) => &[
            Slot::Asset,
            Slot::Route,
            Slot::MethodName,
            Slot::From(Field::C),
            Slot::To(Field::C),
        ],
        Some(Verb::Split) => &[Slot::Route, Slot::Chainage, Slot::NewName],
        Some(Verb::Join) => &[Slot::Route, Slot::SecondRoute],
        Some(Verb::Renumber) => &[Slot::Route, Slot::NewName],
        Some(Verb::Recalibrate) => &[Slot::Route, Slot::Marks],
        Some(Verb::Realign) => &[
            Slot::Route,
            Slot::ChainageStart,
            Slot::ChainageEnd,
            Slot::SomePieces,
            Slot::Marks,
        ],
        Some(Verb::Close | Verb::Turn) => &[Slot::Route],
        None => &[],
    }
}

/// What a field of a record is for.
pub(crate) fn slot_of(verb: Option<Verb>, field: Field) -> Slot
    ensures { IsSlotOf verb field result }
{
    match place_of(field) {
        0 => Slot::Key,
        1 => Slot::VerbName,
        place => match slots_behind(verb).get(place - 2) {
            Some(slot) => *slot,
            None => Slot::Unused,
        },
    }
}

/// The field that names the method by which a field is read, of one that has a position.
pub(crate) fn method_field(slot: Slot) -> Option<Field>
    ensures { result ≡ method_in (shape_of slot) }
{
    match slot {
        Slot::At(method) | Slot::From(method) | Slot::To(method) => Some(method),
        _ => None,
    }
}

/// What a field of an edit sheet is called. The start of an asset is a position, and so is its end.
pub(crate) fn name_of(slot: Slot) -> &'static str {
    match slot {
        Slot::Key => "the key",
        Slot::VerbName => "the verb",
        Slot::LinkNumber => "the link",
        Slot::LinkLength => "the length",
        Slot::ClassName => "the class",
        Slot::ClassKind => "the kind",
        Slot::Route => "the route",
        Slot::NewName => "the new name",
        Slot::SecondRoute => "the second route",
        Slot::Pieces | Slot::SomePieces => "the pieces",
        Slot::Marks => "the marks",
        Slot::Referent => "the referent",
        Slot::Asset => "the asset",
        Slot::RouteSide => "the side",
        Slot::MethodName => "the method",
        Slot::At(_) => "the position",
        Slot::Chainage => "the chainage",
        Slot::From(_) | Slot::ChainageStart => "from",
        Slot::To(_) | Slot::ChainageEnd => "to",
        Slot::Value => "the value",
        Slot::Offset => "the offset",
        Slot::Unused => "not used",
    }
}
