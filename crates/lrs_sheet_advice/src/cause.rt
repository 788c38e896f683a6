//! Causes as replies name them, and the fields that they are about.

ghost use Rattle.std.specs.Prelude.{◌≡◌, IfSome, true};
ghost use Rattle.lrs_machine.specs.AnswerTexts as texts;

use crate::slot::{Slot, slot_of};
use lrs_machine::{Cause, Field, What};
use lrs_measure::read_digits;
use lrs_sheet_records::{Verb, cut_at};

/// The fields behind the verb.
const ARGUMENTS: [Field; 9] = [
    Field::A,
    Field::B,
    Field::C,
    Field::D,
    Field::E,
    Field::F,
    Field::G,
    Field::H,
    Field::I,
];

/// What there can be too many of.
const WHATS: [What; 3] = [What::Edits, What::Assets, What::Routes];

/// The causes without an argument.
const PLAIN: [Cause; 18] = [
    Cause::LinkKnown,
    Cause::NoLink,
    Cause::RouteKnown,
    Cause::NoRoute,
    Cause::ClassKnown,
    Cause::NoClass,
    Cause::AssetKnown,
    Cause::NoAsset,
    Cause::RefKnown,
    Cause::NoRef,
    Cause::TooLong,
    Cause::OffRoute,
    Cause::Empty,
    Cause::WrongKind,
    Cause::NoMark,
    Cause::SameRoute,
    Cause::MeasureRange,
    Cause::NothingLeft,
];

/// How a reply names a field.
fn field_name(field: Field) -> &'static str
    ensures { result.now ≡ texts.field_text field }
{
    match field {
        Field::Key => "key",
        Field::Verb => "verb",
        Field::A => "a",
        Field::B => "b",
        Field::C => "c",
        Field::D => "d",
        Field::E => "e",
        Field::F => "f",
        Field::G => "g",
        Field::H => "h",
        Field::I => "i",
    }
}

/// The field of this name.
fn read_field(text: &[u8]) -> Option<Field>
    ensures { IfSome result (λ field. text.now ≡ texts.field_text field) }
{
    if text == field_name(Field::Key).as_bytes() {
        return Some(Field::Key);
    }
    if text == field_name(Field::Verb).as_bytes() {
        return Some(Field::Verb);
    }
    for field in &ARGUMENTS {
        if text == field_name(*field).as_bytes() {
            return Some(*field);
        }
    }
    None
}

fn what_name(what: What) -> &'static str
    ensures { result.now ≡ texts.what_text what }
{
    match what {
        What::Edits => "edits",
        What::Assets => "assets",
        What::Routes => "routes",
    }
}

/// What there can be too many of, by this name.
fn read_what(text: &[u8]) -> Option<What>
    ensures { IfSome result (λ what. text.now ≡ texts.what_text what) }
{
    for what in &WHATS {
        if text == what_name(*what).as_bytes() {
            return Some(*what);
        }
    }
    None
}

/// The name of a cause without an argument.
fn plain_name(cause: Cause) -> Option<&'static str>
    ensures { IfSome result (λ name. name.now ≡ texts.cause_text cause) }
{
    match cause {
        Cause::LinkKnown => Some("LinkKnown"),
        Cause::NoLink => Some("NoLink"),
        Cause::RouteKnown => Some("RouteKnown"),
        Cause::NoRoute => Some("NoRoute"),
        Cause::ClassKnown => Some("ClassKnown"),
        Cause::NoClass => Some("NoClass"),
        Cause::AssetKnown => Some("AssetKnown"),
        Cause::NoAsset => Some("NoAsset"),
        Cause::RefKnown => Some("RefKnown"),
        Cause::NoRef => Some("NoRef"),
        Cause::TooLong => Some("TooLong"),
        Cause::OffRoute => Some("OffRoute"),
        Cause::Empty => Some("Empty"),
        Cause::WrongKind => Some("WrongKind"),
        Cause::NoMark => Some("NoMark"),
        Cause::SameRoute => Some("SameRoute"),
        Cause::MeasureRange => Some("MeasureRange"),
        Cause::NothingLeft => Some("NothingLeft"),
        _ => None,
    }
}

fn is_named(cause: Cause, text: &[u8]) -> bool
    ensures { result ≡ true → text.now ≡ texts.cause_text cause }
{
    match plain_name(cause) {
        Some(name) => text == name.as_bytes(),
        None => false,
    }
}

/// The cause of this name without an argument.
fn read_plain(text: &[u8]) -> Option<Cause>
    ensures { IfSome result (λ cause. text.now ≡ texts.cause_text cause) }
{
    for cause in &PLAIN {
        if is_named(*cause, text) {
            return Some(*cause);
        }
    }
    None
}

/// The causes about a number, by their names.
fn numbered(number: u64) -> [(&'static str, Cause); 5] {
    [
        ("KeyUsed", Cause::KeyUsed(number)),
        ("BadPiece", Cause::BadPiece(number)),
        ("Taken", Cause::Taken(number)),
        ("BadMarks", Cause::BadMarks(number)),
        ("Overlap", Cause::Overlap(number)),
    ]
}

/// The cause of this name about a number.
fn read_numbered(name: &[u8], number: u64) -> Option<Cause> {
    let causes = numbered(number);
    for (known, cause) in &causes {
        if name == known.as_bytes() {
            return Some(*cause);
        }
    }
    None
}

/// The cause of this name with an argument.
fn read_about(name: &[u8], argument: &[u8]) -> Option<Cause> {
    if name == b"Malformed".as_slice() {
        return Some(Cause::Malformed(read_field(argument)?));
    }
    if name == b"TooMany".as_slice() {
        return Some(Cause::TooMany(read_what(argument)?));
    }
    read_numbered(name, read_digits(argument, u64::MAX)?)
}

/// The cause that a reply names.
pub(crate) fn read_cause(text: &[u8]) -> Option<Cause> {
    match cut_at(text, b':') {
        (name, None) => read_plain(name),
        (name, Some(argument)) => read_about(name, argument),
    }
}

/// Whether a cause is about a field for this, in a record of this verb. A join has two routes that have to be known, so
/// neither is meant.
fn is_about(cause: Cause, verb: Verb, slot: Slot) -> bool {
    match cause {
        Cause::LinkKnown => matches!(slot, Slot::LinkNumber),
        Cause::ClassKnown | Cause::NoClass => matches!(slot, Slot::ClassName),
        Cause::AssetKnown | Cause::NoAsset => matches!(slot, Slot::Asset),
        Cause::RefKnown => matches!(slot, Slot::Referent),
        Cause::NoRef if verb == Verb::Unref => matches!(slot, Slot::Referent),
        Cause::NoRef => matches!(slot, Slot::At(_) | Slot::From(_)),
        Cause::RouteKnown if verb == Verb::Route => matches!(slot, Slot::Route),
        Cause::RouteKnown => matches!(slot, Slot::NewName),
        Cause::NoRoute => verb != Verb::Join && matches!(slot, Slot::Route),
        Cause::SameRoute => matches!(slot, Slot::SecondRoute),
        Cause::NoLink
        | Cause::BadPiece(_)
        | Cause::Taken(_)
        | Cause::TooLong
        | Cause::NothingLeft => matches!(slot, Slot::Pieces | Slot::SomePieces),
        Cause::BadMarks(_) => matches!(slot, Slot::Marks),
        Cause::NoMark => matches!(slot, Slot::Chainage),
        Cause::OffRoute | Cause::Empty => {
            matches!(slot, Slot::At(_) | Slot::From(_) | Slot::ChainageStart)
        }
        Cause::WrongKind => matches!(slot, Slot::To(_)),
        _ => false,
    }
}

/// The first field behind the verb that a cause is about.
fn argument_of(cause: Cause, verb: Verb) -> Option<Field> {
    for field in &ARGUMENTS {
        if is_about(cause, verb, slot_of(Some(verb), *field)) {
            return Some(*field);
        }
    }
    None
}

/// The field in which a record of this verb says where a stretch ends.
pub(crate) fn end_of(verb: Verb) -> Option<Field> {
    for field in &ARGUMENTS {
        if matches!(slot_of(Some(verb), *field), Slot::To(_) | Slot::ChainageEnd) {
            return Some(*field);
        }
    }
    None
}

/// The field that a cause is about, in a record of this verb: of a stretch where it starts.
pub(crate) fn field_of(cause: Cause, verb: Option<Verb>) -> Option<Field> {
    match cause {
        Cause::Malformed(field) => Some(field),
        Cause::KeyUsed(_) => Some(Field::Key),
        _ => argument_of(cause, verb?),
    }
}
