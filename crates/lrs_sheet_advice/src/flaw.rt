//! What is wrong with a text that is malformed: one table for all fields.

use crate::item::first_bad_word;
use crate::slot::Slot;
use lrs_position::Method;

/// What is seen in a malformed text.
#[derive(Clone, Copy)]
pub(crate) enum Flaw {
    Unused,
    SpaceFirst,
    SpaceLast,
    SmallLetters,
    Capitals,
    Decimal,
    /// A measure with a point, a comma or a unit.
    DecimalMeasure,
    Empty,
    TooLong,
    TooGreat,
    /// A byte that the alphabet does not have.
    Byte(u8),
    /// The place of a word that is not one of the list, from 0.
    Word(u64),
    /// The position looks like one by this method.
    Method(Method),
    Other,
}

/// What a field wants: what can be wrong with its text.
#[derive(Clone, Copy)]
enum Sort {
    /// The number of a link or of an asset.
    Number,
    /// A number of millimetres.
    Length,
    Key,
    Value,
    RouteName,
    /// Capitals and digits, at most so many.
    Code(usize),
    Pieces,
    Marks,
    Side,
    /// One of some words in small letters.
    Word,
    Position,
    Nothing,
}

fn sort_of(slot: Slot) -> Sort {
    match slot {
        Slot::Key => Sort::Key,
        Slot::Value => Sort::Value,
        Slot::Route | Slot::NewName | Slot::SecondRoute => Sort::RouteName,
        Slot::ClassName => Sort::Code(8),
        Slot::Referent => Sort::Code(12),
        Slot::LinkNumber | Slot::Asset => Sort::Number,
        Slot::LinkLength
        | Slot::Offset
        | Slot::Chainage
        | Slot::ChainageStart
        | Slot::ChainageEnd => Sort::Length,
        Slot::Pieces | Slot::SomePieces => Sort::Pieces,
        Slot::Marks => Sort::Marks,
        Slot::RouteSide => Sort::Side,
        Slot::VerbName | Slot::ClassKind | Slot::MethodName => Sort::Word,
        Slot::At(_) | Slot::From(_) | Slot::To(_) => Sort::Position,
        Slot::Unused => Sort::Nothing,
    }
}

fn has_byte(text: &[u8], byte: u8) -> bool {
    text.iter().any(|other| *other == byte)
}

fn has_small_letter(text: &[u8]) -> bool {
    text.iter().any(|byte| byte.is_ascii_lowercase())
}

fn has_capital(text: &[u8]) -> bool {
    text.iter().any(|byte| byte.is_ascii_uppercase())
}

fn has_digit(text: &[u8]) -> bool {
    text.iter().any(|byte| byte.is_ascii_digit())
}

fn are_digits(text: &[u8]) -> bool {
    text.iter().all(|byte| byte.is_ascii_digit())
}

/// What stands before the first sign of a position.
fn before_sign(text: &[u8]) -> &[u8] {
    match text.iter().position(|byte| *byte == b'+' || *byte == b'-') {
        Some(place) => &text[..place],
        None => text,
    }
}

/// Whether there are small letters where none is wanted. In a position they are looked for in the referent's name.
fn has_wrong_small_letter(sort: Sort, text: &[u8], method: Option<Method>) -> bool {
    match sort {
        Sort::RouteName | Sort::Code(_) | Sort::Side => has_small_letter(text),
        Sort::Position => method == Some(Method::Rel) && has_small_letter(before_sign(text)),
        _ => false,
    }
}

/// Whether a text looks like metres, or like a decimal number.
fn is_decimal(text: &[u8]) -> bool {
    has_digit(text)
        && (has_byte(text, b'.') || has_byte(text, b',') || matches!(text, [.., b'm' | b'M']))
}

/// Whether a field has lengths or measures, which are whole numbers.
fn has_lengths(sort: Sort, method: Option<Method>) -> bool {
    match sort {
        Sort::Length => true,
        Sort::Position => method != Some(Method::Int),
        _ => false,
    }
}

/// Whether a byte is one of the alphabet of a field.
fn is_of_alphabet(sort: Sort, byte: u8) -> bool {
    match sort {
        Sort::Key => byte.is_ascii_alphanumeric() || matches!(byte, b'.' | b':' | b'_' | b'-'),
        Sort::Value => byte.is_ascii_alphanumeric() || matches!(byte, b'.' | b'_' | b'-'),
        Sort::RouteName => byte.is_ascii_uppercase() || byte.is_ascii_digit() || byte == b'-',
        Sort::Code(_) => byte.is_ascii_uppercase() || byte.is_ascii_digit(),
        _ => byte.is_ascii_digit(),
    }
}

/// The first byte of a text that the alphabet of its field does not have.
fn byte_flaw(sort: Sort, text: &[u8]) -> Flaw {
    for byte in text {
        if !is_of_alphabet(sort, *byte) {
            return Flaw::Byte(*byte);
        }
    }
    Flaw::Other
}

fn number_flaw(text: &[u8]) -> Flaw {
    if are_digits(text) {
        Flaw::TooGreat
    } else {
        byte_flaw(Sort::Number, text)
    }
}

fn name_flaw(sort: Sort, text: &[u8], most: usize) -> Flaw {
    if text.len() > most {
        Flaw::TooLong
    } else {
        byte_flaw(sort, text)
    }
}

fn list_flaw(text: &[u8], of_pieces: bool) -> Flaw {
    match first_bad_word(text, of_pieces) {
        Some(place) => Flaw::Word(place),
        None => Flaw::Other,
    }
}

/// The method by which a text looks like a position.
fn method_like(text: &[u8]) -> Option<Method> {
    if has_byte(text, b'/') {
        Some(Method::Int)
    } else if has_byte(text, b'+') || (has_byte(text, b'-') && has_capital(text)) {
        Some(Method::Rel)
    } else if are_digits(text) {
        Some(Method::Abs)
    } else {
        None
    }
}

fn position_flaw(text: &[u8], method: Option<Method>) -> Flaw {
    match method_like(text) {
        Some(like) if method != Some(like) => Flaw::Method(like),
        Some(Method::Abs) => Flaw::TooGreat,
        _ => Flaw::Other,
    }
}

/// What is seen in a text that is not empty and has no flaw of letters or spaces.
fn sort_flaw(sort: Sort, text: &[u8], method: Option<Method>) -> Flaw {
    match sort {
        Sort::Number | Sort::Length => number_flaw(text),
        Sort::Key => name_flaw(sort, text, 40),
        Sort::Value | Sort::RouteName => name_flaw(sort, text, 12),
        Sort::Code(most) => name_flaw(sort, text, most),
        Sort::Pieces => list_flaw(text, true),
        Sort::Marks => list_flaw(text, false),
        Sort::Position => position_flaw(text, method),
        Sort::Side | Sort::Word => Flaw::Other,
        Sort::Nothing => Flaw::Unused,
    }
}

/// What is wrong with a malformed text: the first that is seen, in this order.
pub(crate) fn flaw_of(slot: Slot, text: &[u8], method: Option<Method>) -> Flaw {
    let sort = sort_of(slot);
    if matches!(sort, Sort::Nothing) {
        Flaw::Unused
    } else if matches!(text, [b' ' | b'\t', ..]) {
        Flaw::SpaceFirst
    } else if matches!(text, [.., b' ' | b'\t']) {
        Flaw::SpaceLast
    } else if has_wrong_small_letter(sort, text, method) {
        Flaw::SmallLetters
    } else if matches!(sort, Sort::Word) && has_capital(text) {
        Flaw::Capitals
    } else if has_lengths(sort, method) && is_decimal(text) {
        match method {
            Some(Method::Abs) => Flaw::DecimalMeasure,
            _ => Flaw::Decimal,
        }
    } else if text.is_empty() {
        Flaw::Empty
    } else {
        sort_flaw(sort, text, method)
    }
}

/// What is said of a flaw behind the text in which it is seen. Of `Byte` and `Word` more is said.
pub(crate) fn words_of(flaw: Flaw) -> &'static str {
    match flaw {
        Flaw::Unused => " stands where nothing is wanted",
        Flaw::SpaceFirst => " has a space at its start",
        Flaw::SpaceLast => " has a space at its end",
        Flaw::SmallLetters => " has small letters",
        Flaw::Capitals => " has capital letters",
        Flaw::Decimal => {
            " is not a whole number of millimetres: write 300000 for 300 m, without a point, a comma or a unit"
        }
        Flaw::DecimalMeasure => {
            " is not a whole number: a measure is whole and in the unit of the route's marks, without a point, a comma or a unit"
        }
        Flaw::Empty => " is empty",
        Flaw::TooLong => " is too long",
        Flaw::TooGreat => " is out of range",
        Flaw::Byte(_) => " has a character that is not allowed, ",
        Flaw::Word(_) => " cannot be read",
        Flaw::Method(Method::Abs) => " looks like a measure, of the method abs",
        Flaw::Method(Method::Rel) => " looks like a position of the method rel",
        Flaw::Method(Method::Int) => " looks like a position of the method int",
        Flaw::Other => " cannot be read",
    }
}
