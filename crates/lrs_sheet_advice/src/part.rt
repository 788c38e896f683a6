//! The parts of a piece and of a mark, which stand between colons: one table for all parts.

ghost use Rattle.std.specs.Prelude.{◌≡◌, ◌↔◌, ℕ, Bool, IfSome, IfNone, IsTrue};
ghost use Rattle.lrs_sheet_records.specs.Words.{SaysNumber, sign_text};
ghost use Rattle.lrs_sheet_advice.specs.Parts as spec;
ghost use Rattle.lrs_sheet_advice.specs.Parts.{IsWrongPart, SaysPart};

use crate::item::word_at;
use lrs_measure::limits::{GREATEST_LINK, GREATEST_MEASURE, LONGEST_LINK, LONGEST_ROUTE};
use lrs_measure::read_digits;

/// A part of a piece, `LINK:FROM:TO:+`, or of a mark, `CHAINAGE:MEASURE`.
#[derive(Clone, Copy)]
pub(crate) enum Part {
    Link,
    From,
    To,
    Direction,
    Chainage,
    Measure,
}

/// The parts of a piece.
const OF_PIECE: [Part; 4] = [Part::Link, Part::From, Part::To, Part::Direction];

/// The parts of a mark.
const OF_MARK: [Part; 2] = [Part::Chainage, Part::Measure];

/// At which place of its word a part stands, from 0.
fn place_of(part: Part) -> u64
    ensures { result ≡ spec.place_of part }
{
    match part {
        Part::Link | Part::Chainage => 0,
        Part::From | Part::Measure => 1,
        Part::To => 2,
        Part::Direction => 3,
    }
}

/// A number from `low` to `high`.
fn number(text: &[u8], low: u64, high: u64) -> Option<u64>
    ensures some { IfSome result (λ n. SaysNumber low high text.now n) }
    ensures none { IfNone result ((n : ℕ) → SaysNumber low high text.now n → ⊥) }
{
    match read_digits(text, high) {
        Some(number) if low <= number => Some(number),
        _ => None,
    }
}

/// Whether a text says a number from `low` to `high`.
fn is_number(text: &[u8], low: u64, high: u64) -> bool
    ensures { IsTrue result ↔ ((n : ℕ) × SaysNumber low high text.now n) }
{
    number(text, low, high).is_some()
}

/// Whether a piece is run forwards.
fn is_forward(text: &[u8]) -> Option<bool>
    ensures some { IfSome result (λ forward. text.now ≡ sign_text forward) }
    ensures none { IfNone result ((forward : Bool) → text.now ≡ sign_text forward → ⊥) }
{
    if text == b"+".as_slice() {
        Some(true)
    } else if text == b"-".as_slice() {
        Some(false)
    } else {
        None
    }
}

/// Whether a text says in which direction a piece is run.
fn is_direction(text: &[u8]) -> bool
    ensures { IsTrue result ↔ ((forward : Bool) × (text.now ≡ sign_text forward)) }
{
    is_forward(text).is_some()
}

/// Whether a text says such a part.
fn says(part: Part, text: &[u8]) -> bool
    ensures { IsTrue result ↔ SaysPart part text.now }
{
    match part {
        Part::Link => is_number(text, 1, u64::from(GREATEST_LINK)),
        Part::From | Part::To => is_number(text, 0, u64::from(LONGEST_LINK)),
        Part::Direction => is_direction(text),
        Part::Chainage => is_number(text, 0, LONGEST_ROUTE),
        Part::Measure => is_number(text, 0, GREATEST_MEASURE),
    }
}

/// What a word has at the place of a part, where that does not say the part.
fn wrong_text(word: &[u8], part: Part) -> Option<&[u8]>
    ensures { IfSome result (λ text. IsWrongPart word.now part text.now) }
{
    let Some(text) = word_at(word, b':', place_of(part)) else {
        return None;
    };
    if says(part, text) { None } else { Some(text) }
}

/// The first of these parts that is wrong in a word, and what stands there.
fn first_wrong<'a>(word: &'a [u8], parts: &[Part]) -> Option<(Part, &'a [u8])>
    ensures { IfSome result (λ found. IsWrongPart word.now found.0 found.1.now) }
{
    for part in parts {
        if let Some(text) = wrong_text(word, *part) {
            return Some((*part, text));
        }
    }
    None
}

/// Whether a word has so many parts.
fn has_parts(word: &[u8], count: u64) -> bool {
    word_at(word, b':', count.saturating_sub(1)).is_some() && word_at(word, b':', count).is_none()
}

/// The first part that is wrong in a piece, or else in a mark, and what stands there. None where the word has more or
/// fewer parts than these have.
pub(crate) fn wrong_part(word: &[u8], of_pieces: bool) -> Option<(Part, &[u8])>
    ensures { IfSome result (λ found. IsWrongPart word.now found.0 found.1.now) }
{
    if of_pieces && has_parts(word, 4) {
        first_wrong(word, &OF_PIECE)
    } else if !of_pieces && has_parts(word, 2) {
        first_wrong(word, &OF_MARK)
    } else {
        None
    }
}

/// What is said of a text that does not say such a part, behind the text.
pub(crate) fn words_behind(part: Part) -> &'static str {
    match part {
        Part::Link => " is no link: a whole number from 1 to 999999 is wanted",
        Part::From => {
            " is no FROM: a whole number of millimetres from 0 to 1000000000 is wanted, without a point, a comma or a unit"
        }
        Part::To => {
            " is no TO: a whole number of millimetres from 0 to 1000000000 is wanted, without a point, a comma or a unit"
        }
        Part::Direction => " is no direction: + or - is wanted",
        Part::Chainage => {
            " is no chainage: a whole number of millimetres from 0 to 10000000000 is wanted, without a point, a comma or a unit"
        }
        Part::Measure => {
            " is no measure: a whole number from 0 to 100000000000 is wanted, in the unit of the route's marks, without a point, a comma or a unit"
        }
    }
}
