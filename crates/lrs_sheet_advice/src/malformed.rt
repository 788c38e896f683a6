//! What is said of a field that is malformed.

ghost use Rattle.std.specs.Prelude.{◌≡◌, ◌++◌, OnOk};
ghost use Rattle.lrs_sheet_advice.specs.Parts as spec;

use crate::flaw::{Flaw, flaw_of, words_of};
use crate::item::word_at;
use crate::line::AdviceLine;
use crate::part::{Part, words_behind, wrong_part};
use crate::records::Records;
use crate::slot::{Slot, method_field, slot_of};
use crate::wanted::say_wanted;
use lrs_machine::Field;
use lrs_position::Method;
use std::alloc::{AllocError, Global};

/// Says the number of a word of a list, from 0: `mark 1 (the first is 0)`.
fn say_numbered(
    alloc: Global,
    line: &mut AdviceLine,
    name: &str,
    place: u64,
) -> Result<(), AllocError>
    ensures { OnOk result (line.new ≡ line.old ++ spec.numbered name.now place) }
{
    line.say_bytes(name.as_bytes())?;
    line.say_number(alloc, place)?;
    line.say_plain(" (the first is 0)")
}

/// Says which word of a list is meant: `mark 1 (the first is 0) "5000:6000"`.
pub(crate) fn say_item(
    alloc: Global,
    line: &mut AdviceLine,
    name: &str,
    list: &[u8],
    place: u64,
) -> Result<(), AllocError> {
    say_numbered(alloc, line, name, place)?;
    match word_at(list, b' ', place) {
        Some(word) => {
            line.say(" ")?;
            line.quote(word)
        }
        None => Ok(()),
    }
}

/// Says which part of a word is wrong, and what is wanted in its place.
fn say_part(line: &mut AdviceLine, part: Part, text: &[u8]) -> Result<(), AllocError> {
    line.say(", ")?;
    line.quote(text)?;
    line.say(words_behind(part))
}

/// Says that a word is none of a list for this, and what is wanted.
fn say_no_item(line: &mut AdviceLine, slot: Slot) -> Result<(), AllocError> {
    line.say(match slot {
        Slot::Marks => " is no mark; ",
        _ => " is no piece; ",
    })?;
    say_wanted(line, slot, None)
}

/// Says of a list for this which word of it is wrong, and which part of the word, and what is wanted there.
fn say_word(
    alloc: Global,
    line: &mut AdviceLine,
    slot: Slot,
    list: &[u8],
    place: u64,
) -> Result<(), AllocError> {
    let (name, of_pieces) = match slot {
        Slot::Marks => ("mark ", false),
        _ => ("piece ", true),
    };
    let word = word_at(list, b' ', place).unwrap_or(b"");
    match wrong_part(word, of_pieces) {
        Some((part, text)) => {
            line.say("in ")?;
            say_item(alloc, line, name, list, place)?;
            say_part(line, part, text)
        }
        None => {
            say_item(alloc, line, name, list, place)?;
            say_no_item(line, slot)
        }
    }
}

/// Says what is wrong with a text.
fn say_flaw(line: &mut AdviceLine, text: &[u8], flaw: Flaw) -> Result<(), AllocError> {
    match flaw {
        Flaw::Empty => line.say("the field")?,
        _ => line.quote(text)?,
    }
    line.say(words_of(flaw))?;
    match flaw {
        Flaw::Byte(byte) => line.quote(&[byte]),
        _ => Ok(()),
    }
}

/// Says what is wrong with a text, and what is wanted in its place.
fn say_text(
    alloc: Global,
    line: &mut AdviceLine,
    slot: Slot,
    text: &[u8],
    method: Option<Method>,
) -> Result<(), AllocError> {
    match flaw_of(slot, text, method) {
        Flaw::Word(place) => say_word(alloc, line, slot, text, place),
        flaw => {
            say_flaw(line, text, flaw)?;
            line.say("; ")?;
            say_wanted(line, slot, method)
        }
    }
}

/// What a field of the record is for, and the method by which it is read, where that is known.
fn slot_in(records: &Records<'_>, field: Field) -> (Slot, Option<Method>) {
    let slot = slot_of(records.verb(), field);
    let method = match method_field(slot) {
        Some(named) => records.method_in(named),
        None => None,
    };
    (slot, method)
}

/// Says what is wanted in a field of the record, and nothing else.
pub(crate) fn say_wanted_in(
    line: &mut AdviceLine,
    records: &Records<'_>,
    field: Field,
) -> Result<(), AllocError> {
    let (slot, method) = slot_in(records, field);
    line.clear();
    say_wanted(line, slot, method)
}

/// Says what is wrong with a field of the record, and what is wanted there.
pub(crate) fn say_malformed(
    alloc: Global,
    line: &mut AdviceLine,
    records: &Records<'_>,
    field: Field,
) -> Result<(), AllocError> {
    let (slot, method) = slot_in(records, field);
    say_text(alloc, line, slot, records.text_of(field), method)
}
