//! The advice for one record that is refused.

ghost use Rattle.std.specs.Prelude.{◌≡◌, ◌++◌, OnOk};
ghost use Rattle.lrs_sheet_advice.specs.Refusals as spec;

use crate::cause::{end_of, field_of, read_cause};
use crate::column::say_columns;
use crate::line::AdviceLine;
use crate::malformed::{say_item, say_malformed};
use crate::records::Records;
use crate::reply::cause_text;
use crate::sentence::sentence;
use crate::slot::{method_field, name_of, slot_of};
use lrs_machine::{Cause, Field};
use lrs_measure::limits::LONGEST_ROUTE;
use lrs_measure::read_digits;
use lrs_sheet_records::Verb;
use std::alloc::{AllocError, Global};

/// Says on which line a record starts.
fn say_start(alloc: Global, head: &mut AdviceLine, start: Option<usize>) -> Result<(), AllocError>
    ensures { OnOk result (head.new ≡ head.old ++ spec.start_text start) }
{
    match start {
        Some(line) => {
            head.say_plain("line ")?;
            head.say_number(alloc, line as u64)
        }
        None => head.say_plain("a record that is not in the sheet"),
    }
}

/// Says the key of a record, if it has one.
fn say_key(head: &mut AdviceLine, key: &[u8]) -> Result<(), AllocError>
    ensures { OnOk result (head.new ≡ head.old ++ spec.key_part key.now) }
{
    match key {
        [] => Ok(()),
        [_, ..] => {
            head.say_plain(", key ")?;
            head.say_bytes(key)
        }
    }
}

/// Says where a record is: `line 11, key s5: `.
pub(crate) fn say_head(
    alloc: Global,
    head: &mut AdviceLine,
    start: Option<usize>,
    key: &[u8],
) -> Result<(), AllocError>
    ensures { OnOk result (head.new ≡ spec.head_text start key.now) }
{
    head.clear();
    say_start(alloc, head, start)?;
    say_key(head, key)?;
    head.say_plain(": ")
}

/// Says which piece, mark, asset or edit a cause names.
fn say_named(
    alloc: Global,
    line: &mut AdviceLine,
    cause: Cause,
    text: &[u8],
) -> Result<(), AllocError> {
    match cause {
        Cause::KeyUsed(edit) => {
            line.say("edit ")?;
            line.say_number(alloc, edit)
        }
        Cause::Overlap(asset) => {
            line.say("asset ")?;
            line.say_number(alloc, asset)
        }
        Cause::BadPiece(place) | Cause::Taken(place) => {
            say_item(alloc, line, "piece ", text, place)
        }
        Cause::BadMarks(place) => say_item(alloc, line, "mark ", text, place),
        _ => Ok(()),
    }
}

/// The field in which the record says where a stretch ends, if it says it.
fn end_in(records: &Records<'_>) -> Option<Field> {
    let end = end_of(records.verb()?)?;
    if records.text_of(end).is_empty() {
        None
    } else {
        Some(end)
    }
}

/// The chainage in a field.
fn chainage_in(records: &Records<'_>, field: Field) -> u64 {
    read_digits(records.text_of(field), LONGEST_ROUTE).unwrap_or(0)
}

/// Which of two chainages is farther along the route: the end, where they are equal.
fn farther(records: &Records<'_>, start: Field, end: Field) -> Field {
    if chainage_in(records, start) > chainage_in(records, end) {
        start
    } else {
        end
    }
}

/// The fields that a cause is about, of which the first is known: of a stretch both ends, where the reply does not say
/// which one is meant. Of two chainages the farther one leads off the route.
fn fields_of(records: &Records<'_>, cause: Cause, first: Field) -> (Field, Option<Field>) {
    match (cause, end_in(records), records.verb()) {
        (Cause::OffRoute, Some(end), Some(Verb::Realign)) => (farther(records, first, end), None),
        (Cause::NoRef | Cause::OffRoute | Cause::Empty, Some(end), _) => (first, Some(end)),
        _ => (first, None),
    }
}

/// Says in which column a field stands, and of a position in which one its method stands. Whether there is an end is said
/// by one column alone.
fn say_field(
    line: &mut AdviceLine,
    records: &Records<'_>,
    cause: Cause,
    field: Field,
) -> Result<(), AllocError> {
    let slot = slot_of(records.verb(), field);
    let method = match cause {
        Cause::WrongKind => None,
        _ => method_field(slot),
    };
    say_columns(line, records.kind(), method, field, name_of(slot))
}

/// Says in which columns that stands which a cause is about.
fn say_place(
    line: &mut AdviceLine,
    records: &Records<'_>,
    cause: Cause,
    first: Field,
) -> Result<(), AllocError> {
    let (field, other) = fields_of(records, cause, first);
    say_field(line, records, cause, field)?;
    if let Some(end) = other {
        line.say(", or ")?;
        say_field(line, records, cause, end)?;
    }
    line.say(": ")
}

/// Says what a cause means, and what to do about it. `text` is that of the field that it is about.
fn say_meaning(
    alloc: Global,
    line: &mut AdviceLine,
    records: &Records<'_>,
    cause: Cause,
    text: &[u8],
) -> Result<(), AllocError> {
    say_named(alloc, line, cause, text)?;
    line.say(sentence(cause, records.verb(), end_in(records).is_some()))
}

/// Says why the record is refused, and what to do about it.
fn say_cause(
    alloc: Global,
    line: &mut AdviceLine,
    records: &Records<'_>,
    cause: Cause,
) -> Result<(), AllocError> {
    let Some(field) = field_of(cause, records.verb()) else {
        return say_meaning(alloc, line, records, cause, b"");
    };
    say_place(line, records, cause, field)?;
    match cause {
        Cause::Malformed(_) => say_malformed(alloc, line, records, field),
        _ => say_meaning(alloc, line, records, cause, records.text_of(field)),
    }
}

/// The field that a refusal is about, and whether it is malformed. Of two fields it is the first.
pub(crate) fn field_meant(records: &Records<'_>, reply: &[u8]) -> Option<(Field, bool)> {
    let cause = read_cause(cause_text(reply))?;
    let first = field_of(cause, records.verb())?;
    let (field, _) = fields_of(records, cause, first);
    Some((field, matches!(cause, Cause::Malformed(_))))
}

/// Says what is wrong with the record of a refusal, and what to do about it.
pub(crate) fn say_refused(
    alloc: Global,
    line: &mut AdviceLine,
    records: &Records<'_>,
    reply: &[u8],
) -> Result<(), AllocError> {
    line.clear();
    match read_cause(cause_text(reply)) {
        Some(cause) => say_cause(alloc, line, records, cause),
        None => line.say_bytes(cause_text(reply)),
    }
}
