//! Reply lines, part by part.

ghost use Rattle.std.specs.Prelude.{◌≡◌, ◌==◌, option_map};
ghost use Rattle.std.specs.List.{position};
ghost use Rattle.lrs_sheet_advice.specs.AdviceItems.{key_named};
ghost use Rattle.lrs_sheet_advice.specs.Refusals as spec;

use lrs_measure::alphabet::is_lone_dash;
use lrs_sheet_records::cut_at;

/// What follows the key of a refusal.
const REFUSED: &[u8] = b",refused,";

/// Where a byte stands first.
fn place_of_byte(text: &[u8], byte: u8) -> Option<usize>
    ensures { result ≡ position (λ other. other == byte) text.now }
{
    text.iter().position(|other| *other == byte)
}

/// What stands from the first comma of a reply on.
fn from_comma(reply: &[u8]) -> &[u8]
    ensures { result.now ≡ spec.from_comma reply.now }
{
    match place_of_byte(reply, b',') {
        Some(place) => &reply[place..],
        None => b"",
    }
}

/// Whether a reply refuses its record.
pub(crate) fn is_refusal(reply: &[u8]) -> bool
    ensures { result ≡ spec.is_refusal reply.now }
{
    from_comma(reply).starts_with(REFUSED)
}

/// The cause that a refusal names.
pub(crate) fn cause_text(reply: &[u8]) -> &[u8] {
    let rest = from_comma(reply);
    if rest.len() < REFUSED.len() {
        return b"";
    }
    &rest[REFUSED.len()..]
}

/// What stands before the first comma of a reply.
fn first_part(reply: &[u8]) -> &[u8]
    ensures { result.now ≡ spec.first_part reply.now }
{
    match cut_at(reply, b',') {
        (first, None) => first,
        (first, Some(_)) => first,
    }
}

/// The key of a reply, which is empty where the record has none that is well formed.
pub(crate) fn key_text(reply: &[u8]) -> &[u8]
    ensures { result.now ≡ spec.key_of reply.now }
{
    let key = first_part(reply);
    if is_lone_dash(key) { b"" } else { key }
}

/// The key of a reply, where the record has one that is well formed.
pub(crate) fn key_named(reply: &[u8]) -> Option<&[u8]>
    ensures { option_map (λ key. key.now) result ≡ key_named (spec.key_of reply.now) }
{
    match key_text(reply) {
        [] => None,
        key => Some(key),
    }
}
