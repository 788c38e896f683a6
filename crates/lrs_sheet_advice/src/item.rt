//! The words of a list in a field: pieces and marks.

ghost use Rattle.std.specs.Prelude.{◌≡◌, ◌↔◌, Some, None, IfSome, IfNone, IsTrue, slice_get};
ghost use Rattle.lrs_sheet_advice.specs.Parts.{IsBadWord, IsItem};
ghost use Rattle.lrs_sheet_records.specs.Words.{parts_of};

use lrs_sheet_records::{cut_at, read_mark, read_piece};

/// The most words of a list.
const MOST_WORDS: u64 = 1_000;

/// What stands before the first byte of this value.
fn first_word(text: &[u8], byte: u8) -> &[u8]
    ensures { slice_get (parts_of byte text.now) 0 ≡ Some result.now }
{
    match cut_at(text, byte) {
        (first, None) => first,
        (first, Some(_)) => first,
    }
}

/// What stands at a place between the bytes of this value, from 0.
pub(crate) fn word_at(text: &[u8], byte: u8, place: u64) -> Option<&[u8]>
    ensures some { IfSome result (λ word. slice_get (parts_of byte text.now) place ≡ Some word.now) }
    ensures none { IfNone result (slice_get (parts_of byte text.now) place ≡ None) }
{
    let mut rest = text;
    for turn in 0..place {
        let (_, behind) = cut_at(rest, byte);
        match behind {
            Some(left) => rest = left,
            None => return None,
        }
    }
    Some(first_word(rest, byte))
}

/// Whether a word is one of a list of pieces, or else of marks.
fn is_item(word: &[u8], of_pieces: bool) -> bool
    ensures { IsTrue result ↔ IsItem of_pieces word.now }
{
    if of_pieces {
        read_piece(word).is_some()
    } else {
        read_mark(word).is_some()
    }
}

/// The place of the first word that is not one of the list, from 0.
pub(crate) fn first_bad_word(text: &[u8], of_pieces: bool) -> Option<u64>
    ensures { IfSome result (λ place. IsBadWord of_pieces text.now place) }
{
    let mut rest = text;
    for place in 0..MOST_WORDS {
        let (word, behind) = cut_at(rest, b' ');
        if !is_item(word, of_pieces) {
            return Some(place);
        }
        match behind {
            Some(left) => rest = left,
            None => return None,
        }
    }
    None
}
