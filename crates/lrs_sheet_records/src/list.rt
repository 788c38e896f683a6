//! Lists in one field: pieces, marks and classes, as words between spaces.

ghost use Rattle.std.specs.Prelude.{◌≡◌, ◌≢◌, ◌==◌, ℕ, Bool, List, ◌<◌, ◌≤◌, [], ◌∷◌, length, IfSome, IfNone, IfOk};
ghost use Rattle.std.specs.List.{position};
ghost use Rattle.lrs_element.specs.declared.link.Piece.{Piece as DeclaredPiece};
ghost use Rattle.lrs_element.specs.declared.marks.Mark.{Mark as DeclaredMark};
ghost use Rattle.lrs_sheet_records.specs.Words.{AreSaid, IsMarkText, IsPieceText, SaysNumber, parts_of, sign_text, words_of};

use lrs_element::{Mark, Piece};
use lrs_events::ClassName;
use lrs_measure::limits::{GREATEST_LINK, GREATEST_MEASURE, LONGEST_LINK, LONGEST_ROUTE};
use lrs_measure::read_digits;
use std::alloc::{AllocError, Global};

/// The most words of a list.
const MOST_WORDS: u32 = 1_000;

/// A number from `low` to `high`.
pub(crate) fn number(text: &[u8], low: u64, high: u64) -> Option<u64>
    ensures some { IfSome result (λ n. SaysNumber low high text.now n) }
    ensures none { IfNone result ((n : ℕ) → SaysNumber low high text.now n → ⊥) }
{
    match read_digits(text, high) {
        Some(number) if low <= number => Some(number),
        _ => None,
    }
}

/// Whether a piece is run forwards.
fn is_forward(text: &[u8]) -> Option<bool>
    ensures some { IfSome result (λ forward. text.now ≡ sign_text forward) }
    ensures none { IfNone result ((forward : Bool) → text.now ≡ sign_text forward → ⊥) }
{
    if text == b"+".as_slice() {
        Some(true)
    } else if text == b"-".as_slice() {
        Some(false)
    } else {
        None
    }
}

/// Where a byte stands first.
fn place_of_byte(text: &[u8], byte: u8) -> Option<usize>
    ensures { result ≡ position (λ other. other == byte) text.now }
{
    text.iter().position(|other| *other == byte)
}

/// A text up to the first `byte`, and what stands behind it if it is there.
pub fn cut_at(text: &[u8], byte: u8) -> (&[u8], Option<&[u8]>)
    ensures last { IfNone result.1 (parts_of byte text.now ≡ result.0.now ∷ []) }
    ensures more { IfSome result.1 (λ rest. parts_of byte text.now ≡ result.0.now
        ∷ parts_of byte rest.now) }
    ensures shorter { IfSome result.1 (λ rest. length rest.now < length text.now) }
{
    match place_of_byte(text, byte) {
        Some(place) => (&text[..place], Some(&text[place + 1..])),
        None => (text, None),
    }
}

/// A word without a colon.
fn only_part(word: &[u8]) -> Option<&[u8]>
    ensures some { IfSome result (λ text. parts_of 58 word.now ≡ text.now ∷ []) }
    ensures none { IfNone result (2 ≤ length (parts_of 58 word.now)) }
{
    let (text, behind) = cut_at(word, b':');
    match behind {
        None => Some(text),
        Some(_) => None,
    }
}

/// The two parts of a word between colons.
fn two_parts(word: &[u8]) -> Option<(&[u8], &[u8])>
    ensures some { IfSome result (λ parts. parts_of 58 word.now ≡ parts.0.now ∷ parts.1.now ∷ []) }
    ensures none { IfNone result (length (parts_of 58 word.now) ≢ 2) }
{
    let (first, Some(rest)) = cut_at(word, b':') else {
        return None;
    };
    match only_part(rest) {
        Some(second) => Some((first, second)),
        None => None,
    }
}

/// The four parts of a word between colons.
fn four_parts(word: &[u8]) -> Option<(&[u8], &[u8], &[u8], &[u8])>
    ensures some { IfSome result (λ parts. parts_of 58 word.now ≡ parts.0.now ∷ parts.1.now
        ∷ parts.2.now ∷ parts.3.now ∷ []) }
    ensures none { IfNone result (length (parts_of 58 word.now) ≢ 4) }
{
    let (first, Some(rest)) = cut_at(word, b':') else {
        return None;
    };
    let (second, Some(rest)) = cut_at(rest, b':') else {
        return None;
    };
    match two_parts(rest) {
        Some((third, fourth)) => Some((first, second, third, fourth)),
        None => None,
    }
}

/// The piece of a word, `LINK:FROM:TO:+` or `LINK:FROM:TO:-`.
pub fn read_piece(word: &[u8]) -> Option<Piece>
    ensures some { IfSome result (λ piece. IsPieceText word.now piece) }
    ensures none { IfNone result ((piece : DeclaredPiece) → IsPieceText word.now piece → ⊥) }
{
    let Some((link, from, to, direction)) = four_parts(word) else {
        return None;
    };
    let Some(link) = number(link, 1, u64::from(GREATEST_LINK)) else {
        return None;
    };
    let Some(from) = number(from, 0, u64::from(LONGEST_LINK)) else {
        return None;
    };
    let Some(to) = number(to, 0, u64::from(LONGEST_LINK)) else {
        return None;
    };
    let Some(forward) = is_forward(direction) else {
        return None;
    };
    Some(Piece {
        link: link as u32,
        from: from as u32,
        to: to as u32,
        forward,
    })
}

/// The mark of a word, `CHAINAGE:MEASURE`.
pub fn read_mark(word: &[u8]) -> Option<Mark>
    ensures some { IfSome result (λ mark. IsMarkText word.now mark) }
    ensures none { IfNone result ((mark : DeclaredMark) → IsMarkText word.now mark → ⊥) }
{
    let Some((chainage, measure)) = two_parts(word) else {
        return None;
    };
    let Some(chainage) = number(chainage, 0, LONGEST_ROUTE) else {
        return None;
    };
    let Some(measure) = number(measure, 0, GREATEST_MEASURE) else {
        return None;
    };
    Some(Mark { chainage, measure })
}

/// What one word of a list can say.
pub(crate) trait Word {
    ghost use Rattle.std.specs.Prelude.{◌≡◌, ℕ, List, IfSome, IfNone};

    ghost says: { List ℕ → Self → Type 0 };

    fn read(word: &[u8]) -> Option<Self>
        ensures some { IfSome result (λ x. says word.now x) }
        ensures none { IfNone result ((x : Self) → says word.now x → ⊥) };
}

impl Word for Piece {
    ghost use Rattle.lrs_sheet_records.specs.Words.{IsPieceText};

    ghost says = { IsPieceText };

    fn read(word: &[u8]) -> Option<Piece> {
        read_piece(word)
    }
}

impl Word for Mark {
    ghost use Rattle.lrs_sheet_records.specs.Words.{IsMarkText};

    ghost says = { IsMarkText };

    fn read(word: &[u8]) -> Option<Mark> {
        read_mark(word)
    }
}

impl Word for ClassName {
    ghost use Rattle.lrs_sheet_records.specs.Words.{IsClassWord};

    ghost says = { IsClassWord };

    fn read(word: &[u8]) -> Option<ClassName> {
        ClassName::new(word)
    }
}

/// What the words of a text say, if each says something and there are at most 1,000 of them.
///
/// # Errors
///
/// When memory runs out.
pub(crate) fn read_list<T: Word + Drop>(
    alloc: Global,
    text: &[u8],
) -> Result<Option<Vec<T>>, AllocError>
    ensures some { IfOk result (λ list. IfSome list (λ xs.
        AreSaid T.says (words_of text.now) xs.items)) }
    ensures few { IfOk result (λ list. IfSome list (λ xs. length xs.items ≤ 1_000)) }
    ensures none { IfOk result (λ list. IfNone list
        ((xs : List T) → AreSaid T.says (words_of text.now) xs → length xs ≤ 1_000 → ⊥)) }
{
    let mut list = Vec::new(alloc);
    let mut rest = text;
    for _turn in 0..MOST_WORDS {
        let (word, behind) = cut_at(rest, b' ');
        let Some(item) = T::read(word) else {
            return Ok(None);
        };
        list.push(item)?;
        match behind {
            Some(text) => rest = text,
            None => return Ok(Some(list)),
        }
    }
    Ok(None)
}
