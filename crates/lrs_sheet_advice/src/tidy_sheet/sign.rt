//! The signs that spreadsheets put into a field, and the text of the field without them.

use crate::tidy_sheet::cell::are_digits;
use std::alloc::AllocError;

/// What stands at the front of a text.
#[derive(Clone, Copy)]
enum Sign {
    /// A space, a tab, a line end, or one of the other spaces of Unicode.
    Space,
    /// A quotation mark of Unicode, or a guillemet.
    Quote,
    /// What is not seen: a soft hyphen, a joiner, a byte order mark.
    Nothing,
    /// A hyphen, a dash or a minus of Unicode.
    Minus,
    /// Any other byte.
    Byte(u8),
}

/// The low bits of a byte of UTF-8 behind the first one of its character.
fn low_bits(byte: u8) -> u32 {
    u32::from(byte & 0x3f)
}

/// The code of the character at the front of a text in UTF-8, and how many bytes it has. Of one of two bytes that is above
/// U+00BF, or of four, or inside a character it is 0.
fn code_at(text: &[u8]) -> (u32, usize) {
    match text {
        [byte, ..] if *byte < 0x80 => (u32::from(*byte), 1),
        [0xc2, last, ..] => (0x80 | low_bits(*last), 2),
        [first, next, last, ..] if *first >= 0xe0 && *first < 0xf0 => {
            let high = u32::from(*first & 0xf) << 12;
            (high | low_bits(*next) << 6 | low_bits(*last), 3)
        }
        _ => (0, 1),
    }
}

/// The sign that a code is; none of any other character.
fn sign_of(code: u32) -> Option<Sign> {
    match code {
        0x09 | 0x0a | 0x0d | 0x20 | 0xa0 | 0x2000..=0x200a | 0x202f | 0x205f | 0x3000 => {
            Some(Sign::Space)
        }
        0xab | 0xbb | 0x2018..=0x201f | 0x2039..=0x203a => Some(Sign::Quote),
        0xad | 0x200b..=0x200f | 0x2060 | 0xfeff => Some(Sign::Nothing),
        0x2010..=0x2015 | 0x2212 => Some(Sign::Minus),
        _ => None,
    }
}

/// What stands at the front of a text, and how many bytes it has.
fn sign_at(text: &[u8]) -> (Sign, usize) {
    let (code, width) = code_at(text);
    match sign_of(code) {
        Some(sign) => (sign, width),
        None => match text.first() {
            Some(byte) => (Sign::Byte(*byte), 1),
            None => (Sign::Nothing, 1),
        },
    }
}

/// Whether a text that is put together ends in a space, or has nothing yet.
fn ends_apart(text: &[u8]) -> bool {
    matches!(text, [] | [.., b' '])
}

/// The bytes of a sign that is kept.
fn bytes_at(text: &[u8], place: usize, width: usize) -> &[u8] {
    match text.get(place..place.saturating_add(width)) {
        Some(bytes) => bytes,
        None => b"",
    }
}

/// Puts the text of a field together without what spreadsheets put there: no spaces or quotation marks around it, one
/// space for several, and a plain minus.
pub(crate) fn mend_text(text: &[u8], mended: &mut Vec<u8>) -> Result<(), AllocError> {
    mended.clear();
    let mut end = 0;
    let mut passed = 0;
    for place in 0..text.len() {
        if passed > 0 {
            passed -= 1;
            continue;
        }
        let (sign, width) = sign_at(&text[place..]);
        passed = width.saturating_sub(1);
        match sign {
            Sign::Nothing => {}
            Sign::Space if ends_apart(mended.as_slice()) => {}
            Sign::Space => mended.push(b' ')?,
            Sign::Quote if mended.is_empty() => {}
            Sign::Quote => mended.extend_from_slice(bytes_at(text, place, width))?,
            Sign::Minus => {
                mended.push(b'-')?;
                end = mended.len();
            }
            Sign::Byte(byte) => {
                mended.push(byte)?;
                end = mended.len();
            }
        }
    }
    mended.truncate(end);
    Ok(())
}

/// Whether a text is a point or comma and one or two noughts.
fn are_noughts(text: &[u8]) -> bool {
    let count = text.len();
    count > 1 && count < 4 && text[1..].iter().all(|byte| *byte == b'0')
}

/// A whole number without the point or comma and the one or two noughts that spreadsheets write behind it. Three could be
/// thousands.
pub(crate) fn without_noughts(text: &[u8]) -> &[u8] {
    let Some(place) = text.iter().position(|byte| *byte == b'.' || *byte == b',') else {
        return text;
    };
    let (whole, rest) = text.split_at(place);
    if !whole.is_empty() && are_digits(whole) && are_noughts(rest) {
        whole
    } else {
        text
    }
}
