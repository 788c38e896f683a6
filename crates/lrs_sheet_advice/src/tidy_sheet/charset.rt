//! How the bytes of a file are to be read as text.

use std::alloc::{AllocError, Global};

/// How the bytes of a file are to be read.
#[derive(Clone, Copy)]
pub(crate) enum Encoding<'a> {
    /// UTF-8, as it is in sheets.
    Utf8(&'a [u8]),
    /// UTF-8 behind a byte order mark.
    MarkedUtf8(&'a [u8]),
    /// UTF-16 behind a byte order mark, the greater byte of each unit first.
    BigUtf16(&'a [u8]),
    /// The same, the smaller byte first.
    LittleUtf16(&'a [u8]),
}

/// How these bytes are to be read, by the mark before them.
pub(crate) fn encoding_of(bytes: &[u8]) -> Encoding<'_> {
    if let Some(text) = bytes.strip_prefix(b"\xef\xbb\xbf") {
        return Encoding::MarkedUtf8(text);
    }
    if let Some(units) = bytes.strip_prefix(b"\xfe\xff") {
        return Encoding::BigUtf16(units);
    }
    if let Some(units) = bytes.strip_prefix(b"\xff\xfe") {
        return Encoding::LittleUtf16(units);
    }
    Encoding::Utf8(bytes)
}

fn unit_of(first: u8, second: u8, is_big: bool) -> u16 {
    if is_big {
        u16::from_be_bytes([first, second])
    } else {
        u16::from_le_bytes([first, second])
    }
}

/// Reads the units of UTF-16, and says whether no byte is left over.
fn read_units(units: &mut Vec<u16>, bytes: &[u8], is_big: bool) -> Result<bool, AllocError> {
    let mut first: Option<u8> = None;
    for byte in bytes {
        match first {
            Some(before) => {
                units.push(unit_of(before, *byte, is_big))?;
                first = None;
            }
            None => first = Some(*byte),
        }
    }
    Ok(first.is_none())
}

/// The text of the units of UTF-16; none where they are no text.
fn text_of(alloc: Global, units: &[u16]) -> Result<Option<String>, AllocError> {
    match String::from_utf16(alloc, units)? {
        Ok(text) => Ok(Some(text)),
        Err(_) => Ok(None),
    }
}

/// The text of UTF-16, read into these units; none where it is no text.
fn decoded_by(
    alloc: Global,
    units: &mut Vec<u16>,
    bytes: &[u8],
    is_big: bool,
) -> Result<Option<String>, AllocError> {
    if read_units(units, bytes, is_big)? {
        text_of(alloc, units.as_slice())
    } else {
        Ok(None)
    }
}

/// The text of UTF-16; none where it is no text.
pub(crate) fn decoded(
    alloc: Global,
    bytes: &[u8],
    is_big: bool,
) -> Result<Option<String>, AllocError> {
    let mut units = Vec::new(alloc);
    decoded_by(alloc, &mut units, bytes, is_big)
}

/// Up to which byte a text is UTF-8; none where all of it is.
pub(crate) fn broken_from(text: &[u8]) -> Option<usize> {
    match str::from_utf8(text) {
        Ok(_) => None,
        Err(error) => Some(error.valid_up_to()),
    }
}
