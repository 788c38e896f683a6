//! Texts of files as a terminal can show them.

ghost use Rattle.std.specs.Prelude.{◌≡◌, IfOk};
ghost use Rattle.lrs_cli_help.specs.Shown as spec;

use std::alloc::{AllocError, Global};

// The most bytes of a text that are shown.
const MOST_SHOWN: usize = 60;

fn shown_byte(byte: u8) -> u8
    ensures { result ≡ spec.shown_byte byte }
{
    if b' ' <= byte && byte <= b'~' {
        byte
    } else {
        b'?'
    }
}

fn shown_bytes(alloc: Global, text: &[u8]) -> Result<Vec<u8>, AllocError>
    ensures { IfOk result (λ shown. shown.items ≡ spec.shown text.now) }
{
    let mut shown = Vec::with_capacity(alloc, text.len())?;
    for byte in text {
        shown.push(shown_byte(*byte))?;
    }
    Ok(shown)
}

// A text, and of a long one its first bytes.
fn cut(text: &[u8]) -> &[u8] {
    if text.len() > MOST_SHOWN {
        &text[..MOST_SHOWN]
    } else {
        text
    }
}

/// A text as a terminal can show it: printable ASCII, and of a long one how it begins. None where memory runs out.
pub(crate) fn shown(alloc: Global, text: &[u8]) -> Option<String> {
    let bytes = shown_bytes(alloc, cut(text)).ok()?;
    let mut shown = String::new(alloc);
    shown.push_str(str::from_utf8(bytes.as_slice()).ok()?).ok()?;
    if text.len() > MOST_SHOWN {
        shown.push_str("...").ok()?;
    }
    Some(shown)
}
