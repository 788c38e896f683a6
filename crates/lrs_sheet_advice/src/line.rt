//! A line of advice while it is put together: printable ASCII, whatever it is told.

ghost use Rattle.std.specs.Prelude.{◌≡◌, ◌++◌, ◌∷◌, [], ◌<◌, IsTrue, OnOk, IfErr};
ghost use Rattle.std.specs.Fmt.{decimal};
ghost use Rattle.std.specs.Io.KnownBytes.{Appends};
ghost use Rattle.lrs_sheet_advice.specs.AdviceLines as spec;

use crate::fault::AdviceFault;
use std::alloc::{AllocError, Global};
use std::io;
use std::io::Write;
use std::marker::Model;

/// The most bytes of a field that are shown.
const MOST_SHOWN: usize = 40;

/// Whether a byte is printed as it is.
pub(crate) fn is_printable(byte: u8) -> bool
    ensures { result ≡ spec.is_printable byte }
{
    b' ' <= byte && byte <= b'~'
}

/// The hexadecimal digit of a value.
fn hex_digit(value: u8) -> u8
    requires { value < 16 }
    ensures digit { result ≡ spec.hex_digit value }
    ensures printable { IsTrue (spec.is_printable result) }
{
    if value < 10 {
        b'0' + value
    } else {
        b'a' + (value - 10)
    }
}

/// The first of some bytes, as many as are shown.
fn shown_part(text: &[u8]) -> &[u8] {
    if text.len() > MOST_SHOWN {
        &text[..MOST_SHOWN]
    } else {
        text
    }
}

/// A line of advice, without its end.
#[derive(Drop)]
pub(crate) struct AdviceLine {
    bytes: Vec<u8>,
}

impl Model for AdviceLine {
    ghost use Rattle.std.specs.Prelude.{List, ℕ, IsTrue};
    ghost use Rattle.lrs_sheet_advice.specs.AdviceLines.{is_printable_text};

    ghost Value = { List ℕ };

    ghost view = { λ line. line.bytes.items };

    ghost invariant = { λ line. IsTrue (is_printable_text line.bytes.items) };
}

impl AdviceLine {
    pub(crate) fn new(alloc: Global) -> AdviceLine
        ensures { result ≡ [] }
    {
        AdviceLine {
            bytes: Vec::new(alloc),
        }
    }

    /// Its bytes.
    pub(crate) fn bytes(&self) -> &[u8]
        ensures text { result.now ≡ self.now }
        ensures printable { IsTrue (spec.is_printable_text self.now) }
    {
        self.bytes.as_slice()
    }

    /// Forgets what was said.
    pub(crate) fn clear(&mut self)
        ensures { self.new ≡ [] }
    {
        self.bytes.clear();
    }

    /// Says a printable byte.
    fn push(&mut self, byte: u8) -> Result<(), AllocError>
        requires { IsTrue (spec.is_printable byte) }
        ensures { OnOk result (self.new ≡ self.old ++ byte ∷ []) }
    {
        self.bytes.push(byte)?;
        Ok(())
    }

    /// Says words that are printable.
    pub(crate) fn say_plain(&mut self, words: &str) -> Result<(), AllocError>
        requires { IsTrue (spec.is_printable_text words.now) }
        ensures { OnOk result (self.new ≡ self.old ++ words.now) }
    {
        self.bytes.extend_from_slice(words.as_bytes())
    }

    /// Says a byte by its number, as `\x0a`.
    fn push_number(&mut self, byte: u8) -> Result<(), AllocError>
        ensures { OnOk result (self.new ≡ self.old ++ spec.number_text byte) }
    {
        self.push(b'\\')?;
        self.push(b'x')?;
        self.push(hex_digit(byte / 16))?;
        self.push(hex_digit(byte % 16))
    }

    /// Says a byte: as it is where it is printable, and else by its number.
    fn say_byte(&mut self, byte: u8) -> Result<(), AllocError>
        ensures { OnOk result (self.new ≡ self.old ++ spec.shown_byte byte) }
    {
        if is_printable(byte) {
            self.push(byte)
        } else {
            self.push_number(byte)
        }
    }

    /// Says some bytes, those that are not printable by their numbers.
    pub(crate) fn say_bytes(&mut self, text: &[u8]) -> Result<(), AllocError>
        ensures { OnOk result (self.new ≡ self.old ++ spec.shown text.now) }
    {
        for byte in text {
            self.say_byte(*byte)?;
        }
        Ok(())
    }

    /// Says some words.
    pub(crate) fn say(&mut self, words: &str) -> Result<(), AllocError> {
        self.say_bytes(words.as_bytes())
    }

    /// Says a number.
    pub(crate) fn say_number(&mut self, alloc: Global, number: u64) -> Result<(), AllocError>
        ensures { OnOk result (self.new ≡ self.old ++ spec.shown (decimal number)) }
    {
        let digits = number.to_string(alloc)?;
        self.say_bytes(digits.as_bytes())
    }

    /// Says a byte inside quotes.
    fn quote_byte(&mut self, byte: u8) -> Result<(), AllocError> {
        if byte == b'"' || byte == b'\\' {
            self.push(b'\\')?;
        }
        self.say_byte(byte)
    }

    /// Says a text in quotes, and of a long one its first 40 bytes.
    pub(crate) fn quote(&mut self, text: &[u8]) -> Result<(), AllocError> {
        self.push(b'"')?;
        for byte in shown_part(text) {
            self.quote_byte(*byte)?;
        }
        self.push(b'"')?;
        if text.len() > MOST_SHOWN {
            self.say("...")?;
        }
        Ok(())
    }
}

fn write_parts<W: Write>(writer: &mut W, head: &[u8], body: &[u8]) -> io::Result<()>
    ensures { OnOk result (Appends (W.contents writer.old) (W.contents writer.new)
        (head.now ++ body.now ++ 10 ∷ [])) }
{
    writer.write_all(head)?;
    writer.write_all(body)?;
    writer.write_all(b"\n")
}

/// Writes a line of advice: how it begins, and the rest of it.
pub(crate) fn write_line<W: Write>(
    writer: &mut W,
    head: &AdviceLine,
    body: &AdviceLine,
) -> Result<(), AdviceFault>
    ensures written { OnOk result (spec.WritesLine (head.now ++ body.now)
        (W.contents writer.old) (W.contents writer.new)) }
    ensures fault { IfErr result (λ e. e ≡ AdviceFault.Write) }
{
    match write_parts(writer, head.bytes(), body.bytes()) {
        Ok(()) => Ok(()),
        Err(_) => Err(AdviceFault::Write),
    }
}
