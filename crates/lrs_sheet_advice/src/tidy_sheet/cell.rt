//! Whether what stands in a field of a sheet is as sheets have it, and can be read in one way.

ghost use Rattle.std.specs.Prelude.{◌≡◌};
ghost use Rattle.std.specs.List.{list_all, list_any};
ghost use Rattle.lrs_sheet_advice.specs.AdviceLines as lines;
ghost use Rattle.lrs_sheet_advice.specs.TidySheets as spec;

use crate::line::is_printable;

/// What the text of a field is made of.
#[derive(Clone, Copy)]
pub(crate) enum CellForm {
    /// A whole number.
    Digits,
    /// A proportion, as `1/3`.
    Ratio,
    /// Pieces, marks, or a distance from a referent.
    Listed,
    /// Anything else.
    Words,
}

fn is_digit(byte: u8) -> bool
    ensures { result ≡ spec.is_digit byte }
{
    b'0' <= byte && byte <= b'9'
}

pub(crate) fn are_digits(text: &[u8]) -> bool
    ensures { result ≡ list_all spec.is_digit text.now }
{
    text.iter().all(|byte| is_digit(*byte))
}

fn has_digit(text: &[u8]) -> bool
    ensures { result ≡ list_any spec.is_digit text.now }
{
    text.iter().any(|byte| is_digit(*byte))
}

fn is_ratio_byte(byte: u8) -> bool
    ensures { result ≡ spec.is_ratio_byte byte }
{
    is_digit(byte) || byte == b'/'
}

fn are_ratio_bytes(text: &[u8]) -> bool
    ensures { result ≡ list_all spec.is_ratio_byte text.now }
{
    text.iter().all(|byte| is_ratio_byte(*byte))
}

fn slashes(text: &[u8]) -> usize
    ensures { result ≡ spec.slashes text.now }
{
    text.iter().filter(|byte| **byte == b'/').count()
}

fn is_ratio(text: &[u8]) -> bool
    ensures { result ≡ spec.is_ratio text.now }
{
    are_ratio_bytes(text) && slashes(text) == 1
}

fn is_comma(byte: u8) -> bool
    ensures { result ≡ spec.is_comma byte }
{
    byte == b','
}

fn has_comma(text: &[u8]) -> bool
    ensures { result ≡ list_any spec.is_comma text.now }
{
    text.iter().any(|byte| is_comma(*byte))
}

fn is_point(byte: u8) -> bool
    ensures { result ≡ spec.is_point byte }
{
    is_comma(byte) || byte == b'.'
}

fn has_point(text: &[u8]) -> bool
    ensures { result ≡ list_any spec.is_point text.now }
{
    text.iter().any(|byte| is_point(*byte))
}

fn has_group(text: &[u8]) -> bool
    ensures { result ≡ spec.has_group text.now }
{
    text.len() > 4 && text[text.len() - 4] == b'.'
}

fn has_noughts(text: &[u8]) -> bool
    ensures { result ≡ spec.has_noughts text.now }
{
    text.ends_with(b".0") || text.ends_with(b".00")
}

fn are_printable(text: &[u8]) -> bool
    ensures { result ≡ list_all lines.is_printable text.now }
{
    text.iter().all(|byte| is_printable(*byte))
}

fn has_outer_space(text: &[u8]) -> bool
    ensures { result ≡ spec.has_outer_space text.now }
{
    if text.is_empty() {
        return false;
    }
    text[0] == b' ' || text[text.len() - 1] == b' '
}

/// Whether a text is printable ASCII, with no space around it.
pub(crate) fn is_plain(text: &[u8]) -> bool
    ensures { result ≡ spec.is_plain text.now }
{
    are_printable(text) && !has_outer_space(text)
}

/// Whether the text of a field of this form is what spreadsheets make of it.
fn is_doubtful(form: CellForm, text: &[u8]) -> bool
    ensures { result ≡ spec.is_doubtful form text.now }
{
    match form {
        CellForm::Digits => has_comma(text) || has_group(text) || has_noughts(text),
        CellForm::Ratio => has_digit(text) && !is_ratio(text),
        CellForm::Listed => has_point(text),
        CellForm::Words => false,
    }
}

/// Whether the text of a field of this form is as sheets have it, and can be read in one way.
pub(crate) fn is_tidy(form: CellForm, text: &[u8]) -> bool
    ensures { result ≡ spec.is_tidy form text.now }
{
    is_plain(text) && !is_doubtful(form, text)
}
