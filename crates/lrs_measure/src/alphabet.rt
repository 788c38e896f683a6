//! What names and keys are made of.

ghost use Rattle.std.specs.Prelude.{◌≡◌};
ghost use Rattle.std.specs.List.{list_all};
ghost use Rattle.lrs_measure.specs.Alphabets;

/// Whether a byte is of `A-Z0-9`.
pub fn is_capital(byte: u8) -> bool
    ensures { result ≡ Alphabets.is_capital byte }
{
    byte.is_ascii_uppercase() || byte.is_ascii_digit()
}

/// Whether a byte is of `A-Za-z0-9._-`.
pub fn is_word_byte(byte: u8) -> bool
    ensures { result ≡ Alphabets.is_word_byte byte }
{
    byte.is_ascii_alphanumeric() || matches!(byte, b'.' | b'_' | b'-')
}

/// Whether there are 1 to `most` bytes.
pub fn has_length(bytes: &[u8], most: usize) -> bool
    ensures { result ≡ Alphabets.has_length most bytes.now }
{
    1 <= bytes.len() && bytes.len() <= most
}

/// Whether each byte is of `A-Z0-9`.
pub fn are_capitals(bytes: &[u8]) -> bool
    ensures { result ≡ list_all Alphabets.is_capital bytes.now }
{
    bytes.iter().all(|byte| is_capital(*byte))
}

/// Whether each byte is of `A-Za-z0-9._-`.
pub fn are_word_bytes(bytes: &[u8]) -> bool
    ensures { result ≡ list_all Alphabets.is_word_byte bytes.now }
{
    bytes.iter().all(|byte| is_word_byte(*byte))
}

/// Whether the text begins with a dash.
pub fn has_dash_first(bytes: &[u8]) -> bool
    ensures { result ≡ Alphabets.has_dash_first bytes.now }
{
    match bytes {
        [] => false,
        [first, ..] => *first == b'-',
    }
}

/// Whether the text is a dash and nothing else.
pub fn is_lone_dash(bytes: &[u8]) -> bool
    ensures { result ≡ Alphabets.is_lone_dash bytes.now }
{
    match bytes {
        [only] => *only == b'-',
        _ => false,
    }
}
