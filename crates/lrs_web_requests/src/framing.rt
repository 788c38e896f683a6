//! How long the body of a POST is, by its fields.

ghost use Rattle.std.specs.Prelude.{◌≡◌, ◌≤◌, length, map, All};
ghost use Rattle.httparse.specs.Spans.{header_bytes, IsHeaderWithin};
ghost use Rattle.lrs_web_requests.specs.BodyLengths.{is_named, values_named, stated_length, body_length};
ghost use Rattle.lrs_web_requests.specs.Values.{summary_of, with_value, with_values, nothing, capped_from};

use http::StatusCode;
use httparse::spans::HeaderSpan;

const MOST_BODY: u64 = 1_048_576;

const MOST_DIGITS: usize = 19;

/// The values of the fields of one name, as far as they matter.
#[derive(Clone, Copy)]
pub(crate) enum Values<'b> {
    Nothing,
    One(&'b [u8]),
    Several,
}

fn with<'b>(values: Values<'b>, value: &'b [u8]) -> Values<'b>
    ensures { summary_of result ≡ with_value (summary_of values.entry) value.entry.now }
{
    match values {
        Values::Nothing => Values::One(value),
        Values::One(_) | Values::Several => Values::Several,
    }
}

fn has_name(text: &[u8], field: &HeaderSpan, name: &[u8]) -> bool
    requires { IsHeaderWithin (length text.now) field.now }
    ensures { result ≡ is_named name.now (header_bytes text.now field.now) }
{
    field.name.of(text).eq_ignore_ascii_case(name)
}

/// What the fields of a name say.
pub(crate) fn values_of<'b>(text: &'b [u8], fields: &[HeaderSpan], name: &[u8]) -> Values<'b>
    requires { All (IsHeaderWithin (length text.now)) fields.now }
    ensures { summary_of result ≡ with_values nothing
        (values_named name.now (map (header_bytes text.now) fields.now)) }
{
    let mut values = Values::Nothing;
    for field in fields {
        if has_name(text, field, name) {
            values = with(values, field.value.of(text));
        }
    }
    values
}

/// The number that digits write, up to one more than the longest body.
fn capped_number(digits: &[u8]) -> Option<u64>
    ensures { result ≡ capped_from 0 digits.now }
{
    let mut number = 0u64;
    for digit in digits {
        if !digit.is_ascii_digit() {
            return None;
        }
        number = (number * 10 + u64::from(*digit - b'0')).min(MOST_BODY + 1);
    }
    Some(number)
}

fn length_stated(value: &[u8]) -> Result<usize, StatusCode>
    ensures { result ≡ stated_length value.now }
{
    if value.is_empty() || value.len() > MOST_DIGITS {
        return Err(StatusCode::BAD_REQUEST);
    }
    match capped_number(value) {
        None => Err(StatusCode::BAD_REQUEST),
        Some(number) if number > MOST_BODY => Err(StatusCode::PAYLOAD_TOO_LARGE),
        Some(number) => Ok(number as usize),
    }
}

/// The length of the body, or the status that refuses the request.
pub fn length_of_body(text: &[u8], fields: &[HeaderSpan]) -> Result<usize, StatusCode>
    requires { All (IsHeaderWithin (length text.now)) fields.now }
    ensures { result ≡ body_length (map (header_bytes text.now) fields.now) }
{
    let Values::Nothing = values_of(text, fields, b"transfer-encoding") else {
        return Err(StatusCode::LENGTH_REQUIRED);
    };
    match values_of(text, fields, b"content-length") {
        Values::Nothing => Err(StatusCode::LENGTH_REQUIRED),
        Values::One(value) => length_stated(value),
        Values::Several => Err(StatusCode::BAD_REQUEST),
    }
}
