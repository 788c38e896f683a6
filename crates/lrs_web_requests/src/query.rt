//! The parameters of a query.

ghost use Rattle.std.specs.Prelude.{◌≡◌, IfOk, bytes_eq, map, option_map};
ghost use Rattle.std.specs.Cow.{cow_str_bytes};
ghost use Rattle.std.specs.List.{list_any};
ghost use Rattle.lrs_web_requests.specs.Query.{parameter, parameters, switched, unknown_name};

use form_urlencoded::parse;
use std::alloc::{AllocError, Global};
use std::borrow::CowStr;

/// The value of a parameter: that of the first pair of its name.
pub fn value_of<'q>(
    alloc: Global,
    query: &'q [u8],
    name: &str,
) -> Result<Option<CowStr<'q>>, AllocError>
    ensures { IfOk result (λ value. option_map cow_str_bytes value ≡ parameter name.now query.now) }
{
    for pair in parse(alloc, query) {
        let (key, value) = pair?;
        if key.as_str() == name {
            return Ok(Some(value));
        }
    }
    Ok(None)
}

/// Whether a parameter is there that is 1 or is left out; `None` where it has another value.
pub fn switched(alloc: Global, query: &[u8], name: &str) -> Result<Option<bool>, AllocError>
    ensures { IfOk result (λ found. found ≡ switched name.now query.now) }
{
    match value_of(alloc, query, name)? {
        None => Ok(Some(false)),
        Some(value) if value.as_str() == "1" => Ok(Some(true)),
        Some(_) => Ok(None),
    }
}

/// The values of a parameter: those of all pairs of its name, in their order.
pub fn values_of<'q>(
    alloc: Global,
    query: &'q [u8],
    name: &str,
) -> Result<Vec<CowStr<'q>>, AllocError>
    ensures { IfOk result (λ values. map cow_str_bytes values.items
        ≡ parameters name.now query.now) }
{
    let mut values = Vec::new(alloc);
    for pair in parse(alloc, query) {
        let (key, value) = pair?;
        if key.as_str() == name {
            values.push(value)?;
        }
    }
    Ok(values)
}

fn is_name(name: &str, known: &str) -> bool
    ensures { result ≡ bytes_eq name.now known.now }
{
    name == known
}

/// Whether a name is one of these.
fn is_among(known: &[&str], name: &str) -> bool
    ensures { result ≡ list_any (λ one. bytes_eq name.now one.now) known.now }
{
    known.iter().any(|one| is_name(name, one))
}

/// The name of the first pair that has none of the known ones.
pub fn unknown_name<'q>(
    alloc: Global,
    query: &'q [u8],
    known: &[&str],
) -> Result<Option<CowStr<'q>>, AllocError>
    ensures { IfOk result (λ name. option_map cow_str_bytes name
        ≡ unknown_name (λ text. list_any (λ one. bytes_eq text one.now) known.now) query.now) }
{
    for pair in parse(alloc, query) {
        let (key, _) = pair?;
        if !is_among(known, key.as_str()) {
            return Ok(Some(key));
        }
    }
    Ok(None)
}
