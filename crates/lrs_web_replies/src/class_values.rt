//! The values of classes side by side, as JSON.

ghost use Rattle.std.specs.Prelude.{◌≡◌, ◌∷◌, ◌++◌, [], IfOk, OnOk, codes, map};
ghost use Rattle.serde_json.specs.Data.{object, put};
ghost use Rattle.serde_json.specs.View.{members_view, view};
ghost use Rattle.lrs_web_replies.specs.JsonParts.{each};
ghost use Rattle.lrs_web_replies.specs.Members.{scalar_data};
ghost use Rattle.lrs_web_replies.specs.Overlay.{held_data};

use crate::members::{Scalar, scalar_value, with_value};
use lrs_events::Value as AssetValue;
use serde_json::{Map, Value};
use std::alloc::{AllocError, Global};

fn held_or_null(value: Option<AssetValue>) -> Scalar
    ensures { scalar_data result ≡ held_data value }
{
    match value {
        Some(value) => Scalar::Held(value),
        None => Scalar::Null,
    }
}

fn push_held(
    alloc: Global,
    values: &mut Vec<Value>,
    held: Option<AssetValue>,
) -> Result<(), AllocError>
    ensures { OnOk result (map view values.new.items
        ≡ map view values.old.items ++ held_data held ∷ []) }
{
    let value = scalar_value(alloc, &held_or_null(held))?;
    Ok(values.push(value)?)
}

/// A list of values, each null where there is none.
fn held_values(alloc: Global, held: &[Option<AssetValue>]) -> Result<Value, AllocError>
    ensures { IfOk result (λ value. view value ≡ each held_data held.now) }
{
    let mut values = Vec::new(alloc);
    for one in held {
        push_held(alloc, &mut values, *one)?;
    }
    Ok(Value::Array(values))
}

/// An object of these members and values. It takes them, so that a caller has none to drop where memory runs out.
pub(crate) fn with_held(
    alloc: Global,
    map: Map<String, Value>,
    held: &[Option<AssetValue>],
) -> Result<Value, AllocError>
    ensures { IfOk result (λ value. view value
        ≡ object (put (codes "values") (each held_data held.now) (members_view map.entries))) }
{
    let values = held_values(alloc, held)?;
    let members = with_value(alloc, map, "values", values)?;
    Ok(Value::Object(members))
}
