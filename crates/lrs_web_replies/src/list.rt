//! Lists of what is shown.

ghost use Rattle.std.specs.Prelude.{◌≡◌, ◌++◌, ◌∷◌, [], IfOk, OnOk, map};
ghost use Rattle.serde_json.specs.View.{view};
ghost use Rattle.lrs_web_replies.specs.JsonParts.{each};

use serde_json::Value;
use std::alloc::{AllocError, Global};

/// What is shown as JSON.
pub trait Shown {
    ghost use Rattle.std.specs.Prelude.{◌≡◌, IfOk};
    ghost use Rattle.serde_json.specs.Data.{Data};
    ghost use Rattle.serde_json.specs.View.{view};

    ghost shown: { Self → Data };

    fn value(&self, alloc: Global) -> Result<Value, AllocError>
        ensures { IfOk result (λ value. view value ≡ shown self.now) };
}

fn push_value<T: Shown>(alloc: Global, values: &mut Vec<Value>, one: &T) -> Result<(), AllocError>
    ensures { OnOk result (map view values.new.items
        ≡ map view values.old.items ++ T.shown one.now ∷ []) }
{
    let value = one.value(alloc)?;
    Ok(values.push(value)?)
}

/// A list of what is shown.
pub fn list_value<T: Shown>(alloc: Global, list: &[T]) -> Result<Value, AllocError>
    ensures { IfOk result (λ value. view value ≡ each T.shown list.now) }
{
    let mut values = Vec::new(alloc);
    for one in list {
        push_value(alloc, &mut values, one)?;
    }
    Ok(Value::Array(values))
}
