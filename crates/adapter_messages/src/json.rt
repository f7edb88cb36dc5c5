//! What is written as JSON.

ghost use Rattle.std.specs.Prelude.{◌≡◌, map, IfOk};
ghost use Rattle.serde_json.specs.Data.{array};
ghost use Rattle.serde_json.specs.View.{view, items_of};

use crate::text::Text;
use serde_json::{Value, push};
use std::alloc::{AllocError, Global};

/// What is written as JSON.
pub(crate) trait Json {
    ghost use Rattle.std.specs.Prelude.{◌≡◌, IfOk, false};
    ghost use Rattle.serde_json.specs.Data.{Data};
    ghost use Rattle.serde_json.specs.View.{view};
    ghost use Rattle.serde_json.specs.Written.{has_float};

    /// The JSON of a value.
    ghost json: { Self → Data };

    /// The JSON of this value.
    fn to_value(&self, alloc: Global) -> Result<Value, AllocError>
        ensures { IfOk result (λ v. view v ≡ json self.now) };

    /// None of its numbers is a float.
    ghost no_float: { (x : Self) → has_float (json x) ≡ false };
}

/// The JSON of a list.
pub(crate) fn array_of<T: Json>(alloc: Global, items: &[T]) -> Result<Value, AllocError>
    ensures { IfOk result (λ v. view v ≡ array (items_of (map T.json items.now))) }
{
    let mut values = Vec::new(alloc);
    for item in items {
        let value = item.to_value(alloc)?;
        push(&mut values, value)?;
    }
    Ok(Value::from(values))
}
