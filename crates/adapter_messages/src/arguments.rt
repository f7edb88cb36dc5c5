//! Arguments of a request.

ghost use Rattle.std.specs.Prelude.{◌≡◌, IfOk, option_map};
ghost use Rattle.serde_json.specs.View.{view};
ghost use Rattle.adapter_messages.specs.Arguments.{argument, number, number_or_zero, integer_or_zero, text};

use crate::text::Text;
use serde_json::Value;
use std::alloc::{AllocError, Global};

/// What the arguments of a message have at this name.
pub(crate) fn argument<'v>(message: &'v Value, name: &str) -> Option<&'v Value>
    ensures { option_map (λ v. view v.now) result ≡ argument name.now (view message.now) }
{
    match message.get("arguments") {
        Some(arguments) => arguments.get(name),
        None => None,
    }
}

/// A number from 0 to 2^64 - 1.
pub(crate) fn number(message: &Value, name: &str) -> Option<u64>
    ensures { result ≡ number name.now (view message.now) }
{
    argument(message, name).and_then(Value::as_u64)
}

/// A number from 0 to 2^64 - 1, 0 where it is left out.
pub(crate) fn number_or_zero(message: &Value, name: &str) -> Option<u64>
    ensures { result ≡ number_or_zero name.now (view message.now) }
{
    match argument(message, name) {
        Some(value) => value.as_u64(),
        None => Some(0),
    }
}

/// An integer from -2^63 to 2^63 - 1, 0 where it is left out.
pub(crate) fn integer_or_zero(message: &Value, name: &str) -> Option<i64>
    ensures { result ≡ integer_or_zero name.now (view message.now) }
{
    match argument(message, name) {
        Some(value) => value.as_i64(),
        None => Some(0),
    }
}

/// A text.
pub(crate) fn text(alloc: Global, message: &Value, name: &str) -> Result<Option<Text>, AllocError>
    ensures { IfOk result (λ t. t ≡ text name.now (view message.now)) }
{
    match argument(message, name).and_then(Value::as_str) {
        Some(characters) => Ok(Some(Text::new(alloc, characters)?)),
        None => Ok(None),
    }
}
