//! Messages that go: their texts, and how they are written.

ghost use Rattle.std.specs.Prelude.{◌≡◌, string_bytes, IfOk};
ghost use Rattle.serde_json.specs.Written.{compact_text};
ghost use Rattle.adapter_messages.specs.Responses.{response_json};
ghost use Rattle.adapter_messages.specs.Events.{event_json};

use crate::event::Event;
use crate::json::Json;
use crate::response::Response;
use std::alloc::{AllocError, Global};

/// The text of what is written as JSON, with no space.
fn text_of<T: Json>(alloc: Global, message: &T) -> Result<String, AllocError>
    ensures { IfOk result (λ text. string_bytes text ≡ compact_text (T.json message.now)) }
{
    let value = message.to_value(alloc)?;
    value.to_string(alloc)
}

/// The content of a response.
pub fn response_text(alloc: Global, response: &Response) -> Result<String, AllocError>
    ensures { IfOk result (λ text. string_bytes text ≡ compact_text (response_json response.now)) }
{
    text_of(alloc, response)
}

/// The content of an event.
pub fn event_text(alloc: Global, event: &Event) -> Result<String, AllocError>
    ensures { IfOk result (λ text. string_bytes text ≡ compact_text (event_json event.now)) }
{
    text_of(alloc, event)
}
