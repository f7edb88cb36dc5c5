//! Requests out of contents.

ghost use Rattle.std.specs.Prelude.{◌≡◌, None, Some, IfOk, Err, IsUtf8, option_and_then};
ghost use Rattle.serde_json.specs.Read.{read};
ghost use Rattle.serde_json.specs.View.{view};
ghost use Rattle.adapter_messages.specs.Requests.{command_of, request_of};

use crate::command_name::name_of;
use crate::commands::with_arguments;
use crate::request::{Command, Request};
use crate::text::Text;
use serde_json::Value;
use std::alloc::{AllocError, Global};

/// Why there is no request.
#[derive(Clone, Copy, Debug, PartialEq, Eq)]
pub enum RequestFault {
    /// The content is no JSON object with a number `seq` and a text `command`.
    NotARequest,
    /// There was no memory for it.
    NoMemory,
}

/// What a message asks for whose command is called so.
fn command_of(alloc: Global, name: &str, message: &Value) -> Result<Command, AllocError>
    ensures { IfOk result (λ c. c ≡ command_of name.now (view message.now)) }
{
    match name_of(name) {
        None => Ok(Command::Unknown),
        Some(command) => match with_arguments(alloc, command, message)? {
            Some(asked) => Ok(asked),
            None => Ok(Command::BadArguments),
        },
    }
}

/// The request that a message is.
fn request_of(alloc: Global, message: &Value) -> Result<Option<Request>, AllocError>
    ensures { IfOk result (λ r. r ≡ request_of (view message.now)) }
{
    let Some(seq) = message.get("seq").and_then(Value::as_u64) else {
        return Ok(None);
    };
    let Some(name) = message.get("command").and_then(Value::as_str) else {
        return Ok(None);
    };
    let command = command_of(alloc, name, message)?;
    let name = Text::new(alloc, name)?;
    Ok(Some(Request { seq, name, command }))
}

/// The JSON that a content is.
fn message_in(alloc: Global, content: &[u8]) -> Result<Value, RequestFault>
    ensures message { IfOk result (λ v. IsUtf8 content.now × (read content.now ≡ Some (view v))) }
    ensures none { result ≡ Err RequestFault.NotARequest → IsUtf8 content.now → read content.now ≡ None }
{
    let Ok(text) = str::from_utf8(content) else {
        return Err(RequestFault::NotARequest);
    };
    match Value::from_str(alloc, text) {
        Ok(value) => Ok(value),
        Err(error) if error.is_memory() => Err(RequestFault::NoMemory),
        Err(_) => Err(RequestFault::NotARequest),
    }
}

/// The request that a content is.
pub fn read_request(alloc: Global, content: &[u8]) -> Result<Request, RequestFault>
    ensures text { IfOk result (λ _. IsUtf8 content.now) }
    ensures request { IfOk result (λ r. option_and_then request_of (read content.now) ≡ Some r) }
    ensures none { result ≡ Err RequestFault.NotARequest → IsUtf8 content.now → option_and_then request_of (read content.now) ≡ None }
{
    let message = message_in(alloc, content)?;
    match request_of(alloc, &message) {
        Ok(Some(request)) => Ok(request),
        Ok(None) => Err(RequestFault::NotARequest),
        Err(_) => Err(RequestFault::NoMemory),
    }
}
