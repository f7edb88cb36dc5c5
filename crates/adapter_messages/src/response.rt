//! Responses: what is answered to requests.

ghost use Rattle.std.specs.Prelude.{◌≡◌, IfOk};
ghost use Rattle.serde_json.specs.View.{view};
ghost use Rattle.adapter_messages.specs.Responses.{success_json, failure_json};

use crate::body::Body;
use crate::json::Json;
use crate::text::Text;
use serde_json::{Value, json};
use std::alloc::{AllocError, Global};

/// What came of a request.
#[derive(Drop)]
pub enum Outcome {
    Success(Body),
    /// It failed, for that reason.
    Failure(Text),
}

/// A response: its number, the number and the command of the request that it answers, and what came of it.
#[derive(Drop)]
pub struct Response {
    pub seq: u64,
    pub request_seq: u64,
    pub command: Text,
    pub outcome: Outcome,
}

/// A response that has something to say.
fn success(alloc: Global, response: &Response, body: &Body) -> Result<Value, AllocError>
    ensures { IfOk result (λ v. view v ≡ success_json response.now body.now) }
{
    let body = body.to_value(alloc)?;
    json!(in alloc; {
        "seq": response.seq,
        "type": "response",
        "request_seq": response.request_seq,
        "success": true,
        "command": response.command.as_str(),
        "body": body,
    })
}

/// A response of a request that failed.
fn failure(alloc: Global, response: &Response, message: &Text) -> Result<Value, AllocError>
    ensures { IfOk result (λ v. view v ≡ failure_json response.now message.now) }
{
    json!(in alloc; {
        "seq": response.seq,
        "type": "response",
        "request_seq": response.request_seq,
        "success": false,
        "command": response.command.as_str(),
        "message": message.as_str(),
    })
}

impl Json for Response {
    ghost use Rattle.adapter_messages.specs.Responses.{response_json, response_no_float};

    ghost json = { response_json };

    fn to_value(&self, alloc: Global) -> Result<Value, AllocError> {
        match &self.outcome {
            Outcome::Success(body) => success(alloc, self, body),
            Outcome::Failure(message) => failure(alloc, self, message),
        }
    }

    ghost no_float = { response_no_float };
}
