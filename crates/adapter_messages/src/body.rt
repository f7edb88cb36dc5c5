//! Bodies of responses.

ghost use Rattle.std.specs.Prelude.{◌≡◌, [], ◌∷◌, IfOk};
ghost use Rattle.base64.specs.Engines.{standard};
ghost use Rattle.base64.specs.GeneralPurpose.{encode_of};
ghost use Rattle.serde_json.specs.View.{view};
ghost use Rattle.adapter_messages.specs.Json.{fields, list};
ghost use Rattle.adapter_messages.specs.Bodies.{stack_trace_json, memory_json, data_breakpoint_json};

use crate::json::{Json, array_of};
use crate::parts::{Breakpoint, Capabilities, Instruction, Scope, StackFrame, Thread, Variable};
use crate::text::{List, Text};
use base64::engine::general_purpose::STANDARD;
use serde_json::{Value, json};
use std::alloc::{AllocError, Global};

/// What a response that is no failure has to say.
#[derive(Drop)]
pub enum Body {
    /// Nothing.
    Empty,
    /// To `initialize`.
    Capabilities(Capabilities),
    Threads(List<Thread>),
    /// Some of so many frames.
    StackTrace {
        frames: List<StackFrame>,
        total: u64,
    },
    Scopes(List<Scope>),
    Variables(List<Variable>),
    /// Bytes from an address on, and how many behind them cannot be read.
    Memory {
        address: Text,
        bytes: List<u8>,
        unreadable: u64,
    },
    Instructions(List<Instruction>),
    Breakpoints(List<Breakpoint>),
    /// To `dataBreakpointInfo`: the name of the place, if there may be a breakpoint on it.
    DataBreakpoint {
        data_id: Option<Text>,
        description: Text,
    },
    Evaluated {
        result: Text,
        reference: u64,
    },
    /// To a motion: whether every thread goes on.
    Continued {
        all_threads: bool,
    },
}

/// An object with a list in it.
fn listed<T: Json>(alloc: Global, name: &str, items: &[T]) -> Result<Value, AllocError>
    ensures { IfOk result (λ v. view v ≡ fields ((name.now, list T.json items.now) ∷ [])) }
{
    let items = array_of(alloc, items)?;
    json!(in alloc; { name: items })
}

/// Some of so many frames.
fn stack_trace(alloc: Global, frames: &[StackFrame], total: u64) -> Result<Value, AllocError>
    ensures { IfOk result (λ v. view v ≡ stack_trace_json frames.now total) }
{
    let frames = array_of(alloc, frames)?;
    json!(in alloc; { "stackFrames": frames, "totalFrames": total })
}

/// Bytes, in base64.
fn memory(alloc: Global, address: &Text, bytes: &[u8], unreadable: u64) -> Result<Value, AllocError>
    ensures { IfOk result (λ v. view v ≡ memory_json address.now bytes.now unreadable) }
{
    let text = STANDARD.encode(alloc, bytes)?;
    json!(in alloc; {
        "address": address.as_str(),
        "data": text,
        "unreadableBytes": unreadable,
    })
}

/// A place that there may be a breakpoint on, or none.
fn data_breakpoint(
    alloc: Global,
    data_id: &Option<Text>,
    description: &Text,
) -> Result<Value, AllocError>
    ensures { IfOk result (λ v. view v ≡ data_breakpoint_json data_id.now description.now) }
{
    match data_id {
        Some(id) => json!(in alloc; {
            "dataId": id.as_str(),
            "description": description.as_str(),
        }),
        None => json!(in alloc; { "dataId": null, "description": description.as_str() }),
    }
}

impl Json for Body {
    ghost use Rattle.adapter_messages.specs.Bodies.{body_json, body_no_float};

    ghost json = { body_json };

    fn to_value(&self, alloc: Global) -> Result<Value, AllocError> {
        match self {
            Body::Empty => json!(in alloc; {}),
            Body::Capabilities(capabilities) => capabilities.to_value(alloc),
            Body::Threads(threads) => listed(alloc, "threads", threads.as_slice()),
            Body::StackTrace { frames, total } => stack_trace(alloc, frames.as_slice(), *total),
            Body::Scopes(scopes) => listed(alloc, "scopes", scopes.as_slice()),
            Body::Variables(variables) => listed(alloc, "variables", variables.as_slice()),
            Body::Memory {
                address,
                bytes,
                unreadable,
            } => memory(alloc, address, bytes.as_slice(), *unreadable),
            Body::Instructions(found) => listed(alloc, "instructions", found.as_slice()),
            Body::Breakpoints(found) => listed(alloc, "breakpoints", found.as_slice()),
            Body::DataBreakpoint {
                data_id,
                description,
            } => data_breakpoint(alloc, data_id, description),
            Body::Evaluated { result, reference } => json!(in alloc; {
                "result": result.as_str(),
                "variablesReference": *reference,
            }),
            Body::Continued { all_threads } => json!(in alloc; {
                "allThreadsContinued": *all_threads,
            }),
        }
    }

    ghost no_float = { body_no_float };
}
