//! Messages that go: a response, and the events behind it.

ghost use Rattle.std.specs.Prelude.{◌≡◌, ℕ, ◌+◌, ◌-◌, ◌^◌, ◌<◌, List, ◌++◌, OnOk, OnErr, IfOk};
ghost use Rattle.std.specs.Option.{option_to_list};
ghost use Rattle.adapter_messages.specs.Sent.{failures_in, response_frame, event_frame, event_frames, number_behind, reply_text, number_behind_reply};

use crate::reply::{Reply, Told};
use crate::{Event, EventKind, Outcome, Response, Text, event_text, response_text, write_frame};
use byte_streams::{Failed, Sink};
use std::alloc::{AllocError, Global};

/// Why a message is not sent.
#[derive(Clone, Copy, Debug, PartialEq, Eq)]
pub enum SendFault {
    /// What takes messages failed.
    SinkFailed,
    /// There was no memory for it.
    NoMemory,
}

impl From<AllocError> for SendFault {
    ghost use Rattle.std.specs.Prelude.{◌≡◌};
    ghost use Rattle.adapter_messages.specs.declared.replying.SendFault.TheVariants as faults;

    ghost from_gives = { λ _ fault. fault ≡ faults.NoMemory };

    fn from(_error: AllocError) -> SendFault {
        SendFault::NoMemory
    }
}

impl From<Failed> for SendFault {
    ghost use Rattle.std.specs.Prelude.{◌≡◌};
    ghost use Rattle.adapter_messages.specs.declared.replying.SendFault.TheVariants as faults;

    ghost from_gives = { λ _ fault. fault ≡ faults.SinkFailed };

    fn from(_error: Failed) -> SendFault {
        SendFault::SinkFailed
    }
}

/// Sends a response, and nothing where there is no memory for it.
#[tactic(auto, unfolding(crate::specs::Sent::response_frame))]
fn send_response<W: Sink>(
    alloc: Global,
    response: Response,
    output: &mut W,
) -> Result<(), SendFault>
    requires { W.failed output.old < 2 ^ 64 - 1 }
    ensures sent { OnOk result (W.takes output.old (response_frame response) output.new) }
    ensures begun { OnErr result ((part rest : List ℕ) × (response_frame response ≡ part ++ rest) × W.takes output.old part output.new) }
    ensures failures { W.failed output.new ≡ W.failed output.old + failures_in result }
{
    let text = response_text(alloc, &response)?;
    write_frame(output, text.as_str().as_bytes())?;
    Ok(())
}

/// Sends an event, and nothing where there is no memory for it.
#[tactic(auto, unfolding(crate::specs::Sent::event_frame))]
pub(crate) fn send_event<W: Sink>(
    alloc: Global,
    event: Event,
    output: &mut W,
) -> Result<(), SendFault>
    requires { W.failed output.old < 2 ^ 64 - 1 }
    ensures sent { OnOk result (W.takes output.old (event_frame event) output.new) }
    ensures begun { OnErr result ((part rest : List ℕ) × (event_frame event ≡ part ++ rest) × W.takes output.old part output.new) }
    ensures failures { W.failed output.new ≡ W.failed output.old + failures_in result }
{
    let text = event_text(alloc, &event)?;
    write_frame(output, text.as_str().as_bytes())?;
    Ok(())
}

/// Sends an event of this number, if there is one: the next number.
fn send_some<W: Sink>(
    alloc: Global,
    number: u64,
    kind: Option<EventKind>,
    output: &mut W,
) -> Result<u64, SendFault>
    requires { W.failed output.old < 2 ^ 64 - 1 }
    ensures sent { OnOk result (W.takes output.old (event_frames number (option_to_list kind)) output.new) }
    ensures begun { OnErr result ((part rest : List ℕ) × (event_frames number (option_to_list kind) ≡ part ++ rest) × W.takes output.old part output.new) }
    ensures failures { W.failed output.new ≡ W.failed output.old + failures_in result }
    ensures next { IfOk result (λ n. n ≡ number_behind number (option_to_list kind)) }
{
    match kind {
        Some(kind) => {
            send_event(alloc, Event { seq: number, kind }, output)?;
            Ok(number.saturating_add(1))
        }
        None => Ok(number),
    }
}

/// Sends events, numbered from this number on: the next number.
fn send_events<W: Sink>(
    alloc: Global,
    number: u64,
    told: Told,
    output: &mut W,
) -> Result<u64, SendFault>
    requires { W.failed output.old < 2 ^ 64 - 1 }
    ensures sent { OnOk result (W.takes output.old (event_frames number told) output.new) }
    ensures begun { OnErr result ((part rest : List ℕ) × (event_frames number told ≡ part ++ rest) × W.takes output.old part output.new) }
    ensures failures { W.failed output.new ≡ W.failed output.old + failures_in result }
    ensures next { IfOk result (λ n. n ≡ number_behind number told) }
{
    let Told {
        first,
        second,
        third,
    } = told;
    let number = send_some(alloc, number, first, output)?;
    let number = send_some(alloc, number, second, output)?;
    send_some(alloc, number, third, output)
}

/// Sends the response to a request of that number and command, and its events behind it. The first has this number,
/// which then is the next one; it is as before where not all of them are sent.
pub fn send_reply<W: Sink>(
    alloc: Global,
    number: &mut u64,
    request_seq: u64,
    command: Text,
    reply: Reply,
    output: &mut W,
) -> Result<(), SendFault>
    requires { W.failed output.old < 2 ^ 64 - 1 }
    ensures sent { OnOk result (W.takes output.old (reply_text number.old request_seq command reply) output.new) }
    ensures next { OnOk result (number.new ≡ number_behind_reply number.old reply) }
    ensures begun { OnErr result ((part rest : List ℕ) × (reply_text number.old request_seq command reply ≡ part ++ rest) × W.takes output.old part output.new) }
    ensures same { OnErr result (number.new ≡ number.old) }
    ensures failures { W.failed output.new ≡ W.failed output.old + failures_in result }
{
    let Reply { outcome, told, .. } = reply;
    let response = Response {
        seq: *number,
        request_seq,
        command,
        outcome,
    };
    send_response(alloc, response, output)?;
    *number = send_events(alloc, number.saturating_add(1), told, output)?;
    Ok(())
}
