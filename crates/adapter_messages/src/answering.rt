//! What goes for one content.

ghost use Rattle.std.specs.Prelude.{◌≡◌, ℕ, ◌+◌, ◌-◌, ◌^◌, ◌<◌, List, ◌++◌, OnOk, OnErr};
ghost use Rattle.adapter_messages.specs.Exchanges.{at_of};
ghost use Rattle.adapter_messages.specs.Sent.{complaint_of, event_frame, number_after, failures_in};
ghost use Rattle.adapter_messages.specs.Turns.{TurnSo};

use crate::attending::Attend;
use crate::replying::{SendFault, send_event, send_reply};
use crate::{Category, Event, EventKind, Request, RequestFault, Text, read_request};
use byte_streams::Sink;
use std::alloc::Global;

/// What is told of a content that is no request.
const NO_REQUEST: &str = "error: a message that is no request\n";

/// What came of a content.
#[derive(Drop)]
pub(crate) enum Turn {
    /// It is answered, and the exchange goes on or ends.
    Answered { goes_on: bool },
    /// It is a request that is held back.
    HeldBack(Request),
}

/// Tells that a content is no request.
fn refuse<W: Sink>(alloc: Global, number: &mut u64, output: &mut W) -> Result<(), SendFault>
    requires { W.failed output.old < 2 ^ 64 - 1 }
    ensures sent { OnOk result (W.takes output.old (event_frame (complaint_of number.old)) output.new) }
    ensures next { OnOk result (number.new ≡ number_after number.old) }
    ensures begun { OnErr result ((part rest : List ℕ) × (event_frame (complaint_of number.old) ≡ part ++ rest) × W.takes output.old part output.new) }
    ensures same { OnErr result (number.new ≡ number.old) }
    ensures failures { W.failed output.new ≡ W.failed output.old + failures_in result }
{
    let kind = EventKind::Output {
        category: Category::Important,
        text: Text::new(alloc, NO_REQUEST)?,
    };
    let event = Event { seq: *number, kind };
    send_event(alloc, event, output)?;
    *number = number.saturating_add(1);
    Ok(())
}

/// Answers a content, unless it is a request that is held back.
pub(crate) fn answer<A: Attend, W: Sink>(
    alloc: Global,
    attendant: &mut A,
    number: &mut u64,
    content: &[u8],
    output: &mut W,
) -> Result<Turn, SendFault>
    requires suits { A.suits attendant.old }
    requires output { W.failed output.old < 2 ^ 64 - 1 }
    ensures turn { TurnSo A.holds_back A.attends content.now (at_of (A.state attendant.old) number.old) (λ text. W.takes output.old text output.new) (at_of (A.state attendant.new) number.new) result }
    ensures failures { W.failed output.new ≡ W.failed output.old + failures_in result }
    ensures suits { A.suits attendant.new }
{
    let request = match read_request(alloc, content) {
        Ok(request) => request,
        Err(RequestFault::NoMemory) => return Err(SendFault::NoMemory),
        Err(RequestFault::NotARequest) => {
            refuse(alloc, number, output)?;
            return Ok(Turn::Answered { goes_on: true });
        }
    };
    if attendant.waits_for(&request.command) {
        return Ok(Turn::HeldBack(request));
    }
    let Request { seq, name, command } = request;
    let reply = attendant.attend(alloc, &command)?;
    let goes_on = reply.goes_on;
    send_reply(alloc, number, seq, name, reply, output)?;
    Ok(Turn::Answered { goes_on })
}
