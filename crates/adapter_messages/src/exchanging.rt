//! Exchanges: requests that come from a source, and what goes to a sink for each.

ghost use Rattle.std.specs.Prelude.{◌≡◌, ℕ, ◌+◌, ◌-◌, ◌^◌, ◌<◌, List, IfOk, IfErr};
ghost use Rattle.adapter_messages.specs.Exchanges.{at_of, IsEnded, IsBroken};
ghost use Rattle.adapter_messages.specs.Failures.{source_failures_in, output_failures_in};

use crate::answering::{Turn, answer};
use crate::attending::Attend;
use crate::replying::SendFault;
use crate::{FrameFault, Request, read_frame};
use byte_streams::{Sink, Source};
use std::alloc::Global;

/// How an exchange ends.
#[derive(Drop)]
pub enum Ended {
    /// A request ended it, and is answered.
    Asked,
    /// Nothing more came.
    NothingMore,
    /// This request is held back, and is not answered.
    HeldBack(Request),
}

/// Why an exchange stops before its end.
#[derive(Clone, Copy, Debug, PartialEq, Eq)]
pub enum ExchangeFault {
    /// No frame was read; what comes behind it may be anything.
    Frame(FrameFault),
    /// What takes messages failed.
    SinkFailed,
    /// There was no memory for a request or its answer.
    NoMemory,
}

impl From<SendFault> for ExchangeFault {
    ghost use Rattle.std.specs.Prelude.{◌≡◌};
    ghost use Rattle.adapter_messages.specs.Failures.{unsent};

    ghost from_gives = { λ fault given. given ≡ unsent fault };

    fn from(fault: SendFault) -> ExchangeFault {
        match fault {
            SendFault::SinkFailed => ExchangeFault::SinkFailed,
            SendFault::NoMemory => ExchangeFault::NoMemory,
        }
    }
}

/// Reads requests, each of a frame, and answers each with a response and its events, up to one that ends the exchange,
/// one that is held back, or the end of what comes. Nothing behind that frame is read. The first message that goes has
/// this number, which then is that of the next one.
pub fn exchange<A: Attend, R: Source, W: Sink>(
    alloc: Global,
    attendant: &mut A,
    number: &mut u64,
    source: &mut R,
    output: &mut W,
) -> Result<Ended, ExchangeFault>
    requires suits { A.suits attendant.old }
    requires source { R.failed source.old < 2 ^ 64 - 1 }
    requires output { W.failed output.old < 2 ^ 64 - 1 }
    ensures ended { IfOk result (λ end. (came text : List ℕ) × R.brings source.old came source.new × W.takes output.old text output.new × IsEnded A.holds_back A.attends came (at_of (A.state attendant.old) number.old) (R.ended source.new) end text (at_of (A.state attendant.new) number.new)) }
    ensures stopped { IfErr result (λ fault. (came text : List ℕ) × R.brings source.old came source.new × W.takes output.old text output.new × IsBroken A.holds_back A.attends came (at_of (A.state attendant.old) number.old) (R.ended source.new) fault text (at_of (A.state attendant.new) number.new)) }
    ensures source_failures { R.failed source.new ≡ R.failed source.old + source_failures_in result }
    ensures output_failures { W.failed output.new ≡ W.failed output.old + output_failures_in result }
    ensures suits { A.suits attendant.new }
{
    loop {
        let content = match read_frame(alloc, source) {
            Ok(Some(content)) => content,
            Ok(None) => return Ok(Ended::NothingMore),
            Err(fault) => return Err(ExchangeFault::Frame(fault)),
        };
        match answer(alloc, attendant, number, content.as_slice(), output)? {
            Turn::Answered { goes_on: true } => {}
            Turn::Answered { goes_on: false } => return Ok(Ended::Asked),
            Turn::HeldBack(request) => return Ok(Ended::HeldBack(request)),
        }
    }
}
