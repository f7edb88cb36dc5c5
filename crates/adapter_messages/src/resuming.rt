//! Exchanges that go on behind a request that was held back.

ghost use Rattle.std.specs.Prelude.{◌≡◌, ℕ, ◌+◌, ◌-◌, ◌^◌, ◌<◌, List, IfOk, IfErr};
ghost use Rattle.adapter_messages.specs.Exchanges.{at_of, IsResumed, IsUnresumed};
ghost use Rattle.adapter_messages.specs.Failures.{source_failures_in, output_failures_in};

use crate::Request;
use crate::attending::Attend;
use crate::exchanging::{Ended, ExchangeFault, exchange};
use crate::reply::Reply;
use crate::replying::send_reply;
use byte_streams::{Sink, Source};
use std::alloc::Global;

/// Answers a request that was held back, and goes on as `exchange` does, by an attendant that may be another than before.
pub fn resume<A: Attend, R: Source, W: Sink>(
    alloc: Global,
    attendant: &mut A,
    number: &mut u64,
    request: Request,
    reply: Reply,
    source: &mut R,
    output: &mut W,
) -> Result<Ended, ExchangeFault>
    requires suits { A.suits attendant.old }
    requires source { R.failed source.old < 2 ^ 64 - 1 }
    requires output { W.failed output.old < 2 ^ 64 - 1 }
    ensures ended { IfOk result (λ end. (came text : List ℕ) × R.brings source.old came source.new × W.takes output.old text output.new × IsResumed A.holds_back A.attends came (at_of (A.state attendant.old) number.old) (R.ended source.new) request reply end text (at_of (A.state attendant.new) number.new)) }
    ensures stopped { IfErr result (λ fault. (came text : List ℕ) × R.brings source.old came source.new × W.takes output.old text output.new × IsUnresumed A.holds_back A.attends came (at_of (A.state attendant.old) number.old) (R.ended source.new) request reply fault text (at_of (A.state attendant.new) number.new)) }
    ensures source_failures { R.failed source.new ≡ R.failed source.old + source_failures_in result }
    ensures output_failures { W.failed output.new ≡ W.failed output.old + output_failures_in result }
    ensures suits { A.suits attendant.new }
{
    let Request { seq, name, command } = request;
    drop(command);
    send_reply(alloc, number, seq, name, reply, output)?;
    exchange(alloc, attendant, number, source, output)
}
