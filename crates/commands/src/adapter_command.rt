//! Exchanges of a debug adapter over the replay of the log in the files that its client names.

ghost use Rattle.std.specs.Prelude.{◌≡◌, ℕ, ◌<◌, ◌+◌, ◌-◌, ◌^◌, false, List, IfOk, IfSome, IfNone, OnOk, IfErr};
ghost use Rattle.replica.specs.Log.{log_of};
ghost use Rattle.thread_plan.specs.Plans.{IsPlanOf};
ghost use Rattle.wasm_replay.specs.Replays.{IsOfRun};
ghost use Rattle.adapter.specs.Exchanges.{At, at_of, IsResumed, IsUnresumed};
ghost use Rattle.adapter.specs.Ended.{Ended};
ghost use Rattle.adapter.specs.ExchangeFault.{ExchangeFault};
ghost use Rattle.adapter.specs.Attends.{Attends};
ghost use Rattle.adapter.specs.Replies.{failure};
ghost use Rattle.adapter.specs.State.{AdapterAt, Suits, state_of};
ghost use Rattle.adapter.specs.Waits.{Waits, holds_back, launched_reply};
ghost use Rattle.adapter.specs.declared.waiting.Waiting.{Waiting};
ghost use Rattle.adapter.specs.declared.waiting.Waiting.TheVariants.{ForEnd};
ghost use Rattle.command_words.specs.declared.requests.ReplayRequest.{ReplayRequest};
ghost use Rattle.commands.specs.Adapts.{fault_of, frame_fault, outcome_of, source_failures_in, output_failures_in, Names, IsOpened, IsUnopened, IsReplayAnswered, IsReplayBroken, IsAnsweredBehind, IsBrokenBehind, IsAdapted, IsAdapterStopped};

use crate::fault::Fault;
use crate::files::Files;
use crate::gathered::{ReplayInput, read_replay_input};
use adapter::{
    Adapter, Command, Ended, ExchangeFault, FrameFault, Request, Waiting, exchange, failure,
    launched, resume,
};
use command_words::ReplayRequest;
use debugger::{Debugger, Sink, Source};
use log::Log;
use replica::GatherFault;
use std::alloc::Global;
use wasm_types::NoMemory;

/// What is said of a launch that names no files.
const NO_FILES: &str = "error: launch needs module, plan, and pieces, a list of one file";

/// The program's fault where no frame is read.
fn frame_fault(fault: FrameFault) -> Fault
    ensures { result ≡ frame_fault fault }
{
    match fault {
        FrameFault::SourceFailed => Fault::Gather(GatherFault::SourceFailed),
        FrameFault::NoMemory => Fault::NoMemory,
        FrameFault::Ended | FrameFault::Broken | FrameFault::TooLong => Fault::BadFrame(fault),
    }
}

/// The program's fault where an exchange stops before its end.
fn fault_of(fault: ExchangeFault) -> Fault
    ensures { result ≡ fault_of fault }
{
    match fault {
        ExchangeFault::Frame(fault) => frame_fault(fault),
        ExchangeFault::SinkFailed => Fault::SinkFailed,
        ExchangeFault::NoMemory => Fault::NoMemory,
    }
}

/// What an exchange comes to.
fn outcome_of(ended: Result<Ended, ExchangeFault>) -> Result<(), Fault>
    ensures { result ≡ outcome_of ended }
{
    match ended {
        Ok(_) => Ok(()),
        Err(fault) => Err(fault_of(fault)),
    }
}

/// The files of a replay that a launch names.
fn files_of<'a>(alloc: Global, command: &'a Command) -> Option<ReplayRequest<'a>>
    ensures named { IfSome result (Names command.now) }
    ensures none { IfNone result ((r : ReplayRequest) → Names command.now r → ⊥) }
{
    let Command::Launch {
        module,
        plan,
        pieces,
    } = command
    else {
        return None;
    };
    let [pieces] = pieces.as_slice() else {
        return None;
    };
    Some(ReplayRequest {
        module: module.as_str(),
        plan: plan.as_str(),
        pieces: pieces.as_str(),
        order: Vec::new(alloc),
    })
}

/// An adapter over the replay of a log.
fn open(alloc: Global, input: &ReplayInput) -> Result<Adapter<'_>, Fault>
    requires { IsPlanOf input.now.program.valid input.now.program.plan }
    ensures of_run { OnOk result (IsOfRun input.now.program.valid input.now.program.plan (log_of input.now.replica)) }
    ensures opened { IfOk result (λ a. IsOpened input.now.program.valid input.now.program.plan (log_of input.now.replica) (state_of a)) }
    ensures suits { IfOk result Suits }
    ensures refused { IfErr result (IsUnopened input.now.program.valid input.now.program.plan (log_of input.now.replica)) }
{
    let program = &input.program;
    match Debugger::new(alloc, &program.valid, &program.plan, input.replica.log()) {
        Ok(debugger) => match Adapter::new(alloc, debugger) {
            Ok(adapter) => Ok(adapter),
            Err(NoMemory) => Err(Fault::NoMemory),
        },
        Err(refused) => Err(Fault::Replay(refused)),
    }
}

/// A launch that was held back, and the number of its response.
#[derive(Drop)]
struct Launch {
    request: Request,
    number: u64,
}

/// Answers a launch by an adapter, and the requests behind it.
fn go_with<R: Source, W: Sink>(
    alloc: Global,
    mut adapter: Adapter<'_>,
    launch: Launch,
    source: &mut R,
    output: &mut W,
) -> Result<(), Fault>
    requires suits { Suits adapter }
    requires source { R.failed source.old < 2 ^ 64 - 1 }
    requires output { W.failed output.old < 2 ^ 64 - 1 }
    ensures done { OnOk result ((came text : List ℕ) × R.brings source.old came source.new × W.takes output.old text output.new × ((end : Ended) × (u : At AdapterAt) × IsResumed (λ c s. false) Attends came (at_of (state_of adapter.entry) launch.number) (R.ended source.new) launch.request launched_reply end text u)) }
    ensures stopped { IfErr result (λ fault. (came text : List ℕ) × R.brings source.old came source.new × W.takes output.old text output.new × ((f : ExchangeFault) × (fault ≡ fault_of f) × (u : At AdapterAt) × IsUnresumed (λ c s. false) Attends came (at_of (state_of adapter.entry) launch.number) (R.ended source.new) launch.request launched_reply f text u)) }
    ensures source_failures { R.failed source.new ≡ R.failed source.old + source_failures_in result }
    ensures output_failures { W.failed output.new ≡ W.failed output.old + output_failures_in result }
{
    let Launch {
        request,
        mut number,
    } = launch;
    let ended = resume(
        alloc,
        &mut adapter,
        &mut number,
        request,
        launched(),
        source,
        output,
    );
    drop(adapter);
    outcome_of(ended)
}

/// Answers a launch by a failure with this message, and the requests behind it.
fn go_without<R: Source, W: Sink>(
    alloc: Global,
    launch: Launch,
    message: &str,
    source: &mut R,
    output: &mut W,
) -> Result<(), Fault>
    requires source { R.failed source.old < 2 ^ 64 - 1 }
    requires output { W.failed output.old < 2 ^ 64 - 1 }
    ensures done { OnOk result ((came text : List ℕ) × R.brings source.old came source.new × W.takes output.old text output.new × ((end : Ended) × (u : At Waiting) × IsResumed holds_back Waits came (at_of ForEnd launch.number) (R.ended source.new) launch.request (failure message.now) end text u)) }
    ensures stopped { IfErr result (λ fault. (came text : List ℕ) × R.brings source.old came source.new × W.takes output.old text output.new × ((f : ExchangeFault) × (fault ≡ fault_of f) × (u : At Waiting) × IsUnresumed holds_back Waits came (at_of ForEnd launch.number) (R.ended source.new) launch.request (failure message.now) f text u)) }
    ensures source_failures { R.failed source.new ≡ R.failed source.old + source_failures_in result }
    ensures output_failures { W.failed output.new ≡ W.failed output.old + output_failures_in result }
{
    let Launch {
        request,
        mut number,
    } = launch;
    let reply = match failure(alloc, message) {
        Ok(reply) => reply,
        Err(NoMemory) => {
            drop(request);
            return Err(Fault::NoMemory);
        }
    };
    let mut waiting = Waiting::ForEnd;
    let ended = resume(
        alloc,
        &mut waiting,
        &mut number,
        request,
        reply,
        source,
        output,
    );
    outcome_of(ended)
}

/// Answers a launch of the replay of a log, and the requests behind it.
fn go_in<R: Source, W: Sink>(
    alloc: Global,
    input: &ReplayInput,
    launch: Launch,
    source: &mut R,
    output: &mut W,
) -> Result<(), Fault>
    requires suits { IsPlanOf input.now.program.valid input.now.program.plan }
    requires source { R.failed source.old < 2 ^ 64 - 1 }
    requires output { W.failed output.old < 2 ^ 64 - 1 }
    ensures done { OnOk result ((came text : List ℕ) × R.brings source.old came source.new × W.takes output.old text output.new × IsReplayAnswered came (R.ended source.new) launch.request launch.number input.now.program.valid input.now.program.plan (log_of input.now.replica) text) }
    ensures stopped { IfErr result (λ fault. (came text : List ℕ) × R.brings source.old came source.new × W.takes output.old text output.new × IsReplayBroken came (R.ended source.new) launch.request launch.number fault input.now.program.valid input.now.program.plan (log_of input.now.replica) text) }
    ensures source_failures { R.failed source.new ≡ R.failed source.old + source_failures_in result }
    ensures output_failures { W.failed output.new ≡ W.failed output.old + output_failures_in result }
{
    match open(alloc, input) {
        Ok(adapter) => go_with(alloc, adapter, launch, source, output),
        Err(fault) => go_without(alloc, launch, fault.text().as_str(), source, output),
    }
}

/// Answers a launch, by an adapter over the replay of the log in the files that it names, and the requests behind it. The
/// module is read and judged, then the plan, and then the piece lines.
fn go_on<L: Log, F: Files, R: Source, W: Sink>(
    rt: &L,
    alloc: Global,
    files: &mut F,
    launch: Launch,
    source: &mut R,
    output: &mut W,
) -> Result<(), Fault>
    requires source { R.failed source.old < 2 ^ 64 - 1 }
    requires output { W.failed output.old < 2 ^ 64 - 1 }
    ensures done { OnOk result ((came text : List ℕ) × R.brings source.old came source.new × W.takes output.old text output.new × IsAnsweredBehind came (R.ended source.new) launch.request launch.number (F.holds files.old) (F.fails files.old) text) }
    ensures stopped { IfErr result (λ fault. (came text : List ℕ) × R.brings source.old came source.new × W.takes output.old text output.new × IsBrokenBehind came (R.ended source.new) launch.request launch.number (F.holds files.old) (F.fails files.old) fault text) }
    ensures source_failures { R.failed source.new ≡ R.failed source.old + source_failures_in result }
    ensures output_failures { W.failed output.new ≡ W.failed output.old + output_failures_in result }
{
    let read = match files_of(alloc, &launch.request.command) {
        Some(wanted) => read_replay_input(rt, alloc, files, &wanted),
        None => return go_without(alloc, launch, NO_FILES, source, output),
    };
    let input = match read {
        Ok(input) => input,
        Err(fault) => return go_without(alloc, launch, fault.text().as_str(), source, output),
    };
    go_in(alloc, &input, launch, source, output)
}

/// Answers the requests of the Debug Adapter Protocol that the source brings, each as soon as it came, up to one that
/// ends the exchange or to the end of what comes. The files are read that the launch names.
pub fn adapt<L: Log, F: Files, R: Source, W: Sink>(
    rt: &L,
    alloc: Global,
    files: &mut F,
    source: &mut R,
    output: &mut W,
) -> Result<(), Fault>
    requires source { R.failed source.old < 2 ^ 64 - 1 }
    requires output { W.failed output.old < 2 ^ 64 - 1 }
    ensures done { OnOk result ((came text : List ℕ) × R.brings source.old came source.new × W.takes output.old text output.new × IsAdapted came (R.ended source.new) (F.holds files.old) (F.fails files.old) text) }
    ensures stopped { IfErr result (λ fault. (came text : List ℕ) × R.brings source.old came source.new × W.takes output.old text output.new × IsAdapterStopped came (R.ended source.new) (F.holds files.old) (F.fails files.old) fault text) }
    ensures source_failures { R.failed source.new ≡ R.failed source.old + source_failures_in result }
    ensures output_failures { W.failed output.new ≡ W.failed output.old + output_failures_in result }
{
    let mut number = 1;
    let mut waiting = Waiting::ForLaunch;
    match exchange(alloc, &mut waiting, &mut number, source, output) {
        Ok(Ended::HeldBack(request)) => {
            let launch = Launch { request, number };
            go_on(rt, alloc, files, launch, source, output)
        }
        Ok(Ended::Asked | Ended::NothingMore) => Ok(()),
        Err(fault) => Err(fault_of(fault)),
    }
}
