//! Replays of the logs in files.

ghost use Rattle.std.specs.Prelude.{◌≡◌, ℕ, List, IfOk, IfErr, OnOk, string_bytes};
ghost use Rattle.thread_plan.specs.Plans.{IsPlanOf};
ghost use Rattle.replica.specs.Log.{log_of};
ghost use Rattle.wasm_replay.specs.Replays.{IsOfRun};
ghost use Rattle.debug_views.specs.Report.{noted_text};
ghost use Rattle.debug_views.specs.ThreadNotes.{AreNotesOfEnd};
ghost use Rattle.commands.specs.Replays.{IsReplayedText, IsReplayEnd, IsReplayRefused, IsReplayReport, IsReplayRefusal, IsThreadsFault, IsRefusedBy};

use crate::fault::Fault;
use crate::files::Files;
use crate::gathered::{ReplayInput, read_replay_input};
use command_words::ReplayRequest;
use debug_views::{Ended, Notes, noted_report, notes_of_end};
use log::Log;
use replica::Log as GatheredLog;
use std::alloc::Global;
use std::sync::Wait;
use std::thread::Threads;
use thread_plan::Plan;
use threaded_replay::replay_threads;
use validator::Valid;
use wasm_record::Unkept;
use wasm_replay::replay_gathered;
use wasm_types::NoMemory;

/// The report of the end of a replay, in turns or by threads, with what is asked for of where threads stand there. The
/// module is read and judged, then the plan, then the piece lines.
pub fn replay<L: Log, T: Threads + Wait + Sync, F: Files>(
    rt: &L,
    threads: &T,
    alloc: Global,
    files: &mut F,
    request: &ReplayRequest<'_>,
    by_threads: bool,
    asked: Notes,
) -> Result<String, Fault>
    ensures replayed { IfOk result (λ text. IsReplayedText (F.holds files.old) request.now asked (string_bytes text)) }
    ensures refused { IfErr result (λ fault. IsReplayRefused (F.holds files.old) (F.fails files.old) request.now by_threads fault) }
{
    let input = match read_replay_input(rt, alloc, files, request) {
        Ok(input) => input,
        Err(fault) => return Err(fault),
    };
    replay_by(threads, alloc, &input, &request.order, by_threads, asked)
}

/// The report of the end of the replay of a log, in turns, first by the order, or by threads.
fn replay_by<T: Threads + Wait + Sync>(
    threads: &T,
    alloc: Global,
    input: &ReplayInput,
    order: &[u32],
    by_threads: bool,
    asked: Notes,
) -> Result<String, Fault>
    requires { IsPlanOf input.now.program.valid input.now.program.plan }
    ensures replayed { IfOk result (λ text. IsReplayReport input.now.program.valid input.now.program.plan (log_of input.now.replica) order.now asked (string_bytes text)) }
    ensures refused { IfErr result (λ fault. IsRefusedBy by_threads input.now.program.valid input.now.program.plan (log_of input.now.replica) order.now fault) }
{
    let ended = match end_by(threads, alloc, input, order, by_threads) {
        Ok(ended) => ended,
        Err(fault) => return Err(fault),
    };
    match noted(alloc, input, order, asked, &ended) {
        Ok(text) => Ok(text),
        Err(NoMemory) => Err(Fault::NoMemory),
    }
}

/// The report of the end of a replay, with what is asked for of where threads stand there. A replay that came to an end
/// comes to no fault when it is made again, so that only memory can be wanting.
fn noted(
    alloc: Global,
    input: &ReplayInput,
    order: &[u32],
    asked: Notes,
    ended: &Ended,
) -> Result<String, NoMemory>
    requires { IsPlanOf input.now.program.valid input.now.program.plan }
    ensures { IfOk result (λ text. (notes : List (List ℕ)) × AreNotesOfEnd input.now.program.valid input.now.program.plan (log_of input.now.replica) order.now asked notes × (string_bytes text ≡ noted_text notes ended.now)) }
{
    let program = &input.program;
    let log = input.replica.log();
    let Ok(notes) = notes_of_end(alloc, &program.valid, &program.plan, log, order, asked) else {
        return Err(NoMemory);
    };
    noted_report(alloc, ended, &notes)
}

/// The end of the replay of a log, in turns, first by the order, or by threads.
fn end_by<T: Threads + Wait + Sync>(
    threads: &T,
    alloc: Global,
    input: &ReplayInput,
    order: &[u32],
    by_threads: bool,
) -> Result<Ended, Fault>
    requires { IsPlanOf input.now.program.valid input.now.program.plan }
    ensures of_run { OnOk result (IsOfRun input.now.program.valid input.now.program.plan (log_of input.now.replica)) }
    ensures ends { IfOk result (IsReplayEnd input.now.program.valid input.now.program.plan (log_of input.now.replica) order.now) }
    ensures refused { IfErr result (λ fault. IsRefusedBy by_threads input.now.program.valid input.now.program.plan (log_of input.now.replica) order.now fault) }
{
    if by_threads {
        end_at_once(threads, alloc, input)
    } else {
        end_in_turns(alloc, input, order)
    }
}

/// The end of the replay of a log by threads, which is the same for every order.
fn end_by_threads<T: Threads + Wait + Sync>(
    threads: &T,
    alloc: Global,
    valid: &Valid,
    plan: &Plan,
    log: &GatheredLog,
) -> Result<Ended, Fault>
    requires { IsPlanOf valid.now plan.now }
    ensures of_run { OnOk result (IsOfRun valid.now plan.now log.now) }
    ensures ends { IfOk result (λ end. (order : List ℕ) → IsReplayEnd valid.now plan.now log.now order end) }
    ensures refused { IfErr result (λ fault. IsThreadsFault valid.now plan.now log.now fault) }
{
    match replay_threads(threads, alloc, valid, plan, log, &Unkept) {
        Ok(ended) => Ok(ended),
        Err(refused) => Err(Fault::Replay(refused)),
    }
}

/// The same of the log in files.
fn end_at_once<T: Threads + Wait + Sync>(
    threads: &T,
    alloc: Global,
    input: &ReplayInput,
) -> Result<Ended, Fault>
    requires { IsPlanOf input.now.program.valid input.now.program.plan }
    ensures of_run { OnOk result (IsOfRun input.now.program.valid input.now.program.plan (log_of input.now.replica)) }
    ensures ends { IfOk result (λ end. (order : List ℕ) → IsReplayEnd input.now.program.valid input.now.program.plan (log_of input.now.replica) order end) }
    ensures refused { IfErr result (λ fault. IsThreadsFault input.now.program.valid input.now.program.plan (log_of input.now.replica) fault) }
{
    let program = &input.program;
    end_by_threads(
        threads,
        alloc,
        &program.valid,
        &program.plan,
        input.replica.log(),
    )
}

/// The end of the replay of a log in turns.
fn end_in_turns(alloc: Global, input: &ReplayInput, order: &[u32]) -> Result<Ended, Fault>
    requires { IsPlanOf input.now.program.valid input.now.program.plan }
    ensures of_run { OnOk result (IsOfRun input.now.program.valid input.now.program.plan (log_of input.now.replica)) }
    ensures ends { IfOk result (IsReplayEnd input.now.program.valid input.now.program.plan (log_of input.now.replica) order.now) }
    ensures refused { IfErr result (λ fault. IsReplayRefusal input.now.program.valid input.now.program.plan (log_of input.now.replica) order.now fault) }
{
    let program = &input.program;
    let log = input.replica.log();
    match replay_gathered(alloc, &program.valid, &program.plan, log, order) {
        Ok(ended) => Ok(ended),
        Err(refused) => Err(Fault::Replay(refused)),
    }
}
