//! Recordings, by the schedules in files, by threads or at random.

ghost use Rattle.std.specs.Prelude.{◌≡◌, ◌⊎◌, ◌<◌, ◌≤◌, List, OnOk, IfOk, IfErr};
ghost use Rattle.wasm_record.specs.Cut.{IsPiecesFault};
ghost use Rattle.thread_plan.specs.Plans.{IsPlanOf};
ghost use Rattle.wasm_record.specs.Pick.{Pick};
ghost use Rattle.wasm_types.specs.declared.key.Profile.TheVariants.{Two};
ghost use Rattle.wasm_record.specs.Recordings.{IsKeyOf};
ghost use Rattle.commands.specs.Records.{IsScheduleFile, IsScheduleRefused, IsOrderRefused, IsRecordRefusal, IsRecordedBy, IsRecordAnswer, IsRecordRefused, IsRunOf, IsRunOfThreads, IsRandomRunOf, IsAnswer, IsAnswerOf};

use crate::fault::Fault;
use crate::files::Files;
use crate::program::{Program, read_program};
use crate::record_answer::RecordAnswer;
use crate::run_notes::{notes_by, notes_of_run};
use crate::schedule_file::read_schedule;
use crate::stopped::stopped_line;
use crate::thread_runs::recording_by_threads;
use command_words::{RecordForm, RecordOrder, RecordRequest};
use debug_views::noted_report;
use log::Log;
use pick_schedule::Schedule;
use replica::MOST_ENTRIES;
use std::alloc::Global;
use std::sync::Wait;
use std::thread::Threads;
use wasm_record::{PiecesFault, RandomRun, Recording, record_drawn, record_schedule};
use wasm_types::NoMemory;

/// Whether pieces of so many entries can be.
pub(crate) fn check_size(entries: u32) -> Result<(), PiecesFault>
    ensures some { OnOk result (0 < entries) }
    ensures few { OnOk result (entries ≤ 4096) }
    ensures refused { IfErr result (IsPiecesFault entries) }
{
    if entries == 0 {
        return Err(PiecesFault::Empty);
    }
    if entries as usize > MOST_ENTRIES {
        return Err(PiecesFault::TooMany);
    }
    Ok(())
}

/// What a run by the schedule in a file came to. The schedule is judged before the size of the pieces.
fn record_by_schedule<L: Log, F: Files>(
    rt: &L,
    alloc: Global,
    files: &mut F,
    program: &Program,
    path: &str,
    request: &RecordRequest<'_>,
) -> Result<RecordAnswer, Fault>
    requires { IsPlanOf program.now.valid program.now.plan }
    ensures recorded { IfOk result (λ answer. (picks : List Pick) × IsScheduleFile (F.holds files.old path.now) picks × IsAnswerOf program.now.valid program.now.plan request.now (IsRunOf program.now.valid program.now.plan request.now picks) answer) }
    ensures refused { IfErr result (λ fault. IsScheduleRefused (F.holds files.old path.now) (F.fails files.old path.now) fault
        ⊎ ((picks : List Pick) × IsScheduleFile (F.holds files.old path.now) picks × IsRecordRefusal request.now.size fault)) }
{
    let picks = match read_schedule(rt, alloc, files, path) {
        Ok(picks) => picks,
        Err(fault) => return Err(fault),
    };
    record_picks(alloc, program, &picks, request)
}

/// What a run by picks came to. The size of the pieces is judged before.
fn record_picks(
    alloc: Global,
    program: &Program,
    picks: &Schedule,
    request: &RecordRequest<'_>,
) -> Result<RecordAnswer, Fault>
    requires { IsPlanOf program.now.valid program.now.plan }
    ensures recorded { IfOk result (λ answer. IsAnswerOf program.now.valid program.now.plan request.now (IsRunOf program.now.valid program.now.plan request.now picks.now) answer) }
    ensures refused { IfErr result (IsRecordRefusal request.now.size) }
{
    if let Err(fault) = check_size(request.size) {
        return Err(Fault::Pieces(fault));
    }
    let Program { valid, plan } = program;
    let block = request.block;
    let steps = request.steps;
    match record_schedule(alloc, valid, plan, request.run, block, picks, steps) {
        Ok(recording) => answered(alloc, program, recording, request),
        Err(NoMemory) => Err(Fault::NoMemory),
    }
}

/// What a run of threads at once came to. The size of the pieces is judged before.
fn record_by_threads<T: Threads + Wait + Sync>(
    threads: &T,
    alloc: Global,
    program: &Program,
    times_out: bool,
    request: &RecordRequest<'_>,
) -> Result<RecordAnswer, Fault>
    requires { IsPlanOf program.now.valid program.now.plan }
    ensures recorded { IfOk result (λ answer. IsAnswerOf program.now.valid program.now.plan request.now (IsRunOfThreads program.now.valid program.now.plan request.now times_out) answer) }
    ensures refused { IfErr result (IsRecordRefusal request.now.size) }
{
    if let Err(fault) = check_size(request.size) {
        return Err(Fault::Pieces(fault));
    }
    let RecordRequest {
        run,
        block,
        steps,
        ..
    } = *request;
    match recording_by_threads(threads, alloc, program, times_out, run, block, steps) {
        Ok(recording) => answered(alloc, program, recording, request),
        Err(NoMemory) => Err(Fault::NoMemory),
    }
}

/// What the run came to that the number of the run draws. The size of the pieces is judged before.
fn record_at_random<R: Wait>(
    rt: &R,
    alloc: Global,
    program: &Program,
    times_out: bool,
    request: &RecordRequest<'_>,
) -> Result<RecordAnswer, Fault>
    requires { IsPlanOf program.now.valid program.now.plan }
    ensures recorded { IfOk result (λ answer. IsAnswerOf program.now.valid program.now.plan request.now (IsRandomRunOf program.now.valid program.now.plan request.now times_out) answer) }
    ensures refused { IfErr result (IsRecordRefusal request.now.size) }
{
    if let Err(fault) = check_size(request.size) {
        return Err(Fault::Pieces(fault));
    }
    let Program { valid, plan } = program;
    let run = RandomRun {
        number: request.run,
        timeouts: times_out,
        steps: request.steps,
    };
    match record_drawn(rt, alloc, valid, plan, request.block, run) {
        Ok(recording) => answered(alloc, program, recording, request),
        Err(NoMemory) => Err(Fault::NoMemory),
    }
}

/// What a run came to in which the threads go on as was asked for.
fn recorded_by<L: Log, T: Threads + Wait + Sync, F: Files>(
    rt: &L,
    threads: &T,
    alloc: Global,
    files: &mut F,
    program: &Program,
    request: &RecordRequest<'_>,
) -> Result<RecordAnswer, Fault>
    requires { IsPlanOf program.now.valid program.now.plan }
    ensures recorded { IfOk result (λ answer. IsRecordedBy (F.holds files.old) program.now.valid program.now.plan request.now request.now.order answer) }
    ensures refused { IfErr result (λ fault. IsOrderRefused (F.holds files.old) (F.fails files.old) request.now request.now.order fault) }
{
    match request.order {
        RecordOrder::Schedule(path) => {
            record_by_schedule(rt, alloc, files, program, path, request)
        }
        RecordOrder::Threads { times_out } => {
            record_by_threads(threads, alloc, program, times_out, request)
        }
        RecordOrder::Random { times_out } => {
            record_at_random(threads, alloc, program, times_out, request)
        }
    }
}

/// What a run came to: its report, or the lines of its pieces, and which threads stopped at `--steps`. The module is
/// read and judged, then the plan, then the schedule, if the threads go on by one, then the size of the pieces.
pub fn record<L: Log, T: Threads + Wait + Sync, F: Files>(
    rt: &L,
    threads: &T,
    alloc: Global,
    files: &mut F,
    request: &RecordRequest<'_>,
) -> Result<RecordAnswer, Fault>
    ensures recorded { IfOk result (λ answer. IsRecordAnswer (F.holds files.old) request.now answer) }
    ensures refused { IfErr result (λ fault. IsRecordRefused (F.holds files.old) (F.fails files.old) request.now fault) }
{
    let program = match read_program(rt, alloc, files, request.module, request.plan) {
        Ok(program) => program,
        Err(fault) => return Err(fault),
    };
    recorded_by(rt, threads, alloc, files, &program, request)
}

/// The report of a recording, with what is asked for of where threads stand at its end, or the lines of its pieces, for
/// which room is taken; and the line of the threads that stopped at `--steps`.
fn written(
    alloc: Global,
    program: &Program,
    recording: Recording,
    request: &RecordRequest<'_>,
) -> Result<RecordAnswer, NoMemory>
    requires suits { IsPlanOf program.now.valid program.now.plan }
    requires some { 0 < request.now.size }
    requires few { request.now.size ≤ 4096 }
    ensures answer { IfOk result (IsAnswer program.now.valid program.now.plan request.now recording) }
{
    let size = request.size;
    let stopped = stopped_line(alloc, request.steps, recording.recorded().log())?.into_bytes();
    match request.form {
        RecordForm::Pieces => RecordAnswer::of_lines(alloc, recording, size, stopped),
        RecordForm::Report { names, offsets } => {
            let asked = notes_by(names, offsets);
            let notes = notes_of_run(alloc, program, &recording, size, asked)?;
            let text = noted_report(alloc, recording.recorded().end(), &notes)?;
            Ok(RecordAnswer::of_text(text.into_bytes(), stopped))
        }
    }
}

/// The same, or the program's fault.
fn answered(
    alloc: Global,
    program: &Program,
    recording: Recording,
    request: &RecordRequest<'_>,
) -> Result<RecordAnswer, Fault>
    requires suits { IsPlanOf program.now.valid program.now.plan }
    requires some { 0 < request.now.size }
    requires few { request.now.size ≤ 4096 }
    ensures answer { IfOk result (IsAnswer program.now.valid program.now.plan request.now recording) }
    ensures refused { IfErr result (IsRecordRefusal request.now.size) }
{
    match written(alloc, program, recording, request) {
        Ok(answer) => Ok(answer),
        Err(NoMemory) => Err(Fault::NoMemory),
    }
}
