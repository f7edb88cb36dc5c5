//! Hunts: many runs that numbers draw, of which the first is wanted that is caught.

ghost use Rattle.std.specs.Prelude.{◌≡◌, ◌<◌, ◌≤◌, true, false, IfOk, IfErr, IfSome, IfNone, Some};
ghost use Rattle.thread_plan.specs.Plans.{IsPlanOf};
ghost use Rattle.commands.specs.Least.{IsLeastCaught};
ghost use Rattle.pick_schedule.specs.Printing.{AreOfThreads};
ghost use Rattle.command_words.specs.declared.requests.HuntForm.TheVariants.{List};
ghost use Rattle.commands.specs.Hunts.{Comes, HasNoSchedule, IsCaughtAnswer, IsFoundSchedule, IsHunted, IsHuntedBy, IsHuntRefusal, IsHuntAnswer, IsHuntRefused, IsScheduleAnswer, IsThreadsAnswer, is_as_drawn, lists, prints};

use crate::fault::Fault;
use crate::files::Files;
use crate::hunt_answers::{caught_lines, told_of};
use crate::hunt_schedules::found_schedule;
use crate::hunt_surveys::{DrawnRuns, LeastCaught, RunLines};
use crate::made_runs::MadeRuns;
use crate::program::{Program, read_program};
use crate::record_answer::RecordAnswer;
use crate::record_command::check_size;
use crate::thread_runs::first_by_threads;
use command_words::{HuntForm, HuntRequest};
use log::Log;
use pick_schedule::Schedule;
use std::alloc::Global;
use std::sync::Wait;
use std::thread::{Threads, available_parallelism};
use wasm_record::survey_numbers;
use wasm_types::NoMemory;

/// How many runs are made at once: as many as are asked for, or as there are processors.
fn jobs_of<T: Threads>(threads: &T, jobs: Option<u32>) -> usize
    ensures { 0 < result }
{
    match jobs {
        Some(jobs) => (jobs as usize).max(1),
        None => match available_parallelism(threads) {
            Ok(processors) => processors.get(),
            Err(_) => 1,
        },
    }
}

/// Whether the pieces of the run that is caught are wanted, as its number draws it.
fn is_as_drawn(request: &HuntRequest<'_>) -> bool
    ensures { result ≡ is_as_drawn request.now.form request.now.shrinks }
{
    match request.form {
        HuntForm::Pieces => !request.shrinks,
        HuntForm::Schedule | HuntForm::List => false,
    }
}

/// Whether the schedule of the run that is caught is wanted.
fn prints(request: &HuntRequest<'_>) -> bool
    ensures { result ≡ prints request.now.form }
{
    match request.form {
        HuntForm::Schedule => true,
        HuntForm::Pieces | HuntForm::List => false,
    }
}

/// The pieces of the run of a number that is caught, to be written.
fn caught_answer<R: Wait>(runs: &DrawnRuns<'_, R>, number: u64) -> Result<RecordAnswer, NoMemory>
    requires suits { IsPlanOf runs.now.program.now.valid runs.now.program.now.plan }
    requires some { 0 < runs.now.request.now.size }
    requires few { runs.now.request.now.size ≤ 4096 }
    requires least { IsLeastCaught (Comes runs.now.program.now.valid runs.now.program.now.plan runs.now.request.now) runs.now.request.now.range.from runs.now.request.now.range.count (Some number) }
    ensures { IfOk result (IsCaughtAnswer runs.now.program.now.valid runs.now.program.now.plan runs.now.request.now) }
{
    let recording = runs.recording(number)?;
    caught_lines(runs.alloc, runs.request, number, recording)
}

/// The schedule of a run that is caught, or its pieces, to be written.
fn answer_by<R: Wait>(
    runs: &DrawnRuns<'_, R>,
    number: u64,
    picks: &Schedule,
) -> Result<RecordAnswer, NoMemory>
    requires suits { IsPlanOf runs.now.program.now.valid runs.now.program.now.plan }
    requires some { 0 < runs.now.request.now.size }
    requires few { runs.now.request.now.size ≤ 4096 }
    requires least { IsLeastCaught (Comes runs.now.program.now.valid runs.now.program.now.plan runs.now.request.now) runs.now.request.now.range.from runs.now.request.now.range.count (Some number) }
    requires found { IsFoundSchedule runs.now.program.now.valid runs.now.program.now.plan runs.now.request.now runs.now.request.now.shrinks number picks.now }
    requires of_threads { AreOfThreads picks.now }
    ensures { IfOk result (IsScheduleAnswer runs.now.program.now.valid runs.now.program.now.plan runs.now.request.now) }
{
    let alloc = runs.alloc;
    let recording = runs.recording_by(picks, number)?;
    if prints(runs.request) {
        let told = told_of(alloc, runs.request, number, &recording)?;
        let text = picks.text(alloc)?;
        return Ok(RecordAnswer::of_text(text.into_bytes(), told));
    }
    caught_lines(alloc, runs.request, number, recording)
}

/// The run of a number that is caught, by its schedule; None where it has none.
fn schedule_answer<R: Wait, L: Log>(
    runs: &DrawnRuns<'_, R>,
    made: &MadeRuns<'_, L>,
    number: u64,
) -> Result<Option<RecordAnswer>, NoMemory>
    requires suits { IsPlanOf runs.now.program.now.valid runs.now.program.now.plan }
    requires some { 0 < runs.now.request.now.size }
    requires few { runs.now.request.now.size ≤ 4096 }
    requires least { IsLeastCaught (Comes runs.now.program.now.valid runs.now.program.now.plan runs.now.request.now) runs.now.request.now.range.from runs.now.request.now.range.count (Some number) }
    ensures answer { IfOk result (λ answer. IfSome answer (IsScheduleAnswer runs.now.program.now.valid runs.now.program.now.plan runs.now.request.now)) }
    ensures none { IfOk result (λ answer. IfNone answer (HasNoSchedule runs.now.program.now.valid runs.now.program.now.plan runs.now.request.now number)) }
{
    let Some(picks) = found_schedule(runs, made, number)? else {
        return Ok(None);
    };
    Ok(Some(answer_by(runs, number, &picks)?))
}

/// The run of a number that is caught, as it is to be written.
fn found_answer<R: Wait, L: Log>(
    runs: &DrawnRuns<'_, R>,
    made: &MadeRuns<'_, L>,
    number: u64,
) -> Result<RecordAnswer, Fault>
    requires suits { IsPlanOf runs.now.program.now.valid runs.now.program.now.plan }
    requires some { 0 < runs.now.request.now.size }
    requires few { runs.now.request.now.size ≤ 4096 }
    requires catches { lists runs.now.request.now.form ≡ false }
    requires least { IsLeastCaught (Comes runs.now.program.now.valid runs.now.program.now.plan runs.now.request.now) runs.now.request.now.range.from runs.now.request.now.range.count (Some number) }
    ensures found { IfOk result (IsHuntedBy runs.now.program.now.valid runs.now.program.now.plan runs.now.request.now runs.now.request.now.form runs.now.request.now.shrinks) }
    ensures refused { IfErr result (IsHuntRefusal runs.now.program.now.valid runs.now.program.now.plan runs.now.request.now) }
{
    if is_as_drawn(runs.request) {
        return match caught_answer(runs, number) {
            Ok(answer) => Ok(answer),
            Err(NoMemory) => Err(Fault::NoMemory),
        };
    }
    match schedule_answer(runs, made, number) {
        Ok(Some(answer)) => Ok(answer),
        Ok(None) => Err(Fault::TooLong),
        Err(NoMemory) => Err(Fault::NoMemory),
    }
}

/// A line for each run.
fn listed<T: Threads + Wait + Sync, L: Log + Sync>(
    threads: &T,
    runs: DrawnRuns<'_, T>,
    made: &MadeRuns<'_, L>,
    jobs: usize,
) -> Result<RecordAnswer, NoMemory>
    requires suits { IsPlanOf runs.program.now.valid runs.program.now.plan }
    requires jobs { 0 < jobs }
    ensures { IfOk result (IsHuntedBy runs.entry.program.now.valid runs.entry.program.now.plan runs.entry.request.now List runs.entry.request.now.shrinks) }
{
    let alloc = runs.alloc;
    let range = runs.request.range;
    let lines = RunLines { runs, made };
    let text = survey_numbers(threads, alloc, &lines, range.from, range.count, jobs)?;
    Ok(RecordAnswer::of_text(text.into_bytes(), Vec::new(alloc)))
}

/// The first run that is caught.
fn caught<T: Threads + Wait + Sync, L: Log + Sync>(
    threads: &T,
    runs: DrawnRuns<'_, T>,
    made: &MadeRuns<'_, L>,
    jobs: usize,
) -> Result<RecordAnswer, Fault>
    requires suits { IsPlanOf runs.program.now.valid runs.program.now.plan }
    requires some { 0 < runs.request.now.size }
    requires few { runs.request.now.size ≤ 4096 }
    requires jobs { 0 < jobs }
    requires catches { lists runs.request.now.form ≡ false }
    requires by_numbers { runs.request.now.by_threads ≡ false }
    ensures found { IfOk result (IsHuntedBy runs.entry.program.now.valid runs.entry.program.now.plan runs.entry.request.now runs.entry.request.now.form runs.entry.request.now.shrinks) }
    ensures refused { IfErr result (IsHuntRefusal runs.entry.program.now.valid runs.entry.program.now.plan runs.entry.request.now) }
{
    let range = runs.request.range;
    let least = LeastCaught { runs, made };
    match survey_numbers(
        threads,
        least.runs.alloc,
        &least,
        range.from,
        range.count,
        jobs,
    ) {
        Ok(Some(number)) => found_answer(&least.runs, made, number),
        Ok(None) => Err(Fault::NotCaught),
        Err(NoMemory) => Err(Fault::NoMemory),
    }
}

/// The first run by threads that is caught.
fn hunted_by_threads<T: Threads + Wait + Sync, L: Log>(
    threads: &T,
    alloc: Global,
    program: &Program,
    request: &HuntRequest<'_>,
    made: &MadeRuns<'_, L>,
) -> Result<RecordAnswer, Fault>
    requires suits { IsPlanOf program.now.valid program.now.plan }
    requires some { 0 < request.now.size }
    requires few { request.now.size ≤ 4096 }
    requires by_threads { request.now.by_threads ≡ true }
    ensures found { IfOk result (IsThreadsAnswer program.now.valid program.now.plan request.now) }
    ensures refused { IfErr result (IsHuntRefusal program.now.valid program.now.plan request.now) }
{
    let found = match first_by_threads(threads, alloc, program, request, made) {
        Ok(Some(found)) => found,
        Ok(None) => return Err(Fault::NotCaught),
        Err(NoMemory) => return Err(Fault::NoMemory),
    };
    match caught_lines(alloc, request, found.number, found.recording) {
        Ok(answer) => Ok(answer),
        Err(NoMemory) => Err(Fault::NoMemory),
    }
}

/// What is found of the runs that numbers draw of a program.
fn hunted_at_random<T: Threads + Wait + Sync, L: Log + Sync>(
    threads: &T,
    alloc: Global,
    program: &Program,
    request: &HuntRequest<'_>,
    made: &MadeRuns<'_, L>,
) -> Result<RecordAnswer, Fault>
    requires suits { IsPlanOf program.now.valid program.now.plan }
    requires some { 0 < request.now.size }
    requires few { request.now.size ≤ 4096 }
    requires by_numbers { request.now.by_threads ≡ false }
    ensures found { IfOk result (IsHuntedBy program.now.valid program.now.plan request.now request.now.form request.now.shrinks) }
    ensures refused { IfErr result (IsHuntRefusal program.now.valid program.now.plan request.now) }
{
    let jobs = jobs_of(threads, request.jobs);
    let runs = DrawnRuns {
        rt: threads,
        alloc,
        program,
        request,
    };
    match request.form {
        HuntForm::Pieces | HuntForm::Schedule => caught(threads, runs, made, jobs),
        HuntForm::List => match listed(threads, runs, made, jobs) {
            Ok(answer) => Ok(answer),
            Err(NoMemory) => Err(Fault::NoMemory),
        },
    }
}

/// What is found of the runs of a program. The size of the pieces is judged before.
fn hunted<T: Threads + Wait + Sync, L: Log + Sync>(
    threads: &T,
    alloc: Global,
    program: &Program,
    request: &HuntRequest<'_>,
    made: &MadeRuns<'_, L>,
) -> Result<RecordAnswer, Fault>
    requires { IsPlanOf program.now.valid program.now.plan }
    ensures hunted { IfOk result (IsHunted program.now.valid program.now.plan request.now request.now.by_threads) }
    ensures refused { IfErr result (IsHuntRefusal program.now.valid program.now.plan request.now) }
{
    if let Err(fault) = check_size(request.size) {
        return Err(Fault::Pieces(fault));
    }
    if request.by_threads {
        hunted_by_threads(threads, alloc, program, request, made)
    } else {
        hunted_at_random(threads, alloc, program, request, made)
    }
}

/// What is found of many runs: the pieces or the schedule of the first that is caught, or a line for each. The module is
/// read and judged, then the plan, then the size of the pieces. Unless the request is quiet, a record of the target
/// `PROGRESS` tells `rt` of each run that is made, from the thread that made it, and one more that all are made.
pub fn hunt<L: Log + Sync, T: Threads + Wait + Sync, F: Files>(
    rt: &L,
    threads: &T,
    alloc: Global,
    files: &mut F,
    request: &HuntRequest<'_>,
) -> Result<RecordAnswer, Fault>
    ensures hunted { IfOk result (λ answer. IsHuntAnswer (F.holds files.old) request.now answer) }
    ensures refused { IfErr result (λ fault. IsHuntRefused (F.holds files.old) (F.fails files.old) request.now fault) }
{
    let program = match read_program(rt, alloc, files, request.module, request.plan) {
        Ok(program) => program,
        Err(fault) => return Err(fault),
    };
    let made = MadeRuns::new(rt, request);
    let answer = hunted(threads, alloc, &program, request, &made);
    made.end();
    answer
}
