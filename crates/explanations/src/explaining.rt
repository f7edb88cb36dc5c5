//! Explanations of refusals.

ghost use Rattle.std.specs.Prelude.{◌≡◌, IfOk, string_bytes};
ghost use Rattle.explanations.specs.Places.{place_text};
ghost use Rattle.explanations.specs.Explained.{IsExplanation, BeginsWith, in_module, in_functions, in_plan, in_schedule, in_lines, in_events, in_log};

use crate::paths::{STANDARD_INPUT, module_path, path_of, pieces_path, plan_path, schedule_path};
use crate::place::FilePlace;
use crate::reasons::reason_of;
use binary_decoder::DecodeFault;
use command_words::Request;
use commands::{Fault, Files};
use pick_schedule::ScheduleFault;
use replay_gate::ReplayFault;
use replica::GatherFault;
use std::alloc::Global;
use thread_plan::PlanFault;
use validator::ValidFault;
use wasm_replay::WasmReplayFault;
use wasm_types::NoMemory;

fn in_module<'a>(file: &'a str, fault: &DecodeFault) -> FilePlace<'a>
    ensures { place_text result ≡ in_module file.now fault.now }
{
    match *fault {
        DecodeFault::Refused { offset, .. } => FilePlace::Byte {
            file,
            offset: u64::from(offset),
        },
        _ => FilePlace::Whole(file),
    }
}

fn in_functions<'a>(file: &'a str, fault: &ValidFault) -> FilePlace<'a>
    ensures { place_text result ≡ in_functions file.now fault.now }
{
    match *fault {
        ValidFault::Invalid {
            function: Some(function),
            instruction,
            ..
        } => FilePlace::Instruction {
            file,
            function,
            instruction,
        },
        _ => FilePlace::Whole(file),
    }
}

fn in_plan<'a>(file: &'a str, fault: &PlanFault) -> FilePlace<'a>
    ensures { place_text result ≡ in_plan file.now fault.now }
{
    match *fault {
        PlanFault::BadLine { line, .. } => FilePlace::Line { file, line },
        PlanFault::NoExport { line, .. } => FilePlace::Line { file, line },
        PlanFault::WrongArguments { line, .. } => FilePlace::Line { file, line },
        _ => FilePlace::Whole(file),
    }
}

fn in_schedule<'a>(file: &'a str, fault: &ScheduleFault) -> FilePlace<'a>
    ensures { place_text result ≡ in_schedule file.now fault.now }
{
    match *fault {
        ScheduleFault::BadLine { line, .. } => FilePlace::Line { file, line },
        ScheduleFault::NoMemory => FilePlace::Whole(file),
    }
}

fn in_lines<'a>(file: &'a str, fault: &GatherFault) -> FilePlace<'a>
    ensures { place_text result ≡ in_lines file.now fault.now }
{
    match *fault {
        GatherFault::OtherRun { line, .. } => FilePlace::Line { file, line },
        GatherFault::BadLine { line, .. } => FilePlace::Line { file, line },
        GatherFault::SourceFailed => FilePlace::Whole(STANDARD_INPUT),
        _ => FilePlace::Whole(file),
    }
}

fn in_events<'a>(file: &'a str, fault: &ReplayFault) -> FilePlace<'a>
    ensures { place_text result ≡ in_events file.now fault.now }
{
    match *fault {
        ReplayFault::Clash { thread, place } => FilePlace::Event {
            file,
            thread,
            place,
        },
        ReplayFault::Missing { thread, place } => FilePlace::Event {
            file,
            thread,
            place,
        },
        ReplayFault::Diverged { thread, place } => FilePlace::Event {
            file,
            thread,
            place,
        },
        _ => FilePlace::Whole(file),
    }
}

fn in_log<'a>(file: &'a str, fault: &WasmReplayFault) -> FilePlace<'a>
    ensures { place_text result ≡ in_log file.now fault.now }
{
    match fault {
        WasmReplayFault::Replay(fault) => in_events(file, fault),
        _ => FilePlace::Whole(file),
    }
}

/// Where the cause of a refusal stands.
fn place_of<'a>(request: &Request<'a>, fault: &Fault) -> FilePlace<'a>
    ensures { BeginsWith request.now fault.now (place_text result) }
{
    match fault {
        Fault::File(_, file) => FilePlace::Whole(path_of(request, *file)),
        Fault::Decode(fault, _) => in_module(module_path(request), fault),
        Fault::Valid(fault) => in_functions(module_path(request), fault),
        Fault::Plan(fault, _) => in_plan(plan_path(request), fault),
        Fault::Schedule(fault, _) => in_schedule(schedule_path(request), fault),
        Fault::Pieces(_) => FilePlace::Whole("--size"),
        Fault::Gather(fault) => in_lines(pieces_path(request), fault),
        Fault::Replay(refused) => in_log(pieces_path(request), &refused.fault),
        Fault::View(_) => FilePlace::Whole("--from and --len"),
        Fault::NotCaught => FilePlace::Whole("--from and --runs"),
        Fault::TooLong => FilePlace::Whole("--shrink and --print"),
        Fault::BadFrame(_) => FilePlace::Whole(STANDARD_INPUT),
        Fault::NoMemory => FilePlace::Whole("memory"),
        Fault::SinkFailed => FilePlace::Whole("standard output"),
    }
}

/// Why a request is refused with this fault, in words, without a line end: the file, where in it, and the reason. No file
/// is read again. It refuses for want of memory alone.
pub fn explain<F: Files>(
    alloc: Global,
    files: &mut F,
    request: &Request<'_>,
    fault: &Fault,
) -> Result<String, NoMemory>
    ensures { IfOk result (λ text. IsExplanation request.now fault.now (string_bytes text)) }
{
    let place = place_of(request, fault);
    let reason = reason_of(alloc, files, request, fault)?;
    Ok(format!(in alloc; "{place}: {reason}")?)
}
