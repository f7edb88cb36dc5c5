//! The files that a request names.

ghost use Rattle.std.specs.Prelude.{◌≡◌};
ghost use Rattle.explanations.specs.Explained.{module_path, plan_of, plan_path, schedule_of, schedule_path, pieces_path, path_of};

use command_words::{RecordOrder, Request};
use commands::InputFile;

/// What is said in place of a file where bytes come from standard input.
pub(crate) const STANDARD_INPUT: &str = "standard input";

/// The file of the module.
pub(crate) fn module_path<'a>(request: &Request<'a>) -> &'a str
    ensures { result.now ≡ module_path request.now }
{
    match request {
        Request::Gather { .. } => STANDARD_INPUT,
        Request::Check { module, .. } => module,
        Request::Record(record) => record.module,
        Request::Hunt(hunt) => hunt.module,
        Request::Replay { replay, .. } => replay.module,
        Request::View(view) => view.replay.module,
        Request::Trace(trace) => trace.replay.module,
        Request::Debug(replay) => replay.module,
        Request::Adapter => STANDARD_INPUT,
    }
}

/// The file of the plan of a check.
fn plan_of<'a>(plan: Option<&'a str>) -> &'a str
    ensures { result.now ≡ plan_of plan.entry }
{
    match plan {
        Some(path) => path,
        None => "--threads",
    }
}

/// The file of the plan.
pub(crate) fn plan_path<'a>(request: &Request<'a>) -> &'a str
    ensures { result.now ≡ plan_path request.now }
{
    match request {
        Request::Gather { .. } => STANDARD_INPUT,
        Request::Check { plan, .. } => plan_of(*plan),
        Request::Record(record) => record.plan,
        Request::Hunt(hunt) => hunt.plan,
        Request::Replay { replay, .. } => replay.plan,
        Request::View(view) => view.replay.plan,
        Request::Trace(trace) => trace.replay.plan,
        Request::Debug(replay) => replay.plan,
        Request::Adapter => STANDARD_INPUT,
    }
}

/// The file of a recording's schedule.
fn schedule_of<'a>(order: &RecordOrder<'a>) -> &'a str
    ensures { result.now ≡ schedule_of order.now }
{
    match order {
        RecordOrder::Schedule(path) => path,
        RecordOrder::Threads { .. } => "--threads",
        RecordOrder::Random { .. } => "--random",
    }
}

/// The file of the schedule.
pub(crate) fn schedule_path<'a>(request: &Request<'a>) -> &'a str
    ensures { result.now ≡ schedule_path request.now }
{
    match request {
        Request::Record(record) => schedule_of(&record.order),
        _ => "--schedule",
    }
}

/// The file of the piece lines.
pub(crate) fn pieces_path<'a>(request: &Request<'a>) -> &'a str
    ensures { result.now ≡ pieces_path request.now }
{
    match request {
        Request::Replay { replay, .. } => replay.pieces,
        Request::View(view) => view.replay.pieces,
        Request::Trace(trace) => trace.replay.pieces,
        Request::Debug(replay) => replay.pieces,
        _ => STANDARD_INPUT,
    }
}

/// The path of a file that a request names.
pub(crate) fn path_of<'a>(request: &Request<'a>, file: InputFile) -> &'a str
    ensures { result.now ≡ path_of request.now file }
{
    match file {
        InputFile::Module => module_path(request),
        InputFile::Plan => plan_path(request),
        InputFile::Schedule => schedule_path(request),
        InputFile::Pieces => pieces_path(request),
    }
}
