//! Runs that are caught, and what is told of them.

ghost use Rattle.std.specs.Prelude.{◌≡◌, ◌<◌, ◌≤◌, false, IfOk};
ghost use Rattle.debug_views.specs.Report.{report_text};
ghost use Rattle.commands.specs.Hunts.{caught_text, shows};
ghost use Rattle.commands.specs.Records.{pieces_text};

use crate::record_answer::RecordAnswer;
use crate::signs::{is_caught, put_signs, signs_of};
use command_words::HuntRequest;
use debug_views::report;
use std::alloc::Global;
use wasm_record::Recording;
use wasm_types::NoMemory;

/// Whether a recorded run is caught.
pub(crate) fn judge(
    alloc: Global,
    request: &HuntRequest<'_>,
    recording: &Recording,
) -> Result<bool, NoMemory>
    ensures { IfOk result (λ caught. shows request.now recording.now.recorded.end ≡ caught) }
{
    let report = report(alloc, recording.recorded().end())?;
    Ok(is_caught(request, report.as_bytes()))
}

/// What is told of a run that is caught, by its report.
fn caught_text(
    alloc: Global,
    request: &HuntRequest<'_>,
    number: u64,
    report: &[u8],
) -> Result<Vec<u8>, NoMemory>
    ensures { IfOk result (λ text. text.items ≡ caught_text request.now number report.now) }
{
    let mut text = format!(in alloc; "caught {number}\n")?.into_bytes();
    put_signs(&mut text, signs_of(request), report)?;
    Ok(text)
}

/// What is told of a recorded run that is caught.
pub(crate) fn told_of(
    alloc: Global,
    request: &HuntRequest<'_>,
    number: u64,
    recording: &Recording,
) -> Result<Vec<u8>, NoMemory>
    ensures { IfOk result (λ told. told.items ≡ caught_text request.now number (report_text recording.now.recorded.end)) }
{
    let report = report(alloc, recording.recorded().end())?;
    caught_text(alloc, request, number, report.as_bytes())
}

/// The pieces of a recorded run that is caught, and what is told of it.
pub(crate) fn caught_lines(
    alloc: Global,
    request: &HuntRequest<'_>,
    number: u64,
    recording: Recording,
) -> Result<RecordAnswer, NoMemory>
    requires some { 0 < request.now.size }
    requires few { request.now.size ≤ 4096 }
    ensures text { IfOk result (λ answer. answer.text ≡ pieces_text request.now.size recording) }
    ensures told { IfOk result (λ answer. answer.told ≡ caught_text request.now number (report_text recording.recorded.end)) }
{
    let told = told_of(alloc, request, number, &recording)?;
    RecordAnswer::of_lines(alloc, recording, request.size, told)
}
