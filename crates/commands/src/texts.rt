//! The texts of faults, and of lines that were passed over.

ghost use Rattle.std.specs.Prelude.{◌≡◌, ◌≤◌, ◌+◌, ◌++◌, ◌∷◌, length};
ghost use Rattle.std.specs.Fmt.{decimal};
ghost use Rattle.arrayvec.specs.ArrayString.{array_string_len};
ghost use Rattle.commands.specs.Texts.{fault_text, file_text, decode_text, valid_text, plan_text, schedule_text, pieces_text, gather_text, replay_text, refusal_text, view_text, skipped_text};

use crate::fault::Fault;
use crate::files::FileFault;
use arrayvec::ArrayString;
use binary_decoder::DecodeFault;
use debug_views::ViewFault;
use debugger::put_number;
use pick_schedule::ScheduleFault;
use replica::{GatherFault, Skipped};
use std::fmt;
use thread_plan::PlanFault;
use validator::ValidFault;
use wasm_record::PiecesFault;
use wasm_replay::{ReplayFault, WasmReplayFault};

// A text without a number.
fn plain(head: &str) -> ArrayString<64>
    requires { length head.now ≤ 63 }
    ensures text { result.bytes ≡ head.now }
    ensures short { array_string_len result ≤ 63 }
{
    let mut text = ArrayString::<64>::new();
    text.push_str(head);
    text
}

// A text with a number behind it.
fn numbered(head: &str, number: u64) -> ArrayString<64>
    requires { length head.now ≤ 43 }
    ensures text { result.bytes ≡ head.now ++ decimal number }
    ensures short { array_string_len result ≤ 63 }
{
    let mut text = plain(head);
    put_number(&mut text, number);
    text
}

// A text with two numbers behind it.
fn placed(head: &str, first: u64, second: u64) -> ArrayString<64>
    requires { length head.now ≤ 22 }
    ensures text { result.bytes ≡ head.now ++ (decimal first ++ 32 ∷ decimal second) }
    ensures short { array_string_len result ≤ 63 }
{
    let mut text = plain(head);
    put_number(&mut text, first);
    text.push_str(" ");
    put_number(&mut text, second);
    text
}

// The same of numbers of 32 bits.
fn at_place(head: &str, first: u32, second: u32) -> ArrayString<64>
    requires { length head.now ≤ 22 }
    ensures text { result.bytes ≡ head.now ++ (decimal first ++ 32 ∷ decimal second) }
    ensures short { array_string_len result ≤ 63 }
{
    placed(head, u64::from(first), u64::from(second))
}

/// The line that tells how many lines were passed over, without its end: `skipped`, the bad ones, those of other runs.
pub fn skipped_text(skipped: &Skipped) -> ArrayString<64>
    ensures text { result.bytes ≡ skipped_text skipped.now }
    ensures short { array_string_len result ≤ 63 }
{
    placed("skipped ", skipped.bad, skipped.foreign)
}

fn text_of_file(fault: &FileFault) -> ArrayString<64>
    ensures text { result.bytes ≡ file_text fault.now }
    ensures short { array_string_len result ≤ 63 }
{
    match *fault {
        FileFault::NotRead => plain("refused 44 SourceFailed"),
        FileFault::NoMemory => plain("refused 23 NoMemory"),
    }
}

fn text_of_decode(fault: &DecodeFault) -> ArrayString<64>
    ensures text { result.bytes ≡ decode_text fault.now }
    ensures short { array_string_len result ≤ 63 }
{
    match *fault {
        DecodeFault::Refused { offset, .. } => numbered("refused 1 Refused ", u64::from(offset)),
        DecodeFault::TooLarge { .. } => plain("refused 2 TooLarge"),
        DecodeFault::NoMemory => plain("refused 3 NoMemory"),
    }
}

fn text_of_valid(fault: &ValidFault) -> ArrayString<64>
    ensures text { result.bytes ≡ valid_text fault.now }
    ensures short { array_string_len result ≤ 63 }
{
    match *fault {
        ValidFault::Invalid { function: None, .. } => plain("refused 11 Invalid module"),
        ValidFault::Invalid {
            function: Some(function),
            instruction,
            ..
        } => at_place("refused 11 Invalid ", function, instruction),
        ValidFault::NoMemory => plain("refused 12 NoMemory"),
    }
}

fn text_of_plan(fault: &PlanFault) -> ArrayString<64>
    ensures text { result.bytes ≡ plan_text fault.now }
    ensures short { array_string_len result ≤ 63 }
{
    match *fault {
        PlanFault::BadLine { line, .. } => numbered("refused 13 BadLine ", line),
        PlanFault::NoExport { line, .. } => numbered("refused 14 NoExport ", line),
        PlanFault::WrongArguments { line, .. } => { numbered("refused 15 WrongArguments ", line) }
        PlanFault::NotShared => plain("refused 16 NotShared"),
        PlanFault::SegmentOutOfBounds => plain("refused 17 SegmentOutOfBounds"),
        PlanFault::NoMemory => plain("refused 12 NoMemory"),
    }
}

fn text_of_schedule(fault: &ScheduleFault) -> ArrayString<64>
    ensures text { result.bytes ≡ schedule_text fault.now }
    ensures short { array_string_len result ≤ 63 }
{
    match *fault {
        ScheduleFault::BadLine { line, .. } => numbered("refused 18 BadSchedule ", line),
        ScheduleFault::NoMemory => plain("refused 23 NoMemory"),
    }
}

fn text_of_pieces(fault: &PiecesFault) -> ArrayString<64>
    ensures text { result.bytes ≡ pieces_text fault.now }
    ensures short { array_string_len result ≤ 63 }
{
    match *fault {
        PiecesFault::Empty => plain("refused 31 Empty"),
        PiecesFault::TooMany => plain("refused 32 TooMany"),
        PiecesFault::NoMemory => plain("refused 23 NoMemory"),
    }
}

fn text_of_gather(fault: &GatherFault) -> ArrayString<64>
    ensures text { result.bytes ≡ gather_text fault.now }
    ensures short { array_string_len result ≤ 63 }
{
    match *fault {
        GatherFault::OtherRun { line, .. } => numbered("refused 41 OtherRun ", line),
        GatherFault::NoMemory => plain("refused 42 NoMemory"),
        GatherFault::BadLine { line, .. } => numbered("refused 43 BadLine ", line),
        GatherFault::SourceFailed => plain("refused 44 SourceFailed"),
        GatherFault::SinkFailed => plain("refused 45 SinkFailed"),
    }
}

fn text_of_replay(fault: &ReplayFault) -> ArrayString<64>
    ensures text { result.bytes ≡ replay_text fault.now }
    ensures short { array_string_len result ≤ 63 }
{
    match *fault {
        ReplayFault::Clash { thread, place } => at_place("refused 52 Clash ", thread, place),
        ReplayFault::Missing { thread, place } => at_place("refused 53 Missing ", thread, place),
        ReplayFault::Shut => plain("refused 54 Shut"),
        ReplayFault::Diverged { thread, place } => at_place("refused 55 Diverged ", thread, place),
        ReplayFault::NoMemory => plain("refused 56 NoMemory"),
        ReplayFault::Stuck => plain("refused 57 Stuck"),
    }
}

fn text_of_refusal(fault: &WasmReplayFault) -> ArrayString<64>
    ensures text { result.bytes ≡ refusal_text fault.now }
    ensures short { array_string_len result ≤ 63 }
{
    match fault {
        WasmReplayFault::OtherRun => plain("refused 51 OtherRun"),
        WasmReplayFault::OldProfile => plain("refused 58 OldProfile"),
        WasmReplayFault::Replay(fault) => text_of_replay(fault),
    }
}

fn text_of_view(fault: &ViewFault) -> ArrayString<64>
    ensures text { result.bytes ≡ view_text fault.now }
    ensures short { array_string_len result ≤ 63 }
{
    match *fault {
        ViewFault::OutOfView => plain("refused 61 OutOfView"),
        ViewFault::NoMemory => plain("refused 62 NoMemory"),
    }
}

impl Fault {
    /// The line that tells the fault, without its end: `refused`, the number, the name, and perhaps numbers.
    pub fn text(&self) -> ArrayString<64>
        ensures text { result.bytes ≡ fault_text self.now }
        ensures short { array_string_len result ≤ 63 }
    {
        match self {
            Fault::File(fault, _) => text_of_file(fault),
            Fault::Decode(fault, _) => text_of_decode(fault),
            Fault::Valid(fault) => text_of_valid(fault),
            Fault::Plan(fault, _) => text_of_plan(fault),
            Fault::Schedule(fault, _) => text_of_schedule(fault),
            Fault::Pieces(fault) => text_of_pieces(fault),
            Fault::Gather(fault) => text_of_gather(fault),
            Fault::Replay(refused) => text_of_refusal(&refused.fault),
            Fault::View(fault) => text_of_view(fault),
            Fault::NotCaught => plain("refused 71 NotCaught"),
            Fault::TooLong => plain("refused 72 TooLong"),
            Fault::BadFrame(_) => plain("refused 73 BadFrame"),
            Fault::NoMemory => plain("refused 23 NoMemory"),
            Fault::SinkFailed => plain("refused 45 SinkFailed"),
        }
    }
}

impl fmt::Display for Fault {
    ghost use Rattle.std.specs.Prelude.{Some};

    ghost output = { λ fault. Some (fault_text fault) };

    fn fmt<W: fmt::Write>(&self, f: &mut fmt::Formatter<W>) -> fmt::Result {
        write!(f, "{}", self.text())
    }
}
