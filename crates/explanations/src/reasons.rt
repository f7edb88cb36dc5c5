//! The reasons of refusals, in words.

ghost use Rattle.std.specs.Prelude.{IfOk, string_bytes};
ghost use Rattle.commands.specs.declared.fault.Fault.TheVariants as faults;
ghost use Rattle.explanations.specs.Explained.{SaysWhy};

use crate::differences::other_line_words;
use crate::paths::path_of;
use crate::words_of_decoding::decode_words;
use crate::words_of_lines::line_words;
use crate::words_of_plans::plan_words;
use crate::words_of_replays::replay_words;
use crate::words_of_schedules::schedule_words;
use crate::words_of_typing::valid_words;
use command_words::Request;
use commands::{Fault, FileFault, FileState, Files, FrameFault};
use debug_views::ViewFault;
use replica::GatherFault;
use run_pieces::PiecesFault;
use std::alloc::Global;
use wasm_types::NoMemory;

/// The words of an explanation.
pub(crate) type Words = Result<String, NoMemory>;

/// These words.
pub(crate) fn words(alloc: Global, text: &str) -> Words {
    let mut words = String::new(alloc);
    words.push_str(text)?;
    Ok(words)
}

/// Why the file at a path is not read.
fn file_words<F: Files>(alloc: Global, files: &mut F, path: &str, fault: &FileFault) -> Words {
    if let FileFault::NoMemory = fault {
        return words(alloc, "memory for its bytes could not be had");
    }
    words(
        alloc,
        match files.state(path) {
            FileState::NotThere => "there is no such file",
            FileState::NotAllowed => "it may not be read",
            FileState::Folder => "it is a folder",
            FileState::Regular => "reading it failed",
            FileState::Special => "reading it failed",
            FileState::Unknown => "it can't be opened",
        },
    )
}

/// Why there are no pieces of a size.
fn size_words(fault: &PiecesFault) -> &'static str {
    match fault {
        PiecesFault::Empty => "a piece has at least one entry",
        PiecesFault::TooMany => "a piece has at most 4096 entries",
        PiecesFault::NoMemory => "memory for the pieces could not be had",
    }
}

/// Why piece lines give no log; of a line of another run, what differs in the keys.
fn gather_words(alloc: Global, fault: &GatherFault) -> Words
    ensures { IfOk result (λ text. SaysWhy (faults.Gather fault.now) (string_bytes text)) }
{
    match fault {
        GatherFault::OtherRun { own, first, .. } => other_line_words(alloc, own, first),
        GatherFault::NoMemory => words(alloc, "memory for the log could not be had"),
        GatherFault::BadLine { reason, .. } => line_words(alloc, *reason),
        GatherFault::SourceFailed => words(alloc, "reading it failed"),
        GatherFault::SinkFailed => words(alloc, "writing failed"),
    }
}

/// Why a view can't be shown.
fn view_words(fault: &ViewFault) -> &'static str {
    match fault {
        ViewFault::OutOfView => "the memory ends before these bytes",
        ViewFault::NoMemory => "memory for the view could not be had",
    }
}

/// Why what came is no message of the protocol of debug adapters.
fn frame_words(fault: FrameFault) -> &'static str {
    match fault {
        FrameFault::Ended => "it ends within a message",
        FrameFault::Broken => {
            "the header of a message must be fields, one a line, and name Content-Length once, a number"
        }
        FrameFault::TooLong => "a message has more bytes than are taken",
        FrameFault::SourceFailed => "reading it failed",
        FrameFault::NoMemory => "memory for a message could not be had",
    }
}

/// The reason of a refusal, in words.
pub(crate) fn reason_of<F: Files>(
    alloc: Global,
    files: &mut F,
    request: &Request<'_>,
    fault: &Fault,
) -> Words
    ensures { IfOk result (λ text. SaysWhy fault.now (string_bytes text)) }
{
    match fault {
        Fault::File(fault, file) => file_words(alloc, files, path_of(request, *file), fault),
        Fault::Decode(fault, names) => decode_words(alloc, fault, names),
        Fault::Valid(fault) => valid_words(alloc, fault),
        Fault::Plan(fault, quote) => plan_words(alloc, fault, quote),
        Fault::Schedule(fault, quote) => schedule_words(alloc, fault, quote),
        Fault::Pieces(fault) => words(alloc, size_words(fault)),
        Fault::Gather(fault) => gather_words(alloc, fault),
        Fault::Replay(refused) => replay_words(alloc, refused),
        Fault::View(fault) => words(alloc, view_words(fault)),
        Fault::NotCaught => words(
            alloc,
            "the report of none of these runs is one that is caught",
        ),
        Fault::TooLong => words(
            alloc,
            "the run that is caught has more than 1,000,000 picks, the most of a schedule",
        ),
        Fault::BadFrame(fault) => words(alloc, frame_words(*fault)),
        Fault::NoMemory => words(alloc, "memory for the answer could not be had"),
        Fault::SinkFailed => words(alloc, "writing failed, after a beginning was written"),
    }
}
