//! Why a command is refused.

ghost use Rattle.std.specs.Prelude.{◌≡◌};

use crate::files::{FileFault, InputFile};
use crate::quotes::{ImportNames, Quote};
use adapter::FrameFault;
use binary_decoder::DecodeFault;
use debug_views::ViewFault;
use pick_schedule::ScheduleFault;
use replica::GatherFault;
use thiserror::Error;
use thread_plan::PlanFault;
use validator::ValidFault;
use wasm_record::PiecesFault;
use wasm_replay::Unreplayed;
use wasm_types::NoMemory;

/// Why a command is refused. `text` is the line that the program writes, without its end.
#[derive(Clone, Copy, Debug, PartialEq, Eq, Error)]
pub enum Fault {
    /// This file was not read.
    File(FileFault, InputFile),
    /// The bytes of the module spell none of the integer profile within the limits. The reason names an import that is no
    /// memory.
    Decode(DecodeFault, ImportNames),
    /// The module is not well typed.
    Valid(ValidFault),
    /// The text of the plan spells none for the module. The reason quotes that of it.
    Plan(PlanFault, Quote),
    /// The text of the schedule spells none. The reason quotes that of it.
    Schedule(ScheduleFault, Quote),
    /// There are no pieces of the size.
    Pieces(PiecesFault),
    /// The piece lines give no log.
    Gather(GatherFault),
    /// The log is not replayed to its end, or to where it stops.
    Replay(Unreplayed),
    /// The bytes of the view can't be shown.
    View(ViewFault),
    /// Refusal 71: none of the runs is caught.
    NotCaught,
    /// Refusal 72: the run that is caught has more than 1,000,000 picks, and so no schedule.
    TooLong,
    /// Refusal 73: what came is no message of the protocol of debug adapters. The reason says why.
    BadFrame(FrameFault),
    /// Refusal 23: memory for the command line or for a text could not be had.
    NoMemory,
    /// Refusal 45: writing failed, after a beginning was written.
    SinkFailed,
}

impl From<NoMemory> for Fault {
    ghost use Rattle.commands.specs.declared.fault.Fault.TheVariants as faults;

    ghost from_gives = { λ _ fault. fault ≡ faults.NoMemory };

    fn from(_refused: NoMemory) -> Fault {
        Fault::NoMemory
    }
}
