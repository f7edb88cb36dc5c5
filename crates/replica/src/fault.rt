//! Why pieces were not gathered.

use log_pieces::LineFault;
use thiserror::Error;
use wasm_types::{NoMemory, RunKey};

/// Why a piece, or another log, was not joined whole.
#[derive(Clone, Copy, Debug, PartialEq, Eq, Error)]
pub enum ReplicaFault {
    /// Refusal 41: it is of another run.
    #[error("it is of another run")]
    OtherRun,
    /// Refusal 42: only its first items were joined.
    #[error("out of memory")]
    NoMemory,
}

/// Why piece lines were not gathered, or their listing not written whole. Lines are numbered from 1; a number past the
/// greatest u64 stays there.
#[derive(Clone, Copy, Debug, PartialEq, Eq, Error)]
pub enum GatherFault {
    /// Refusal 41: that line is the first whose piece is of another run than the lines before it. `own` is the key of
    /// its piece, `first` that of line 1.
    #[error("line {line} is of another run")]
    OtherRun {
        line: u64,
        own: RunKey,
        first: RunKey,
    },
    /// Refusal 42: memory could not be had.
    #[error("out of memory")]
    NoMemory,
    /// Refusal 43: that line is the first that is no piece line, for that reason.
    #[error("line {line} is no piece line")]
    BadLine {
        line: u64,
        reason: LineFault,
    },
    /// Refusal 44: a call of the source failed.
    #[error("the source failed")]
    SourceFailed,
    /// Refusal 45: a call of the sink failed, and a beginning of the listing was written.
    #[error("the sink failed")]
    SinkFailed,
}

impl From<NoMemory> for GatherFault {
    ghost use Rattle.std.specs.Prelude.{◌≡◌};
    ghost use Rattle.replica.specs.declared.fault.GatherFault.TheVariants as faults;

    ghost from_gives = { λ _ e. e ≡ faults.NoMemory };

    fn from(_error: NoMemory) -> GatherFault {
        GatherFault::NoMemory
    }
}
