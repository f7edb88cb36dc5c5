//! Why a plan is refused.

use std::alloc::{AllocError, AllocFailed};
use text_lines::SpacingFault;
use thiserror::Error;
use wasm_types::{NoMemory, ValType};

/// What is wrong in a line of a plan. Arguments are counted from 1.
#[derive(Clone, Copy, Debug, PartialEq, Eq)]
pub enum PlanCause {
    /// The first line is not `wreplay plan 1`.
    FirstLine,
    /// No line stands behind the first.
    NoThread,
    /// It is a line behind that of the sixteenth thread.
    SeventeenthThread,
    /// The line is no words between which single spaces stand.
    Spacing(SpacingFault),
    /// The first word is not `thread`.
    FirstWord,
    /// Nothing stands behind `thread`.
    NoName,
    /// The name is not in UTF-8.
    NotUtf8,
    /// No exported function has the name.
    NoFunction,
    /// The function takes so many arguments, and others stand in the line.
    ArgumentCount { takes: u32, found: u32 },
    /// That argument is none.
    Argument { argument: u32, fault: ArgumentFault },
}

/// What is wrong in an argument.
#[derive(Clone, Copy, Debug, PartialEq, Eq)]
pub enum ArgumentFault {
    /// It is no integer in decimal.
    NoInteger,
    /// It is out of the range of this type.
    OutOfRange(ValType),
}

/// Why a plan was not read. Lines are numbered from 1.
#[derive(Clone, Copy, Debug, PartialEq, Eq, Error)]
pub enum PlanFault {
    /// Refusal 13: that line is not of the form that a plan has there, or the plan lacks that line.
    #[error("line {line} is no line of a plan")]
    BadLine { line: u64, cause: PlanCause },
    /// Refusal 14: that line names no exported function.
    #[error("line {line} names no exported function")]
    NoExport { line: u64, cause: PlanCause },
    /// Refusal 15: that line's arguments are not one for each parameter of the function, or one is out of its range.
    #[error("line {line} has other arguments than the function takes")]
    WrongArguments { line: u64, cause: PlanCause },
    /// Refusal 16: the plan has more than one thread, and the module's memory is not shared.
    #[error("the memory is not shared")]
    NotShared,
    /// Refusal 17: a data segment does not fit the initial memory, or an element segment the initial table.
    #[error("a segment is out of bounds")]
    SegmentOutOfBounds,
    /// Refusal 12: a growth was refused, which says nothing of the plan.
    #[error("out of memory")]
    NoMemory,
}

impl From<NoMemory> for PlanFault {
    ghost use Rattle.std.specs.Prelude.{◌≡◌};
    ghost use Rattle.thread_plan.specs.declared.fault.PlanFault.TheVariants as faults;

    ghost from_gives = { λ _ fault. fault ≡ faults.NoMemory };

    fn from(_error: NoMemory) -> PlanFault {
        PlanFault::NoMemory
    }
}

impl From<AllocError> for PlanFault {
    ghost use Rattle.std.specs.Prelude.{◌≡◌};
    ghost use Rattle.thread_plan.specs.declared.fault.PlanFault.TheVariants as faults;

    ghost from_gives = { λ _ fault. fault ≡ faults.NoMemory };

    fn from(_error: AllocError) -> PlanFault {
        PlanFault::NoMemory
    }
}

impl<T: Drop> From<AllocFailed<T>> for PlanFault {
    ghost use Rattle.std.specs.Prelude.{◌≡◌};
    ghost use Rattle.thread_plan.specs.declared.fault.PlanFault.TheVariants as faults;

    ghost from_gives = { λ _ fault. fault ≡ faults.NoMemory };

    fn from(_error: AllocFailed<T>) -> PlanFault {
        PlanFault::NoMemory
    }
}
