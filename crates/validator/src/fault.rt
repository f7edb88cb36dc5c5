//! Why a module is refused.

ghost use Rattle.std.specs.Prelude.{◌≡◌};
ghost use Rattle.validator.specs.declared.fault.InstructionFault.TheVariants.{NoMemory};

use crate::module_cause::ModuleCause;
use crate::step_cause::StepCause;
use std::alloc::{AllocError, AllocFailed};
use std::error::Error;
use std::fmt;
use wasm_types::{Instr, NoMemory};

/// Why a module was not validated.
#[derive(Clone, Copy, Debug, PartialEq, Eq)]
pub enum ValidFault {
    /// Refusal 11: the module is not well typed. The fault is of the module as a whole (None, 0), which goes before a
    /// fault of a function; or it is of that function, at the first instruction, numbered from 0, at which the rules
    /// can't be kept going from left to right. The cause says which rule is broken.
    Invalid {
        function: Option<u32>,
        instruction: u32,
        cause: ValidCause,
    },
    /// Refusal 12: a growth was refused, which says nothing of the module.
    NoMemory,
}

/// Which rule a module breaks.
#[derive(Clone, Copy, Debug, PartialEq, Eq)]
pub enum ValidCause {
    /// A rule or a limit of the module as a whole.
    Module(ModuleCause),
    /// This instruction is not typed.
    Instruction(Instr, StepCause),
    /// A body has no further instruction, and blocks are open.
    NoEnd,
}

impl fmt::Display for ValidFault {
    fn fmt<W: fmt::Write>(&self, f: &mut fmt::Formatter<W>) -> fmt::Result {
        match self {
            ValidFault::Invalid { function: None, .. } => write!(f, "the module breaks a rule"),
            ValidFault::Invalid {
                function: Some(function),
                instruction,
                ..
            } => {
                write!(
                    f,
                    "function {function} is not well typed at instruction {instruction}"
                )
            }
            ValidFault::NoMemory => write!(f, "out of memory"),
        }
    }
}

impl Error for ValidFault {}

impl From<ModuleCause> for ValidFault {
    ghost use Rattle.std.specs.Prelude.{None};
    ghost use Rattle.validator.specs.declared.fault.ValidFault.TheVariants as valid;
    ghost use Rattle.validator.specs.declared.fault.ValidCause.TheVariants as cause;

    ghost from_gives = { λ broken fault. fault ≡ valid.Invalid None 0 (cause.Module broken) };

    #[cold]
    fn from(broken: ModuleCause) -> ValidFault {
        ValidFault::Invalid {
            function: None,
            instruction: 0,
            cause: ValidCause::Module(broken),
        }
    }
}

impl From<NoMemory> for ValidFault {
    ghost use Rattle.validator.specs.declared.fault.ValidFault.TheVariants as valid;

    ghost from_gives = { λ _ fault. fault ≡ valid.NoMemory };

    fn from(_error: NoMemory) -> ValidFault {
        ValidFault::NoMemory
    }
}

impl<T: Drop> From<AllocFailed<T>> for ValidFault {
    ghost use Rattle.validator.specs.declared.fault.ValidFault.TheVariants as valid;

    ghost from_gives = { λ _ fault. fault ≡ valid.NoMemory };

    fn from(_error: AllocFailed<T>) -> ValidFault {
        ValidFault::NoMemory
    }
}

/// Why an instruction can't be typed.
#[derive(Clone, Copy, Debug, PartialEq, Eq)]
pub(crate) enum InstructionFault {
    /// No rule takes the instruction on.
    IllTyped(StepCause),
    /// A growth was refused.
    NoMemory,
}

/// Why a function is refused.
#[derive(Clone, Copy, Debug, PartialEq, Eq)]
pub(crate) enum CheckFault {
    /// The first instruction at which the rules can't be kept, numbered from 0.
    IllTyped(u32, ValidCause),
    /// A growth was refused.
    NoMemory,
}

impl From<NoMemory> for CheckFault {
    ghost use Rattle.validator.specs.declared.fault.CheckFault.TheVariants as check;

    ghost from_gives = { λ _ fault. fault ≡ check.NoMemory };

    fn from(_error: NoMemory) -> CheckFault {
        CheckFault::NoMemory
    }
}

impl From<NoMemory> for InstructionFault {
    ghost from_gives = { λ _ fault. fault ≡ NoMemory };

    fn from(_error: NoMemory) -> InstructionFault {
        InstructionFault::NoMemory
    }
}

impl From<AllocError> for InstructionFault {
    ghost from_gives = { λ _ fault. fault ≡ NoMemory };

    fn from(_error: AllocError) -> InstructionFault {
        InstructionFault::NoMemory
    }
}

impl<T: Drop> From<AllocFailed<T>> for InstructionFault {
    ghost from_gives = { λ _ fault. fault ≡ NoMemory };

    fn from(_error: AllocFailed<T>) -> InstructionFault {
        InstructionFault::NoMemory
    }
}
