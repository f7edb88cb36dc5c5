//! Why a view is not shown.

use std::alloc::AllocError;
use thiserror::Error;
use wasm_types::NoMemory;

/// Why a view is not shown.
#[derive(Clone, Copy, Debug, PartialEq, Eq, Error)]
pub enum ViewFault {
    /// Refusal 61: the range passes the memory's length now.
    #[error("the range passes the end of the memory")]
    OutOfView,
    /// Refusal 62: memory could not be had.
    #[error("out of memory")]
    NoMemory,
}

impl From<NoMemory> for ViewFault {
    ghost use Rattle.std.specs.Prelude.{◌≡◌};
    ghost use Rattle.debug_views.specs.declared.fault.ViewFault.TheVariants as faults;

    ghost from_gives = { λ _ fault. fault ≡ faults.NoMemory };

    fn from(_error: NoMemory) -> ViewFault {
        ViewFault::NoMemory
    }
}

impl From<AllocError> for ViewFault {
    ghost use Rattle.std.specs.Prelude.{◌≡◌};
    ghost use Rattle.debug_views.specs.declared.fault.ViewFault.TheVariants as faults;

    ghost from_gives = { λ _ fault. fault ≡ faults.NoMemory };

    fn from(_error: AllocError) -> ViewFault {
        ViewFault::NoMemory
    }
}
