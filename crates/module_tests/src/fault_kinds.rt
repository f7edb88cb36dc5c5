//! Faults without their causes.

use binary_decoder::DecodeFault;
use validator::ValidFault;

/// What a fault of decoding is, wherever it came from.
#[derive(Clone, Copy, Debug, PartialEq, Eq)]
pub(crate) enum DecodeKind {
    Refused { offset: u32 },
    TooLarge,
    NoMemory,
}

impl DecodeKind {
    pub(crate) fn of(fault: DecodeFault) -> DecodeKind {
        match fault {
            DecodeFault::Refused { offset, .. } => DecodeKind::Refused { offset },
            DecodeFault::TooLarge { .. } => DecodeKind::TooLarge,
            DecodeFault::NoMemory => DecodeKind::NoMemory,
        }
    }
}

/// Where a fault of typing is, wherever it came from.
#[derive(Clone, Copy, Debug, PartialEq, Eq)]
pub(crate) enum ValidKind {
    Invalid {
        function: Option<u32>,
        instruction: u32,
    },
    NoMemory,
}

impl ValidKind {
    pub(crate) fn of(fault: ValidFault) -> ValidKind {
        match fault {
            ValidFault::Invalid {
                function,
                instruction,
                ..
            } => ValidKind::Invalid {
                function,
                instruction,
            },
            ValidFault::NoMemory => ValidKind::NoMemory,
        }
    }
}
