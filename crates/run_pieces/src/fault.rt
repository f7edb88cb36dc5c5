//! Why there are no pieces.

use thiserror::Error;

/// Why a recorded run is not cut into pieces of a size.
#[derive(Clone, Copy, Debug, PartialEq, Eq, Error)]
pub enum PiecesFault {
    /// Refusal 31: pieces of no entry.
    #[error("pieces of no entry")]
    Empty,
    /// Refusal 32: pieces of more than 4,096 entries.
    #[error("more than 4096 entries")]
    TooMany,
    /// Refusal 23: a growth was refused.
    #[error("out of memory")]
    NoMemory,
}
