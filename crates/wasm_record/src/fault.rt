//! Why pieces were not sent.

use run_pieces::PiecesFault;
use thiserror::Error;

/// Why the pieces of a recording were not all sent.
#[derive(Clone, Copy, Debug, PartialEq, Eq, Error)]
pub enum SendFault {
    /// There are no pieces of that size, and nothing was sent.
    #[error("{0}")]
    Pieces(PiecesFault),
    /// Refusal 37: a send of the channel failed, after `sent` that did not.
    #[error("the channel failed after {sent} pieces")]
    NotSent { sent: u64 },
}
