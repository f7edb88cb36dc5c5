//! Why a stream is given up.

use std::io;

/// Why a source or a sink makes no further call of its stream, and fails.
#[derive(Drop)]
pub(crate) enum Stop {
    /// All calls that may be made of the stream were made.
    NoCallsLeft,
    /// The stream answered this error, which is no interruption.
    Stream(io::Error),
}
