//! What a worker has.

use event_core::Thread;

/// What a worker has: its thread, and the log that the thread follows.
#[derive(Drop)]
pub(crate) struct Follower<'a, M, L> {
    /// The thread, with the number of its events.
    pub(crate) thread: Thread<M>,
    /// The log that it follows.
    pub(crate) log: &'a L,
    /// Whether memory was wanted for a step, so that the worker stopped before its thread did.
    pub(crate) is_starved: bool,
}
