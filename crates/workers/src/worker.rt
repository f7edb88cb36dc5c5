//! What a worker has.

use event_core::Thread;

/// What a worker has: its thread, and what it may do.
#[derive(Drop)]
pub struct Worker<M> {
    /// The thread, with the number of its events.
    pub thread: Thread<M>,
    /// How many steps the thread may make, at most 1,000,000,000.
    pub steps: u32,
    /// Whether memory was wanted for a step, so that the worker stopped before its thread did.
    pub is_starved: bool,
}
