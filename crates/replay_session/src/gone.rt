//! What turns of a thread, one behind the other, made.

use replay_gate::ReplayFault;

/// Why no further turn of a thread was made.
#[derive(Clone, Copy, Debug, PartialEq, Eq)]
pub enum Ceased {
    /// All that were asked for were made.
    All,
    /// The thread stands at its logged end, or there is none of that number.
    Done,
    /// The next turn was refused, or memory could not be had.
    Fault(ReplayFault),
}

/// What turns of a thread made.
#[derive(Clone, Copy, Debug, PartialEq, Eq)]
pub struct Gone {
    /// How many steps.
    pub steps: u64,
    /// Why there were no more.
    pub ceased: Ceased,
}

/// Nothing, for want of memory.
pub(crate) const WITHOUT_MEMORY: Gone = Gone {
    steps: 0,
    ceased: Ceased::Fault(ReplayFault::NoMemory),
};
