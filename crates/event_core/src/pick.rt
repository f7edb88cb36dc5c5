//! Picks.

/// What is picked for a thread: that it goes on, or that its wait times out.
#[derive(Clone, Copy, Debug, PartialEq, Eq)]
pub enum Input {
    Go,
    TimeOut,
}

/// A thread, and what is picked for it.
#[derive(Clone, Copy, Debug, PartialEq, Eq)]
pub struct Pick {
    pub thread: u32,
    pub input: Input,
}
