//! A thread that waits.

/// A thread that waits at an address in bytes (threads proposal).
#[derive(Clone, Copy, Debug, PartialEq, Eq, Default)]
pub struct Waiter {
    pub thread: u32,
    pub address: u32,
}
