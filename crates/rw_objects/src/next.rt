//! What a thread does next.

use wasm_types::Outcome;

/// What a thread does next; `O` is the type of the operations on objects.
#[derive(Clone, Copy, Debug, PartialEq, Eq, Drop)]
pub enum Next<O> {
    /// A step that touches no object.
    Local,
    /// An access, which can always be made.
    Ask(O),
    /// Nothing until `resume` is ready, by which it goes on after it was woken, or until `out` is, by which it goes on
    /// by a time-out. There is no `out` where the thread waits without a limit of time.
    Asleep { resume: O, out: Option<O> },
    /// Nothing: it ended so.
    Halted(Outcome),
}
