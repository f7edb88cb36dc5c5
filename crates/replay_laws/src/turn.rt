//! What a turn does.

use event_core::Input;

/// What a turn of a thread does in a replay.
#[derive(Clone, Copy, Debug, PartialEq, Eq)]
pub enum Turn {
    /// Nothing: there is no such thread, or it stands at its logged end.
    Done,
    /// A step that touches no object.
    Local,
    /// An event, by this input.
    Event(Input),
    /// Nothing, for this reason.
    Refused(Refusal),
}

/// Why a turn makes no step.
#[derive(Clone, Copy, Debug, PartialEq, Eq)]
pub enum Refusal {
    /// The log does not know the thread's end, or its next entry.
    Missing,
    /// Two different ends of the thread, or next entries of it, were claimed.
    Clash,
    /// The gate is shut: an object that the entry touches is not yet, or no longer, as the entry found it.
    Shut,
    /// The thread can't do what the log says of it.
    Diverged,
}
