//! What holds behind a step, and why a run up to it pauses.

ghost use Rattle.std.specs.Prelude.{◌≡◌};
ghost use Rattle.replay_session.specs.Pauses.{paused_of};

use replay_gate::{ReplayFault, Stopped};

/// What holds behind a step.
#[derive(Clone, Copy, Debug, PartialEq, Eq)]
pub enum Met {
    /// The break at this index of the list, and none before it.
    Break(usize),
    /// This part of the test, and no break.
    Test(usize),
}

/// Why a run up to a break or a test pauses.
#[derive(Clone, Copy, Debug, PartialEq, Eq)]
pub enum Paused {
    /// Behind a step this holds.
    Met(Met),
    /// Every thread stands at its logged end.
    Finished,
    /// A whole round made no step, and not all threads stand at their logged ends.
    Stuck,
    /// A thread can't do what the log says of it, or memory could not be had.
    Fault(ReplayFault),
}

/// Why a run pauses that stops so at breaks.
pub fn paused_of(stopped: Stopped) -> Paused
    ensures { result ≡ paused_of stopped }
{
    match stopped {
        Stopped::Break(index) => Paused::Met(Met::Break(index)),
        Stopped::Finished => Paused::Finished,
        Stopped::Stuck => Paused::Stuck,
        Stopped::Fault(fault) => Paused::Fault(fault),
    }
}
