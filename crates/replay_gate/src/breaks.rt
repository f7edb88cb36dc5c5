//! Breaks, and where a run to a break stops.

ghost use Rattle.std.specs.Prelude.{◌≡◌};
ghost use Rattle.replay_gate.specs.Breaks.{is_among, is_meant};

use crate::ReplayFault;

/// Which objects of a range are meant: each one, or the first, the third, and so on.
#[derive(Clone, Copy, Debug, PartialEq, Eq)]
pub enum Every {
    Object,
    Second,
}

/// Objects from a number on and below another.
#[derive(Clone, Copy, Debug, PartialEq, Eq)]
pub struct ObjectRange {
    pub from: u32,
    pub until: u32,
    pub every: Every,
}

impl ObjectRange {
    /// Whether an object is one of them.
    pub(crate) fn has(&self, object: u32) -> bool
        ensures { result ≡ is_among self.now object }
    {
        self.from <= object && object < self.until && self.every.has(object - self.from)
    }
}

impl Every {
    /// Whether the object is meant that so many others of the range stand before.
    fn has(self, before: u32) -> bool
        ensures { result ≡ is_meant self before }
    {
        match self {
            Every::Object => true,
            Every::Second => before % 2 == 0,
        }
    }
}

/// A point at which a run to a break stops. It is looked for behind each turn that made a step.
#[derive(Clone, Copy, Debug, PartialEq, Eq)]
pub enum Break {
    /// The turn was an event of this thread, which has then made so many events.
    Place { thread: u32, place: u32 },
    /// The turn was of this thread, which has then made so many steps.
    Step { thread: u32, steps: u32 },
    /// The turn wrote one of these objects.
    Write(ObjectRange),
}

impl Default for Break {
    /// A break that never holds: behind the writes of no object.
    fn default() -> Break {
        Break::Write(ObjectRange {
            from: 0,
            until: 0,
            every: Every::Object,
        })
    }
}

/// Why a run to a break stops.
#[derive(Clone, Copy, Debug, PartialEq, Eq)]
pub enum Stopped {
    /// The break at this index of the list holds, and none before it.
    Break(usize),
    /// Every thread stands at its logged end.
    Finished,
    /// A whole round made no step, and not all threads stand at their logged ends.
    Stuck,
    /// Refusal 55, or refusal 56: a thread can't do what the log says of it, or memory could not be had.
    Fault(ReplayFault),
}
