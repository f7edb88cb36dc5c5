//! A replay that is refused.

ghost use Rattle.std.specs.Prelude.{◌≡◌};

use crate::answers::ReplayFault;
use event_core::World;
use rw_objects::{Machine, ObjectSpace};

/// A replay that does not come to its end.
#[derive(Drop)]
pub struct Refused<M: Machine<S>, S: ObjectSpace> {
    /// Why it does not.
    pub fault: ReplayFault,
    /// The world in which the fault arose; None where memory for a world, or for its end, was wanting. No contract
    /// speaks of it: it is there for words that tell how the threads stand.
    pub world: Option<World<M, S>>,
}

impl<M: Machine<S>, S: ObjectSpace> Refused<M, S> {
    /// One for which memory was wanting.
    pub fn no_memory() -> Refused<M, S>
        ensures { result.fault ≡ ReplayFault.NoMemory }
    {
        Refused {
            fault: ReplayFault::NoMemory,
            world: None,
        }
    }
}
