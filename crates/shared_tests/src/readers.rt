//! Readers of one object who hold its part at once.

ghost use Rattle.std.specs.Prelude.{◌≡◌};
ghost use Rattle.shared_tests.specs.Limits.{test_limits};

use crate::calls::{enter, load};
use crate::meeting::Meeting;
use crate::memory::run;
use block_objects::{MemoryLimits, ObjectValue};
use shared_core::Shared;
use shared_parts::{Opening, Seat, Tried};
use std::alloc::Global;
use std::sync::Wait;
use std::test::Fail;
use striped_memory::StripedMemory;
use workers::Work;

/// Each thread waits for the other, and then loads the same number; while it holds its part it waits for the other
/// again.
#[derive(Drop)]
struct Readers {
    begun: Meeting,
    inside: Meeting,
}

impl Work<StripedMemory> for Readers {
    /// Whether the load was made.
    type State = bool;

    ghost begins = { λ fixed _. fixed ≡ test_limits };

    ghost leads = { λ _ _ _ _. Unit {0} };

    fn leave_out<J: Opening<StripedMemory, ObjectValue, MemoryLimits>>(
        &self,
        _seat: &Seat<StripedMemory, J>,
        state: bool,
    ) -> bool {
        state
    }

    fn work<J: Opening<StripedMemory, ObjectValue, MemoryLimits>, R: Wait>(
        &self,
        rt: &R,
        alloc: Global,
        shared: &Shared<StripedMemory, J>,
        seat: &mut Seat<StripedMemory, J>,
        _state: bool,
    ) -> bool {
        if !self.begun.meet() {
            return false;
        }
        let answer = enter(rt, alloc, shared, seat, load(0), &self.inside);
        matches!(answer, Ok(Tried::Done(..)))
    }
}

/// Two readers of one number are inside at once. Where no second thread runs there is nothing to see, and the test says
/// so.
#[test]
fn two_readers_are_inside_at_once(rt: HostRuntime) -> Result<(), Fail> {
    let alloc = rt.alloc();
    let readers = Readers {
        begun: Meeting::new(),
        inside: Meeting::new(),
    };
    let (history, made) = run(&rt, alloc, vec![in alloc; false; 2]?, &readers)?;
    if !readers.begun.is_met() {
        eprintln!(rt; "no two threads ran at once, so readers were not tested")?;
        return Ok(());
    }
    assert!(rt; made.iter().all(|made| *made));
    assert_eq!(rt; history.order.len(), 2);
    assert!(rt; readers.inside.is_met(), "the readers kept each other out");
    Ok(())
}
