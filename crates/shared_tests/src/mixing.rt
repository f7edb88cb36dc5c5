//! Threads that make calls of all kinds.

ghost use Rattle.std.specs.Prelude.{◌≡◌};
ghost use Rattle.block_objects.specs.Bounds.{InBounds};
ghost use Rattle.shared_tests.specs.Limits.{test_limits};

use crate::calls::{Answers, action, enter, number_of};
use block_objects::{MemoryLimits, ObjectValue};
use shared_core::{Shared, Unkept};
use shared_parts::{Opening, Seat, Tried};
use std::alloc::Global;
use std::sync::Wait;
use striped_memory::StripedMemory;
use wasm_types::{Action, NoMemory, Reply};
use workers::Work;

/// Tries a call of the only thread. Where memory was wanted, journal and seat have no more calls than before, and the
/// call is tried again.
fn enter_again<J: Opening<StripedMemory, ObjectValue, MemoryLimits>, R: Wait>(
    rt: &R,
    alloc: Global,
    shared: &Shared<StripedMemory, J>,
    seat: &mut Seat<StripedMemory, J>,
    call: Action,
) -> Result<Tried<Reply>, NoMemory>
    requires fixed { J.named.memory.fixed ≡ test_limits }
    requires within { InBounds 65536 call }
    ensures { seat.new.thread ≡ seat.old.thread }
{
    let (length, own) = (shared.length(rt), seat.entries().len());
    let answer = enter(rt, alloc, shared, seat, call, &Unkept);
    if answer.is_ok() {
        return answer;
    }
    if shared.length(rt) != length || seat.entries().len() != own {
        return Err(NoMemory);
    }
    enter(rt, alloc, shared, seat, call, &Unkept)
}

/// Each thread makes its calls, up to one that is not made.
#[derive(Drop)]
pub(crate) struct Mix {
    /// How many calls each thread makes.
    pub(crate) calls: u32,
    /// Whether the only thread makes a call again where memory was wanted.
    pub(crate) again: bool,
}

impl Work<StripedMemory> for Mix {
    type State = Answers;

    ghost begins = { λ fixed _. fixed ≡ test_limits };

    ghost leads = { λ _ _ _ _. Unit {0} };

    fn leave_out<J: Opening<StripedMemory, ObjectValue, MemoryLimits>>(
        &self,
        _seat: &Seat<StripedMemory, J>,
        state: Answers,
    ) -> Answers {
        state
    }

    fn work<J: Opening<StripedMemory, ObjectValue, MemoryLimits>, R: Wait>(
        &self,
        rt: &R,
        alloc: Global,
        shared: &Shared<StripedMemory, J>,
        seat: &mut Seat<StripedMemory, J>,
        state: Answers,
    ) -> Answers {
        let thread = seat.thread();
        let mut answers = state;
        for turn in 0..self.calls {
            let call = action(thread, turn);
            let answer = if self.again {
                enter_again(rt, alloc, shared, seat, call)
            } else {
                enter(rt, alloc, shared, seat, call, &Unkept)
            };
            let Ok(Tried::Done(reply, _)) = answer else {
                return answers;
            };
            answers.add(number_of(reply));
        }
        answers
    }
}
