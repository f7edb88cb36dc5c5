//! Threads that rest until another makes calls, or none can.

ghost use Rattle.std.specs.Prelude.{◌≡◌};
ghost use Rattle.shared_core.specs.Begins.{names_of, lane_names};
ghost use Rattle.shared_tests.specs.Limits.{test_limits};

use crate::calls::{action, enter};
use crate::memory::{limits, run};
use block_objects::{MemoryLimits, ObjectValue};
use shared_core::{Opened, Shared, Unkept};
use shared_parts::{Opening, Seat, Striped, Tried};
use std::alloc::Global;
use std::marker::Brand;
use std::sync::Wait;
use std::test::Fail;
use std::thread;
use std::thread::Threads;
use striped_memory::StripedMemory;
use waiter_queues::SharedSpace;
use wasm_types::NoMemory;
use workers::Work;

/// How many calls a thread makes before it rests or leaves.
const CALLS: u32 = 100;

/// How often a late thread gives up its turn before it makes its first call.
const LATE: u32 = 1_000;

/// What a thread does.
#[derive(Clone, Copy, Debug, PartialEq, Eq, Drop)]
enum Part {
    /// It leaves at once.
    Leaves,
    /// It makes calls and leaves.
    Calls,
    /// It waits for a while, makes calls and leaves.
    CallsLate,
    /// It makes calls, rests until no seat can go on, and rests once more.
    CallsAndRests,
    /// It makes two calls and leaves.
    CallsTwice,
    /// It rests until two calls were entered, and then until a third.
    RestsForTwo,
}

/// With how many calls entered two rests ended, one behind the other.
#[derive(Clone, Copy, Debug, PartialEq, Eq, Drop)]
struct Rests {
    first: u64,
    second: u64,
}

/// What a thread does, and how it rested.
#[derive(Clone, Copy, Debug, PartialEq, Eq, Drop)]
struct Rester {
    part: Part,
    rests: Option<Rests>,
}

/// Rests until no seat can go on, and then once more. Answers how many calls were entered each time.
fn rest<J: Opening<StripedMemory, ObjectValue, MemoryLimits>, R: Wait>(
    rt: &R,
    shared: &Shared<StripedMemory, J>,
    seat: &Seat<StripedMemory, J>,
) -> Rests {
    for _ in rt.forever() {
        let seen = shared.length(rt);
        if shared.rest(rt, seat, seen) == seen {
            let second = shared.rest(rt, seat, seen);
            return Rests {
                first: seen,
                second,
            };
        }
    }
    unreachable!()
}

/// Makes the calls of a thread, up to one that is not made.
fn call<J: Opening<StripedMemory, ObjectValue, MemoryLimits>, R: Wait>(
    rt: &R,
    alloc: Global,
    shared: &Shared<StripedMemory, J>,
    seat: &mut Seat<StripedMemory, J>,
    calls: u32,
)
    requires fixed { J.named.memory.fixed ≡ test_limits }
    ensures { seat.new.thread ≡ seat.old.thread }
{
    let thread = seat.thread();
    for turn in 0..calls {
        let call = action(thread, turn);
        let Ok(Tried::Done(..)) = enter(rt, alloc, shared, seat, call, &Unkept) else {
            return;
        };
        thread::yield_now();
    }
}

/// Gives up the thread's turn for a while.
fn come_late() {
    for _ in 0..LATE {
        thread::yield_now();
    }
}

/// The threads do their parts.
#[derive(Drop)]
struct Resters;

impl Work<StripedMemory> for Resters {
    type State = Rester;

    ghost begins = { λ fixed _. fixed ≡ test_limits };

    ghost leads = { λ _ _ _ _. Unit {0} };

    fn leave_out<J: Opening<StripedMemory, ObjectValue, MemoryLimits>>(
        &self,
        _seat: &Seat<StripedMemory, J>,
        state: Rester,
    ) -> Rester {
        state
    }

    fn work<J: Opening<StripedMemory, ObjectValue, MemoryLimits>, R: Wait>(
        &self,
        rt: &R,
        alloc: Global,
        shared: &Shared<StripedMemory, J>,
        seat: &mut Seat<StripedMemory, J>,
        state: Rester,
    ) -> Rester {
        let part = state.part;
        let rests = match part {
            Part::Leaves => None,
            Part::Calls => {
                call(rt, alloc, shared, seat, CALLS);
                None
            }
            Part::CallsLate => {
                come_late();
                call(rt, alloc, shared, seat, CALLS);
                None
            }
            Part::CallsAndRests => {
                call(rt, alloc, shared, seat, CALLS);
                Some(rest(rt, shared, seat))
            }
            Part::CallsTwice => {
                call(rt, alloc, shared, seat, 2);
                None
            }
            Part::RestsForTwo => {
                let first = shared.rest(rt, seat, 1);
                let second = shared.rest(rt, seat, 2);
                Some(Rests { first, second })
            }
        };
        Rester { part, rests }
    }
}

/// A thread with this part.
fn with_part(part: Part) -> Rester {
    Rester { part, rests: None }
}

/// Runs four threads with these parts, and answers how they rested.
fn rested<R: Threads + Wait + Sync>(
    rt: &R,
    alloc: Global,
    parts: [Part; 4],
) -> Result<[Option<Rests>; 4], NoMemory> {
    let [first, second, third, fourth] = parts;
    let states = Vec::from_array(
        alloc,
        [
            with_part(first),
            with_part(second),
            with_part(third),
            with_part(fourth),
        ],
    )?;
    let (_, resters) = run(rt, alloc, states, &Resters)?;
    let mut rests = [None; 4];
    for (place, rester) in rests.iter_mut().zip(&resters) {
        *place = rester.rests;
    }
    Ok(rests)
}

/// The rests of a thread that came to so many calls each.
fn both(calls: u64) -> Option<Rests> {
    Some(Rests {
        first: calls,
        second: calls,
    })
}

/// The rest of a thread ends once the others have left, and has then seen all calls. Another rest ends at once, with as
/// many.
#[test]
fn a_rest_ends_when_the_others_leave(rt: HostRuntime) -> Result<(), Fail> {
    let parts = [
        Part::Calls,
        Part::CallsAndRests,
        Part::Leaves,
        Part::CallsLate,
    ];
    assert_eq!(rt;
        rested(&rt, rt.alloc(), parts)?,
        [None, both(300), None, None]
    );
    Ok(())
}

/// Where all rest, the rest of each ends, and each has seen all calls.
#[test]
fn rests_end_when_all_rest(rt: HostRuntime) -> Result<(), Fail> {
    let parts = [Part::CallsAndRests; 4];
    assert_eq!(rt; rested(&rt, rt.alloc(), parts)?, [both(400); 4]);
    Ok(())
}

/// A thread that leaves at once, as others have still to begin or to make their calls, ends nobody's rest.
#[test]
fn a_thread_that_leaves_early_ends_no_rest(rt: HostRuntime) -> Result<(), Fail> {
    let parts = [
        Part::CallsLate,
        Part::Leaves,
        Part::CallsAndRests,
        Part::Leaves,
    ];
    for _ in 0..50 {
        assert_eq!(rt;
            rested(&rt, rt.alloc(), parts)?,
            [None, None, both(200), None]
        );
    }
    Ok(())
}

/// A thread that rests until two calls were entered has seen both when it goes on. Its rest for a third ends too,
/// without one, once the others have left.
#[test]
fn a_rest_goes_on_with_the_last_call_awaited(rt: HostRuntime) -> Result<(), Fail> {
    let parts = [
        Part::RestsForTwo,
        Part::CallsTwice,
        Part::Leaves,
        Part::Leaves,
    ];
    assert_eq!(rt;
        rested(&rt, rt.alloc(), parts)?,
        [both(2), None, None, None]
    );
    Ok(())
}

/// Of two seats, of which the second leaves, rests by the first. Answers with how many calls entered the rest ended.
fn rests_alone<S: Striped + Drop, J: Opening<S, S::Value, S::Fixed>, R: Wait>(
    rt: &R,
    alloc: Global,
    opened: Opened<S>,
) -> Result<u64, NoMemory>
    requires chain { opened.chain ≡ J.chain }
    requires named { names_of (S.fixed opened.space) (S.values opened.space) opened.count.name (lane_names opened.lanes) opened.threads ≡ J.named }
{
    let (shared, seats) = Shared::<S, J>::new(alloc, opened)?;
    let [first, second] = seats.as_slice() else {
        return Err(NoMemory);
    };
    shared.leave(rt, second);
    Ok(shared.rest(rt, first, 0))
}

/// Nobody waits for a seat that leaves before its thread has begun, as one for which none is made.
#[test]
fn a_seat_without_a_thread_ends_a_rest(rt: HostRuntime) -> Result<(), Fail> {
    let alloc = rt.alloc();
    let space = SharedSpace::new(alloc, limits(), &[])?;
    let opened = Opened::new(StripedMemory { space }, 2);
    assert_eq!(rt;
        rests_alone::<StripedMemory, Brand, HostRuntime>(&rt, alloc, opened)?,
        0
    );
    Ok(())
}
