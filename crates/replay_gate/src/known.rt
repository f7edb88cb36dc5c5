//! What is known of the turns of threads that rest.

ghost use Rattle.std.specs.Prelude.{◌≡◌, ◌<◌, ◌≤◌, ℕ, None, Some, IfSome, option_map, replicate, slice_get};
ghost use Rattle.event_core.specs.World.{world_of};
ghost use Rattle.replay_gate.specs.Known.{known_later, IsLone, RestsSo, AreKnown};
ghost use Rattle.replay_gate.specs.declared.known.Known.TheVariants as known;

use crate::running::Taken;
use crate::{OpenWorld, ReadLog, Replay};
use rw_objects::{Machine, ObjectSpace};

/// What is known of a thread's turn.
#[derive(Clone, Copy, Debug, PartialEq, Eq)]
pub enum Known {
    /// Nothing.
    Nothing,
    /// It makes no step, and does this.
    Rests(Taken),
    /// It made no step and did this, before other threads went on.
    Rested(Taken),
}

/// What is known of the turns that come next.
#[derive(Clone, Copy, Debug)]
pub(crate) struct KnownTurns {
    /// How many steps of each thread are free.
    pub(crate) free: [u32; 16],
    /// What is known of each thread's turn.
    pub(crate) all: [Known; 16],
}

impl KnownTurns {
    /// No step is known to be free, and nothing is known of any thread.
    pub(crate) fn none() -> KnownTurns
        ensures free { result.free ≡ replicate 16 0 }
        ensures all { result.all ≡ replicate 16 known.Nothing }
    {
        KnownTurns {
            free: [0; 16],
            all: [Known::Nothing; 16],
        }
    }
}

/// What is known behind steps of other threads.
fn known_later(known: Known) -> Known
    ensures { result ≡ known_later known }
{
    match known {
        Known::Nothing => Known::Nothing,
        Known::Rests(taken) => Known::Rested(taken),
        Known::Rested(taken) => Known::Rested(taken),
    }
}

/// What is known of each thread behind steps of others.
pub(crate) fn all_known_later(all: &mut [Known; 16])
    ensures { (t : ℕ) → slice_get all.new t ≡ option_map known_later (slice_get all.old t) }
{
    for at in 0..16usize {
        all[at] = known_later(all[at]);
    }
}

/// What a thread's turn does that rests, where this is known, or is told by the gate of its next event alone.
#[inline(always)]
pub(crate) fn known_turn<M: Machine<S>, S: ObjectSpace, L: ReadLog, O: OpenWorld<M, S>>(
    replay: &Replay<M, S, L, O>,
    reader: &mut L::Reader,
    thread: u32,
    all: &mut [Known; 16],
) -> Option<Taken>
    requires reads { L.reads replay.now.log reader.old }
    requires few { thread < 16 }
    requires known { AreKnown S.meaning M.code (L.log replay.now.log) (world_of replay.now.world) all.old }
    ensures reads { L.reads replay.now.log reader.new }
    ensures known { AreKnown S.meaning M.code (L.log replay.now.log) (world_of replay.now.world) all.new }
    ensures rests { IfSome result (λ taken. RestsSo S.meaning M.code (L.log replay.now.log) (world_of replay.now.world) thread taken) }
    ensures none { result ≡ None → slice_get all.new thread ≡ Some known.Nothing }
{
    let at = thread as usize;
    match all[at] {
        Known::Nothing => None,
        Known::Rests(taken) => Some(taken),
        Known::Rested(taken) => {
            if replay.rests_still(reader, thread) {
                all[at] = Known::Rests(taken);
                Some(taken)
            } else {
                all[at] = Known::Nothing;
                None
            }
        }
    }
}

/// The one thread of so many that does not rest, where nothing is known of it.
pub(crate) fn lone(all: &[Known; 16], count: u32) -> Option<u32>
    requires { count ≤ 16 }
    ensures { IfSome result (IsLone all.now count) }
{
    let mut lone = None;
    for thread in 0..count {
        match all[thread as usize] {
            Known::Rests(_) => {}
            Known::Rested(_) => return None,
            Known::Nothing => match lone {
                None => lone = Some(thread),
                Some(_) => return None,
            },
        }
    }
    lone
}
