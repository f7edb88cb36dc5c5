//! What the threads of a shared space do.

ghost use Rattle.std.specs.Prelude.{◌≡◌, []};

use shared_core::Shared;
use shared_parts::{Opening, Seat, Striped};
use std::alloc::Global;
use std::sync::Wait;

/// What each thread over a shared space does with its seat. All threads have the same value of it.
pub trait Work<S: Striped> {
    ghost use Rattle.std.specs.Prelude.{ℕ, List};
    ghost use Rattle.shared_parts.specs.declared.call.Call.{Call};

    /// What a thread has to itself.
    type State;

    ghost begins: { S.Fixed → Self.State → Type 0 };

    ghost leads: { ℕ → Self.State → List (Call S.Op S.Reply) → Self.State → Type 0 };

    /// What a thread has then which the system did not make: its seat enters no call, and the empty list of calls leads
    /// to it.
    fn leave_out<J: Opening<S, S::Value, S::Fixed>>(
        &self,
        seat: &Seat<S, J>,
        state: Self::State,
    ) -> Self::State
        requires begins { begins J.named.memory.fixed state }
        ensures { leads seat.now.thread state [] result };

    /// The work of one thread, from what it has to what it then has. `begins` says with what it may begin over a space
    /// with these fixed numbers, `leads` to what the calls of the thread with a number lead. The seat is left for it,
    /// once it is done.
    fn work<J: Opening<S, S::Value, S::Fixed>, R: Wait>(
        &self,
        rt: &R,
        alloc: Global,
        shared: &Shared<S, J>,
        seat: &mut Seat<S, J>,
        state: Self::State,
    ) -> Self::State
        requires begins { begins J.named.memory.fixed state }
        requires new { seat.old.calls ≡ [] }
        ensures thread { seat.new.thread ≡ seat.old.thread }
        ensures leads { leads seat.old.thread state seat.new.calls result };
}
