//! The work of workers that replay.

use crate::follower::Follower;
use crate::following::follow_log;
use replay_gate::ReadLog;
use rw_objects::Machine;
use shared_core::{Hold, Opening, Seat, Shared, Striped};
use std::alloc::Global;
use std::marker::PhantomData;
use std::sync::Wait;
use workers::{Work, own_thread};

/// What all workers of a replay share: what keeps each try of a call.
#[derive(Drop)]
pub(crate) struct Replaying<'a, M, L, H> {
    pub(crate) hold: &'a H,
    pub(crate) of: PhantomData<Follower<'a, M, L>>,
}

impl<'a, S: Striped, M: Machine<S> + Drop, L: ReadLog, H: Hold> Work<S> for Replaying<'a, M, L, H> {
    ghost use Rattle.threaded_replay.specs.Work.{CanFollow, HasFollowed};

    type State = Follower<'a, M, L>;

    ghost begins = { λ fixed w. CanFollow M.code M.state fixed w };

    ghost leads = { λ t w calls u. HasFollowed M.code M.state (L.log w.log.now) t w calls u };

    fn leave_out<J: Opening<S, S::Value, S::Fixed>>(
        &self,
        _seat: &Seat<S, J>,
        state: Follower<'a, M, L>,
    ) -> Follower<'a, M, L> {
        state
    }

    fn work<J: Opening<S, S::Value, S::Fixed>, R: Wait>(
        &self,
        rt: &R,
        alloc: Global,
        shared: &Shared<S, J>,
        seat: &mut Seat<S, J>,
        state: Follower<'a, M, L>,
    ) -> Follower<'a, M, L> {
        let Follower {
            thread,
            log,
            is_starved: _,
        } = state;
        let Ok(mut own) = own_thread::<S, M>(alloc, &thread) else {
            return Follower {
                thread,
                log,
                is_starved: true,
            };
        };
        let answer = follow_log(rt, alloc, shared, &mut own, seat, log, self.hold);
        Follower {
            thread: own,
            log,
            is_starved: answer.is_err(),
        }
    }
}
