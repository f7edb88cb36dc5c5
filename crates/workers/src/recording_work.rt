//! The work of workers that record.

use crate::Work;
use crate::own::own_thread;
use crate::recording_thread::record_thread;
use crate::timer::Timer;
use crate::worker::Worker;
use rw_objects::Machine;
use shared_core::{Hold, Shared};
use shared_parts::{Opening, Seat, Striped};
use std::alloc::Global;
use std::marker::PhantomData;
use std::sync::Wait;

/// What all workers of a recording share: the timer, and what keeps each try of a call.
#[derive(Drop)]
pub(crate) struct RecordingWork<'a, M, T, H> {
    pub(crate) timer: &'a T,
    pub(crate) hold: &'a H,
    pub(crate) of: PhantomData<M>,
}

impl<S: Striped, M: Machine<S> + Drop, T: Timer, H: Hold> Work<S> for RecordingWork<'_, M, T, H> {
    ghost use Rattle.workers.specs.Work.{CanBegin, HasWorked};

    type State = Worker<M>;

    ghost begins = { λ fixed w. CanBegin M.code M.state fixed w };

    ghost leads = { λ t w calls u. HasWorked M.code M.state (λ k s. T.can_expire k (M.nanos_of s)) t w calls u };

    fn leave_out<J: Opening<S, S::Value, S::Fixed>>(
        &self,
        _seat: &Seat<S, J>,
        state: Worker<M>,
    ) -> Worker<M> {
        state
    }

    fn work<J: Opening<S, S::Value, S::Fixed>, R: Wait>(
        &self,
        rt: &R,
        alloc: Global,
        shared: &Shared<S, J>,
        seat: &mut Seat<S, J>,
        state: Worker<M>,
    ) -> Worker<M> {
        let Worker {
            thread,
            steps,
            is_starved: _,
        } = state;
        let Ok(mut own) = own_thread::<S, M>(alloc, &thread) else {
            return Worker {
                thread,
                steps,
                is_starved: true,
            };
        };
        let answer = record_thread(
            rt, alloc, shared, &mut own, seat, steps, self.timer, self.hold,
        );
        Worker {
            thread: own,
            steps,
            is_starved: answer.is_err(),
        }
    }
}
