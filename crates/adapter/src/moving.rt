//! Motions of threads.

ghost use Rattle.std.specs.Prelude.{◌≡◌, ◌⊎◌, IfOk, OnErr, length, option_copied};
ghost use Rattle.adapter.specs.Ids.{thread_of};
ghost use Rattle.adapter.specs.Moves.{Goes, MovesBy, back_reason, break_reason, ceased_reply, met_reason, reverse_reason, steps_reply, stopped_reply, turns_reply, went_reply};
ghost use Rattle.adapter.specs.State.{Suits, state_of};
ghost use Rattle.adapter_messages.specs.declared.reply.Reply.{Reply};

use crate::adapter::Adapter;
use crate::ids::thread_of;
use crate::replies::{failure, put_out, stopped, success};
use adapter_messages::{Body, Motion, Reply, StopReason, Told};
use debugger::{gone_line, paused_line};
use replay_gate::Break;
use replay_session::{Ceased, Gone, Leg, Met, Paused};
use std::alloc::Global;
use wasm_types::NoMemory;

/// What is said of a thread that there is not.
pub(crate) const NO_THREAD: &str = "error: no such thread";

/// What is said where memory could not be had.
const NO_MEMORY: &str = "error: memory";

/// What came of a motion.
#[derive(Clone, Copy, Debug, PartialEq, Eq)]
pub(crate) enum Went {
    /// Steps of a thread.
    Steps(Gone),
    /// Turns of all threads.
    Turns(Paused),
    /// A step back.
    Back,
    /// Steps back, up to a break or to the beginning.
    Reversed(Option<Met>),
    /// No motion was wanted.
    Nowhere,
    /// No motion, since memory could not be had.
    Wanting,
}

/// Why threads stand at a break of a list.
fn break_reason(found: Option<&Break>) -> StopReason
    ensures { result ≡ break_reason (option_copied found.entry) }
{
    match found {
        Some(Break::Write(_)) => StopReason::DataBreakpoint,
        Some(Break::Place { .. } | Break::Step { .. }) | None => StopReason::Breakpoint,
    }
}

/// Why threads stand behind a step back.
fn back_reason(way: &[Leg]) -> StopReason
    ensures { result ≡ back_reason way.now }
{
    match way {
        [] => StopReason::Entry,
        [_, ..] => StopReason::Step,
    }
}

/// That threads went on, and stand.
fn stopped_reply(reason: StopReason, id: u64) -> Reply
    ensures { result ≡ stopped_reply reason id }
{
    let told = Told::one(stopped(reason, id));
    success(Body::Continued { all_threads: true }, told)
}

/// That threads went on, and did not come to what they were to go to.
fn ceased_reply(alloc: Global, line: &str, id: u64) -> Result<Reply, NoMemory>
    ensures { IfOk result (λ reply. reply ≡ ceased_reply line.now id) }
{
    let told = Told::two(put_out(alloc, line)?, stopped(StopReason::Pause, id));
    Ok(success(Body::Continued { all_threads: true }, told))
}

/// What is answered where steps of a thread were made.
fn steps_reply(alloc: Global, id: u64, gone: Gone) -> Result<Reply, NoMemory>
    ensures { IfOk result (λ reply. reply ≡ steps_reply id gone gone.ceased) }
{
    let line = gone_line(gone);
    match gone.ceased {
        Ceased::All => Ok(stopped_reply(StopReason::Step, id)),
        Ceased::Done => ceased_reply(alloc, line.as_str(), id),
        Ceased::Fault(_) if gone.steps == 0 => failure(alloc, line.as_str()),
        Ceased::Fault(_) => ceased_reply(alloc, line.as_str(), id),
    }
}

impl<'a> Adapter<'a> {
    /// Why threads stand at a break.
    fn met_reason(&self, met: Met) -> StopReason
        ensures { result ≡ met_reason (state_of self.now) met }
    {
        match met {
            Met::Break(index) => break_reason(self.debugger.breaks().get(index)),
            Met::Test(index) if index < self.functions => StopReason::FunctionBreakpoint,
            Met::Test(index) if index < self.debugger.instructions().len() => {
                StopReason::InstructionBreakpoint
            }
            Met::Test(_) => StopReason::DataBreakpoint,
        }
    }

    /// Why threads stand behind steps back.
    fn reverse_reason(&self, found: Option<Met>) -> StopReason
        ensures { result ≡ reverse_reason (state_of self.now) found }
    {
        match found {
            Some(met) => self.met_reason(met),
            None => StopReason::Entry,
        }
    }

    /// What is answered where all threads took turns.
    fn turns_reply(&self, alloc: Global, id: u64, how: Paused) -> Result<Reply, NoMemory>
        ensures { IfOk result (λ reply. reply ≡ turns_reply (state_of self.now) id how) }
    {
        let breaks = self.debugger.breaks();
        let count = self.debugger.instructions().len();
        match how {
            Paused::Met(met) => Ok(stopped_reply(self.met_reason(met), id)),
            Paused::Finished => {
                let line = paused_line(Paused::Finished, breaks, count);
                ceased_reply(alloc, line.as_str(), id)
            }
            Paused::Stuck => {
                let line = paused_line(Paused::Stuck, breaks, count);
                ceased_reply(alloc, line.as_str(), id)
            }
            Paused::Fault(fault) => {
                let line = paused_line(Paused::Fault(fault), breaks, count);
                ceased_reply(alloc, line.as_str(), id)
            }
        }
    }

    /// What is answered to a motion.
    fn went_reply(&self, alloc: Global, id: u64, went: Went) -> Result<Reply, NoMemory>
        ensures { IfOk result (λ reply. reply ≡ went_reply (state_of self.now) id went) }
    {
        match went {
            Went::Steps(gone) => steps_reply(alloc, id, gone),
            Went::Turns(how) => self.turns_reply(alloc, id, how),
            Went::Back => Ok(stopped_reply(back_reason(self.debugger.way()), id)),
            Went::Reversed(found) => Ok(stopped_reply(self.reverse_reason(found), id)),
            Went::Nowhere => Ok(stopped_reply(StopReason::Pause, id)),
            Went::Wanting => failure(alloc, NO_MEMORY),
        }
    }

    /// Makes a motion of a thread.
    fn go(&mut self, alloc: Global, motion: Motion, thread: u32) -> Went
        requires { Suits self.old }
        ensures goes { Goes motion thread (state_of self.old).debugger result (state_of self.new).debugger }
        ensures functions { (state_of self.new).functions ≡ (state_of self.old).functions }
        ensures suits { Suits self.new }
    {
        match motion {
            Motion::Next | Motion::StepIn => Went::Steps(self.debugger.go_steps(alloc, thread, 1)),
            Motion::StepOut => Went::Steps(self.debugger.go_out(alloc, thread)),
            Motion::Continue => match self.debugger.run(alloc) {
                Ok(how) => Went::Turns(how),
                Err(NoMemory) => Went::Wanting,
            },
            Motion::StepBack => match self.debugger.go_back(alloc, 1) {
                Ok(()) => Went::Back,
                Err(NoMemory) => Went::Wanting,
            },
            Motion::ReverseContinue => match self.debugger.go_reverse(alloc) {
                Ok(found) => Went::Reversed(found),
                Err(NoMemory) => Went::Wanting,
            },
            Motion::Pause => Went::Nowhere,
        }
    }

    /// Makes a motion of the thread of an id, and answers it.
    pub(crate) fn move_thread(
        &mut self,
        alloc: Global,
        motion: Motion,
        id: u64,
    ) -> Result<Reply, NoMemory>
        requires { Suits self.old }
        ensures moves { IfOk result (λ reply. MovesBy motion id (thread_of (length (state_of self.old).debugger.world.threads) id) (state_of self.old) reply (state_of self.new)) }
        ensures wanting { OnErr result ((state_of self.new ≡ state_of self.old) ⊎ ((reply : Reply) × MovesBy motion id (thread_of (length (state_of self.old).debugger.world.threads) id) (state_of self.old) reply (state_of self.new))) }
        ensures suits { Suits self.new }
    {
        let Some(thread) = thread_of(self.debugger.world(), id) else {
            return failure(alloc, NO_THREAD);
        };
        let went = self.go(alloc, motion, thread);
        self.went_reply(alloc, id, went)
    }
}
