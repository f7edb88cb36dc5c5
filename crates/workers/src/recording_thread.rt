//! What a worker does in a recording.

ghost use Rattle.std.specs.Prelude.{◌≡◌, ◌≤◌, ◌<◌, ◌+◌, false};
ghost use Rattle.wasm_types.specs.declared.sizes.TheConstants.{MOST_STEPS};
ghost use Rattle.rw_objects.specs.declared.next.Next.TheVariants.{Asleep};
ghost use Rattle.rw_objects.specs.LocalRun.{GoesLocallyWithin};
ghost use Rattle.event_core.specs.Sound.{IsSoundThread};
ghost use Rattle.workers.specs.Driving.{driven, went_on, Advances};

use crate::entering::enter;
use crate::timer::Timer;
use event_core::Thread;
use rw_objects::{Machine, Next};
use shared_core::{Hold, Shared};
use shared_parts::{Opening, Seat, Striped};
use std::alloc::Global;
use std::sync::Wait;
use wasm_types::NoMemory;

/// Where the thread sleeps with a limit of time and the timer says that it is over, tries to go on by a time-out.
/// Answers whether the thread went on.
fn time_out<
    M: Machine<S>,
    S: Striped,
    J: Opening<S, S::Value, S::Fixed>,
    T: Timer,
    R: Wait,
    H: Hold,
>(
    rt: &R,
    alloc: Global,
    shared: &Shared<S, J>,
    thread: &mut Thread<M>,
    seat: &mut Seat<S, J>,
    resume: S::Op,
    out: Option<S::Op>,
    changes: u64,
    timer: &T,
    hold: &H,
) -> Result<bool, NoMemory>
    requires asleep { M.code.next (M.state thread.old.machine) ≡ Asleep resume out }
    requires steps { M.code.steps (M.state thread.old.machine) < MOST_STEPS }
    requires sound { IsSoundThread M.code J.named.memory (driven M.state thread.old seat.old).thread }
    ensures sound { IsSoundThread M.code J.named.memory (driven M.state thread.new seat.new).thread }
    ensures steps { M.code.steps (M.state thread.new.machine) ≤ M.code.steps (M.state thread.old.machine) + 1 }
    ensures advances { Advances M.code (λ t s. T.can_expire t (M.nanos_of s)) (driven M.state thread.old seat.old) (driven M.state thread.new seat.new) }
    ensures kept { went_on result ≡ false → driven M.state thread.new seat.new ≡ driven M.state thread.old seat.old }
{
    match out {
        None => Ok(false),
        Some(out) => {
            let nanos = thread.machine.nanos();
            if timer.expired(seat.thread(), nanos, changes) {
                enter(rt, alloc, shared, thread, seat, out, hold)
            } else {
                Ok(false)
            }
        }
    }
}

/// Sleeps until the thread goes on, since it was woken or by a time-out, or until no seat can go on. Answers whether it
/// went on.
fn sleep<M: Machine<S>, S: Striped, J: Opening<S, S::Value, S::Fixed>, T: Timer, R: Wait, H: Hold>(
    rt: &R,
    alloc: Global,
    shared: &Shared<S, J>,
    thread: &mut Thread<M>,
    seat: &mut Seat<S, J>,
    resume: S::Op,
    out: Option<S::Op>,
    timer: &T,
    hold: &H,
) -> Result<bool, NoMemory>
    requires asleep { M.code.next (M.state thread.old.machine) ≡ Asleep resume out }
    requires steps { M.code.steps (M.state thread.old.machine) < MOST_STEPS }
    requires sound { IsSoundThread M.code J.named.memory (driven M.state thread.old seat.old).thread }
    ensures sound { IsSoundThread M.code J.named.memory (driven M.state thread.new seat.new).thread }
    ensures steps { M.code.steps (M.state thread.new.machine) ≤ M.code.steps (M.state thread.old.machine) + 1 }
    ensures advances { Advances M.code (λ t s. T.can_expire t (M.nanos_of s)) (driven M.state thread.old seat.old) (driven M.state thread.new seat.new) }
{
    let since = shared.length(rt);
    for _ in rt.forever() {
        let seen = shared.length(rt);
        match enter(rt, alloc, shared, thread, seat, resume, hold) {
            Ok(true) => return Ok(true),
            Ok(false) => {}
            Err(fault) => return Err(fault),
        }
        let changes = seen.saturating_sub(since);
        match time_out(
            rt, alloc, shared, thread, seat, resume, out, changes, timer, hold,
        ) {
            Ok(true) => return Ok(true),
            Ok(false) => {}
            Err(fault) => return Err(fault),
        }
        if shared.rest(rt, seat, seen) == seen {
            return Ok(false);
        }
    }
    unreachable!()
}

/// Makes local steps, as many as come, but no more than `most`. Where memory is wanted those before are made.
fn go_locally<M: Machine<S>, S: Striped>(machine: &mut M, most: u32) -> Result<(), NoMemory>
    ensures { GoesLocallyWithin M.code most (M.state machine.old) (M.state machine.new) }
{
    match machine.local_run(most) {
        Ok(_made) => Ok(()),
        Err(fault) => Err(fault),
    }
}

/// One move of a thread: a run of local steps, an access, or a sleep. Answers whether the thread may go on.
fn go_on<M: Machine<S>, S: Striped, J: Opening<S, S::Value, S::Fixed>, T: Timer, R: Wait, H: Hold>(
    rt: &R,
    alloc: Global,
    shared: &Shared<S, J>,
    thread: &mut Thread<M>,
    seat: &mut Seat<S, J>,
    left: u32,
    timer: &T,
    hold: &H,
) -> Result<bool, NoMemory>
    requires some { 0 < left }
    requires limit { M.code.steps (M.state thread.old.machine) + left ≤ MOST_STEPS }
    requires sound { IsSoundThread M.code J.named.memory (driven M.state thread.old seat.old).thread }
    ensures few { M.code.steps (M.state thread.new.machine) ≤ M.code.steps (M.state thread.old.machine) + left }
    ensures sound { IsSoundThread M.code J.named.memory (driven M.state thread.new seat.new).thread }
    ensures advances { Advances M.code (λ t s. T.can_expire t (M.nanos_of s)) (driven M.state thread.old seat.old) (driven M.state thread.new seat.new) }
{
    match thread.machine.next() {
        Next::Local => match go_locally(&mut thread.machine, left) {
            Ok(()) => Ok(true),
            Err(fault) => Err(fault),
        },
        Next::Ask(op) => match enter(rt, alloc, shared, thread, seat, op, hold) {
            Ok(_) => Ok(true),
            Err(fault) => Err(fault),
        },
        Next::Asleep { resume, out } => {
            sleep(rt, alloc, shared, thread, seat, resume, out, timer, hold)
        }
        Next::Halted(_) => Ok(false),
    }
}

/// Drives a thread until it ends, has made `steps` steps, sleeps while no seat can go on, or wants memory.
pub(crate) fn record_thread<
    M: Machine<S>,
    S: Striped,
    J: Opening<S, S::Value, S::Fixed>,
    T: Timer,
    R: Wait,
    H: Hold,
>(
    rt: &R,
    alloc: Global,
    shared: &Shared<S, J>,
    thread: &mut Thread<M>,
    seat: &mut Seat<S, J>,
    steps: u32,
    timer: &T,
    hold: &H,
) -> Result<(), NoMemory>
    requires limit { steps ≤ MOST_STEPS }
    requires below { M.code.steps (M.state thread.old.machine) ≤ steps }
    requires sound { IsSoundThread M.code J.named.memory (driven M.state thread.old seat.old).thread }
    ensures below { M.code.steps (M.state thread.new.machine) ≤ steps }
    ensures sound { IsSoundThread M.code J.named.memory (driven M.state thread.new seat.new).thread }
    ensures advances { Advances M.code (λ t s. T.can_expire t (M.nanos_of s)) (driven M.state thread.old seat.old) (driven M.state thread.new seat.new) }
{
    for _ in rt.forever() {
        let made = thread.machine.steps();
        if made >= steps {
            return Ok(());
        }
        match go_on(rt, alloc, shared, thread, seat, steps - made, timer, hold) {
            Ok(true) => {}
            Ok(false) => return Ok(()),
            Err(fault) => return Err(fault),
        }
    }
    unreachable!()
}
