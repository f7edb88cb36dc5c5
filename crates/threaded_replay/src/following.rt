//! What a worker does in a replay.

ghost use Rattle.std.specs.Prelude.{◌≡◌, ◌≤◌, ◌<◌, ◌⊎◌, [], Some, true};
ghost use Rattle.wasm_types.specs.declared.sizes.TheConstants.{MOST_STEPS};
ghost use Rattle.replica.specs.Flat.TheVariants.{Known};
ghost use Rattle.replica.specs.End.{End};
ghost use Rattle.event_core.specs.Sound.{IsSoundThread};
ghost use Rattle.replay_laws.specs.Turns.{input_for};
ghost use Rattle.workers.specs.Driving.{driven, Advances};
ghost use Rattle.threaded_replay.specs.Following.{IsOpOf, IsFollowing, Follows};

use crate::gate::pass;
use event_core::{Input, Thread};
use replay_gate::ReadLog;
use replica::{End, Flat};
use rw_objects::{Entry, Kind, Machine, Next};
use shared_core::{Hold, Opening, Seat, Shared, Striped};
use std::alloc::Global;
use std::sync::Wait;
use wasm_types::{MOST_THREADS, NoMemory};

/// How a thread is picked that is to log this kind.
fn input_for(kind: Kind) -> Input
    ensures { result ≡ input_for kind }
{
    match kind {
        Kind::Access | Kind::Woken => Input::Go,
        Kind::TimedOut => Input::TimeOut,
    }
}

/// The operation of a thread that is to log this kind, if it has one.
fn op_of<O: Copy>(next: Next<O>, kind: Kind) -> Option<O>
    ensures { IsOpOf next kind result }
{
    match (next, kind) {
        (Next::Ask(op), Kind::Access) => Some(op),
        (Next::Asleep { resume, out: _ }, Kind::Woken) => Some(resume),
        (Next::Asleep { resume: _, out }, Kind::TimedOut) => out,
        _ => None,
    }
}

/// The entry of a known item.
fn known(item: Option<&Flat<Entry>>) -> Option<&Entry> {
    match item {
        Some(Flat::Known(entry)) => Some(entry),
        _ => None,
    }
}

/// The next event of a thread, at the gate of its logged entry. Answers whether it was entered. The entry of the event
/// behind it is read by another reader, so that the thread waits for that one's gate from there on.
fn pass_event<
    M: Machine<S>,
    S: Striped,
    J: Opening<S, S::Value, S::Fixed>,
    L: ReadLog,
    R: Wait,
    H: Hold,
>(
    rt: &R,
    alloc: Global,
    shared: &Shared<S, J>,
    thread: &mut Thread<M>,
    seat: &mut Seat<S, J>,
    end: End,
    log: &L,
    reader: &mut L::Reader,
    ahead: &mut L::Reader,
    hold: &H,
) -> Result<bool, NoMemory>
    requires number { seat.old.thread < MOST_THREADS }
    requires limit { end.steps ≤ MOST_STEPS }
    requires below { M.code.steps (M.state thread.old.machine) < end.steps }
    requires reads { L.reads log.now reader.old }
    requires reads_ahead { L.reads log.now ahead.old }
    requires following { IsFollowing M.code (L.log log.now) end (driven M.state thread.old seat.old) }
    requires sound { IsSoundThread M.code J.named.memory (driven M.state thread.old seat.old).thread }
    ensures reads { L.reads log.now reader.new }
    ensures reads_ahead { L.reads log.now ahead.new }
    ensures following { IsFollowing M.code (L.log log.now) end (driven M.state thread.new seat.new) }
    ensures sound { IsSoundThread M.code J.named.memory (driven M.state thread.new seat.new).thread }
    ensures advances { Advances M.code (λ t s. true) (driven M.state thread.old seat.old) (driven M.state thread.new seat.new) }
{
    let (number, place) = (seat.thread(), thread.places);
    if place >= end.places {
        return Ok(false);
    }
    log.read(reader, number, place);
    log.read(ahead, number, place + 1);
    let next = known(L::held(ahead, number));
    match L::held(reader, number) {
        Some(Flat::Known(item)) => match op_of(thread.machine.next(), item.kind) {
            Some(op) => {
                let input = input_for(item.kind);
                pass(rt, alloc, shared, thread, seat, op, input, item, next, hold)
            }
            None => Ok(false),
        },
        _ => Ok(false),
    }
}

/// One move of a thread that follows the log, as far as its logged end: a run of local steps, or an event. Answers
/// whether the thread may go on.
fn follow<
    M: Machine<S>,
    S: Striped,
    J: Opening<S, S::Value, S::Fixed>,
    L: ReadLog,
    R: Wait,
    H: Hold,
>(
    rt: &R,
    alloc: Global,
    shared: &Shared<S, J>,
    thread: &mut Thread<M>,
    seat: &mut Seat<S, J>,
    end: End,
    log: &L,
    reader: &mut L::Reader,
    ahead: &mut L::Reader,
    hold: &H,
) -> Result<bool, NoMemory>
    requires number { seat.old.thread < MOST_THREADS }
    requires limit { end.steps ≤ MOST_STEPS }
    requires below { M.code.steps (M.state thread.old.machine) < end.steps }
    requires reads { L.reads log.now reader.old }
    requires reads_ahead { L.reads log.now ahead.old }
    requires following { IsFollowing M.code (L.log log.now) end (driven M.state thread.old seat.old) }
    requires sound { IsSoundThread M.code J.named.memory (driven M.state thread.old seat.old).thread }
    ensures number { seat.new.thread ≡ seat.old.thread }
    ensures reads { L.reads log.now reader.new }
    ensures reads_ahead { L.reads log.now ahead.new }
    ensures following { IsFollowing M.code (L.log log.now) end (driven M.state thread.new seat.new) }
    ensures sound { IsSoundThread M.code J.named.memory (driven M.state thread.new seat.new).thread }
    ensures advances { Advances M.code (λ t s. true) (driven M.state thread.old seat.old) (driven M.state thread.new seat.new) }
{
    match thread.machine.next() {
        Next::Local => {
            let left = end.steps - thread.machine.steps();
            match thread.machine.local_run(left) {
                Ok(_) => Ok(true),
                Err(fault) => Err(fault),
            }
        }
        _ => pass_event(
            rt, alloc, shared, thread, seat, end, log, reader, ahead, hold,
        ),
    }
}

/// Drives a thread along the log until it has made the steps of its logged end, can't give what the log has next,
/// stands at a gate that stays shut, or wants memory.
fn follow_to<
    M: Machine<S>,
    S: Striped,
    J: Opening<S, S::Value, S::Fixed>,
    L: ReadLog,
    R: Wait,
    H: Hold,
>(
    rt: &R,
    alloc: Global,
    shared: &Shared<S, J>,
    thread: &mut Thread<M>,
    seat: &mut Seat<S, J>,
    end: End,
    log: &L,
    hold: &H,
) -> Result<(), NoMemory>
    requires number { seat.old.thread < MOST_THREADS }
    requires limit { end.steps ≤ MOST_STEPS }
    requires following { IsFollowing M.code (L.log log.now) end (driven M.state thread.old seat.old) }
    requires sound { IsSoundThread M.code J.named.memory (driven M.state thread.old seat.old).thread }
    ensures following { IsFollowing M.code (L.log log.now) end (driven M.state thread.new seat.new) }
    ensures sound { IsSoundThread M.code J.named.memory (driven M.state thread.new seat.new).thread }
    ensures advances { Advances M.code (λ t s. true) (driven M.state thread.old seat.old) (driven M.state thread.new seat.new) }
{
    let mut reader = log.reader();
    let mut ahead = log.reader();
    for _ in rt.forever() {
        if thread.machine.steps() >= end.steps {
            return Ok(());
        }
        match follow(
            rt,
            alloc,
            shared,
            thread,
            seat,
            end,
            log,
            &mut reader,
            &mut ahead,
            hold,
        ) {
            Ok(true) => {}
            Ok(false) => return Ok(()),
            Err(fault) => return Err(fault),
        }
    }
    unreachable!()
}

/// Drives a thread that made no step along the log. It makes none where the log has no end of it.
pub(crate) fn follow_log<
    M: Machine<S>,
    S: Striped,
    J: Opening<S, S::Value, S::Fixed>,
    L: ReadLog,
    R: Wait,
    H: Hold,
>(
    rt: &R,
    alloc: Global,
    shared: &Shared<S, J>,
    thread: &mut Thread<M>,
    seat: &mut Seat<S, J>,
    log: &L,
    hold: &H,
) -> Result<(), NoMemory>
    requires fresh { M.code.steps (M.state thread.old.machine) ≡ 0 }
    requires places { thread.old.places ≡ 0 }
    requires new { seat.old.calls ≡ [] }
    requires sound { IsSoundThread M.code J.named.memory (driven M.state thread.old seat.old).thread }
    ensures followed { (M.code.steps (M.state thread.new.machine) ≡ 0) ⊎ ((end : End) × IsFollowing M.code (L.log log.now) end (driven M.state thread.new seat.new)) }
    ensures sound { IsSoundThread M.code J.named.memory (driven M.state thread.new seat.new).thread }
    ensures advances { Advances M.code (λ t s. true) (driven M.state thread.old seat.old) (driven M.state thread.new seat.new) }
{
    let number = seat.thread();
    if number as usize >= MOST_THREADS {
        return Ok(());
    }
    match log.end(number) {
        Some(Flat::Known(end)) => follow_to(rt, alloc, shared, thread, seat, end, log, hold),
        _ => Ok(()),
    }
}
