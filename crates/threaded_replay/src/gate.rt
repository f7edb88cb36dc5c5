//! A thread before the gate of its next event.

ghost use Rattle.std.specs.Prelude.{◌≡◌, ◌<◌, Some, true, false};
ghost use Rattle.wasm_types.specs.declared.sizes.TheConstants.{MOST_STEPS};
ghost use Rattle.event_core.specs.Sound.{IsSoundThread};
ghost use Rattle.replay_laws.specs.History.{op_at};
ghost use Rattle.workers.specs.Driving.{driven, went_on};
ghost use Rattle.threaded_replay.specs.Following.{IsEnteredAt};

use crate::entering::enter_at;
use event_core::{Input, Thread};
use rw_objects::{Entry, Machine};
use shared_core::{Hold, Opening, Seat, Shared, Striped};
use std::alloc::Global;
use std::sync::Wait;
use wasm_types::NoMemory;

/// Rests before the gate of an event, which was found shut, until it can be open, and enters the event. Answers whether
/// it did: it stops where the gate can not open any more, and once no seat can go on. How many calls were entered is
/// known before each try, so that no call that opens the gate is missed.
fn wait_to_enter<M: Machine<S>, S: Striped, J: Opening<S, S::Value, S::Fixed>, R: Wait, H: Hold>(
    rt: &R,
    alloc: Global,
    shared: &Shared<S, J>,
    thread: &mut Thread<M>,
    seat: &mut Seat<S, J>,
    op: S::Op,
    input: Input,
    item: &Entry,
    next: Option<&Entry>,
    hold: &H,
) -> Result<bool, NoMemory>
    requires asks { op_at (M.code.next (M.state thread.old.machine)) input ≡ Some op }
    requires steps { M.code.steps (M.state thread.old.machine) < MOST_STEPS }
    requires sound { IsSoundThread M.code J.named.memory (driven M.state thread.old seat.old).thread }
    ensures sound { IsSoundThread M.code J.named.memory (driven M.state thread.new seat.new).thread }
    ensures entered { went_on result ≡ true → IsEnteredAt M.code op item.now (driven M.state thread.old seat.old) (driven M.state thread.new seat.new) }
    ensures kept { went_on result ≡ false → driven M.state thread.new seat.new ≡ driven M.state thread.old seat.old }
{
    let mut seen = 0;
    for _ in rt.forever() {
        match shared.rest_before(rt, seat, item, seen) {
            Some(length) => seen = length,
            None => return Ok(false),
        }
        match enter_at(rt, alloc, shared, thread, seat, op, item, next, hold) {
            Ok(true) => return Ok(true),
            Ok(false) => {}
            Err(fault) => return Err(fault),
        }
    }
    unreachable!()
}

/// Enters an event at its gate, at once where it is open. Answers whether it did.
pub(crate) fn pass<M: Machine<S>, S: Striped, J: Opening<S, S::Value, S::Fixed>, R: Wait, H: Hold>(
    rt: &R,
    alloc: Global,
    shared: &Shared<S, J>,
    thread: &mut Thread<M>,
    seat: &mut Seat<S, J>,
    op: S::Op,
    input: Input,
    item: &Entry,
    next: Option<&Entry>,
    hold: &H,
) -> Result<bool, NoMemory>
    requires asks { op_at (M.code.next (M.state thread.old.machine)) input ≡ Some op }
    requires steps { M.code.steps (M.state thread.old.machine) < MOST_STEPS }
    requires sound { IsSoundThread M.code J.named.memory (driven M.state thread.old seat.old).thread }
    ensures sound { IsSoundThread M.code J.named.memory (driven M.state thread.new seat.new).thread }
    ensures entered { went_on result ≡ true → IsEnteredAt M.code op item.now (driven M.state thread.old seat.old) (driven M.state thread.new seat.new) }
    ensures kept { went_on result ≡ false → driven M.state thread.new seat.new ≡ driven M.state thread.old seat.old }
{
    match enter_at(rt, alloc, shared, thread, seat, op, item, next, hold) {
        Ok(true) => Ok(true),
        Ok(false) => wait_to_enter(rt, alloc, shared, thread, seat, op, input, item, next, hold),
        Err(fault) => Err(fault),
    }
}
