//! One call of a thread.

ghost use Rattle.std.specs.Prelude.{◌≡◌, ◌<◌, true, false};
ghost use Rattle.wasm_types.specs.declared.sizes.TheConstants.{MOST_STEPS};
ghost use Rattle.rw_objects.specs.Space.{Fits};
ghost use Rattle.rw_objects.specs.Code.{TakesReply};
ghost use Rattle.event_core.specs.Sound.{IsSoundThread};
ghost use Rattle.workers.specs.Driving.{driven, went_on, IsEntered};

use event_core::Thread;
use rw_objects::Machine;
use shared_core::{Hold, Shared};
use shared_parts::{Opening, Seat, Striped, Tried};
use std::alloc::Global;
use std::sync::Wait;
use wasm_types::NoMemory;

/// Tries to enter a call of a thread, and gives it the reply. Answers whether the call was entered. The memory that the
/// thread may want is had before.
pub(crate) fn enter<M: Machine<S>, S: Striped, J: Opening<S, S::Value, S::Fixed>, R: Wait, H: Hold>(
    rt: &R,
    alloc: Global,
    shared: &Shared<S, J>,
    thread: &mut Thread<M>,
    seat: &mut Seat<S, J>,
    op: S::Op,
    hold: &H,
) -> Result<bool, NoMemory>
    requires fits { Fits S.meaning J.named.memory.fixed op }
    requires takes { TakesReply (M.code.next (M.state thread.old.machine)) }
    requires steps { M.code.steps (M.state thread.old.machine) < MOST_STEPS }
    requires sound { IsSoundThread M.code J.named.memory (driven M.state thread.old seat.old).thread }
    ensures sound { IsSoundThread M.code J.named.memory (driven M.state thread.new seat.new).thread }
    ensures entered { went_on result ≡ true → IsEntered M.code op (driven M.state thread.old seat.old) (driven M.state thread.new seat.new) }
    ensures kept { went_on result ≡ false → driven M.state thread.new seat.new ≡ driven M.state thread.old seat.old }
{
    match thread.machine.room() {
        Ok(()) => {}
        Err(fault) => return Err(fault),
    }
    match shared.access(rt, alloc, seat, op, hold) {
        Ok(Tried::Done(reply, _)) => match thread.machine.take(reply) {
            Ok(()) => {
                thread.places += 1;
                Ok(true)
            }
            Err(_) => unreachable!(),
        },
        Ok(Tried::Shut | Tried::NotReady) => Ok(false),
        Err(fault) => Err(fault),
    }
}
