//! Receiving the pieces of a run.

ghost use Rattle.std.specs.Prelude.{◌≡◌, ℕ, IfOk, Err};
ghost use Rattle.replica.specs.Log.{log_of};
ghost use Rattle.replica.specs.declared.fault.ReplicaFault.TheVariants as faults;
ghost use Rattle.wasm_record.specs.Channels.{HasReceived, HasReceivedInPart};

use crossbeam_channel::Receiver;
use replica::{Replica, ReplicaFault};
use run_pieces::Piece;
use std::alloc::Global;
use std::sync::Wait;

/// Delivers the pieces that come through a channel until no sender is left, or 2^64 - 1 came, and answers how many
/// there were. At a refusal it stops: the pieces before it stand delivered, and the one that was refused is out of the
/// channel.
pub fn receive<R: Wait>(
    rt: &R,
    alloc: Global,
    replica: &mut Replica,
    receiver: &Receiver<Piece>,
) -> Result<u64, ReplicaFault>
    // So many pieces of the run came, and they are joined to the log.
    ensures received { IfOk result (λ received. HasReceived (log_of replica.old) (log_of replica.new) received) }
    // A piece of another run changes nothing, and after want of memory the first items of one are joined.
    ensures other_run { result ≡ Err faults.OtherRun → ((received : ℕ) × HasReceived (log_of replica.old) (log_of replica.new) received) }
    ensures left { result ≡ Err faults.NoMemory → HasReceivedInPart (log_of replica.old) (log_of replica.new) }
{
    for received in 0..u64::MAX {
        let Ok(piece) = receiver.recv(rt) else {
            return Ok(received);
        };
        replica.deliver(alloc, &piece)?;
    }
    Ok(u64::MAX)
}
