//! Sending the pieces of a recording.

ghost use Rattle.std.specs.Prelude.{◌≡◌, ◌<◌, ◌≤◌, IfOk, IfErr, OnOk, length};
ghost use Rattle.run_pieces.specs.Cut.{pieces_of};
ghost use Rattle.wasm_record.specs.Channels.{IsNotSent, IsSendFault};

use crate::fault::SendFault;
use crate::recording::Recording;
use crossbeam_channel::Sender;
use run_pieces::Piece;
use std::alloc::Global;
use std::sync::Wait;

/// Sends pieces one after the other, and answers how many.
fn send_pieces<R: Wait>(
    rt: &R,
    pieces: Vec<Piece>,
    sender: &Sender<Piece>,
) -> Result<u64, SendFault>
    ensures sent { IfOk result (λ sent. sent ≡ length pieces.items) }
    ensures refused { IfErr result (λ fault. IsNotSent (length pieces.items) fault) }
{
    let count = pieces.len() as u64;
    let mut sent = 0;
    for piece in pieces {
        if sender.send(rt, piece).is_err() {
            return Err(SendFault::NotSent { sent });
        }
        sent += 1;
    }
    Ok(count)
}

/// Sends a recorded run as pieces of `size` entries each, by rising thread and place, and answers how many there were.
/// Where the channel fails, for whatever cause, no piece behind that one is sent.
pub fn send<R: Wait>(
    rt: &R,
    alloc: Global,
    recording: &Recording,
    size: u32,
    sender: &Sender<Piece>,
) -> Result<u64, SendFault>
    ensures sent { IfOk result (λ sent. sent ≡ length (pieces_of recording.now.key recording.now.recorded.threads size)) }
    ensures size { OnOk result ((0 < size) × (size ≤ 4096)) }
    ensures refused { IfErr result (λ fault. IsSendFault size (length (pieces_of recording.now.key recording.now.recorded.threads size)) fault) }
{
    match recording.pieces(alloc, size) {
        Ok(pieces) => send_pieces(rt, pieces, sender),
        Err(fault) => Err(SendFault::Pieces(fault)),
    }
}
