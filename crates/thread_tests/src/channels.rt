//! Recordings that are sent and received.

use crate::programs::{COUNTER, Program};
use crate::runs::gathered;
use crossbeam_channel::{Receiver, Sender, bounded, unbounded};
use replica::{Replica, ReplicaFault, listing};
use run_pieces::{Piece, PiecesFault};
use std::alloc::Global;
use std::sync::Wait;
use std::test::Fail;
use std::thread::{self, Threads};
use wasm_record::{Recording, SendFault, receive, send};
use wasm_types::RunKey;

/// Two threads of the counter, one after the other.
fn recording(alloc: Global, run: u64) -> Result<Recording, Fail> {
    let program = Program::read(alloc, COUNTER)?;
    program.record_schedule(alloc, run, "go 0 8\ngo 1 8\n")
}

/// The listing of the log of a recording.
fn listing_of(alloc: Global, recording: &Recording) -> Result<String, Fail> {
    let whole = gathered(alloc, recording, 4096)?;
    Ok(listing(alloc, whole.log())?)
}

/// Whether a replica has the log of a recording.
fn has_log_of(alloc: Global, replica: &Replica, recording: &Recording) -> Result<bool, Fail> {
    let text = listing_of(alloc, recording)?;
    Ok(listing(alloc, replica.log())?.as_str() == text.as_str())
}

/// Sends pieces of one entry each, and drops the sending end.
fn sent<R: Wait>(
    rt: &R,
    alloc: Global,
    recording: &Recording,
    to: Sender<Piece>,
) -> Result<u64, SendFault> {
    send(rt, alloc, recording, 1, &to)
}

/// What comes through a channel: how many pieces, and the replica to which they were delivered.
fn received<R: Wait>(
    rt: &R,
    alloc: Global,
    key: RunKey,
    from: Receiver<Piece>,
) -> (Result<u64, ReplicaFault>, Replica) {
    let mut replica = Replica::new(alloc, key);
    let count = receive(rt, alloc, &mut replica, &from);
    (count, replica)
}

/// How many pieces are sent, how many come in another thread, and whether they are the log of the recording.
type Through = (Result<u64, SendFault>, Result<u64, ReplicaFault>, bool);

/// Sends a recording to another thread.
fn through<R: Threads + Wait + Copy + Send + 'static>(
    rt: R,
    alloc: Global,
    recording: &Recording,
) -> Result<Through, Fail> {
    let key = *recording.key();
    let (to, from) = unbounded(alloc)?;
    let reader = thread::spawn(&rt, move || received(&rt, alloc, key, from))?;
    let sent = sent(&rt, alloc, recording, to);
    let (count, replica) = reader.join(&rt);
    Ok((sent, count, has_log_of(alloc, &replica, recording)?))
}

/// The same of a recording that is made here.
fn recorded_through<R: Threads + Wait + Copy + Send + 'static>(
    rt: R,
    alloc: Global,
) -> Result<Through, Fail> {
    let recording = recording(alloc, 1)?;
    through(rt, alloc, &recording)
}

#[test]
fn all_pieces_come_in_another_thread(rt: HostRuntime) -> Result<(), Fail> {
    assert_eq!(rt; recorded_through(rt, rt.alloc())?, (Ok(4), Ok(4), true));
    Ok(())
}

/// Takes two pieces out of a channel, and drops the receiving end. Answers whether they came.
fn take_two<R: Wait>(rt: &R, from: Receiver<Piece>) -> [bool; 2] {
    let first = from.recv(rt).is_ok();
    let second = from.recv(rt).is_ok();
    [first, second]
}

/// Sends a recording to another thread that takes two of its four pieces and leaves. In a channel of no capacity a send
/// ends once its message was taken.
fn left_after_two<R: Threads + Wait + Copy + Send + 'static>(
    rt: R,
    alloc: Global,
    recording: &Recording,
) -> Result<(Result<u64, SendFault>, [bool; 2]), Fail> {
    let (to, from) = bounded(alloc, 0)?;
    let reader = thread::spawn(&rt, move || take_two(&rt, from))?;
    let sent = sent(&rt, alloc, recording, to);
    Ok((sent, reader.join(&rt)))
}

/// The same of a recording that is made here.
fn recorded_left_after_two<R: Threads + Wait + Copy + Send + 'static>(
    rt: R,
    alloc: Global,
) -> Result<(Result<u64, SendFault>, [bool; 2]), Fail> {
    let recording = recording(alloc, 1)?;
    left_after_two(rt, alloc, &recording)
}

/// How many were sent is how many were taken: a fault that says another number is wrong.
#[test]
fn pieces_are_sent_until_the_receiver_leaves(rt: HostRuntime) -> Result<(), Fail> {
    let wanted = (Err(SendFault::NotSent { sent: 2 }), [true, true]);
    assert_eq!(rt; recorded_left_after_two(rt, rt.alloc())?, wanted);
    Ok(())
}

/// Sends a recording in pieces of no entries, of too many, and to nobody.
fn refusals<R: Wait>(
    rt: &R,
    alloc: Global,
    recording: &Recording,
) -> Result<[Result<u64, SendFault>; 3], Fail> {
    let (to, from) = unbounded(alloc)?;
    let none = send(rt, alloc, recording, 0, &to);
    let many = send(rt, alloc, recording, 4097, &to);
    drop(from);
    let left = send(rt, alloc, recording, 1, &to);
    Ok([none, many, left])
}

/// The same of a recording that is made here.
fn refused<R: Wait>(rt: &R, alloc: Global) -> Result<[Result<u64, SendFault>; 3], Fail> {
    let recording = recording(alloc, 1)?;
    refusals(rt, alloc, &recording)
}

#[test]
fn no_piece_is_sent_of_no_size_or_to_nobody(rt: HostRuntime) -> Result<(), Fail> {
    let wanted = [
        Err(SendFault::Pieces(PiecesFault::Empty)),
        Err(SendFault::Pieces(PiecesFault::TooMany)),
        Err(SendFault::NotSent { sent: 0 }),
    ];
    assert_eq!(rt; refused(&rt, rt.alloc())?, wanted);
    Ok(())
}

/// What three calls receive, and whether the replica then has the log of the first recording.
type OfTwo = ([Result<u64, ReplicaFault>; 3], bool);

/// Sends the two pieces of one recording, those of another, and those of the first again, and receives them for the
/// first by three calls.
fn received_of_two<R: Wait>(
    rt: &R,
    alloc: Global,
    recording: &Recording,
    other: &Recording,
) -> Result<OfTwo, Fail> {
    let (to, from) = unbounded(alloc)?;
    let _ = send(rt, alloc, recording, 4096, &to);
    let _ = send(rt, alloc, other, 4096, &to);
    let _ = send(rt, alloc, recording, 4096, &to);
    drop(to);
    let mut replica = Replica::new(alloc, *recording.key());
    let first = receive(rt, alloc, &mut replica, &from);
    let second = receive(rt, alloc, &mut replica, &from);
    let third = receive(rt, alloc, &mut replica, &from);
    Ok((
        [first, second, third],
        has_log_of(alloc, &replica, recording)?,
    ))
}

/// The same of recordings that are made here.
fn recorded_of_two<R: Wait>(rt: &R, alloc: Global) -> Result<OfTwo, Fail> {
    let first = recording(alloc, 1)?;
    let other = recording(alloc, 2)?;
    received_of_two(rt, alloc, &first, &other)
}

/// Each piece of another run ends one call, and is out of the channel: those of the run that come behind it are
/// received.
#[test]
fn a_piece_of_another_run_ends_the_receiving(rt: HostRuntime) -> Result<(), Fail> {
    let refused = Err(ReplicaFault::OtherRun);
    assert_eq!(rt;
        recorded_of_two(&rt, rt.alloc())?,
        ([refused, refused, Ok(2)], true)
    );
    Ok(())
}
