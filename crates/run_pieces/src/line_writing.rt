//! The lines of a recorded run's pieces, written as they are made.

ghost use Rattle.std.specs.Prelude.{◌≡◌, ℕ, ◌+◌, ◌-◌, ◌*◌, ◌^◌, ◌<◌, ◌≤◌, List, [], ◌∷◌, ◌++◌, drop, length, take, OnOk, OnErr};
ghost use Rattle.std.specs.List.{flat_map};
ghost use Rattle.hex.specs.Hex.{encode_lower};
ghost use Rattle.log_pieces.specs.Spelling.{end_bytes};
ghost use Rattle.log_pieces.specs.Line.{line_of};
ghost use Rattle.replica.specs.Written.{Wrote, Began};
ghost use Rattle.run_pieces.specs.Cut.{end_at, piece_at, piece_count, pieces_of, thread_pieces};
ghost use Rattle.run_pieces.specs.Keeps.{IsCut, KeepsRules};
ghost use Rattle.run_pieces.specs.Lines.{head_bytes};

use crate::cutting::{ThreadCut, end_at, piece_count};
use crate::line_room::LineRoom;
use byte_streams::{Failed, Sink, write_all};
use log_pieces::{End, EntriesReader, end_bytes, head_bytes};
use recorder::{Recorded, ThreadLog};
use wasm_types::RunKey;

/// How many bytes are written at once, and the most that a room has before a line is put into it.
const FULL: usize = 65_536;

/// Of how many bytes the digits are put into the room at once.
const PART: usize = 16_384;

/// Writes what a room has, and empties it, where that is as much as is written at once.
fn flush<W: Sink>(room: &mut LineRoom, sink: &mut W) -> Result<(), Failed>
    requires { W.failed sink.old < 2 ^ 64 - 1 }
    ensures wrote { OnOk result (Wrote W.takes sink.old room.old [] sink.new room.new) }
    ensures room { OnOk result (length room.new ≤ 65536) }
    ensures none_failed { OnOk result (W.failed sink.new ≡ W.failed sink.old) }
    ensures began { OnErr result (Began W.takes sink.old room.old [] sink.new) }
    ensures one_failed { OnErr result (W.failed sink.new ≡ W.failed sink.old + 1) }
{
    if room.len() <= FULL {
        return Ok(());
    }
    write_all(sink, room.as_slice())?;
    room.clear();
    Ok(())
}

/// Writes the digits of bytes; the last of them may be left in the room.
fn write_digits<W: Sink>(room: &mut LineRoom, sink: &mut W, bytes: &[u8]) -> Result<(), Failed>
    requires sink { W.failed sink.old < 2 ^ 64 - 1 }
    requires room { length room.old ≤ 65792 }
    ensures wrote { OnOk result (Wrote W.takes sink.old room.old (encode_lower bytes.now) sink.new room.new) }
    ensures room { OnOk result (length room.new ≤ 65792) }
    ensures none_failed { OnOk result (W.failed sink.new ≡ W.failed sink.old) }
    ensures began { OnErr result (Began W.takes sink.old room.old (encode_lower bytes.now) sink.new) }
    ensures one_failed { OnErr result (W.failed sink.new ≡ W.failed sink.old + 1) }
{
    let mut rest = bytes;
    while !rest.is_empty() {
        let (part, behind) = rest.split_at(rest.len().min(PART));
        room.put(part);
        flush(room, sink)?;
        rest = behind;
    }
    Ok(())
}

/// Puts the digits of what stands before the entries of a thread's piece, of which there are `count`.
fn open_line(room: &mut LineRoom, cut: &ThreadCut<'_>, index: usize, count: usize)
    requires room { length room.old ≤ 65536 }
    requires rules { IsCut cut.now.key.now cut.now.thread cut.now.log.now cut.now.size }
    requires index { index < piece_count cut.now.size (length cut.now.log.now.entries) }
    requires count { count ≡ length (take cut.now.size (drop (index * cut.now.size) cut.now.log.now.entries)) }
    ensures text { room.new ≡ room.old ++ encode_lower (head_bytes (piece_at cut.now.key.now cut.now.thread cut.now.log.now cut.now.size index)) }
    ensures short { length room.new ≤ 65642 }
{
    let first = index * cut.size;
    let end = end_at(cut.log, cut.size, index);
    let head = head_bytes(cut.key, cut.thread as u8, first as u32, count as u16, &end);
    room.put(head.as_slice());
}

/// Puts the digits of what stands behind the entries of a piece, and the line end.
fn close_line(room: &mut LineRoom, end: &Option<End>)
    requires room { length room.old ≤ 65792 }
    ensures text { room.new ≡ room.old ++ encode_lower (end_bytes end.now) ++ 10 ∷ [] }
{
    room.put(end_bytes(end).as_slice());
    room.end_line();
}

/// Writes the line of the next piece of a thread, whose entries are read up to it; it may be left in the room.
fn write_piece<W: Sink>(
    room: &mut LineRoom,
    sink: &mut W,
    cut: &ThreadCut<'_>,
    entries: &mut EntriesReader<'_>,
    index: usize,
) -> Result<(), Failed>
    requires sink { W.failed sink.old < 2 ^ 64 - 1 }
    requires room { length room.old ≤ 65536 }
    requires rules { IsCut cut.now.key.now cut.now.thread cut.now.log.now cut.now.size }
    requires index { index < piece_count cut.now.size (length cut.now.log.now.entries) }
    requires at { entries.old ≡ drop (index * cut.now.size) cut.now.log.now.entries }
    ensures wrote { OnOk result (Wrote W.takes sink.old room.old (line_of (piece_at cut.now.key.now cut.now.thread cut.now.log.now cut.now.size index)) sink.new room.new) }
    ensures room { OnOk result (length room.new ≤ 65536) }
    ensures left { OnOk result (entries.new ≡ drop cut.now.size entries.old) }
    ensures none_failed { OnOk result (W.failed sink.new ≡ W.failed sink.old) }
    ensures began { OnErr result (Began W.takes sink.old room.old (line_of (piece_at cut.now.key.now cut.now.thread cut.now.log.now cut.now.size index)) sink.new) }
    ensures one_failed { OnErr result (W.failed sink.new ≡ W.failed sink.old + 1) }
{
    let (bytes, count) = entries.next_bytes(cut.size);
    open_line(room, cut, index, count);
    write_digits(room, sink, bytes)?;
    close_line(room, &end_at(cut.log, cut.size, index));
    flush(room, sink)
}

/// Writes the lines of a thread's pieces, by rising place; the last of them may be left in the room.
fn write_thread<W: Sink>(
    room: &mut LineRoom,
    sink: &mut W,
    cut: &ThreadCut<'_>,
) -> Result<(), Failed>
    requires sink { W.failed sink.old < 2 ^ 64 - 1 }
    requires room { length room.old ≤ 65536 }
    requires rules { IsCut cut.now.key.now cut.now.thread cut.now.log.now cut.now.size }
    ensures wrote { OnOk result (Wrote W.takes sink.old room.old (flat_map line_of (thread_pieces cut.now.key.now cut.now.thread cut.now.log.now cut.now.size)) sink.new room.new) }
    ensures room { OnOk result (length room.new ≤ 65536) }
    ensures none_failed { OnOk result (W.failed sink.new ≡ W.failed sink.old) }
    ensures began { OnErr result (Began W.takes sink.old room.old (flat_map line_of (thread_pieces cut.now.key.now cut.now.thread cut.now.log.now cut.now.size)) sink.new) }
    ensures one_failed { OnErr result (W.failed sink.new ≡ W.failed sink.old + 1) }
{
    let log = cut.log.entries();
    let mut entries = log.reader();
    for index in 0..piece_count(cut.size, log.len()) {
        write_piece(room, sink, cut, &mut entries, index)?;
    }
    Ok(())
}

/// Writes the lines of the threads' pieces; the last of them may be left in the room.
fn write_threads<W: Sink>(
    room: &mut LineRoom,
    sink: &mut W,
    key: &RunKey,
    logs: &[ThreadLog],
    size: usize,
) -> Result<(), Failed>
    requires sink { W.failed sink.old < 2 ^ 64 - 1 }
    requires room { length room.old ≤ 65536 }
    requires keeps { KeepsRules key.now logs.now }
    requires some { 0 < size }
    requires few { size ≤ 4096 }
    ensures wrote { OnOk result (Wrote W.takes sink.old room.old (flat_map line_of (pieces_of key.now logs.now size)) sink.new room.new) }
    ensures none_failed { OnOk result (W.failed sink.new ≡ W.failed sink.old) }
    ensures began { OnErr result (Began W.takes sink.old room.old (flat_map line_of (pieces_of key.now logs.now size)) sink.new) }
    ensures one_failed { OnErr result (W.failed sink.new ≡ W.failed sink.old + 1) }
{
    for (thread, log) in logs.iter().enumerate() {
        let thread = thread as u32;
        let cut = ThreadCut {
            key,
            thread,
            log,
            size,
        };
        write_thread(room, sink, &cut)?;
    }
    Ok(())
}

/// Writes the lines of a recorded run's pieces of `size` entries each, by rising thread and place, as they are made:
/// the very lines of what `pieces` answers. No memory is wanted but the room.
pub fn write_lines<W: Sink>(
    room: &mut LineRoom,
    sink: &mut W,
    key: &RunKey,
    recorded: &Recorded,
    size: u32,
) -> Result<(), Failed>
    requires sink { W.failed sink.old < 2 ^ 64 - 1 }
    requires keeps { KeepsRules key.now recorded.now.threads }
    requires some { 0 < size }
    requires few { size ≤ 4096 }
    ensures taken { OnOk result (W.takes sink.old (flat_map line_of (pieces_of key.now recorded.now.threads size)) sink.new) }
    ensures none_failed { OnOk result (W.failed sink.new ≡ W.failed sink.old) }
    // After a failure a beginning of the lines was taken.
    ensures begun { OnErr result ((part rest : List ℕ) × (flat_map line_of (pieces_of key.now recorded.now.threads size) ≡ part ++ rest) × W.takes sink.old part sink.new) }
    ensures one_failed { OnErr result (W.failed sink.new ≡ W.failed sink.old + 1) }
{
    room.clear();
    write_threads(room, sink, key, recorded.log(), size as usize)?;
    write_all(sink, room.as_slice())
}
