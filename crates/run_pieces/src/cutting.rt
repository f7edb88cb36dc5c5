//! A recorded run, cut into pieces.

ghost use Rattle.std.specs.Prelude.{◌≡◌, ◌<◌, ◌≤◌, ◌*◌, ◌++◌, drop, length, IfOk, IfErr, OnOk};
ghost use Rattle.recorder.specs.ThreadLogAt.{log_of};
ghost use Rattle.run_pieces.specs.PieceOf.{ArePiecesOf};
ghost use Rattle.run_pieces.specs.Cut.{IsPiecesFault, end_at, piece_at, piece_count, pieces_of, thread_pieces};
ghost use Rattle.run_pieces.specs.Keeps.{IsCut, KeepsRules};

use crate::fault::PiecesFault;
use log_pieces::{End, EntriesReader, MOST_ENTRIES, Piece};
use recorder::{Recorded, ThreadLog};
use std::alloc::Global;
use wasm_types::{NoMemory, RunKey};

/// How many pieces a thread of so many entries gives.
pub(crate) fn piece_count(size: usize, entries: usize) -> usize
    requires { 0 < size }
    ensures { result ≡ piece_count size entries }
{
    entries.saturating_sub(1) / size + 1
}

/// The thread's end, with its last piece.
pub(crate) fn end_at(log: &ThreadLog, size: usize, index: usize) -> Option<End>
    requires some { 0 < size }
    requires index { index < piece_count size (length log.now.entries) }
    ensures { result ≡ end_at log.now size index }
{
    let count = piece_count(size, log.entries().len());
    if index + 1 == count {
        Some(log.end())
    } else {
        None
    }
}

/// A thread of a recorded run, which is cut into pieces of `size` entries.
#[derive(Clone, Copy)]
pub(crate) struct ThreadCut<'a> {
    pub(crate) key: &'a RunKey,
    pub(crate) thread: u32,
    pub(crate) log: &'a ThreadLog,
    pub(crate) size: usize,
}

/// The next piece of a thread, whose entries are read up to it.
fn next_piece(
    alloc: Global,
    cut: &ThreadCut<'_>,
    entries: &mut EntriesReader<'_>,
    index: usize,
) -> Result<Piece, NoMemory>
    requires rules { IsCut cut.now.key.now cut.now.thread cut.now.log.now cut.now.size }
    requires index { index < piece_count cut.now.size (length cut.now.log.now.entries) }
    requires at { entries.old ≡ drop (index * cut.now.size) cut.now.log.now.entries }
    ensures piece { IfOk result (λ piece. piece ≡ piece_at cut.now.key.now cut.now.thread cut.now.log.now cut.now.size index) }
    ensures left { OnOk result (entries.new ≡ drop cut.now.size entries.old) }
{
    let start = index * cut.size;
    let part = entries.next_entries(alloc, cut.size)?;
    let end = end_at(cut.log, cut.size, index);
    match Piece::new(*cut.key, cut.thread, start as u32, part, end) {
        Ok(piece) => Ok(piece),
        Err(_) => unreachable!(),
    }
}

/// Puts the pieces of a thread behind others.
fn put_pieces(alloc: Global, pieces: &mut Vec<Piece>, cut: &ThreadCut<'_>) -> Result<(), NoMemory>
    requires { IsCut cut.now.key.now cut.now.thread cut.now.log.now cut.now.size }
    ensures { OnOk result (pieces.new.items ≡ pieces.old.items ++ thread_pieces cut.now.key.now cut.now.thread cut.now.log.now cut.now.size) }
{
    let log = cut.log.entries();
    let mut entries = log.reader();
    for index in 0..piece_count(cut.size, log.len()) {
        let piece = next_piece(alloc, cut, &mut entries, index)?;
        pieces.push(piece)?;
    }
    Ok(())
}

fn all_pieces(
    alloc: Global,
    key: &RunKey,
    logs: &[ThreadLog],
    size: usize,
) -> Result<Vec<Piece>, NoMemory>
    requires keeps { KeepsRules key.now logs.now }
    requires some { 0 < size }
    requires few { size ≤ 4096 }
    ensures { IfOk result (λ pieces. pieces.items ≡ pieces_of key.now logs.now size) }
{
    let mut pieces = Vec::new(alloc);
    for (thread, log) in logs.iter().enumerate() {
        let thread = thread as u32;
        let cut = ThreadCut {
            key,
            thread,
            log,
            size,
        };
        put_pieces(alloc, &mut pieces, &cut)?;
    }
    Ok(pieces)
}

/// A recorded run as pieces of `size` entries each, by rising thread and place; a thread's last piece has the entries
/// that are left, and the thread's end, and a thread without entries gives one piece. They are pieces of the run's log,
/// and their joined log is that log.
pub fn pieces(
    alloc: Global,
    key: &RunKey,
    recorded: &Recorded,
    size: u32,
) -> Result<Vec<Piece>, PiecesFault>
    requires { KeepsRules key.now recorded.now.threads }
    ensures pieces { IfOk result (λ pieces. pieces.items ≡ pieces_of key.now recorded.now.threads size) }
    ensures size { IfOk result (λ _. (0 < size) × (size ≤ 4096)) }
    ensures of_log { IfOk result (λ pieces. ArePiecesOf key.now (log_of recorded.now.threads) pieces.items) }
    ensures refused { IfErr result (IsPiecesFault size) }
{
    if size == 0 {
        return Err(PiecesFault::Empty);
    }
    if size as usize > MOST_ENTRIES {
        return Err(PiecesFault::TooMany);
    }
    match all_pieces(alloc, key, recorded.log(), size as usize) {
        Ok(pieces) => Ok(pieces),
        Err(NoMemory) => Err(PiecesFault::NoMemory),
    }
}
