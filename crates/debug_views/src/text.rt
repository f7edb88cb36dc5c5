//! Views as texts.

ghost use Rattle.std.specs.Prelude.{◌≡◌, ◌++◌, ◌+◌, ◌-◌, ◌/◌, ◌^◌, ◌<◌, ◌≤◌, ◌∷◌, [], IfOk, IfErr, OnOk, length, map, string_bytes};
ghost use Rattle.rw_objects.specs.Counts.{count_at};
ghost use Rattle.event_core.specs.World.{world_of};
ghost use Rattle.debug_views.specs.Values.{memory_bytes, IsFault};
ghost use Rattle.debug_views.specs.Threads.{view_of_thread};
ghost use Rattle.debug_views.specs.Text.{IsShown, IsView, stop_words, thread_text, threads_text, object_text, objects_text, rows_text};

use crate::blocks::{BlockRange, blocks_of_range};
use crate::fault::ViewFault;
use crate::memory_space::MemorySpace;
use crate::report_text::{note_at, put_row};
use crate::threads::{ThreadView, thread_view};
use crate::values::bytes;
use event_core::World;
use replay_gate::{Break, Stopped};
use rw_objects::{Count, Machine, ObjectSpace, Versions};
use std::alloc::Global;
use std::fmt::Write;
use wasm_types::{Block, ByteRange, NoMemory};

/// The bytes of a row.
const ROW: usize = 16;

/// The view of a world at which a replay stopped so: `stopped place`, `stopped step`, `stopped write`, `finished` or
/// `stuck`; `thread T steps S places P OUTCOME` for each thread, by number; `object O version V reads R` for each block
/// that holds a byte of the range, by number; and the range in rows of 16 bytes from its start, the last one perhaps
/// shorter: the address in eight lower-case hexadecimal digits, and the bytes in two each. Blocks are of this size. Where
/// the replay stopped at a break, it is one of the list.
/// Behind a thread's line stands the note of its number, if there is one.
pub fn view<M: Machine<S>, S: MemorySpace>(
    alloc: Global,
    world: &World<M, S>,
    block: Block,
    stopped: Stopped,
    breaks: &[Break],
    notes: &[String],
    range: ByteRange,
) -> Result<String, ViewFault>
    requires { IsShown stopped breaks.now }
    ensures view { IfOk result (λ text. IsView S.meaning M.code (world_of world.now) block stopped breaks.now (map string_bytes notes.now) range.from range.len (string_bytes text)) }
    ensures within { IfOk result (λ text. range.from + range.len ≤ length (memory_bytes S.meaning (world_of world.now))) }
    ensures fault { IfErr result (IsFault (memory_bytes S.meaning (world_of world.now)) range.from range.len) }
{
    let bytes = bytes(alloc, world, range.from, range.len)?;
    let blocks = blocks_of_range(block, range.from, range.len);
    let mut text = first_line(alloc, stopped, breaks)?;
    write_threads(&mut text, world, notes)?;
    write_objects(&mut text, world.versions(), blocks)?;
    write_rows(&mut text, range.from, bytes.as_slice())?;
    Ok(text)
}

// The line that says where a replay stopped.
fn first_line(alloc: Global, stopped: Stopped, breaks: &[Break]) -> Result<String, NoMemory>
    requires { IsShown stopped breaks.now }
    ensures { IfOk result (λ text. string_bytes text ≡ stop_words stopped breaks.now ++ 10 ∷ []) }
{
    let words = stop_words(stopped, breaks);
    Ok(format!(in alloc; "{words}\n")?)
}

/// Where a replay stopped, in words: `stopped place`, `stopped step`, `stopped write`, `finished` or `stuck`.
pub fn stop_words(stopped: Stopped, breaks: &[Break]) -> &'static str
    requires { IsShown stopped breaks.now }
    ensures { result.now ≡ stop_words stopped breaks.now }
{
    match stopped {
        Stopped::Break(index) => match breaks[index] {
            Break::Place { .. } => "stopped place",
            Break::Step { .. } => "stopped step",
            Break::Write(_) => "stopped write",
        },
        Stopped::Finished => "finished",
        Stopped::Stuck => "stuck",
        Stopped::Fault(_) => unreachable!(),
    }
}

// Writes how each thread stands.
fn write_threads<M: Machine<S>, S: ObjectSpace>(
    text: &mut String,
    world: &World<M, S>,
    notes: &[String],
) -> Result<(), NoMemory>
    ensures { OnOk result (string_bytes text.new ≡ string_bytes text.old ++ threads_text (map string_bytes notes.now) 0 (map (view_of_thread M.code) (world_of world.now).threads)) }
{
    for thread in 0..world.count() {
        let Some(view) = thread_view(world, thread as u32) else {
            unreachable!()
        };
        write_thread(text, thread, view, note_at(notes, thread))?;
    }
    Ok(())
}

/// Writes how a thread stands, and its note, as a line.
pub fn write_thread(
    text: &mut String,
    thread: usize,
    view: ThreadView,
    note: &str,
) -> Result<(), NoMemory>
    ensures { OnOk result (string_bytes text.new ≡ string_bytes text.old ++ thread_text thread view note.now) }
{
    let steps = view.steps;
    let places = view.places;
    let outcome = view.outcome;
    write!(
        text,
        "thread {thread} steps {steps} places {places} {outcome}{note}\n"
    )?;
    Ok(())
}

/// Writes the versions and the read totals of blocks, a line for each.
pub fn write_objects(
    text: &mut String,
    versions: &Versions,
    blocks: BlockRange,
) -> Result<(), NoMemory>
    requires order { blocks.first ≤ blocks.past }
    requires few { blocks.past ≤ 2 ^ 27 }
    ensures { OnOk result (string_bytes text.new ≡ string_bytes text.old ++ objects_text (count_at versions.now) blocks.first (blocks.past - blocks.first)) }
{
    for index in 0..blocks.past - blocks.first {
        let object = 1 + 2 * (blocks.first + index);
        let count = versions.at(object);
        write_object(text, object, count)?;
    }
    Ok(())
}

// Writes the version and the read total of an object.
fn write_object(text: &mut String, object: u32, count: Count) -> Result<(), NoMemory>
    ensures { OnOk result (string_bytes text.new ≡ string_bytes text.old ++ object_text object count) }
{
    let version = count.version;
    let reads = count.reads;
    write!(text, "object {object} version {version} reads {reads}\n")?;
    Ok(())
}

/// Writes bytes that stand from an address on, in rows of 16.
pub fn write_rows(text: &mut String, from: u32, bytes: &[u8]) -> Result<(), NoMemory>
    requires { length bytes.now < 2 ^ 32 }
    ensures { OnOk result (string_bytes text.new ≡ string_bytes text.old ++ rows_text from bytes.now ((length bytes.now + 15) / 16)) }
{
    let rows = (bytes.len() + 15) / ROW;
    for row in 0..rows {
        let start = row * ROW;
        let end = (start + ROW).min(bytes.len());
        put_row(text, u64::from(from) + start as u64, &bytes[start..end])?;
    }
    Ok(())
}
