//! Where threads stand, as notes.

ghost use Rattle.std.specs.Prelude.{◌≡◌, ◌++◌, IfOk, OnOk, Some, map, slice_get, string_bytes};
ghost use Rattle.event_core.specs.World.{world_of};
ghost use Rattle.event_core.specs.Threads.{ThreadAt};
ghost use Rattle.wasm_world.specs.Plans.{IsPlanOf};
ghost use Rattle.wasm_world.specs.ThreadCode.{ThreadAt as CodeThread};
ghost use Rattle.debug_views.specs.Standing.{PlaceForm, word_at, frame_text, note_of};
ghost use Rattle.debug_views.specs.ThreadNotes.{AreNotes, AreNotesAsked, IsNote, IsNoteAtStep};

use crate::places::PlaceWriter;
use crate::replays::{OrderedReplay, replay_to_step};
use crate::threads::thread_view;
use event_core::World;
use integer_machine::{CodePlace, ThreadState};
use std::alloc::Global;
use wasm_types::{NoMemory, Outcome};
use wasm_world::SharedSpace;

/// What is said of where threads stand.
#[derive(Clone, Copy, Debug, PartialEq, Eq)]
pub enum Notes {
    /// Nothing.
    Nothing,
    /// In which functions, by the names in the module's bytes, and at which instructions of these.
    Names,
    /// The same, with the offset of each of these instructions in the module's bytes.
    Offsets,
}

/// The word before a function that a thread is in.
fn word_at(depth: usize) -> &'static str
    ensures { result.now ≡ word_at depth }
{
    if depth == 0 { " at " } else { " from " }
}

/// Writes where a thread stands in a function.
fn write_frame(
    text: &mut String,
    places: &PlaceWriter<'_>,
    depth: usize,
    place: CodePlace,
) -> Result<(), NoMemory>
    ensures { OnOk result (string_bytes text.new ≡ string_bytes text.old ++ frame_text places.now depth place) }
{
    text.push_str(word_at(depth))?;
    places.write(text, place)
}

/// The note of where a thread stands: the functions that it is in. One that has ended is in none.
pub fn note_of(
    alloc: Global,
    places: &PlaceWriter<'_>,
    thread: &ThreadState<'_>,
) -> Result<String, NoMemory>
    ensures { IfOk result (λ text. string_bytes text ≡ note_of places.now thread.now.thread) }
{
    let mut text = String::new(alloc);
    for depth in 0..thread.code_depth() {
        let Some(place) = thread.code_place(depth) else {
            unreachable!()
        };
        write_frame(&mut text, places, depth, place)?;
    }
    Ok(text)
}

/// Where a thread stood once it had made so many steps, by the same replay made again.
fn note_at_step(
    alloc: Global,
    places: &PlaceWriter<'_>,
    replay: &OrderedReplay<'_>,
    thread: u32,
    steps: u32,
) -> Result<String, NoMemory>
    requires { IsPlanOf replay.now.valid.now replay.now.plan.now }
    ensures { IfOk result (λ note. IsNoteAtStep replay.now.valid.now replay.now.plan.now replay.now.log.now replay.now.order.now places.now thread steps (string_bytes note)) }
{
    let again = replay_to_step(alloc, replay, thread, steps)?;
    match again.world().machine(thread) {
        Some(machine) => note_of(alloc, places, machine),
        None => Ok(String::new(alloc)),
    }
}

/// Where a thread of a world at which a replay stopped stands; of one that trapped, where it stood before the last of
/// its steps.
fn note_of_thread(
    alloc: Global,
    places: &PlaceWriter<'_>,
    replay: &OrderedReplay<'_>,
    world: &World<ThreadState<'_>, SharedSpace>,
    thread: u32,
) -> Result<String, NoMemory>
    requires { IsPlanOf replay.now.valid.now replay.now.plan.now }
    ensures { IfOk result (λ note. (at : ThreadAt CodeThread) → slice_get (world_of world.now).threads thread ≡ Some at → IsNote replay.now.valid.now replay.now.plan.now replay.now.log.now replay.now.order.now places.now thread at (string_bytes note)) }
{
    let (Some(machine), Some(stands)) = (world.machine(thread), thread_view(world, thread)) else {
        return Ok(String::new(alloc));
    };
    match stands.outcome {
        Outcome::Trapped(_) => {
            let before = stands.steps.saturating_sub(1);
            note_at_step(alloc, places, replay, thread, before)
        }
        Outcome::Running | Outcome::Waiting | Outcome::Done(_) => {
            note_of(alloc, places, machine)
        }
    }
}

/// Where each thread of a world stands at which a replay stopped.
pub(crate) fn notes_of(
    alloc: Global,
    places: &PlaceWriter<'_>,
    replay: &OrderedReplay<'_>,
    world: &World<ThreadState<'_>, SharedSpace>,
) -> Result<Vec<String>, NoMemory>
    requires { IsPlanOf replay.now.valid.now replay.now.plan.now }
    ensures { IfOk result (λ notes. AreNotes replay.now.valid.now replay.now.plan.now replay.now.log.now replay.now.order.now places.now (world_of world.now) (map string_bytes notes.items)) }
{
    let mut notes = Vec::new(alloc);
    for thread in 0..world.count() {
        notes.push(note_of_thread(alloc, places, replay, world, thread as u32)?)?;
    }
    Ok(notes)
}

/// Where each thread stands, by the module's bytes, and perhaps with the offsets of instructions.
pub(crate) fn notes_by(
    alloc: Global,
    has_offsets: bool,
    replay: &OrderedReplay<'_>,
    world: &World<ThreadState<'_>, SharedSpace>,
) -> Result<Vec<String>, NoMemory>
    requires { IsPlanOf replay.now.valid.now replay.now.plan.now }
    ensures { IfOk result (λ notes. AreNotes replay.now.valid.now replay.now.plan.now replay.now.log.now replay.now.order.now (record { source = replay.now.valid.now.source; offsets = has_offsets }) (world_of world.now) (map string_bytes notes.items)) }
{
    let source = replay.valid.module().source.as_slice();
    let places = PlaceWriter::new(alloc, source, has_offsets)?;
    let notes = notes_of(alloc, &places, replay, world)?;
    Ok(notes)
}

/// What is asked for of where each thread stands.
pub(crate) fn notes_asked(
    alloc: Global,
    asked: Notes,
    replay: &OrderedReplay<'_>,
    world: &World<ThreadState<'_>, SharedSpace>,
) -> Result<Vec<String>, NoMemory>
    requires { IsPlanOf replay.now.valid.now replay.now.plan.now }
    ensures { IfOk result (λ notes. AreNotesAsked replay.now.valid.now replay.now.plan.now replay.now.log.now replay.now.order.now asked (world_of world.now) (map string_bytes notes.items)) }
{
    match asked {
        Notes::Nothing => Ok(Vec::new(alloc)),
        Notes::Names => notes_by(alloc, false, replay, world),
        Notes::Offsets => notes_by(alloc, true, replay, world),
    }
}
