//! How threads stand, as lines.

ghost use Rattle.std.specs.Prelude.{◌≡◌, ◌++◌, Some, IfOk, OnOk, slice_get, string_bytes};
ghost use Rattle.event_core.specs.Threads.{ThreadAt};
ghost use Rattle.event_core.specs.World.{world_of};
ghost use Rattle.wasm_world.specs.ThreadCode.{ThreadAt as CodeThread};
ghost use Rattle.debugger.specs.Replies.{standing_text, thread_line};

use debug_views::{PlaceWriter, note_of, thread_view, write_thread};
use event_core::World;
use std::alloc::Global;
use wasm_types::NoMemory;
use wasm_world::{SharedSpace, ThreadState};

/// Writes how a thread stands, if there is one of that number.
fn write_standing(
    alloc: Global,
    text: &mut String,
    places: &PlaceWriter<'_>,
    world: &World<ThreadState<'_>, SharedSpace>,
    thread: u32,
) -> Result<(), NoMemory>
    ensures { OnOk result ((at : ThreadAt CodeThread) → slice_get (world_of world.now).threads thread ≡ Some at → string_bytes text.new ≡ string_bytes text.old ++ thread_line places.now thread at) }
{
    let (Some(machine), Some(view)) = (world.machine(thread), thread_view(world, thread)) else {
        return Ok(());
    };
    let note = note_of(alloc, places, machine)?;
    write_thread(text, thread as usize, view, note.as_str())
}

/// How a thread of the world stands, and in which functions.
pub(crate) fn thread_text(
    alloc: Global,
    places: &PlaceWriter<'_>,
    world: &World<ThreadState<'_>, SharedSpace>,
    thread: u32,
) -> Result<String, NoMemory>
    ensures { IfOk result (λ text. (at : ThreadAt CodeThread) → slice_get (world_of world.now).threads thread ≡ Some at → string_bytes text ≡ thread_line places.now thread at) }
{
    let mut text = String::new(alloc);
    write_standing(alloc, &mut text, places, world, thread)?;
    Ok(text)
}

/// How each thread stands, and in which functions.
pub(crate) fn standing_text(
    alloc: Global,
    places: &PlaceWriter<'_>,
    world: &World<ThreadState<'_>, SharedSpace>,
) -> Result<String, NoMemory>
    ensures { IfOk result (λ text. string_bytes text ≡ standing_text places.now (world_of world.now)) }
{
    let mut text = String::new(alloc);
    for thread in 0..world.count() {
        write_standing(alloc, &mut text, places, world, thread as u32)?;
    }
    Ok(text)
}
