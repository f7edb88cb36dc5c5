//! Threads, and the frames of their stacks.

ghost use Rattle.std.specs.Prelude.{◌≡◌, ◌+◌, ◌^◌, ◌<◌, ◌++◌, ◌-◌, IfOk, OnOk, length, min, slice_get};
ghost use Rattle.std.specs.Option.{option_to_list};
ghost use Rattle.wasm_world.specs.Standing.{standing};
ghost use Rattle.adapter.specs.Frames.{frame_at, frame_count, frames_of, thread_item, threads_below, trace_of};
ghost use Rattle.adapter.specs.Numbered.{numbered};

use crate::code::{Code, reference_of};
use crate::ids::frame_id;
use adapter_messages::{Body, List, StackFrame, Text, Thread};
use std::alloc::Global;
use std::fmt::Write;
use wasm_types::NoMemory;
use wasm_world::{CodePlace, ThreadState};

/// The most frames of a stack that are told: a thread is in 256 functions at most.
pub(crate) const MOST_FRAMES: usize = 1024;

/// A thread of a number.
fn thread_item(alloc: Global, thread: u32) -> Result<Thread, NoMemory>
    ensures { IfOk result (λ item. item ≡ thread_item thread) }
{
    let mut name = String::new(alloc);
    write!(name, "thread {thread}")?;
    Ok(Thread {
        id: u64::from(thread) + 1,
        name: Text::new(alloc, name.as_str())?,
    })
}

/// So many threads.
pub(crate) fn threads_below(alloc: Global, count: u32) -> Result<List<Thread>, NoMemory>
    ensures { IfOk result (λ threads. threads ≡ threads_below count) }
{
    let mut threads = List::new(alloc);
    for thread in 0..count {
        threads.push(thread_item(alloc, thread)?)?;
    }
    Ok(threads)
}

/// The frame of a thread at a depth, which stands at a place.
fn frame_at(
    alloc: Global,
    code: &Code<'_>,
    thread: u32,
    depth: u32,
    place: CodePlace,
) -> Result<StackFrame, NoMemory>
    ensures { IfOk result (λ frame. frame ≡ frame_at code.now thread depth place) }
{
    let name = code.title(alloc, place.function)?;
    let instruction = reference_of(alloc, code.offset(place))?;
    Ok(StackFrame {
        id: frame_id(thread, depth),
        name,
        instruction,
    })
}

/// Puts the frame of a thread at a depth, if it is in as many functions, behind others.
fn push_frame(
    alloc: Global,
    frames: &mut List<StackFrame>,
    code: &Code<'_>,
    machine: &ThreadState<'_>,
    thread: u32,
    depth: u32,
) -> Result<(), NoMemory>
    ensures { OnOk result (frames.new ≡ frames.old ++ numbered (frame_at code.now thread) depth (option_to_list (slice_get (standing machine.now.thread.state) depth))) }
{
    if let Some(place) = machine.code_place(depth as usize) {
        frames.push(frame_at(alloc, code, thread, depth, place)?)?;
    }
    Ok(())
}

/// So many frames of a thread, from the first depth on.
#[tactic(auto, using(crate::proofs::Numbers::numbered_behind))]
fn frames_of(
    alloc: Global,
    code: &Code<'_>,
    machine: &ThreadState<'_>,
    thread: u32,
    first: u32,
    count: u32,
) -> Result<List<StackFrame>, NoMemory>
    requires { first + count < 2 ^ 32 }
    ensures { IfOk result (λ frames. frames ≡ frames_of code.now (standing machine.now.thread.state) thread first count) }
{
    let mut frames = List::new(alloc);
    for index in 0..count {
        push_frame(alloc, &mut frames, code, machine, thread, first + index)?;
    }
    Ok(frames)
}

/// How many frames are told of a stack of that depth.
fn frame_count(depth: u64, start: u64, levels: u64) -> u64
    ensures { result ≡ frame_count depth start levels }
{
    let left = depth.saturating_sub(start);
    if levels == 0 { left } else { levels.min(left) }
}

/// The frames of a thread that are asked for.
pub(crate) fn trace_of(
    alloc: Global,
    code: &Code<'_>,
    machine: &ThreadState<'_>,
    thread: u32,
    start: u64,
    levels: u64,
) -> Result<Body, NoMemory>
    ensures { IfOk result (λ body. body ≡ trace_of code.now thread start levels (standing machine.now.thread.state)) }
{
    let total = machine.code_depth();
    let depth = total.min(MOST_FRAMES) as u64;
    let count = frame_count(depth, start, levels);
    let frames = if count == 0 {
        List::new(alloc)
    } else {
        frames_of(alloc, code, machine, thread, start as u32, count as u32)?
    };
    Ok(Body::StackTrace {
        frames,
        total: total as u64,
    })
}
