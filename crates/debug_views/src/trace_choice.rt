//! Which events of a replay have a line in its trace.

ghost use Rattle.std.specs.Prelude.{◌≡◌, ◌<◌, ℕ, Some, option_map, slice_get};
ghost use Rattle.event_core.specs.World.{world_of};
ghost use Rattle.debug_views.specs.Trace.{is_of_threads, waiters_at, bytes_of_action, do_meet, is_met, is_of_ranges, is_since};

use crate::trace_seen::accessed;
use event_core::World;
use integer_machine::ThreadState;
use replica::EventAt;
use wasm_types::{Action, ByteRange, MOST_THREADS};
use wasm_world::SharedSpace;

/// Whether a byte is of both ranges.
fn do_meet(range: &ByteRange, other: ByteRange) -> bool
    ensures { result ≡ do_meet range.now (other.from, other.len) }
{
    let from = range.from.max(other.from);
    let end = u64::from(range.from) + u64::from(range.len);
    let other_end = u64::from(other.from) + u64::from(other.len);
    u64::from(from) < end.min(other_end)
}

/// Which events have a line, and what is in it.
#[derive(Clone, Copy, Debug)]
pub struct TraceChoice<'a> {
    /// Those of these threads; of all where none is named.
    pub only: &'a [u32],
    /// Those that concern a byte of one of these ranges; any where none is named.
    pub bytes: &'a [ByteRange],
    /// From this one on.
    pub since: Option<EventAt>,
    /// Whether instructions have their offsets in the module's bytes beside them.
    pub offsets: bool,
}

/// Whether an event is of one of these threads.
fn is_of_threads(only: &[u32], thread: u32) -> bool
    ensures { result ≡ is_of_threads only.now thread }
{
    only.is_empty() || only.contains(&thread)
}

/// Which threads' events may have a line, where these are named.
pub(crate) fn threads_of(only: &[u32]) -> [bool; MOST_THREADS]
    ensures { (t : ℕ) → t < MOST_THREADS → slice_get result t ≡ Some (is_of_threads only.now t) }
{
    let mut threads = [false; MOST_THREADS];
    for thread in 0..MOST_THREADS {
        threads[thread] = is_of_threads(only, thread as u32);
    }
    threads
}

/// The address of the waiters that an action concerns.
fn waiters_at(action: &Action) -> Option<u32>
    ensures { result ≡ waiters_at action.now }
{
    match *action {
        Action::Notify { address, .. }
        | Action::Resume { address, .. }
        | Action::TimeOut { address, .. } => Some(address),
        _ => None,
    }
}

/// The address that an action concerns, and how many bytes there.
fn bytes_of(action: &Action) -> Option<ByteRange>
    ensures { option_map (λ r. (r.from, r.len)) result ≡ bytes_of_action action.now }
{
    match accessed(action) {
        Some((access, from)) => {
            let len = access.width().bytes();
            Some(ByteRange { from, len })
        }
        None => match waiters_at(action) {
            Some(from) => Some(ByteRange { from, len: 4 }),
            None => None,
        },
    }
}

/// Whether one of these ranges has one of these bytes.
fn is_met(ranges: &[ByteRange], bytes: ByteRange) -> bool
    ensures { result ≡ is_met ranges.now (Some (bytes.from, bytes.len)) }
{
    ranges.iter().any(|range| do_meet(range, bytes))
}

/// Whether an action concerns a byte of one of these ranges, or none is named.
fn is_of_ranges(ranges: &[ByteRange], action: &Action) -> bool
    ensures { result ≡ is_of_ranges ranges.now action.now }
{
    if ranges.is_empty() {
        return true;
    }
    match bytes_of(action) {
        Some(bytes) => is_met(ranges, bytes),
        None => false,
    }
}

/// Whether the thread of this event has made it in a world.
fn is_since(since: Option<EventAt>, world: &World<ThreadState<'_>, SharedSpace>) -> bool
    ensures { result ≡ is_since since (world_of world.now) }
{
    let Some(event) = since else {
        return true;
    };
    match world.places(event.thread) {
        Some(places) => event.place < places,
        None => false,
    }
}

impl<'a> TraceChoice<'a> {
    /// Whether an event that does this may have a line.
    pub(crate) fn has_action(&self, action: &Action) -> bool
        ensures { result ≡ is_of_ranges self.now.bytes.now action.now }
    {
        is_of_ranges(self.bytes, action)
    }

    /// Whether an event that leads to a world may have a line.
    pub(crate) fn has_begun(&self, world: &World<ThreadState<'_>, SharedSpace>) -> bool
        ensures { result ≡ is_since self.now.since (world_of world.now) }
    {
        is_since(self.since, world)
    }
}
