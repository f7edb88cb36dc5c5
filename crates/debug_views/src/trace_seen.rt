//! What is seen of a thread before its event.

ghost use Rattle.std.specs.Prelude.{◌≡◌, Some, slice_get};
ghost use Rattle.block_objects.specs.SharedMemory.{shared_memory};
ghost use Rattle.event_core.specs.World.{world_of};
ghost use Rattle.wasm_types.specs.Accesses.{access_width};
ghost use Rattle.debug_views.specs.Trace.{action_if, action_of, accessed, is_of_length, pages_in, measured, number_if, seen_by};
ghost use Rattle.debug_views.specs.Values.{memory_bytes};

use block_objects::access_number;
use event_core::{Input, Pick, PickStep, World};
use integer_machine::{CodePlace, ThreadState};
use wasm_types::{Access, Action, Op};
use wasm_world::SharedSpace;

/// What is seen of a thread before its event.
#[derive(Clone, Copy, Debug)]
pub(crate) struct Seen {
    /// The event's place.
    pub(crate) place: u32,
    /// Where the thread stands in the function that runs.
    pub(crate) standing: Option<CodePlace>,
    /// What the event does.
    pub(crate) action: Action,
    /// The number at its address, or how many pages there are.
    pub(crate) found: Option<u64>,
}

/// What the step of a pick does, where it is an event.
fn action_if(step: PickStep<Op>) -> Option<Action>
    ensures { result ≡ action_if step }
{
    match step {
        PickStep::Event(op) => Some(op.action),
        PickStep::Local | PickStep::Refused(_) => None,
    }
}

/// What a thread's next event does, if that comes next.
pub(crate) fn action_of(world: &World<ThreadState<'_>, SharedSpace>, thread: u32) -> Option<Action>
    ensures { result ≡ action_of (world_of world.now) thread }
{
    let input = Input::Go;
    match world.step_of(Pick { thread, input }) {
        PickStep::Event(op) => Some(op.action),
        PickStep::Local => None,
        PickStep::Refused(_) => {
            let input = Input::TimeOut;
            action_if(world.step_of(Pick { thread, input }))
        }
    }
}

/// The number that an access finds at an address, where the bytes reach so far.
#[inline(always)]
fn number_if(bytes: &[u8], access: Access, address: u32) -> Option<u64>
    ensures { result ≡ number_if (access_width access) address bytes.now }
{
    let at = address as usize;
    let end = at + access.width().bytes() as usize;
    if end <= bytes.len() {
        Some(access_number(&bytes[at..], access))
    } else {
        None
    }
}

/// The access of an action to numbers in memory, and its address.
pub(crate) fn accessed(action: &Action) -> Option<(Access, u32)>
    ensures { result ≡ accessed action.now }
{
    match *action {
        Action::Load { load, address } => Some((load.access(), address)),
        Action::Store {
            access,
            address,
            ..
        } => Some((access, address)),
        Action::Rmw {
            access,
            address,
            ..
        } => Some((access, address)),
        Action::CompareExchange {
            access,
            address,
            ..
        } => Some((access, address)),
        Action::Wait { width, address, .. } => Some((Access::Whole(width), address)),
        _ => None,
    }
}

/// Whether an action is of the memory's length.
fn is_of_length(action: &Action) -> bool
    ensures { result ≡ is_of_length action.now }
{
    match action {
        Action::Size | Action::Grow { .. } => true,
        _ => false,
    }
}

/// How many pages there are.
pub(crate) fn pages_in(world: &World<ThreadState<'_>, SharedSpace>) -> u32
    ensures { result ≡ pages_in (world_of world.now) }
{
    world.space().pages()
}

/// The number that an access finds at an address in memory, little-endian; none where memory ends before it.
#[inline(always)]
pub fn number_in(
    world: &World<ThreadState<'_>, SharedSpace>,
    access: Access,
    address: u32,
) -> Option<u64>
    ensures { result ≡ number_if (access_width access) address (memory_bytes shared_memory (world_of world.now)) }
{
    number_if(world.space().bytes(), access, address)
}

/// The number at an action's address, or how many pages there are.
pub(crate) fn measured(action: &Action, world: &World<ThreadState<'_>, SharedSpace>) -> Option<u64>
    ensures { result ≡ measured action.now (world_of world.now) }
{
    match accessed(action) {
        Some((access, address)) => number_in(world, access, address),
        None => {
            if is_of_length(action) {
                Some(u64::from(pages_in(world)))
            } else {
                None
            }
        }
    }
}

/// What is seen of a thread whose next event does this.
pub(crate) fn seen_of(
    world: &World<ThreadState<'_>, SharedSpace>,
    thread: u32,
    action: Action,
) -> Option<Seen>
    ensures { result ≡ seen_by (world_of world.now) (slice_get (world_of world.now).threads thread) (Some action) }
{
    let machine = world.machine(thread)?;
    let place = world.places(thread)?;
    Some(Seen {
        place,
        standing: machine.code_place(0),
        action,
        found: measured(&action, world),
    })
}
