//! Tests of worlds behind steps: of where threads stand in the code, and of numbers that are watched.

ghost use Rattle.std.specs.Prelude.{◌≡◌, position};
ghost use Rattle.event_core.specs.World.{world_of};
ghost use Rattle.debugger.specs.CodeTests.{depth_in, is_behind, is_out, is_same, place_among, place_in, stands_at};

use crate::watching::{Seen, is_any_changed};
use event_core::World;
use replay_session::Test;
use wasm_world::{CodePlace, SharedSpace, ThreadState};

/// In how many functions a thread is; one that has ended is in none.
pub(crate) fn depth_in(world: &World<ThreadState<'_>, SharedSpace>, thread: u32) -> usize
    ensures { result ≡ depth_in (world_of world.now) thread }
{
    match world.machine(thread) {
        Some(machine) => machine.code_depth(),
        None => 0,
    }
}

/// Which instruction comes next in the function that a thread runs.
fn place_in(world: &World<ThreadState<'_>, SharedSpace>, thread: u32) -> Option<CodePlace>
    ensures { result ≡ place_in (world_of world.now) thread }
{
    match world.machine(thread) {
        Some(machine) => machine.code_place(0),
        None => None,
    }
}

/// Whether two instructions are one.
fn is_same(one: CodePlace, other: CodePlace) -> bool
    ensures { result ≡ is_same one other }
{
    one.function == other.function && one.instruction == other.instruction
}

/// Which of these an instruction is.
fn index_of(places: &[CodePlace], place: CodePlace) -> Option<usize>
    ensures { result ≡ position (λ q. is_same q place) places.now }
{
    places.iter().position(|one| is_same(*one, place))
}

/// Which of these an instruction is, if there is one.
fn place_among(places: &[CodePlace], place: Option<CodePlace>) -> Option<usize>
    ensures { result ≡ place_among places.now place }
{
    match place {
        Some(place) => index_of(places, place),
        None => None,
    }
}

/// Whether a thread is in fewer functions than so many.
#[derive(Clone, Copy, Debug)]
pub(crate) struct Out {
    pub(crate) depth: usize,
}

impl<'b> Test<ThreadState<'b>, SharedSpace> for Out {
    ghost holds = { λ out w thread. is_out out.depth w thread };

    fn test(&self, world: &World<ThreadState<'b>, SharedSpace>, thread: u32) -> Option<usize> {
        if depth_in(world, thread) < self.depth {
            Some(0)
        } else {
            None
        }
    }
}

/// Whether a thread stands at an instruction of a list, or a number that is watched is other than it was.
#[derive(Clone, Copy, Debug)]
pub(crate) struct Behind<'a> {
    pub(crate) places: &'a [CodePlace],
    pub(crate) seen: &'a [Seen],
}

impl<'a, 'b> Test<ThreadState<'b>, SharedSpace> for Behind<'a> {
    ghost holds = { λ b w thread. is_behind b.places.now b.seen.now w thread };

    fn test(&self, world: &World<ThreadState<'b>, SharedSpace>, thread: u32) -> Option<usize> {
        match place_among(self.places, place_in(world, thread)) {
            Some(index) => Some(index),
            None if is_any_changed(world, self.seen) => Some(self.places.len()),
            None => None,
        }
    }
}
