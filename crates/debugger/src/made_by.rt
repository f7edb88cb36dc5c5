//! Which event it was that wrote a version of an object.

ghost use Rattle.std.specs.Prelude.{◌≡◌, ◌+◌, ◌^◌, ◌<◌, IfSome};
ghost use Rattle.event_core.specs.World.{world_of};
ghost use Rattle.replay_session.specs.Writers.{OneWriterEach};
ghost use Rattle.debugger.specs.Touched.{IsFoundEvent, IsSomeOfLast, IsSomeOfThread, MadeAtMost, NoLast};
ghost use Rattle.debugger.specs.declared.touched.Role.TheVariants as role;

use crate::touched::Sought;
use event_core::World;
use replay_gate::ReadLog;
use replica::EventAt;
use rw_objects::{Machine, ObjectSpace};

/// How many events of a thread are looked through before those of the others.
const STRETCH: u32 = 4096;

/// Some event that did, of the stretch in front of a thread's last `back` events. The reader goes forward through it.
fn some_of_thread<L: ReadLog>(
    log: &L,
    reader: &mut L::Reader,
    sought: Sought,
    thread: u32,
    places: u32,
    back: u32,
) -> Option<u32>
    requires reads { L.reads log.now reader.old }
    requires few { thread < 16 }
    ensures found { IsSomeOfThread (L.log log.now) sought thread places back result }
    ensures reads { L.reads log.now reader.new }
{
    let end = places.saturating_sub(back);
    for place in end.saturating_sub(STRETCH)..end {
        log.read(reader, thread, place);
        if sought.is_item(L::held(reader, thread)) {
            return Some(place);
        }
    }
    None
}

/// Some event that did, of the stretches in front of the threads' last `back` events, which did not.
fn some_of_stretches<M: Machine<S>, S: ObjectSpace, L: ReadLog>(
    world: &World<M, S>,
    log: &L,
    reader: &mut L::Reader,
    sought: Sought,
    back: u32,
) -> Option<EventAt>
    requires reads { L.reads log.now reader.old }
    requires none { NoLast (L.log log.now) sought (world_of world.now).threads back }
    ensures found { IsSomeOfLast (L.log log.now) sought (world_of world.now).threads (back + STRETCH) result }
    ensures few { IfSome result (λ event. event.place + 1 < 2 ^ 32) }
    ensures reads { L.reads log.now reader.new }
{
    for number in 0..world.count() {
        let thread = number as u32;
        let Some(places) = world.places(thread) else {
            unreachable!()
        };
        match some_of_thread(log, reader, sought, thread, places, back) {
            Some(place) => return Some(EventAt { thread, place }),
            None => {}
        }
    }
    None
}

/// The most events that a thread made.
fn most_places<M: Machine<S>, S: ObjectSpace>(world: &World<M, S>) -> u32
    ensures { MadeAtMost (world_of world.now).threads result }
{
    let mut most = 0;
    for number in 0..world.count() {
        let Some(places) = world.places(number as u32) else {
            unreachable!()
        };
        if most < places {
            most = places;
        }
    }
    most
}

/// The event that wrote a version, of those that the threads of a world made. There is one at most, so that it is
/// looked for from the threads' last events back: it takes as long as there are events behind it.
pub(crate) fn writing_event<M: Machine<S>, S: ObjectSpace, L: ReadLog>(
    world: &World<M, S>,
    log: &L,
    sought: Sought,
) -> Option<EventAt>
    requires writer { sought.role ≡ role.Writer }
    requires one { OneWriterEach (L.log log.now) (world_of world.now) }
    ensures found { IsFoundEvent (L.log log.now) sought (world_of world.now).threads result }
    ensures few { IfSome result (λ event. event.place + 1 < 2 ^ 32) }
{
    if sought.version == 0 {
        return None;
    }
    let mut reader = log.reader();
    for round in 0..most_places(world).div_ceil(STRETCH) {
        match some_of_stretches(world, log, &mut reader, sought, round * STRETCH) {
            Some(event) => return Some(event),
            None => {}
        }
    }
    None
}
