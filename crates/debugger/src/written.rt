//! Who wrote a version of an object that threads made, and who read it.

ghost use Rattle.std.specs.Prelude.{◌≡◌, IfOk, string_bytes};
ghost use Rattle.event_core.specs.World.{world_of};
ghost use Rattle.replay_session.specs.Writers.{OneWriterEach};
ghost use Rattle.debugger.specs.Touched.{events_of, sought_line};
ghost use Rattle.debugger.specs.declared.touched.Events.TheVariants.{Made};
ghost use Rattle.debugger.specs.declared.touched.Role.TheVariants as role;

use crate::made_by::writing_event;
use crate::touched::{Events, Role, Sought, line_of, sought_text, write_if};
use event_core::World;
use replay_gate::ReadLog;
use rw_objects::{Machine, ObjectSpace};
use std::alloc::Global;
use wasm_types::NoMemory;

/// Which event wrote the version, of those that the threads made.
fn writer_of<M: Machine<S>, S: ObjectSpace, L: ReadLog>(
    alloc: Global,
    world: &World<M, S>,
    log: &L,
    sought: Sought,
) -> Result<String, NoMemory>
    requires writer { sought.role ≡ role.Writer }
    requires one { OneWriterEach (L.log log.now) (world_of world.now) }
    ensures { IfOk result (λ text. string_bytes text ≡ events_of (L.log log.now) sought Made 0 (world_of world.now).threads) }
{
    let mut text = String::new(alloc);
    match writing_event(world, log, sought) {
        Some(event) => {
            write_if(&mut text, true, event.thread, event.place)?;
            Ok(text)
        }
        None => Ok(text),
    }
}

/// The line that says who wrote a version of an object, or who read it, of the events that the threads made.
pub(crate) fn made_text<M: Machine<S>, S: ObjectSpace, L: ReadLog>(
    alloc: Global,
    world: &World<M, S>,
    log: &L,
    sought: Sought,
) -> Result<String, NoMemory>
    requires { OneWriterEach (L.log log.now) (world_of world.now) }
    ensures { IfOk result (λ text. string_bytes text ≡ sought_line sought (events_of (L.log log.now) sought Made 0 (world_of world.now).threads)) }
{
    match sought.role {
        Role::Writer => {
            let event = writer_of(alloc, world, log, sought)?;
            line_of(alloc, sought, event.as_str())
        }
        Role::Reader => sought_text(alloc, world, log, sought, Events::Made),
    }
}
