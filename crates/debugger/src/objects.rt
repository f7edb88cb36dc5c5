//! Objects, as lines.

ghost use Rattle.std.specs.Prelude.{◌≡◌, IfOk, string_bytes};
ghost use Rattle.event_core.specs.World.{world_of};
ghost use Rattle.replay_session.specs.Writers.{OneWriterEach};
ghost use Rattle.debugger.specs.Touched.{object_text};

use crate::touched::{Role, Sought};
use crate::written::made_text;
use event_core::World;
use replay_gate::ReadLog;
use replica::object_text as place_text;
use rw_objects::{Count, Machine, ObjectSpace};
use std::alloc::Global;
use wasm_types::{Block, NoMemory};

/// Which bytes an object is, its version and read total, which event made that version, and which have read it, of
/// those made so far.
pub(crate) fn object_text<M: Machine<S>, S: ObjectSpace, L: ReadLog>(
    alloc: Global,
    world: &World<M, S>,
    log: &L,
    block: Block,
    object: u32,
    count: Count,
) -> Result<String, NoMemory>
    requires { OneWriterEach (L.log log.now) (world_of world.now) }
    ensures { IfOk result (λ text. string_bytes text ≡ object_text (L.log log.now) block (world_of world.now).threads object count) }
{
    let place = place_text(block, object);
    let place = place.as_str();
    let version = count.version;
    let reads = count.reads;
    let role = Role::Writer;
    let written = made_text(
        alloc,
        world,
        log,
        Sought {
            role,
            object,
            version,
        },
    )?;
    let role = Role::Reader;
    let read = made_text(
        alloc,
        world,
        log,
        Sought {
            role,
            object,
            version,
        },
    )?;
    let written = written.as_str();
    let read = read.as_str();
    Ok(format!(in alloc;
        "object {object} {place} version {version} reads {reads}\n{written}{read}"
    )?)
}
