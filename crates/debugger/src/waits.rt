//! What a thread's next event waits for.

ghost use Rattle.std.specs.Prelude.{◌≡◌, ◌++◌, IfOk, OnOk, option_copied, string_bytes};
ghost use Rattle.event_core.specs.World.{world_of};
ghost use Rattle.debugger.specs.Waits.{awaited, awaited_by, awaited_line, awaited_lines, found_line, waits_text};

use crate::around::write_next;
use crate::touched::{Events, Role, Sought, sought_text};
use event_core::World;
use log_pieces::Flat;
use replay_gate::{Gate, ReadLog, gate};
use rw_objects::{Count, Entry, Found, Machine, ObjectSpace};
use std::alloc::Global;
use wasm_types::NoMemory;

/// What an event that found this of an object waits for, where the object has this count.
fn awaited(found: &Found, here: Count) -> Option<Sought>
    ensures { result ≡ awaited found.now here }
{
    let (role, object, version) = match *found {
        Found::Read { object, version } if here.version != version => {
            (Role::Writer, object, version)
        }
        Found::Write {
            object,
            version,
            ..
        } if here.version != version => { (Role::Writer, object, version) }
        Found::Write {
            object,
            version,
            reads,
        } if here.reads != reads => { (Role::Reader, object, version) }
        Found::Read { .. } | Found::Write { .. } => return None,
    };
    Some(Sought {
        role,
        object,
        version,
    })
}

/// Writes which events ahead do what is awaited, if anything is, as a line.
fn write_sought<M: Machine<S>, S: ObjectSpace, L: ReadLog>(
    alloc: Global,
    text: &mut String,
    world: &World<M, S>,
    log: &L,
    sought: Option<Sought>,
) -> Result<(), NoMemory>
    ensures { OnOk result (string_bytes text.new ≡ string_bytes text.old ++ awaited_line (L.log log.now) (world_of world.now).threads sought) }
{
    if let Some(sought) = sought {
        let line = sought_text(alloc, world, log, sought, Events::Ahead)?;
        text.push_str(line.as_str())?;
    }
    Ok(())
}

/// Writes what an event that found this of an object waits for, if the object is not so, as a line.
fn write_awaited<M: Machine<S>, S: ObjectSpace, L: ReadLog>(
    alloc: Global,
    text: &mut String,
    world: &World<M, S>,
    log: &L,
    found: &Found,
) -> Result<(), NoMemory>
    ensures { OnOk result (string_bytes text.new ≡ string_bytes text.old ++ found_line (L.log log.now) (world_of world.now).threads (world_of world.now).memory.counts found.now) }
{
    let here = world.versions().at(found.object());
    write_sought(alloc, text, world, log, awaited(found, here))
}

/// Writes what an event that found this waits for, a line for each touch that is not as it was found.
fn write_all_awaited<M: Machine<S>, S: ObjectSpace, L: ReadLog>(
    alloc: Global,
    text: &mut String,
    world: &World<M, S>,
    log: &L,
    all: &[Found],
) -> Result<(), NoMemory>
    ensures { OnOk result (string_bytes text.new ≡ string_bytes text.old ++ awaited_lines (L.log log.now) (world_of world.now).threads (world_of world.now).memory.counts all.now) }
{
    for found in all {
        write_awaited(alloc, text, world, log, found)?;
    }
    Ok(())
}

/// Writes what an event of which this is claimed waits for.
fn write_awaited_by<M: Machine<S>, S: ObjectSpace, L: ReadLog>(
    alloc: Global,
    text: &mut String,
    world: &World<M, S>,
    log: &L,
    item: Option<&Flat<Entry>>,
) -> Result<(), NoMemory>
    ensures { OnOk result (string_bytes text.new ≡ string_bytes text.old ++ awaited_by (L.log log.now) (world_of world.now).threads (world_of world.now).memory.counts (option_copied item.entry)) }
{
    match item {
        Some(Flat::Known(entry)) => {
            write_all_awaited(alloc, text, world, log, entry.found.as_slice())
        }
        Some(Flat::Clash) | None => Ok(()),
    }
}

/// The next event of a thread that has made so many, and which events ahead it waits for, or how the gate before it is.
pub(crate) fn waits_text<M: Machine<S>, S: ObjectSpace, L: ReadLog>(
    alloc: Global,
    world: &World<M, S>,
    log: &L,
    thread: u32,
    places: u32,
) -> Result<String, NoMemory>
    ensures { IfOk result (λ text. string_bytes text ≡ waits_text (L.log log.now) (world_of world.now).threads (world_of world.now).memory.counts thread places) }
{
    let mut text = String::new(alloc);
    let item = log.entry(thread, places);
    write_next(&mut text, thread, places, item.as_ref())?;
    match gate(log, world.versions(), thread, places) {
        Gate::Open => text.push_str("open\n")?,
        Gate::Shut => write_awaited_by(alloc, &mut text, world, log, item.as_ref())?,
        Gate::Missing => text.push_str("missing\n")?,
        Gate::Clash => text.push_str("clash\n")?,
        Gate::Done => text.push_str("done\n")?,
    }
    Ok(text)
}
