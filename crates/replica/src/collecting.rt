//! The touches of objects that the known entries of a log claim.

ghost use Rattle.std.specs.Prelude.{◌≡◌, ◌++◌, map, IfOk, OnOk};
ghost use Rattle.std.specs.List.{flat_map};
ghost use Rattle.replica.specs.Log.{items_at};
ghost use Rattle.replica.specs.Touched.{touch_of, touches_of_item, known_touches};

use crate::Log;
use crate::threads::ThreadNumber;
use crate::touch::ObjectTouch;
use log_pieces::Flat;
use rw_objects::{Entry, Found};
use std::alloc::{AllocError, Global};
use wasm_types::MOST_THREADS;

impl ObjectTouch {
    /// What a touch found, by the event at a place of a thread.
    pub(crate) fn of(found: Found, thread: ThreadNumber, place: u32) -> ObjectTouch
        ensures { result ≡ touch_of thread place found }
    {
        match found {
            Found::Read { object, version } => ObjectTouch {
                object,
                found: version,
                is_write: false,
                thread,
                place,
            },
            Found::Write {
                object,
                version,
                ..
            } => ObjectTouch {
                object,
                found: version,
                is_write: true,
                thread,
                place,
            },
        }
    }
}

/// Adds the touches of the entry at a place of a thread.
fn add_entry(
    touches: &mut Vec<ObjectTouch>,
    thread: ThreadNumber,
    place: u32,
    entry: &Entry,
) -> Result<(), AllocError>
    ensures { OnOk result (touches.new.items ≡ touches.old.items ++ map (touch_of thread place) entry.now.found) }
{
    for found in entry.found.as_slice() {
        touches.push(ObjectTouch::of(*found, thread, place))?;
    }
    Ok(())
}

/// Adds the touches of a thread's entries, by rising place.
fn add_thread(
    touches: &mut Vec<ObjectTouch>,
    log: &Log,
    thread: ThreadNumber,
) -> Result<(), AllocError>
    ensures { OnOk result (touches.new.items ≡ touches.old.items ++ flat_map (touches_of_item thread) (items_at log.now thread)) }
{
    let Some(items) = log.items(thread.number()) else {
        return Ok(());
    };
    for (place, item) in items {
        if let Flat::Known(entry) = item {
            add_entry(touches, thread, place, &entry)?;
        }
    }
    Ok(())
}

/// The touches of all known entries, by rising thread and place.
pub(crate) fn all_touches(alloc: Global, log: &Log) -> Result<Vec<ObjectTouch>, AllocError>
    ensures { IfOk result (λ found. found.items ≡ known_touches log.now) }
{
    let mut found = Vec::new(alloc);
    for number in 0..MOST_THREADS as u32 {
        add_thread(&mut found, log, ThreadNumber::new(number))?;
    }
    Ok(found)
}
