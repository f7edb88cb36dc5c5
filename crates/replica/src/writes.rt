//! The writes that the known entries of a log claim.

ghost use Rattle.std.specs.Prelude.{◌≡◌, ◌++◌, OnOk};
ghost use Rattle.std.specs.List.{flat_map};
ghost use Rattle.replica.specs.Log.{items_at};
ghost use Rattle.replica.specs.Divergence.{write_of, writes_of_item};

use crate::diverging::EventAt;
use crate::log::Log;
use log_pieces::Flat;
use rw_objects::{Entry, Found};
use wasm_types::NoMemory;

/// A version of an object that a write made.
#[derive(Clone, Copy, Debug, PartialEq, Eq, PartialOrd, Ord)]
pub(crate) struct Written {
    pub(crate) object: u32,
    pub(crate) version: u64,
}

/// A write, and where it stands.
#[derive(Clone, Copy, Debug)]
pub(crate) struct WriteAt {
    pub(crate) written: Written,
    pub(crate) at: EventAt,
}

/// Adds the writes of an entry.
fn add_entry(writes: &mut Vec<WriteAt>, at: EventAt, entry: &Entry) -> Result<(), NoMemory>
    ensures { OnOk result (writes.new.items ≡ writes.old.items ++ flat_map (write_of at.thread at.place) entry.now.found) }
{
    for found in entry.found.as_slice() {
        if let Found::Write {
            object,
            version,
            ..
        } = *found
        {
            let written = Written { object, version };
            writes.push(WriteAt { written, at })?;
        }
    }
    Ok(())
}

/// Adds the writes of a thread's entries, by rising place.
pub(crate) fn add_thread(writes: &mut Vec<WriteAt>, log: &Log, thread: u32) -> Result<(), NoMemory>
    ensures { OnOk result (writes.new.items ≡ writes.old.items ++ flat_map (writes_of_item thread) (items_at log.now thread)) }
{
    let Some(items) = log.items(thread) else {
        return Ok(());
    };
    for (place, item) in items {
        if let Flat::Known(entry) = item {
            add_entry(writes, EventAt { thread, place }, &entry)?;
        }
    }
    Ok(())
}
