//! Items of a log that pieces claim differently.

ghost use Rattle.std.specs.Prelude.{◌≡◌, ◌++◌, OnOk};
ghost use Rattle.std.specs.List.{flat_map};
ghost use Rattle.replica.specs.Log.{items_at, end_at};
ghost use Rattle.replica.specs.Divergence.{clash_of_item, clash_of_end};

use crate::diverging::Diverging;
use crate::log::Log;
use log_pieces::Flat;
use wasm_types::NoMemory;

/// Adds the places of a thread whose entry clashes, by rising place.
pub(crate) fn add_entries(
    found: &mut Vec<Diverging>,
    log: &Log,
    thread: u32,
) -> Result<(), NoMemory>
    ensures { OnOk result (found.new.items ≡ found.old.items ++ flat_map (clash_of_item thread) (items_at log.now thread)) }
{
    let Some(items) = log.items(thread) else {
        return Ok(());
    };
    for (place, item) in items {
        if let Flat::Clash = item {
            let place = Some(place);
            found.push(Diverging::Clash { thread, place })?;
        }
    }
    Ok(())
}

/// Adds a thread's end, if it clashes.
pub(crate) fn add_end(found: &mut Vec<Diverging>, log: &Log, thread: u32) -> Result<(), NoMemory>
    ensures { OnOk result (found.new.items ≡ found.old.items ++ clash_of_end thread (end_at log.now thread)) }
{
    if let Some(Flat::Clash) = log.end(thread) {
        let place = None;
        found.push(Diverging::Clash { thread, place })?;
    }
    Ok(())
}
