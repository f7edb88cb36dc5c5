//! Versions that two entries claim to have written.

ghost use Rattle.std.specs.Prelude.{◌≡◌, ◌++◌, [], OnOk};
ghost use Rattle.replica.specs.Divergence.{doubles};

use crate::diverging::{Diverging, EventAt};
use crate::writes::{WriteAt, Written};
use std::alloc::Global;
use std::collections::BTreeMap;
use wasm_types::NoMemory;

/// Adds each write that an earlier one claims too, with the first that does.
pub(crate) fn add_doubles(
    alloc: Global,
    found: &mut Vec<Diverging>,
    writes: &[WriteAt],
) -> Result<(), NoMemory>
    ensures { OnOk result (found.new.items ≡ found.old.items ++ doubles [] writes.now) }
{
    let mut earlier: BTreeMap<Written, EventAt> = BTreeMap::new(alloc);
    for write in writes {
        match earlier.get(&write.written) {
            Some(first) => found.push(Diverging::DoubleWrite {
                object: write.written.object,
                version: write.written.version,
                first: *first,
                second: write.at,
            })?,
            None => {
                earlier.insert(write.written, write.at)?;
            }
        }
    }
    Ok(())
}
