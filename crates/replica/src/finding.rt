//! All contradictions of a log.

ghost use Rattle.std.specs.Prelude.{◌≡◌, ◌++◌, OnOk, IfOk};
ghost use Rattle.replica.specs.Divergence.{divergence, entry_clashes, end_clashes, writes};

use crate::clashes::{add_end, add_entries};
use crate::diverging::Diverging;
use crate::doubles::add_doubles;
use crate::log::Log;
use crate::writes::{WriteAt, add_thread};
use std::alloc::Global;
use wasm_types::{MOST_THREADS, NoMemory};

/// Adds the entries that clash, by thread and place.
fn add_all_entries(found: &mut Vec<Diverging>, log: &Log) -> Result<(), NoMemory>
    ensures { OnOk result (found.new.items ≡ found.old.items ++ entry_clashes log.now) }
{
    for thread in 0..MOST_THREADS as u32 {
        add_entries(found, log, thread)?;
    }
    Ok(())
}

/// Adds the ends that clash, by thread.
fn add_all_ends(found: &mut Vec<Diverging>, log: &Log) -> Result<(), NoMemory>
    ensures { OnOk result (found.new.items ≡ found.old.items ++ end_clashes log.now) }
{
    for thread in 0..MOST_THREADS as u32 {
        add_end(found, log, thread)?;
    }
    Ok(())
}

/// The writes that known entries claim, by thread and place.
fn all_writes(alloc: Global, log: &Log) -> Result<Vec<WriteAt>, NoMemory>
    ensures { IfOk result (λ found. found.items ≡ writes log.now) }
{
    let mut found = Vec::new(alloc);
    for thread in 0..MOST_THREADS as u32 {
        add_thread(&mut found, log, thread)?;
    }
    Ok(found)
}

/// The contradictions of a log: the entries that clash, by thread and place, then the ends that clash, by thread, then
/// each write of a version of an object that an earlier event, by thread and place, claims too. It refuses for want of
/// memory alone.
pub fn divergence(alloc: Global, log: &Log) -> Result<Vec<Diverging>, NoMemory>
    ensures { IfOk result (λ found. found.items ≡ divergence log.now) }
{
    let mut found = Vec::new(alloc);
    add_all_entries(&mut found, log)?;
    add_all_ends(&mut found, log)?;
    let writes = all_writes(alloc, log)?;
    add_doubles(alloc, &mut found, writes.as_slice())?;
    Ok(found)
}
