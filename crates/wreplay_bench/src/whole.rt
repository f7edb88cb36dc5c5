//! Steps of a world.

use event_core::{Input, Pick, StepFault, Stepped, World};
use rw_objects::{Entry, Found};
use scripted::{Cells, Script, ScriptStep, open_scripts};
use std::alloc::Global;
use wasm_types::NoMemory;

/// The world of four threads that make the script over cells of zeros.
fn open(alloc: Global, script: &[ScriptStep]) -> Result<World<Script, Cells>, NoMemory> {
    let scripts = [script, script, script, script];
    open_scripts(alloc, &scripts, [0, 0, 0])
}

/// The step of a thread.
fn go(world: &mut World<Script, Cells>, thread: u32) -> Result<Stepped, NoMemory> {
    let pick = Pick {
        thread,
        input: Input::Go,
    };
    match world.step(pick) {
        Ok(stepped) => Ok(stepped),
        Err(StepFault::NoMemory) => Err(NoMemory),
        Err(_) => Ok(Stepped::Local),
    }
}

/// The sum of the versions that a step found.
fn versions_found(stepped: &Stepped) -> u64 {
    let Stepped::Event(entry) = stepped else {
        return 0;
    };
    let mut sum = 0u64;
    for found in entry.found.as_slice() {
        sum = sum.wrapping_add(match *found {
            Found::Read { version, .. } => version,
            Found::Write { version, .. } => version,
        });
    }
    sum
}

/// Makes the script in each of four threads, a step of each in turn, and answers the sum of the versions found.
pub fn entries_read(alloc: Global, script: &[ScriptStep]) -> Result<u64, NoMemory> {
    let mut world = open(alloc, script)?;
    let mut sum = 0u64;
    for _ in 0..script.len() {
        for thread in 0..4 {
            sum = sum.wrapping_add(versions_found(&go(&mut world, thread)?));
        }
    }
    Ok(sum)
}

/// Puts the entry of a thread's step behind the others.
fn keep(
    entries: &mut Vec<Entry>,
    world: &mut World<Script, Cells>,
    thread: u32,
) -> Result<(), NoMemory> {
    if let Stepped::Event(entry) = go(world, thread)? {
        entries.push(entry)?;
    }
    Ok(())
}

/// The same, with all entries kept; it answers how many there are.
pub fn entries_kept(alloc: Global, script: &[ScriptStep]) -> Result<u64, NoMemory> {
    let mut world = open(alloc, script)?;
    let mut entries = Vec::new(alloc);
    for _ in 0..script.len() {
        for thread in 0..4 {
            keep(&mut entries, &mut world, thread)?;
        }
    }
    Ok(entries.len() as u64)
}
