//! Scripted steps: those of a world, or the machine's and the space's own part of them alone.

use crate::parts::parts_alone;
use crate::scripts::script;
use crate::whole::{entries_kept, entries_read};
use std::alloc::Global;
use wasm_types::NoMemory;

/// What is measured.
#[derive(Clone, Copy)]
enum Mode {
    /// The machine's and the space's own work.
    Parts,
    /// Steps of a world, each entry looked at and given up.
    Read,
    /// Steps of a world, each entry kept, as a recorder keeps them.
    Kept,
}

/// What a word asks for.
fn mode_of(word: &str) -> Option<Mode> {
    match word {
        "parts" => Some(Mode::Parts),
        "read" => Some(Mode::Read),
        "kept" => Some(Mode::Kept),
        _ => None,
    }
}

/// Makes the steps, and answers a number that depends on each of them.
fn measured(alloc: Global, mode: Mode, steps: u32) -> Result<u64, NoMemory> {
    let script = script(alloc, steps)?;
    match mode {
        Mode::Parts => parts_alone(alloc, &script),
        Mode::Read => entries_read(alloc, &script),
        Mode::Kept => entries_kept(alloc, &script),
    }
}

/// Makes the steps that the words ask for, so many of each of four threads, and answers a number that depends on each
/// of them; nothing where the words ask for none.
pub(crate) fn steps_asked(alloc: Global, mode: &str, steps: &str) -> Result<Option<u64>, NoMemory> {
    let (Some(mode), Ok(steps)) = (mode_of(mode), steps.parse::<u32>()) else {
        return Ok(None);
    };
    let sum = measured(alloc, mode, steps)?;
    Ok(Some(sum))
}
