//! Rounds of decoding, and of decoding and validating.

use crate::rounds::{decoded, validated};
use std::alloc::Global;
use wasm_types::NoMemory;

/// What is measured.
#[derive(Clone, Copy)]
enum Mode {
    /// Decoding alone.
    Decode,
    /// Decoding and validating.
    Validate,
}

/// What a word asks for.
fn mode_of(word: &str) -> Option<Mode> {
    match word {
        "decode" => Some(Mode::Decode),
        "validate" => Some(Mode::Validate),
        _ => None,
    }
}

/// Does it so many times.
fn measured(alloc: Global, mode: Mode, bytes: &[u8], times: u32) -> Result<u32, NoMemory> {
    match mode {
        Mode::Decode => decoded(alloc, bytes, times),
        Mode::Validate => validated(alloc, bytes, times),
    }
}

/// Does what the words ask for with these bytes, so many times, and answers how many of them gave a module; nothing
/// where the words ask for nothing.
pub(crate) fn rounds_asked(
    alloc: Global,
    mode: &str,
    bytes: &[u8],
    times: &str,
) -> Result<Option<u32>, NoMemory> {
    let (Some(mode), Ok(times)) = (mode_of(mode), times.parse::<u32>()) else {
        return Ok(None);
    };
    let count = measured(alloc, mode, bytes, times)?;
    Ok(Some(count))
}
