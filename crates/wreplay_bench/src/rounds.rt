//! The same bytes, decoded so many times.

ghost use Rattle.std.specs.Prelude.{IfOk, IsTrue, ◌↔◌};
ghost use Rattle.validator.specs.Valid.{WellTyped};
ghost use Rattle.wreplay_bench.specs.Rounds.{Decodes, Validates, Counts};

use binary_decoder::{DecodeFault, decode};
use std::alloc::Global;
use validator::{ValidFault, validate};
use wasm_types::{Module, NoMemory};

/// Whether the bytes spell a module within the limits.
fn is_module(alloc: Global, bytes: &[u8]) -> Result<bool, NoMemory>
    ensures { IfOk result (λ found. IsTrue found ↔ Decodes bytes.now) }
{
    match decode(alloc, bytes) {
        Ok(_) => Ok(true),
        Err(DecodeFault::NoMemory) => Err(NoMemory),
        Err(_) => Ok(false),
    }
}

/// Whether a module is well typed.
fn is_typed(alloc: Global, module: Module) -> Result<bool, NoMemory>
    ensures { IfOk result (λ found. IsTrue found ↔ WellTyped «module») }
{
    match validate(alloc, module) {
        Ok(_) => Ok(true),
        Err(ValidFault::NoMemory) => Err(NoMemory),
        Err(ValidFault::Invalid { .. }) => Ok(false),
    }
}

/// Whether the bytes spell a module within the limits that is well typed.
fn is_valid(alloc: Global, bytes: &[u8]) -> Result<bool, NoMemory>
    ensures { IfOk result (λ found. IsTrue found ↔ Validates bytes.now) }
{
    match decode(alloc, bytes) {
        Ok(module) => is_typed(alloc, module),
        Err(DecodeFault::NoMemory) => Err(NoMemory),
        Err(_) => Ok(false),
    }
}

/// Decodes the bytes so many times, and answers how often they gave a module.
pub fn decoded(alloc: Global, bytes: &[u8], times: u32) -> Result<u32, NoMemory>
    ensures { IfOk result (λ count. Counts (Decodes bytes.now) times count) }
{
    let mut count = 0;
    for _ in 0..times {
        if is_module(alloc, bytes)? {
            count += 1;
        }
    }
    Ok(count)
}

/// Decodes and validates the bytes so many times, and answers how often they gave a module that is well typed.
pub fn validated(alloc: Global, bytes: &[u8], times: u32) -> Result<u32, NoMemory>
    ensures { IfOk result (λ count. Counts (Validates bytes.now) times count) }
{
    let mut count = 0;
    for _ in 0..times {
        if is_valid(alloc, bytes)? {
            count += 1;
        }
    }
    Ok(count)
}
