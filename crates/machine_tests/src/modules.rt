//! Modules in hex, and worlds of their threads.

use binary_decoder::decode;
use event_core::World;
use std::alloc::Global;
use std::test::Fail;
use validator::{Valid, validate};
use wasm_types::Profile;
use wasm_world::{Plan, SharedSpace, ThreadState, open_world};

/// The bytes of these digits, between which there may be spaces.
fn bytes_of(alloc: Global, digits: &str) -> Result<Vec<u8>, Fail> {
    let digits = digits.replace(alloc, ' ', "")?;
    Ok(hex::decode(alloc, digits.as_str())?)
}

/// The valid module of these digits, between which there may be spaces.
pub(crate) fn valid(alloc: Global, module: &str) -> Result<Valid, Fail> {
    let bytes = bytes_of(alloc, module)?;
    Ok(validate(alloc, decode(alloc, &bytes)?)?)
}

/// The world of threads over a shared memory.
pub(crate) type Threads<'a> = World<ThreadState<'a>, SharedSpace>;

/// The world of a plan before the first step.
pub(crate) fn open<'a>(alloc: Global, valid: &'a Valid, plan: &str) -> Result<Threads<'a>, Fail> {
    if !valid.fits(&Profile::One) {
        return Err("the module does not fit profile 1".into());
    }
    let plan = Plan::read(alloc, plan.as_bytes(), valid)?;
    Ok(open_world(alloc, valid, &plan, Profile::One)?)
}
