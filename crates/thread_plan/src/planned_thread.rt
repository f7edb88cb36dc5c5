//! A thread of a plan.

use wasm_types::{Items, Value};

/// An exported function of a module that runs as a thread, with its arguments.
#[derive(Debug, Drop)]
pub struct PlannedThread {
    /// The function's index.
    pub function: u32,
    /// A value for each parameter.
    pub arguments: Items<Value>,
}
