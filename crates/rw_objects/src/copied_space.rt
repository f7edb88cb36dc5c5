//! Spaces that can be copied.

ghost use Rattle.std.specs.Prelude.{◌≡◌, IfOk};

use crate::space::ObjectSpace;
use std::alloc::Global;
use wasm_types::NoMemory;

/// A space that can be copied.
pub trait CopiedSpace: ObjectSpace {
    /// Another space with the same values.
    fn copied(&self, alloc: Global) -> Result<Self, NoMemory>
        ensures fixed { IfOk result (λ copy. Self.fixed copy ≡ Self.fixed self.now) }
        ensures values { IfOk result (λ copy. Self.values copy ≡ Self.values self.now) };
}
