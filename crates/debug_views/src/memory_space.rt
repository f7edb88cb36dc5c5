//! Spaces that are a memory, whose bytes can be read where they stand.

ghost use Rattle.std.specs.Prelude.{◌≡◌};

use rw_objects::ObjectSpace;
use wasm_world::SharedSpace;

/// A space of objects whose image can be read where it stands.
pub trait MemorySpace: ObjectSpace {
    /// The bytes that stand for the space now. It takes no memory.
    fn bytes(&self) -> &[u8]
        ensures { result.now ≡ Self.meaning.image (Self.fixed self.now) (Self.values self.now) };
}

impl MemorySpace for SharedSpace {
    fn bytes(&self) -> &[u8] {
        SharedSpace::bytes(self)
    }
}
