//! Laws of operations on a shared memory.

ghost use Rattle.block_objects.specs.Bounds.{OpsWithinFit};

/// An operation that carries a memory's numbers and ends within its capacity fits the memory: it touches objects that
/// are there.
pub fn operations_within_fit()
    ensures { OpsWithinFit }
{}
