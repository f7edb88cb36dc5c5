//! Values whose `==` tells all of them apart, and that can be copied.

ghost use Rattle.std.specs.Prelude.{◌≡◌, IfOk};
ghost use Rattle.std.specs.Bool.{Decides};
ghost use Rattle.std.proofs.lemmas.Bool.Decides.{Decides-eqb};

use crate::no_memory::NoMemory;
use std::alloc::Global;

/// A type whose `==` answers yes for identical values alone, and whose values can be copied.
pub trait Same: Eq + Drop {
    /// A value that equals this one.
    fn copy(&self, alloc: Global) -> Result<Self, NoMemory>
        ensures { IfOk result (λ copied. copied ≡ self.now) };

    ghost decides: { (x y : Self) → Decides (Self.eq x y) (x ≡ y) };
}

impl Same for u8 {
    fn copy(&self, _alloc: Global) -> Result<u8, NoMemory> {
        Ok(*self)
    }

    ghost decides = { λ x y. Decides-eqb x y };
}

impl Same for u32 {
    fn copy(&self, _alloc: Global) -> Result<u32, NoMemory> {
        Ok(*self)
    }

    ghost decides = { λ x y. Decides-eqb x y };
}

impl Same for u64 {
    fn copy(&self, _alloc: Global) -> Result<u64, NoMemory> {
        Ok(*self)
    }

    ghost decides = { λ x y. Decides-eqb x y };
}
