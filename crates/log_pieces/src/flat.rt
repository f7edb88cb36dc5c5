//! One item that any number of sides may claim.

use crate::join::Join;
use std::alloc::Global;
use wasm_types::{NoMemory, Same};

/// What is claimed of one item.
#[derive(Debug, PartialEq, Eq, Drop)]
pub enum Flat<T> {
    /// All claims are of this item.
    Known(T),
    /// Two claims differ.
    Clash,
}

impl<T: Same> Same for Flat<T> {
    fn copy(&self, alloc: Global) -> Result<Flat<T>, NoMemory> {
        match self {
            Flat::Known(item) => Ok(Flat::Known(item.copy(alloc)?)),
            Flat::Clash => Ok(Flat::Clash),
        }
    }

    ghost use Rattle.std.specs.Prelude.{refl};
    ghost use Rattle.log_pieces.specs.ClaimDecides.{flat_decides};

    ghost decides = { flat_decides T.eq T.decides _ (λ x y. refl) (λ x. refl) (λ x. refl) refl };
}

impl<T: Same> Join for Flat<T> {
    ghost use Rattle.std.specs.Prelude.{◌≡◌};
    ghost use Rattle.log_pieces.specs.Flat.{flat_joined};
    ghost use Rattle.log_pieces.specs.FlatLaws.{flat_laws};

    ghost same = { λ a b. a ≡ b };

    ghost joined = { flat_joined T.eq };

    ghost partly = { λ a b c. ⊥ };

    /// Takes no memory, and never answers `NoMemory`.
    fn join_from(&mut self, _alloc: Global, other: &Flat<T>) -> Result<(), NoMemory> {
        let alike = match (&*self, other) {
            (Flat::Known(mine), Flat::Known(theirs)) => mine == theirs,
            _ => false,
        };
        if !alike {
            *self = Flat::Clash;
        }
        Ok(())
    }

    ghost laws = { flat_laws T.eq T.decides };
}
