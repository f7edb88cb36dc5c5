//! Two values side by side.

use crate::join::Join;
use std::alloc::Global;
use wasm_types::{NoMemory, Same};

/// A first part and a second one, joined part by part.
#[derive(Debug, PartialEq, Eq, Drop)]
pub struct Both<A, B> {
    pub first: A,
    pub second: B,
}

impl<A: Same, B: Same> Same for Both<A, B> {
    fn copy(&self, alloc: Global) -> Result<Both<A, B>, NoMemory> {
        Ok(Both {
            first: self.first.copy(alloc)?,
            second: self.second.copy(alloc)?,
        })
    }

    ghost use Rattle.log_pieces.specs.ClaimDecides.{both_decides};

    ghost decides = { both_decides A.eq B.eq A.Same.decides B.Same.decides };
}

impl<A: Join, B: Join> Join for Both<A, B> {
    ghost use Rattle.log_pieces.specs.Both.{both_same, both_joined, both_partly};
    ghost use Rattle.log_pieces.specs.BothLaws.{both_laws};

    ghost same = { both_same A.same B.same };

    ghost joined = { both_joined A.joined B.joined };

    ghost partly = { both_partly A.same A.joined A.partly B.partly };

    /// Joins the first part, then the second.
    fn join_from(&mut self, alloc: Global, other: &Both<A, B>) -> Result<(), NoMemory> {
        self.first.join_from(alloc, &other.first)?;
        self.second.join_from(alloc, &other.second)
    }

    ghost laws = { both_laws A.Join.laws B.Join.laws };
}
