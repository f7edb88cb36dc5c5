//! The join of two values, and its laws.

ghost use Rattle.std.specs.Prelude.{OnOk, OnErr};
ghost use Rattle.log_pieces.specs.Join.{IsJoin, IsBelow};
ghost use Rattle.log_pieces.specs.JoinLaws.{join_above};

use std::alloc::Global;
use wasm_types::{NoMemory, Same};

/// Values that can be joined: in any order, any grouping, any number of times.
pub trait Join: Same {
    /// That two values say the same.
    ghost same: { Self → Self → Type 0 };

    /// The join of two values.
    ghost joined: { Self → Self → Self };

    /// What want of memory may leave of the first value, to which the second was to be joined.
    ghost partly: { Self → Self → Self → Type 0 };

    /// Joins the other value to this one. After `NoMemory` it is joined in part, and joining again completes it.
    fn join_from(&mut self, alloc: Global, other: &Self) -> Result<(), NoMemory>
        ensures joined { OnOk result (same self.new (joined self.old other.now)) }
        ensures partly { OnErr result (partly self.old other.now self.new) };

    /// `same` is an equivalence, which the join respects; the join is associative, commutative and idempotent; and
    /// joining again completes what want of memory left.
    ghost laws: { IsJoin same joined partly };

    /// A value is below its join with any other.
    ghost above: { (a b : Self) → IsBelow same joined b (joined a b) } = { λ a b. join_above laws a b };
}
