//! Spaces in eight parts.

ghost use Rattle.std.specs.Prelude.{◌≡◌, ◌%◌, ◌/◌, ◌∷◌, [], ℕ, true, Some, IfOk};
ghost use Rattle.rw_objects.specs.Space.{Fits, mode_at};
ghost use Rattle.rw_objects.specs.Counts.{is_touched};
ghost use Rattle.rw_objects.specs.declared.touch.Mode.TheVariants.{Write};
ghost use Rattle.shared_parts.specs.Cut.{Cut, CutLaws, AllSound};
ghost use Rattle.shared_parts.specs.Parts.{AreParts, AreOfOne, set_at};

use crate::eight::Eight;
use rw_objects::ObjectSpace;
use std::alloc::Global;
use std::boxed::Box;
use wasm_types::NoMemory;

/// A space that can stand in eight parts: object `8 j + i` is item `j` of part `i`. An operation looks at each object
/// that it touches, decides by what it saw, and changes each object that it writes. `cut` says what it sees and
/// decides.
pub trait Striped: ObjectSpace {
    /// What one part holds.
    type Part: Drop;

    /// What an operation sees of an object.
    type Seen: Copy + Default;

    /// What it decides: whether it is ready, its reply, and what becomes of each object that it writes.
    type Decision: Drop;

    ghost cut: { Cut Self.Op Self.Reply Self.Value Self.Fixed Self.Seen Self.Decision };

    ghost lane: { Self.Part → ℕ };

    ghost part_fixed: { Self.Part → Self.Fixed };

    ghost held: { Self.Part → ℕ → Self.Value };

    /// The parts of a space.
    fn split(self, alloc: Global) -> Result<Eight<Box<Self::Part>>, NoMemory>
        ensures parts { IfOk result (λ parts. AreParts lane part_fixed held (Self.fixed self) (Self.values self) parts) }
        ensures sound { AllSound cut (Self.fixed self) (Self.values self) };

    /// The space of which these are the parts, where its objects have values that they can have.
    fn unite(alloc: Global, parts: Eight<Box<Self::Part>>) -> Result<Self, NoMemory>
        requires { AreOfOne cut lane part_fixed held parts }
        ensures { IfOk result (λ s. AreParts lane part_fixed held (Self.fixed s) (Self.values s) parts) };

    /// What an operation sees of an object that it touches. It takes no memory.
    fn look(part: &Self::Part, object: u32, op: &Self::Op) -> Self::Seen
        requires fits { Fits Self.meaning (part_fixed part.now) op.now }
        requires touched { is_touched (Self.meaning.touches op.now) object ≡ true }
        requires lane { lane part.now ≡ object % 8 }
        ensures { result ≡ cut.sight (part_fixed part.now) op.now object (held part.now (object / 8)) };

    /// What an operation decides by what it saw of each object that it touches, in rising order. It takes no memory.
    fn decide(op: &Self::Op, seen: &[Self::Seen]) -> Self::Decision
        ensures { result ≡ cut.decision op.now seen.now };

    /// The same for an operation that touches one object, by what it saw of it.
    fn decide_one(op: &Self::Op, seen: &Self::Seen) -> Self::Decision
        ensures { result ≡ cut.decision op.now (seen.now ∷ []) };

    /// Whether it can be made.
    fn is_ready(decision: &Self::Decision) -> bool
        ensures { result ≡ cut.ready decision.now };

    /// What it answers.
    fn reply(decision: &Self::Decision) -> Self::Reply
        ensures { result ≡ cut.reply decision.now };

    /// Changes an object that it writes. It takes no memory.
    fn change(part: &mut Self::Part, object: u32, op: &Self::Op, decision: &Self::Decision)
        requires fits { Fits Self.meaning (part_fixed part.old) op.now }
        requires written { mode_at (Self.meaning.touches op.now) object ≡ Some Write }
        requires lane { lane part.old ≡ object % 8 }
        ensures lane { lane part.new ≡ lane part.old }
        ensures fixed { part_fixed part.new ≡ part_fixed part.old }
        ensures held { held part.new ≡ set_at (held part.old) (object / 8) (cut.changed op.now decision.now object (held part.old (object / 8))) };

    ghost laws: { CutLaws Self.meaning cut };
}
