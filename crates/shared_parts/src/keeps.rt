//! What is kept for an operation.

ghost use Rattle.std.specs.Prelude.{◌≡◌, ℕ, List, true};
ghost use Rattle.rw_objects.specs.Space.{Fits};
ghost use Rattle.rw_objects.specs.Counts.{is_touched};
ghost use Rattle.rw_objects.specs.declared.touch.Touch.{Touch as TouchValue};
ghost use Rattle.shared_parts.specs.Calls.{memory_after_calls};
ghost use Rattle.shared_parts.specs.Writes.{writes};
ghost use Rattle.shared_parts.specs.Steps.{IsStep};
ghost use Rattle.shared_parts.specs.Eights.{totals_by};

use crate::call::Call;
use crate::chain::{Latest, Reached};
use crate::kept::Written;
use crate::naming::Opening;
use crate::striped::Striped;
use rw_objects::{ObjectSpace, Touches};

/// The parts that an operation touches, each kept for reading or for writing: `KeptParts` for any operation, `OnePart`
/// for one that touches one object.
pub trait Keeps<S: Striped, J: Opening<S, S::Value, S::Fixed>> {
    ghost covers: { Self → List TouchValue → Type 0 };

    ghost here: { Self → (ℕ → S.Value) → Type 0 };

    /// What is kept is what the journal leads to.
    fn meet(&self, written: &Written<S, J>, latest: &Latest<Call<S::Op, S::Reply>, J>)
        requires totals { written.now ≡ totals_by (λ i. writes S.meaning.touches i latest.now) }
        ensures here { here self.now (memory_after_calls S.meaning J.named.memory latest.now).values };

    /// What an operation sees of an object that it touches, whatever the space is of which these are parts.
    fn look(&self, object: u32, op: &S::Op) -> S::Seen
        requires fits { Fits S.meaning J.named.memory.fixed op.now }
        requires touched { is_touched (S.meaning.touches op.now) object ≡ true }
        requires covers { covers self.now (S.meaning.touches op.now) }
        ensures { (values : ℕ → S.Value) → here self.now values → result ≡ S.cut.sight J.named.memory.fixed op.now object (values object) };

    /// Makes what a call that the journal has just got makes of the parts. `before` knows the calls before it.
    fn advance(
        &mut self,
        written: &mut Written<S, J>,
        before: &Reached<Call<S::Op, S::Reply>, J>,
        latest: &Latest<Call<S::Op, S::Reply>, J>,
        touches: &Touches,
        op: &S::Op,
        decision: &S::Decision,
    )
        requires step { IsStep S.meaning S.cut J.named.memory before.now latest.now touches.now op.now decision.now }
        requires totals { written.old ≡ totals_by (λ i. writes S.meaning.touches i before.now) }
        requires covers { covers self.old (S.meaning.touches op.now) }
        requires here { here self.old (memory_after_calls S.meaning J.named.memory before.now).values }
        ensures { written.new ≡ totals_by (λ i. writes S.meaning.touches i latest.now) };
}
