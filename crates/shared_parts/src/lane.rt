//! The objects of one part.

ghost use Rattle.std.specs.Prelude.{◌≡◌, ◌<◌, ◌+◌, ◌*◌, ℕ, Some};
ghost use Rattle.rw_objects.specs.Space.{Fits, RisesFrom, mode_at, values_after};
ghost use Rattle.shared_parts.specs.Cut.{AllSound, decision_at};
ghost use Rattle.shared_parts.specs.Parts.{part_values, has_lane, after_touch};

use crate::striped::Striped;
use rw_objects::{Mode, ObjectSpace, Touch, Touches};

/// Whether there is a touch of an object of this part.
pub fn has_lane(lane: u32, touches: &Touches) -> bool
    ensures { result ≡ has_lane lane touches.now }
{
    for touch in touches.as_slice() {
        if touch.object % 8 == lane {
            return true;
        }
    }
    false
}

/// Changes the object of a touch where it is of this part and written.
fn change_touch<S: Striped>(
    part: &mut S::Part,
    lane: u32,
    touch: Touch,
    op: &S::Op,
    decision: &S::Decision,
)
    requires touched { mode_at (S.meaning.touches op.now) touch.object ≡ Some touch.mode }
    requires fits { Fits S.meaning (S.part_fixed part.old) op.now }
    requires lane { S.lane part.old ≡ lane }
    requires low { lane < 8 }
    ensures lane { S.lane part.new ≡ lane }
    ensures fixed { S.part_fixed part.new ≡ S.part_fixed part.old }
    ensures held { (j : ℕ) → S.held part.new j ≡ after_touch (S.cut.changed op.now decision.now) touch (8 * j + lane) (S.held part.old j) }
{
    if touch.object % 8 == lane {
        match touch.mode {
            Mode::Write => S::change(part, touch.object, op, decision),
            Mode::Read => {}
        }
    }
}

/// Changes the objects of one part that an operation writes.
pub fn change_lane<S: Striped>(
    part: &mut S::Part,
    lane: u32,
    touches: &Touches,
    op: &S::Op,
    decision: &S::Decision,
)
    requires touches { touches.now ≡ S.meaning.touches op.now }
    requires rising { RisesFrom 0 touches.now }
    requires fits { Fits S.meaning (S.part_fixed part.old) op.now }
    requires lane { S.lane part.old ≡ lane }
    requires low { lane < 8 }
    ensures lane { S.lane part.new ≡ lane }
    ensures fixed { S.part_fixed part.new ≡ S.part_fixed part.old }
    ensures held { (values : ℕ → S.Value) → S.held part.old ≡ part_values lane values → decision.now ≡ decision_at S.meaning S.cut (S.part_fixed part.old) values op.now → AllSound S.cut (S.part_fixed part.old) values
        → S.held part.new ≡ part_values lane (values_after S.meaning (S.part_fixed part.old) values op.now) }
{
    for touch in touches.as_slice() {
        change_touch::<S>(part, lane, *touch, op, decision);
    }
}
