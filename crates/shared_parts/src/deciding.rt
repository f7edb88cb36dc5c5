//! What an operation of one object decides.

ghost use Rattle.std.specs.Prelude.{◌≡◌, ℕ, ◌∷◌, []};
ghost use Rattle.rw_objects.specs.Space.{Fits};
ghost use Rattle.shared_parts.specs.Cut.{decision_at};

use crate::{Keeps, Opening, Striped};
use rw_objects::{ObjectSpace, Touch};

/// What an operation that touches one object decides by what its part holds, whatever the space is of which it is a
/// part. It takes no memory.
pub fn decide_one<S: Striped, J: Opening<S, S::Value, S::Fixed>, K: Keeps<S, J>>(
    kept: &K,
    touch: Touch,
    op: &S::Op,
) -> S::Decision
    requires fits { Fits S.meaning J.named.memory.fixed op.now }
    requires touches { S.meaning.touches op.now ≡ touch ∷ [] }
    requires covers { K.covers kept.now (touch ∷ []) }
    ensures { (values : ℕ → S.Value) → K.here kept.now values → result ≡ decision_at S.meaning S.cut J.named.memory.fixed values op.now }
{
    S::decide_one(op, &kept.look(touch.object, op))
}
