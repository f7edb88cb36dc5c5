//! Laws of runs that are drawn.

ghost use Rattle.std.specs.Prelude.{ℕ};
ghost use Rattle.recorder.specs.Draw.{DrawnOnce};

use rw_objects::{Machine, ObjectSpace};

/// A number draws one list of stretches of a world: the picks follow from the number, the threads and what they ask.
pub fn drawn_once<M: Machine<S>, S: ObjectSpace>()
    ensures { (steps : ℕ) → DrawnOnce S.meaning M.code steps }
{}
