//! The objects that an operation touches.

ghost use Rattle.std.specs.Prelude.{◌≡◌, ◌<◌, ◌≤◌, [], ◌∷◌, ◌++◌, length};

use crate::touch::Touch;
use smallvec::SmallVec;
use std::alloc::Global;
use std::marker::Model;

/// The touches of an operation, at most three. All stand in the value, which takes no memory. Contracts see the list.
#[derive(Debug, Drop)]
pub struct Touches {
    list: SmallVec<Touch, 3>,
}

impl Model for Touches {
    ghost use Rattle.std.specs.Prelude.{◌≡◌, ◌≤◌, List, length};
    ghost use Rattle.rw_objects.specs.declared.touch.Touch.{Touch};

    ghost Value = { List Touch };

    ghost view = { λ t. t.list.items };

    ghost invariant = { λ t. (length t.list.items ≤ 3) × (t.list.capacity ≡ 3) };
}

impl Touches {
    /// No touches.
    pub fn new(alloc: Global) -> Touches
        ensures { result ≡ [] }
    {
        Touches {
            list: SmallVec::new(alloc),
        }
    }

    /// One touch.
    pub fn one(alloc: Global, touch: Touch) -> Touches
        ensures { result ≡ touch ∷ [] }
    {
        let mut touches = Touches::new(alloc);
        touches.push(touch);
        touches
    }

    /// The touches, in order.
    pub fn as_slice(&self) -> &[Touch]
        ensures items { result.now ≡ self.now }
        ensures few { length self.now ≤ 3 }
    {
        self.list.as_slice()
    }

    /// Puts a touch behind the others.
    pub fn push(&mut self, touch: Touch)
        requires { length self.old < 3 }
        ensures { self.new ≡ self.old ++ touch ∷ [] }
    {
        self.list.push_reserved(touch);
    }
}
