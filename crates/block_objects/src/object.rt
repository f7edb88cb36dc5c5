//! The values of a shared memory's objects.

use std::marker::Model;

/// What contracts see of an object of a shared memory: a length in pages, the bytes of a block, or a waiter queue.
pub struct ObjectValue {}

impl Model for ObjectValue {
    ghost use Rattle.block_objects.specs.Objects.{ObjectAt, Length};

    ghost Value = { ObjectAt };

    ghost view = { λ _. Length 0 };
}
