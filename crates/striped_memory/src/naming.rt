//! What names a shared memory in parts.

use crate::space::StripedMemory;
use block_objects::{MemoryLimits, ObjectValue};
use shared_parts::Opening;
use std::marker::Brand;

impl Opening<StripedMemory, ObjectValue, MemoryLimits> for Brand {
    ghost use Rattle.std.specs.Prelude.{[]};
    ghost use Rattle.block_objects.specs.Objects.{Length};
    ghost use Rattle.rw_objects.specs.Counts.{no_counts};
    ghost use Rattle.rw_objects.specs.Memory.{memory_with};

    ghost named = { record { memory = memory_with (record { initial = 0; capacity = 0; block = 0 }) (λ o. Length 0) no_counts; ledger = 0; lanes = []; threads = 0 } };
}
